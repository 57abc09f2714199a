//! What is known before each place of a method: whether a path reaches it, and the kind of each slot there.
#![tactic(auto)]

mod back;
mod blocks;
mod body;
mod counts;
mod first;
mod laws;
mod marks;
mod method;
mod places;
mod rows;
mod seen;
mod step;
mod walk;
mod ways;

pub use blocks::{Blocks, ShapeFault, shape_of};
pub use body::{Body, Catcher, Step, caught_by, covers, operation_at, targets_at};
pub use laws::{depths_agree, joined_kinds_came, wants_are_met, ways_lead_on};

#[cfg(test)]
mod tests;
