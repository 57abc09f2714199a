//! Where the value of each slot in front of each place of a method comes from: one name for each used slot, and one for
//! by what the place is reached.
#![tactic(auto)]

mod before;
mod env;
mod fill;
mod laws;
mod marks;
mod name;
mod rename;
mod walk;

pub use env::{Env, environments};
pub use laws::{environments_agree, reached_are_known, results_are_fresh, used_slots_have_flows};
pub use name::FlowName;
pub use rename::{linked, operand_slot, refines};
pub use walk::pc_at;

#[cfg(test)]
mod tests;
