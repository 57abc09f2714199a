//! Systems of inequalities over nodes, whose values are rows of words: what an inequality says, which
//! solution is least, and how one inequality is evaluated word by word.
#![tactic(auto)]

mod bodies;
mod fit;
mod inequality;
mod kept;
mod laws;
mod meaning;
mod node_shape;
mod pick;
mod shape;
mod shaped;
mod side;
mod solution;

pub use bodies::{Bodies, Readers, Seed};
pub use fit::fits;
pub use inequality::{Guard, Inequality, ValueOp};
pub use kept::KeptSystem;
pub use laws::{
    alike_assignments_agree, guards_and_values_grow, least_is_one, numbers_stand_for_names,
    rows_are_met_by_members,
};
pub use meaning::{Meaning, Start};
pub use node_shape::NodeShape;
pub use pick::Pick;
pub use shape::{Shape, are_laid_out};
pub use shaped::{are_shaped, system_fits};
pub use side::{Side, have_tables};
pub use solution::Solution;

#[cfg(test)]
mod tests;
