//! The types of a run: the classes that have objects and the arrays that are made, by their names.
#![tactic(auto)]

mod laws;
mod reference;
mod rows;
mod types;
mod universe;

pub use laws::{names_have_one_reference, subtypes_are_ordered, targets_have_numbers_of_their_own};
pub use reference::{Inner, Reference, component_of, reference_of};
pub use types::{Types, types_of};
pub use universe::{array_name, letter_of, operand_name, type_names};

#[cfg(test)]
mod tests;
