//! What a method is refused for where it is entered and the summary says nothing of it: floats, threads,
//! reflection and all else that the analysis leaves out.
#![tactic(auto)]

mod body;
mod instruction;
mod name;

pub use body::{BodyFault, a_body_is_refused_for_one_thing, read_body};
pub use instruction::{Refusal, first_refusal, instruction_refusal};
pub use name::listed_refusal;

#[cfg(test)]
mod tests;
