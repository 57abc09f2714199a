//! What each instruction does in the analysis, by what it names and what that resolves to.
#![tactic(auto)]

mod action;
mod arrays;
mod calls;
mod fields;
mod instruction;
mod literals;
mod named;
mod operands;
mod tests_of_types;

pub use action::action_of;
pub use instruction::Instruction;
