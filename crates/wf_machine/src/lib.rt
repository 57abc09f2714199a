//! The written machine of the Java Virtual Machine (JVMS, SE 8): what a state is, what a step does, what an execution
//! is, as definitions, and the pieces of it that are worked out: the arithmetic of ints and longs.
#![tactic(auto)]

mod ints;
mod laws;
mod longs;

pub use ints::{OpResult, int_op};
pub use laws::{
    arithmetic_is_exact, calls_return_or_throw, classes_are_initialized, classes_fail,
    errors_are_thrown, executions_do_things, families_are_worked_out,
    natives_do_what_the_summary_says, numbers_are_worked_out, objects_are_used,
    pieces_are_of_the_machine, roots_are_started,
};
pub use longs::{LongResult, long_op};

#[cfg(test)]
mod tests;
