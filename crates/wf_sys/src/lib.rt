//! Flow systems: inequalities over nodes, their least solution, and the system and the world of a program.
#![tactic(auto)]

mod flow;
mod inequality;
mod laws;

pub use flow::Flow;
pub use inequality::{Guard, Inequality, ValueOp};
pub use laws::{
    join_is_least, least_is_one, systems_are_monotone, tests_decide, values_are_ordered,
    world_is_one,
};

#[cfg(test)]
mod tests;
