//! The nodes of one body of a method, in the order of their numbers.
#![tactic(auto)]

mod laws;
mod nodes;
mod places;

pub use laws::own_nodes_have_numbers_of_their_own;
pub use nodes::OwnNodes;

#[cfg(test)]
mod tests;
