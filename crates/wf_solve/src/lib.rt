//! The one-thread solver: from words and a list of nodes to the least solution above the words.
#![tactic(auto)]

mod solver;
mod steps;
mod worklist;

pub use solver::{solution, solve, solve_all};
pub use steps::Steps;
pub use worklist::Worklist;

#[cfg(test)]
mod tests;
