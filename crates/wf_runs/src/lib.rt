//! Runs: what is asked of a tree of files, in which order, and what comes of its answers, stated once as a tree
//! of calls; and the faults with which a run ends.
#![tactic(auto)]

mod fault;
#[cfg(test)]
mod tests;

pub use fault::{Line, Refusal, RunFault, fault_at};
