//! The report of a world, written and read.
#![tactic(auto)]

mod fault;
mod laws;
mod lines;
mod names;
mod read;
mod said;
mod write;

pub use fault::WorldFault;
pub use laws::reports_are_read_back;
pub use read::read_world;
pub use write::write_world;

#[cfg(test)]
mod tests;
