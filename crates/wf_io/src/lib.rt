//! The outside: a tree of files to read and a sink for bytes, as traits that say what an honest one does,
//! with one of each in memory, and the adapters over real files.
#![tactic(auto)]

mod calls;
mod entries;
mod failing;
mod log;
mod sink;
mod sink_mem;
mod std_sink;
mod std_tree;
#[cfg(test)]
mod tests;
mod tree;
mod tree_mem;

pub use calls::Calls;
pub use entries::sorted;
pub use sink::{Sink, SinkFault};
pub use sink_mem::SinkMem;
pub use std_sink::StdSink;
pub use std_tree::StdTree;
pub use tree::{Entry, MemFile, Tree, TreeFault};
pub use tree_mem::TreeMem;
