//! Class files are read exactly: as the class that their bytes spell, or with the first fault of bytes that
//! spell none.
#![tactic(auto)]

mod codes;
mod constants;
mod fault;
mod keys;
mod known;
mod members;
mod pairs;
mod read;
mod reader;
mod texts;
mod write;
mod writer;

pub use fault::SpellFault;
pub use read::{read_class, read_class_file};
pub use write::{write_class, written_and_read};

#[cfg(test)]
mod tests;
