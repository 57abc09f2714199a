//! What each run asks of a tree, whatever it makes of the classes: the walk of a directory, and the bytes of a file.
#![tactic(auto)]

mod file;
mod limits;
#[cfg(test)]
mod tests;
mod walk;

pub use file::{File, read_file};
pub use limits::{MAX_BYTES, MAX_DEPTH, MAX_ENTRIES, MAX_FILE_BYTES, MAX_FILES};
pub use walk::{path_in, walk_from};
