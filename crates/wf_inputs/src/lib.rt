//! Summaries, which say what native and replaced methods do, and lists of roots: their types, and their line grammars
//! read and printed.
#![tactic(auto)]

mod fault;
mod laws;
mod print;
mod read;
mod roots;
mod said;
mod summary;

pub use fault::InputFault;
pub use laws::inputs_are_read_back;
pub use print::{print_roots, print_summary};
pub use read::{read_roots, read_summary};
pub use roots::{RootLine, Roots};
pub use summary::{Block, Effect, EffectLine, Literal, Summary, Value};

#[cfg(test)]
mod tests;
