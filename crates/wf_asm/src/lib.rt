//! The classes that listings say, assembled, and a generator of large programs.
#![tactic(auto)]

mod assembler;
mod build;
mod code;
mod emit;
mod fault;
mod generator;
mod labels;
mod laws;
mod pool;
mod uses;

pub use assembler::assemble;
pub use fault::AsmFault;
pub use generator::make_program;
pub use laws::sizes_are_lengths;

#[cfg(test)]
mod tests;
