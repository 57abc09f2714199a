//! What one line of a listing says.

mod constants;
mod heads;
mod instructions;
mod line;
mod members;
mod operands;
mod switches;
mod words;

pub use line::line_said;
