//! Lines of text, the words of a line, and the decimals and members that words are.
#![tactic(auto)]

mod decimals;
mod laws;
mod lines;
mod members;

pub use decimals::{integer_in, natural_in};
pub use laws::{
    decimals_are_read_back, lines_are_read_back, members_are_read_back, words_are_read_back,
};
pub use lines::{is_nothing, line_count, next_line, word_count, words_of};
pub use members::read_member;

#[cfg(test)]
mod tests;
