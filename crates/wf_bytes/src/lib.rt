//! Reading bytes: a cursor, why bytes spell nothing, the pieces that a grammar of bytes is made of, and the
//! functions on lists that read them, with the laws that tie the two.
#![tactic(auto)]

mod cursor;
mod fault;

pub use cursor::Cursor;
pub use fault::Why;

#[cfg(test)]
mod tests;
