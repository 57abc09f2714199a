//! The code of a method is read as a list of instructions (JVMS 4.9.1, 6.5), each in its long form.
#![tactic(auto)]

mod code;
mod fault;
mod form;
mod reader;

pub use code::{a_code_is_read_in_one_way, decode, padding_reaches_the_next_multiple_of_four};
pub use fault::DecodeFault;
pub use form::{Form, Row, long_forms_are_refused_alike, refused_as, row_of};
pub use reader::is_widened;

#[cfg(test)]
mod tests;
