//! Descriptors of fields and methods (JVMS 4.3), read exactly.
#![tactic(auto)]

mod descriptor;
mod laws;
mod machine;
mod reader;

pub use descriptor::{DescFault, FieldDesc, MethodDesc};
pub use laws::{one_descriptor, tests_are_the_grammar};
pub use machine::{is_field_descriptor, is_method_descriptor, kind_of};
pub use reader::{read_descriptor, read_field_descriptor};

#[cfg(test)]
mod tests;
