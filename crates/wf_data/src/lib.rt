//! Class files and instructions as plain data, and what methods are refused for.
#![tactic(auto)]

mod class_info;
mod flags;
mod instr;
mod what;

pub use class_info::{ClassInfo, CodeInfo, FieldInfo, Handler, MethodInfo, PoolEntry};
pub use flags::{
    is_abstract, is_interface, is_native, is_native_or_abstract, is_private, is_protected,
    is_public, is_static,
};
pub use instr::{Case, Instr, Placed};
pub use what::What;

#[cfg(test)]
mod tests;
