//! Names of classes and members, the form in which they are printed, and what is said by names: roots, worlds,
//! and the limits and faults of inputs.
#![tactic(auto)]

mod input;
mod limit;
mod member;
mod name_form;
mod names;
mod root;
mod world;

pub use input::InputWhy;
pub use limit::Limit;
pub use member::{MemberName, MemberRef};
pub use name_form::{hex_digit, is_plain, member_text, name_text, names_are_read_back, read_name};
pub use names::{
    is_class_name, is_constructor_name, is_field_name, is_forbidden, is_initializer_name,
    is_method_name, is_object_name,
};
pub use root::Root;
pub use world::{LinkError, Unresolved, World};

#[cfg(test)]
mod tests;
