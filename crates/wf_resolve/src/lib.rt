//! What a name of a field or a method means in a class (JVMS 5.4.3): the member that it names, or the one error.
#![tactic(auto)]

mod fields;
mod instructions;
mod laws;
mod methods;
mod resolve;
mod superinterfaces;
mod upward;

pub use fields::{FoundField, Sought, field_of, reaching};
pub use instructions::{
    Calling, field_for, is_plain_at, is_plain_class, method_for, new_class, text_links,
};
pub use laws::names_mean_one;
pub use methods::{method_of_class, method_of_interface, method_of_object};
pub use resolve::{
    class_with, field, interface_method, is_array_name, is_interface_at, is_loadable_array, method,
};
pub use superinterfaces::{Defaults, Inherited, from_interfaces};
pub use upward::{Wanted, first_up, offered, superclass_below};
