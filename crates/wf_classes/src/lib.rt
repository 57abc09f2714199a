//! The closed world: the loadable classes of a run, in the order of their names, with the numbers of classes,
//! methods and fields.
#![tactic(auto)]

mod above;
mod classes;
mod closing;
mod fault;
mod gathered;
pub mod heights;
mod kept;
mod laws;
mod links;
mod members;
mod names;
mod own;
mod path;
mod table;
mod waits;

pub use above::{Above, add_direct};
pub use classes::{ClassHeights, Classes, close_world};
pub use fault::CloseFault;
pub use gathered::GatheredClasses;
pub use laws::{classes_above_are_ordered, classes_are_within_their_bytes};
pub use members::MemberPlace;
pub use own::{
    DeclaredField, DeclaredMethod, OwnField, OwnMethod, declared_field, declared_method, own_field,
    own_method,
};
pub use path::matches_path;
