//! The flow system of every method: bodies to inequalities.
#![tactic(auto)]

mod context;
mod covered;
mod edges;
mod entry;
mod fault;
mod laws;
mod own;
mod places;
mod rows;
mod system;

pub use context::BodyContext;
pub use fault::MethodFault;
pub use laws::{
    nodes_have_numbers_of_their_own, nodes_that_are_there_have_numbers,
    systems_have_the_rows_of_bodies,
};
pub use own::own_nodes;
pub use rows::push_body;
pub use system::{MethodSystem, system_of};
