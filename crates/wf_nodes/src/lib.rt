//! The nodes that the bodies of a program share, and their numbers; and the types of what the machine throws.
#![tactic(auto)]

mod arrays;
mod fields;
mod laws;
mod methods;
mod shared;
mod thrown;

pub use laws::shared_nodes_have_numbers_of_their_own;
pub use shared::{SharedNodes, shared_nodes};
pub use thrown::{Thrown, thrown_types};
