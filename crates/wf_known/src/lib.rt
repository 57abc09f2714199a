//! What is known in front of each place of a method, by the nodes of the flow system. A walk over the code takes it from
//! the place before wherever no other way leads on, so that it takes no time for walks back.
#![tactic(auto)]

mod along;
mod front;
mod known;
mod next;
mod node;
mod reached;

pub use along::front_along;
pub use front::Front;
pub use next::next_front;
pub use node::{node_of, nodes_of};
pub use reached::{front_at, reached_front};

#[cfg(test)]
mod tests;
