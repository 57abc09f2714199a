//! What the machine looks up of a program: each look-up told by the definition that it is of. There are definitions and their
//! laws here, and no code.
#![tactic(auto)]

mod laws;

pub use laws::{
    a_world_stands, an_execution_stands, init_order_is_the_machines, look_ups_are_single,
};
