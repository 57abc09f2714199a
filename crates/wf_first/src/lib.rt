//! The analysis of the first, small form of input: which classes are of it, the root and the calls of a
//! program, the nodes and rows of its flow system, their least solution, and the world of that.
#![tactic(auto)]

mod calls;
mod code;
mod form;
mod laws;
mod least;
mod limits;
mod member_text;
mod nodes;
mod program;
mod rows;
mod solver;

pub use calls::calls_are_known;
pub use form::is_first_form;
pub use laws::rows_are_the_table;
pub use least::least_world;
pub use program::{Program, has_object, is_within_limits, only_line, root_in};
