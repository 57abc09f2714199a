//! What the instructions of a method do, where its resolutions fail, and what its handlers catch.
#![tactic(auto)]

mod acts;
mod failing;
mod handlers;
mod parts;
mod reading;
mod source;

pub use failing::act_at;
pub use parts::Parts;
pub use reading::{Reading, read_method};
pub use source::Source;
