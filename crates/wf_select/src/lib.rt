//! The method that runs where one is called (JVMS 6.5): selected from the class of the receiver upwards.
#![tactic(auto)]

mod invokespecial;
mod laws;
mod of_type;
mod outcome;
mod overriding;
mod package;
mod receiver;

pub use invokespecial::special;
pub use laws::calls_run_one;
pub use of_type::select_of_type;
pub use outcome::{Invoke, Selected};
pub use receiver::select;
