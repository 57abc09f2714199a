//! The candidates of each call site: the methods that run there for a receiver of some type.
#![tactic(auto)]

mod callee;
mod calls;
mod candidates;
mod linked;
mod picking;
mod sharing;
mod site;

pub use callee::{Callee, Selection};
pub use calls::links_of;
pub use linked::Links;
pub use site::is_site;
