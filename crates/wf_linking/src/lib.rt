//! What the instruction at a place resolves to (JVMS 5.4.3, 6.5): a class, a field, a method, or the one error with
//! which the place fails to link.
#![tactic(auto)]

mod laws;
mod linked;
mod symbolic;

pub use laws::references_resolve_to_one;
pub use linked::{Linked, LinkedField, LinkedMethod, link, resolve};
pub use symbolic::{SymbolicRef, symbolic_of};
