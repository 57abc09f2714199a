//! What an instruction does (JVMS 6.5), as far as its opcode and the constant pool say: which slots it reads
//! and of which kind, where each slot comes from afterwards, where it leads, and what is left of its operands
//! there. Nothing is resolved here.
#![tactic(auto)]

mod effect;
mod next;
mod operation;
mod pool;
mod signature;
mod slot;
mod sort;
mod stack;

pub use effect::{Effect, locals_used, put, slots_after, source_at, taken, wanted, width_of};
pub use next::{Left, Next, Test, edge_count, left_of, target};
pub use operation::{Link, Operation, gives_value, link_of, operation_of};
pub use pool::{field_desc_at, is_followed, method_desc_at};
pub use signature::{Scan, Signature, signature_of};
pub use slot::{SlotKind, Source, Wanted, allows, moved, slots_of};
pub use sort::{
    Arithmetic, Call, Element, Equality, Narrow, Shift, Shuffle, Sort, kind_of_element, sort_of,
};
pub use stack::place_of;

#[cfg(test)]
mod tests;
