use wf_base::MethodId;
use wf_data::{Instr, PoolEntry};
use wf_operation::Operation;

/// An instruction at its place.
#[derive(Clone, Copy)]
pub struct Instruction<'a> {
    /// The constant pool of its class.
    pub pool: &'a [PoolEntry],
    pub instr: &'a Instr,
    /// What it does with slots.
    pub operation: &'a Operation,
    /// The number of its call site, where it is one.
    pub site: u32,
    /// The candidates of the site, ascending.
    pub candidates: &'a [MethodId],
}
