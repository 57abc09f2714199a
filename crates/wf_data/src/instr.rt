use wf_base::Items;

/// An instruction in its long form (JVMS 6.5). What `a` and `b` hold depends on the opcode: a local, a
/// constant, a place in the pool, or the place in the code that a jump leads to.
#[derive(Debug, Drop)]
pub struct Instr {
    /// The opcode of the long form.
    pub op: u8,
    pub a: i32,
    pub b: i32,
    /// The cases of a switch, in the order of the code. No other instruction has any.
    pub cases: Items<Case>,
}

/// A case of a switch.
#[derive(Clone, Copy, Debug, PartialEq, Eq)]
pub struct Case {
    pub key: i32,
    /// The place in the code to which it leads.
    pub target: u16,
}

/// An instruction at its place, in bytes from the start of the code.
#[derive(Debug, Drop)]
pub struct Placed {
    pub pc: u16,
    pub instr: Instr,
}
