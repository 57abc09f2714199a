/// Where a value comes from, by a name of the method's own.
#[derive(Clone, Copy, Debug, PartialEq, Eq)]
pub enum FlowName {
    /// Of a place behind an instruction whose resolution fails, nothing.
    Nothing,
    /// The method is entered.
    Entry,
    /// A parameter. The receiver is parameter 0 where there is one.
    Par(u16),
    /// What the instruction at a place gives, or that the call there returned.
    Res(u16),
    /// What is left of an operand of the instruction at a place along one of its edges.
    Refined { pc: u16, edge: u32, operand: u8 },
    /// A place is reached to which several ways lead, or that is a handler.
    Blk(u16),
    /// What a slot holds at such a place.
    Phi { pc: u16, slot: u32 },
    /// What a handler catches by an entry of the exception table.
    Cat(u16),
}
