/// What a node of a flow system holds.
#[derive(Clone, Copy, Debug, PartialEq, Eq)]
pub enum NodeKind {
    /// A token, which is set or isn't: something happens.
    Token,
    /// Ints: nothing, one constant, or any.
    Int,
    /// Longs, of which only is known whether one flows.
    Long,
    /// References: types and null.
    Refs,
    /// The types that are made.
    Inst,
    /// The candidates of a call, by their numbers.
    Links,
}
