use wf_base::{Cmp, TargetId, TypeId};

/// When an inequality holds. `N` names nodes.
#[derive(Clone, Copy, Debug, PartialEq, Eq)]
pub enum Guard<N> {
    Always,
    /// The node's value isn't empty.
    NonEmpty(N),
    /// The type is made.
    HasType(TypeId),
    /// Some type under the class is made.
    HasUnder(TargetId),
    /// The candidate, by its number at the call, is in the node.
    Linked(N, u32),
}

/// What an inequality joins into its target.
#[derive(Clone, Copy, Debug, PartialEq, Eq)]
pub enum ValueOp<N> {
    /// A token that is set.
    Token,
    /// An int constant.
    IntIs(i32),
    /// Any int.
    AnyInt,
    /// A long.
    AnyLong,
    /// Null.
    NullRef,
    /// A type; into a node of references only where it is made.
    OneType(TypeId),
    /// The value of a node.
    Copy(N),
    /// What is left of an int where it compares so with another.
    IntRefine(Cmp, N, N),
    /// What is left of an int where it compares so with a constant.
    IntRefineBy(Cmp, N, i32),
    /// What is left of an int that is none of the keys of a list, by the list's number.
    NotIn(N, u32),
    /// What is left of a reference that is the other one.
    RefEq(N, N),
    /// What is left of a reference that isn't the other one.
    RefNe(N, N),
    /// Null, where the reference may be null.
    OnlyNull(N),
    /// The reference without null.
    NoNull(N),
    /// The reference's types under a class, and null.
    Under(N, TargetId),
    /// The types that are made under a class.
    AllUnder(TargetId),
    /// The same, and null.
    SomeUnder(TargetId),
    /// The types of a receiver that pick the candidate at a site.
    Picked(N, u32, u32),
    /// The candidates that the types of a receiver pick at a site.
    Picks(N, u32),
    /// The int of `instanceof`.
    Tested(N, TargetId),
    /// The elements of the array types of a reference.
    ElementsOf(N),
    /// Where the first reference may have the type, the second one's types under the class, and null.
    IfHolds(N, TypeId, N, TargetId),
    /// The int 0, where the reference may be null.
    IfNull(N),
}

/// Where the guard holds, the target is at least the value.
#[derive(Clone, Copy, Debug, PartialEq, Eq)]
pub struct Inequality<N> {
    pub target: N,
    pub guard: Guard<N>,
    pub value: ValueOp<N>,
}
