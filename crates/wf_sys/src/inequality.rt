/// When an inequality holds. `N` names nodes.
#[derive(Clone, Copy, Debug)]
pub enum Guard<N> {
    Always,
    /// The node's value isn't empty.
    NonEmpty(N),
}

/// What an inequality joins into its target.
#[derive(Clone, Copy, Debug)]
pub enum ValueOp<N> {
    /// A token that is set.
    Token,
    /// An int constant.
    IntIs(i32),
    /// The value of a node.
    Copy(N),
}

/// Where the guard holds, the target is at least the value.
#[derive(Clone, Copy, Debug)]
pub struct Inequality<N> {
    pub target: N,
    pub guard: Guard<N>,
    pub value: ValueOp<N>,
}
