ghost use Rattle.std.specs.Prelude.{◌≡◌};
ghost use Rattle.wf_base.specs.Comparisons.{compares, negated, exchanged};

/// How two ints are compared, as signed numbers (JVMS 6.5, if<cond> and if_icmp<cond>).
#[derive(Clone, Copy, Debug, PartialEq, Eq)]
pub enum Cmp {
    Eq,
    Ne,
    Lt,
    Ge,
    Gt,
    Le,
}

impl Cmp {
    /// Whether it holds of two ints.
    pub fn holds(self, a: i32, b: i32) -> bool
        ensures { result ≡ compares self a b }
    {
        match self {
            Cmp::Eq => a == b,
            Cmp::Ne => a != b,
            Cmp::Lt => a < b,
            Cmp::Ge => a >= b,
            Cmp::Gt => a > b,
            Cmp::Le => a <= b,
        }
    }

    /// The comparison that holds where this one doesn't, as it does on the fall-through of a branch.
    pub fn negated(self) -> Cmp
        ensures { result ≡ negated self }
    {
        match self {
            Cmp::Eq => Cmp::Ne,
            Cmp::Ne => Cmp::Eq,
            Cmp::Lt => Cmp::Ge,
            Cmp::Ge => Cmp::Lt,
            Cmp::Gt => Cmp::Le,
            Cmp::Le => Cmp::Gt,
        }
    }

    /// The comparison that says the same with its operands exchanged, as it is for the second operand of
    /// a branch.
    pub fn exchanged(self) -> Cmp
        ensures { result ≡ exchanged self }
    {
        match self {
            Cmp::Eq => Cmp::Eq,
            Cmp::Ne => Cmp::Ne,
            Cmp::Lt => Cmp::Gt,
            Cmp::Ge => Cmp::Le,
            Cmp::Gt => Cmp::Lt,
            Cmp::Le => Cmp::Ge,
        }
    }
}
