ghost use Rattle.std.specs.Prelude.{◌≡◌, ◌↔◌, IsTrue};
ghost use Rattle.wf_sys.specs.Values.{◌⊑◌, is_below, join, is_empty};

/// The value of a flow, after the value lattice of SkipFlow (CGO 2025). `Empty` is the least value of
/// every kind of flow, and `Any` the greatest.
#[derive(Clone, Copy, Debug, PartialEq, Eq)]
pub enum Flow {
    Empty,
    /// A token that is set: something happens.
    Set,
    /// An int that is this constant.
    Is(i32),
    /// Any int.
    Any,
}

impl Flow {
    /// Whether nothing flows.
    pub fn is_empty(self) -> bool
        ensures { result ≡ is_empty self }
    {
        matches!(self, Flow::Empty)
    }

    /// Whether the other value is at least this one.
    pub fn is_below(self, other: Flow) -> bool
        ensures { result ≡ is_below self other }
    {
        match self {
            Flow::Empty => true,
            Flow::Set => matches!(other, Flow::Set | Flow::Any),
            Flow::Is(c) => match other {
                Flow::Is(d) => c == d,
                Flow::Any => true,
                _ => false,
            },
            Flow::Any => matches!(other, Flow::Any),
        }
    }

    /// The least value that is at least both.
    pub fn join(self, other: Flow) -> Flow
        ensures { result ≡ join self other }
    {
        if self.is_below(other) {
            return other;
        }
        if other.is_below(self) {
            return self;
        }
        Flow::Any
    }
}
