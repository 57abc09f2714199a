ghost use Rattle.std.specs.Prelude.{◌≡◌, ◌<◌, ◌≤◌, ◌++◌, ◌⊎◌, ℕ, List, Option, Some, Ok, length, take, IfOk, OnErr};
ghost use Rattle.wf_io.specs.Faults.{Rose};

/// Why a sink takes nothing.
#[derive(Clone, Copy, Debug, PartialEq, Eq)]
pub enum SinkFault {
    /// The outside failed; the sink has counted it.
    Failed,
}

/// A sink for bytes. It may tell the bytes that it has taken; a real file or terminal tells nothing.
/// Beside them it tells how many writes have failed.
pub trait Sink {
    /// The bytes taken, where they are told.
    ghost taken: { Self → Option (List ℕ) };

    /// How many writes have failed, up to the greatest number of 64 bits.
    ghost count: { Self → ℕ };

    /// Whether an empty piece may be handed to it. Of a sink that is known as such alone nobody knows it, so code for
    /// any sink writes no empty piece.
    ghost takes_empty: { Self → Type 0 };

    /// Takes the first bytes of the piece, at least one, and answers how many. Of an empty piece it takes
    /// nothing and answers 0. A failed write takes nothing.
    fn write(&mut self, piece: &[u8]) -> Result<usize, SinkFault>
        requires { (0 < length piece.now) ⊎ takes_empty self.old }
        ensures took { (had : List ℕ) → taken self.old ≡ Some had →
            IfOk result (λ n. taken self.new ≡ Some (had ++ take n piece.now)) }
        ensures some { 0 < length piece.now → IfOk result (λ n. 0 < n) }
        ensures within { IfOk result (λ n. n ≤ length piece.now) }
        ensures nothing { length piece.now ≡ 0 → result ≡ Ok 0 }
        ensures rose { OnErr result (Rose (count self.old) (count self.new)) }
        ensures err { OnErr result (taken self.new ≡ taken self.old) }
        ensures grows { count self.old ≤ count self.new };

    /// How many writes have failed.
    fn faults(&self) -> u64
        ensures { result ≡ count self.now };
}
