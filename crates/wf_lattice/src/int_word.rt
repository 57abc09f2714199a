ghost use Rattle.std.specs.Prelude.{◌≡◌, ◌^◌, ◌-◌, bit_or, IsTrue};
ghost use Rattle.std.specs.List.{list_any};
ghost use Rattle.std.specs.Ordering.{int_eq};
ghost use Rattle.wf_lattice.specs.Ints.{constant_word, int_value, join_of, refined, not_among, refined_word, not_among_word, IsSettled};

use wf_base::Cmp;

/// What a word says of an int that flows.
#[derive(Clone, Copy, Debug, PartialEq, Eq)]
pub enum IntValue {
    /// No int flows.
    Empty,
    /// One constant flows.
    Is(i32),
    /// Any int may flow.
    Any,
}

/// The value of an int node in one word: a constant has itself in the low half and its complement in the
/// high half, and a word with a position set in both halves is any. So values are joined by an OR. A word
/// that a writer has raised in part has a position that is set in no half, and counts as empty.
#[derive(Clone, Copy, Debug, PartialEq, Eq)]
pub struct IntWord(pub u64);

impl IntWord {
    /// The word of a constant.
    pub fn of(value: i32) -> IntWord
        ensures word { result.0 ≡ constant_word value }
        ensures value { int_value result.0 ≡ IntValue.Is value }
        ensures settled { IsSettled result.0 }
    {
        let low = value.cast_unsigned();
        IntWord(!low as u64 * 0x1_0000_0000 + low as u64)
    }

    /// The word of no int.
    pub fn empty() -> IntWord
        ensures word { result.0 ≡ 0 }
        ensures value { int_value result.0 ≡ IntValue.Empty }
        ensures settled { IsSettled result.0 }
    {
        IntWord(0)
    }

    /// The word of any int, with all bits.
    pub fn any() -> IntWord
        ensures word { result.0 ≡ 2 ^ 64 - 1 }
        ensures value { int_value result.0 ≡ IntValue.Any }
        ensures settled { IsSettled result.0 }
    {
        IntWord(u64::MAX)
    }

    /// The least word that is at least both, which is their OR.
    pub fn join(self, other: IntWord) -> IntWord
        requires left { IsSettled self.0 }
        requires right { IsSettled other.0 }
        ensures word { result.0 ≡ bit_or self.0 other.0 }
        ensures value { int_value result.0 ≡ join_of (int_value self.0) (int_value other.0) }
        ensures settled { IsSettled result.0 }
    {
        let left = self.0;
        let right = other.0;
        IntWord(left | right)
    }

    /// What the word says.
    pub fn value(self) -> IntValue
        ensures { result ≡ int_value self.0 }
    {
        let low = (self.0 & 0xFFFF_FFFF) as u32;
        let high = (self.0 >> 32) as u32;
        if low & high != 0 {
            return IntValue::Any;
        }
        if low | high == u32::MAX {
            return IntValue::Is(low.cast_signed());
        }
        IntValue::Empty
    }

    /// What is left of this value where it compares so with the other: nothing where one of the two is
    /// empty, this constant where it compares so with the other one, the other constant where this is any
    /// and the comparison says equal, else all of it.
    pub fn refine(self, cmp: Cmp, other: IntWord) -> IntWord
        ensures word { result.0 ≡ refined_word cmp self.0 other.0 }
        ensures value { int_value result.0 ≡ refined cmp (int_value self.0) (int_value other.0) }
        ensures settled { IsSettled result.0 }
    {
        match (self.value(), other.value()) {
            (IntValue::Empty, _) => IntWord::empty(),
            (_, IntValue::Empty) => IntWord::empty(),
            (IntValue::Is(a), IntValue::Is(b)) => {
                if cmp.holds(a, b) {
                    IntWord::of(a)
                } else {
                    IntWord::empty()
                }
            }
            (IntValue::Is(a), IntValue::Any) => IntWord::of(a),
            (IntValue::Any, IntValue::Is(b)) => match cmp {
                Cmp::Eq => IntWord::of(b),
                _ => IntWord::any(),
            },
            (IntValue::Any, IntValue::Any) => IntWord::any(),
        }
    }

    /// What is left of this value where it is none of the keys: nothing of a constant among them, else all
    /// of it.
    pub fn not_in(self, keys: &[i32]) -> IntWord
        ensures word { result.0 ≡ not_among_word keys.now self.0 }
        ensures value { int_value result.0 ≡ not_among keys.now (int_value self.0) }
        ensures settled { IsSettled result.0 }
    {
        match self.value() {
            IntValue::Empty => IntWord::empty(),
            IntValue::Is(a) => {
                if is_among(keys, a) {
                    IntWord::empty()
                } else {
                    IntWord::of(a)
                }
            }
            IntValue::Any => IntWord::any(),
        }
    }
}

/// Whether a key is this int.
fn is_among(keys: &[i32], int: i32) -> bool
    ensures { result ≡ list_any (int_eq int) keys.now }
{
    keys.iter().any(|key| int == *key)
}
