ghost use Rattle.std.specs.Prelude.{◌≡◌, ◌+◌, ◌*◌, ◌<◌, length};
ghost use Rattle.wf_lattice.specs.Words.{words_of, is_empty};
ghost use Rattle.wf_lattice.specs.Order.{is_saturated};
ghost use Rattle.wf_lattice.specs.Meaning.{means, means_null};

use crate::words;
use wf_base::TypeId;

/// What a filter does with null.
#[derive(Clone, Copy, Debug, PartialEq, Eq)]
pub enum Nulls {
    /// Null stays where the meaning has it.
    Keep,
    /// Null goes.
    Drop,
    /// Null stays alone, without any type.
    Only,
}

/// A value of references: bit 0 of word 0 says that it is saturated, and bit t + 1 is type t, so that null
/// is bit 1. A value with more than `threshold` types beside null is saturated too.
#[derive(Clone, Copy, Debug)]
pub struct RefView<'a> {
    pub words: &'a [u64],
    pub threshold: u32,
}

impl<'a> RefView<'a> {
    /// The value of some words.
    pub fn new(words: &'a [u64], threshold: u32) -> RefView<'a>
        ensures words { result.words.now ≡ words.now }
        ensures threshold { result.threshold ≡ threshold }
    {
        RefView { words, threshold }
    }

    /// Whether nothing flows: no bit is set.
    pub fn is_empty(self) -> bool
        ensures { result ≡ is_empty (length self.entry.words.now) (words_of self.entry.words.now) }
    {
        words::none_set(self.words)
    }

    /// Whether it means every type that is made, and null.
    pub fn is_saturated(self) -> bool
        ensures { result ≡ is_saturated self.entry.threshold (length self.entry.words.now) (words_of self.entry.words.now) }
    {
        words::bit(self.words, 0) || words::has_more_types(self.words, self.threshold)
    }

    /// Whether its meaning has null.
    pub fn means_null(self) -> bool
        ensures { result ≡ means_null self.entry.threshold (length self.entry.words.now) (words_of self.entry.words.now) }
    {
        self.is_saturated() || words::bit(self.words, 1)
    }

    /// Whether its meaning has the type, or null for type 0, where `inst` has the types that are made.
    pub fn holds(self, t: TypeId, inst: RefView) -> bool
        ensures { result ≡ means self.entry.threshold (length self.entry.words.now) (words_of self.entry.words.now) (words_of inst.entry.words.now) t.0 }
    {
        if t.0 == 0 {
            return self.means_null();
        }
        let place = t.0 as usize + 1;
        (self.is_saturated() || words::bit(self.words, place)) && words::bit(inst.words, place)
    }
}
