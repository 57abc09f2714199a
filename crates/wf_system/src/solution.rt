ghost use Rattle.std.specs.Prelude.{◌≡◌};
ghost use Rattle.wf_system.specs.Bodies.{IsSolved, solved_of};

use crate::meaning::{Meaning, Start};
use std::marker::Model;
use wf_base::Items;

/// Words that stand for the least solution of a system that is at least the words that it began with. A
/// contract sees the words, the system and those words.
#[derive(Drop)]
pub struct Solution {
    words: Items<u64>,
    meaning: Meaning,
    start: Start,
}

impl Model for Solution {
    ghost use Rattle.wf_system.specs.Bodies.{Solved, IsSolved, solved_of};

    ghost Value = { Solved };

    ghost view = { λ s. solved_of s.meaning.system s.start.words s.words };

    ghost invariant = { λ s. IsSolved s.meaning.system s.start.words s.words };
}

impl Solution {
    /// The solution that some words are.
    pub fn of_words(words: Items<u64>, meaning: Meaning, start: Start) -> Solution
        requires { IsSolved meaning.system start.words words }
        ensures { result ≡ solved_of meaning.system start.words words }
    {
        Solution {
            words,
            meaning,
            start,
        }
    }

    /// The words.
    pub fn words(&self) -> &[u64]
        ensures words { result.now ≡ self.now.words }
        ensures solved { IsSolved self.now.system self.now.start self.now.words }
    {
        self.words.as_slice()
    }
}
