//! The system that a value is of, and the words that it began with, which only contracts read.

ghost use Rattle.std.specs.Prelude.{◌≡◌, List, ℕ};
ghost use Rattle.std.specs.Borrow.{ftrue};
ghost use Rattle.wf_system.specs.Bodies.{System};

use crate::bodies::Bodies;
use std::marker::{Model, PhantomData};
use wf_base::Items;

/// A system as a value keeps it: it has no bytes, and `of` reads it off the bodies.
#[derive(Drop)]
pub struct Meaning {
    marker: PhantomData<()>,
    pub ghost system: { System },
}

impl Model for Meaning {
    ghost also_owns = { λ _. ftrue };
}

impl Meaning {
    /// The system of some bodies.
    pub fn of<B: Bodies>(bodies: &B) -> Meaning
        ensures { result.system ≡ B.system bodies.now }
    {
        let _ = bodies;
        Meaning {
            marker: PhantomData,
        }
    }
}

/// The words that a value began with: it has no bytes, and `of` reads it off the words.
#[derive(Drop)]
pub struct Start {
    marker: PhantomData<()>,
    pub ghost words: { List ℕ },
}

impl Model for Start {
    ghost also_owns = { λ _. ftrue };
}

impl Start {
    /// The words as they are now.
    pub fn of(words: &Items<u64>) -> Start
        ensures { result.words ≡ words.now }
    {
        let _ = words;
        Start {
            marker: PhantomData,
        }
    }
}
