ghost use Rattle.std.specs.Prelude.{◌≡◌, ◌++◌, ◌∷◌, [], not, IfOk, OnErr, if◌then◌else◌};
ghost use Rattle.std.specs.List.{list_any};
ghost use Rattle.wf_classfile.specs.InOrder.{same_pair};

use std::alloc::{AllocError, Global};
use std::collections::BTreeSet;
use std::marker::Model;

/// Pairs of numbers, each of them once, in the order in which they came. A search takes logarithmic time,
/// whatever the numbers are.
#[derive(Drop)]
pub struct Pairs {
    found: BTreeSet<(u16, u16)>,
    order: Vec<(u16, u16)>,
}

impl Model for Pairs {
    ghost use Rattle.std.specs.Prelude.{List, ℕ};
    ghost use Rattle.wf_classfile.specs.InOrder.{HasPairs};

    ghost Value = { List (ℕ × ℕ) };

    ghost view = { λ p. p.order.items };

    ghost invariant = { λ p. HasPairs p.found p.order.items };
}

impl Pairs {
    pub fn new(alloc: Global) -> Pairs
        ensures { result ≡ [] }
    {
        Pairs {
            found: BTreeSet::new(alloc),
            order: Vec::new(alloc),
        }
    }

    /// Adds a pair. Whether it wasn't there yet.
    pub fn insert(&mut self, pair: (u16, u16)) -> Result<bool, AllocError>
        ensures added { IfOk result (λ new. new ≡ not (list_any (same_pair pair) self.old)) }
        ensures pairs { IfOk result (λ new. self.new ≡ (if new then self.old ++ pair ∷ [] else self.old)) }
        ensures err { OnErr result (self.new ≡ self.old) }
    {
        if self.found.contains(&pair) {
            return Ok(false);
        }
        self.order.push(pair)?;
        match self.found.insert(pair) {
            Ok(_) => Ok(true),
            Err(fault) => {
                self.order.pop();
                Err(fault.into())
            }
        }
    }
}
