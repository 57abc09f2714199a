ghost use Rattle.std.specs.Prelude.{◌≡◌, ◌++◌, ◌∷◌, [], not, OnOk, IfOk, if◌then◌else◌};
ghost use Rattle.std.specs.List.{list_any};
ghost use Rattle.wf_grammar.specs.ClassFile.{is_key};

use indexmap::IndexSet;
use std::alloc::{AllocError, Global};
use std::marker::Model;

/// The names and descriptors that methods had so far, in their order.
#[derive(Drop)]
pub struct Keys<'p> {
    met: IndexSet<(&'p [u8], &'p [u8])>,
}

impl<'p> Model for Keys<'p> {
    ghost use Rattle.std.specs.Prelude.{List, map};
    ghost use Rattle.wf_grammar.specs.ClassFile.{Key};

    ghost Value = { List Key };

    ghost view = { λ k. map (λ e. (e.0.now, e.1.now)) k.met.keys };
}

impl<'p> Keys<'p> {
    pub fn new(alloc: Global) -> Keys<'p>
        ensures { result ≡ [] }
    {
        Keys {
            met: IndexSet::new(alloc),
        }
    }

    /// Adds a key. Whether it wasn't there yet.
    pub fn insert(&mut self, name: &'p [u8], desc: &'p [u8]) -> Result<bool, AllocError>
        ensures added { IfOk result (λ new. new ≡ not (list_any (is_key name.now desc.now) self.old)) }
        ensures keys { IfOk result (λ new. self.new ≡ (if new then self.old ++ (name.now, desc.now) ∷ [] else self.old)) }
    {
        Ok(self.met.insert((name, desc))?)
    }
}
