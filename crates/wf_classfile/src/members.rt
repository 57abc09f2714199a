ghost use Rattle.std.specs.Prelude.{◌≡◌, ◌++◌, ◌∷◌, [], Some, not, option_map, IfOk, IfSome, if◌then◌else◌};
ghost use Rattle.std.specs.List.{list_any};
ghost use Rattle.wf_grammar.specs.ClassFile.{is_key};
ghost use Rattle.wf_data.specs.Pool.{text_at};
ghost use Rattle.wf_classfile.specs.Numbers.{number_in, Grows};

use crate::pairs::Pairs;
use crate::texts::{Seen, Texts};
use std::alloc::{AllocError, Global};
use std::marker::Model;
use wf_data::PoolEntry;

/// The members that were met so far, with the texts of the pool that name them. A member is looked up by the
/// numbers of its texts, so that the time does not depend on their lengths.
#[derive(Drop)]
pub struct Members<'p> {
    alloc: Global,
    texts: Texts<'p>,
    met: Pairs,
}

impl<'p> Model for Members<'p> {
    ghost use Rattle.wf_classfile.specs.Met.{Met};

    ghost Value = { Met };

    ghost use Rattle.std.specs.Prelude.{map};
    ghost use Rattle.wf_classfile.specs.Met.{key_of, AreNumbers};
    ghost use Rattle.wf_classfile.specs.Numbers.{Stand};

    ghost view = { λ m. record { pool = m.texts.pool; numbers = m.texts.numbers; met = map (key_of m.texts.pool) m.met } };

    ghost invariant = { λ m. Stand m.texts.pool m.texts.numbers × AreNumbers m.texts.pool m.texts.numbers m.met };
}

impl<'p> Members<'p> {
    pub fn new(alloc: Global, pool: &'p [PoolEntry]) -> Members<'p>
        ensures pool { result.pool ≡ pool.now }
        ensures met { result.met ≡ [] }
    {
        Members {
            alloc,
            texts: Texts::new(alloc, pool),
            met: Pairs::new(alloc),
        }
    }

    /// Begins anew with no members; what is known of the pool stays.
    pub fn forget(&mut self)
        ensures pool { self.new.pool ≡ self.old.pool }
        ensures met { self.new.met ≡ [] }
    {
        self.met = Pairs::new(self.alloc);
    }

    pub fn pool(&self) -> &'p [PoolEntry]
        ensures { result.now ≡ self.now.pool }
    {
        self.texts.pool()
    }

    /// The text at a place, with its number.
    pub fn text(&mut self, place: u16) -> Result<Option<Seen>, AllocError>
        ensures pool { self.new.pool ≡ self.old.pool }
        ensures met { self.new.met ≡ self.old.met }
        ensures grows { Grows self.old.numbers self.new.numbers }
        ensures text { IfOk result (λ seen. option_map (λ s. s.known) seen ≡ text_at self.old.pool place) }
        ensures number { IfOk result (λ seen. IfSome seen (λ s. number_in self.new.numbers s.known ≡ Some s.number)) }
    {
        self.texts.see(place)
    }

    /// Adds the member of this name and this descriptor. Whether it wasn't there yet.
    pub fn insert(&mut self, name: &Seen, desc: &Seen) -> Result<bool, AllocError>
        requires name { number_in self.old.numbers name.now.known ≡ Some name.now.number }
        requires desc { number_in self.old.numbers desc.now.known ≡ Some desc.now.number }
        ensures added { IfOk result (λ new. new ≡ not (list_any (is_key name.now.known desc.now.known) self.old.met)) }
        ensures pool { self.new.pool ≡ self.old.pool }
        ensures keys { IfOk result (λ new. self.new.met ≡ (if new then self.old.met ++ (name.now.known, desc.now.known) ∷ [] else self.old.met)) }
    {
        let is_new = self.met.insert((name.number, desc.number))?;
        Ok(is_new)
    }
}
