ghost use Rattle.std.specs.Prelude.{◌≡◌, IfOk, Some};
ghost use Rattle.wf_classfile.specs.Numbers.{number_in, Grows, Adds, Stand};
ghost use Rattle.wf_classfile.specs.Places.{IsFound};

use crate::known::Known;
use std::alloc::{AllocError, Global};
use std::collections::BTreeMap;
use std::marker::Model;
use wf_base::Text;
use wf_constpool::text_of;
use wf_data::PoolEntry;

/// A text at a place that was looked at.
#[derive(Debug, Drop)]
pub struct Seen {
    pub known: Known,
    /// Places have the same number exactly where their texts are equal.
    pub number: u16,
}

impl Clone for Seen {
    ghost is_clone = { λ seen copy. copy ≡ seen };

    fn clone(&self) -> Result<Seen, AllocError> {
        Ok(Seen {
            known: self.known.clone()?,
            number: self.number,
        })
    }
}

/// The texts of a pool that were looked at. Each is gone through once for each place at which it stands, and
/// looking there again takes logarithmic time.
#[derive(Drop)]
pub struct Texts<'p> {
    pool: &'p [PoolEntry],
    places: BTreeMap<u16, Seen>,
    /// Of each text the first place at which it was seen.
    numbers: BTreeMap<Text, u16>,
}

impl<'p> Model for Texts<'p> {
    ghost use Rattle.wf_classfile.specs.Numbers.{Numbered};

    ghost Value = { Numbered };

    ghost use Rattle.wf_classfile.specs.Places.{AreSeen};

    ghost view = { λ t. record { pool = t.pool.now; numbers = t.numbers.entries } };

    ghost invariant = { λ t. AreSeen t.pool.now t.places t.numbers.entries };
}

/// The number of a text that was met at a place.
fn number_of(numbers: &mut BTreeMap<Text, u16>, text: &Text, place: u16) -> Result<u16, AllocError>
    ensures adds { Adds numbers.old.entries numbers.new.entries text.now place }
    ensures number { IfOk result (λ number. number_in numbers.new.entries text.now ≡ Some number) }
{
    if let Some(number) = numbers.get(text) {
        return Ok(*number);
    }
    numbers.insert(text.clone()?, place)?;
    Ok(place)
}

impl<'p> Texts<'p> {
    pub fn new(alloc: Global, pool: &'p [PoolEntry]) -> Texts<'p>
        ensures pool { result.pool ≡ pool.now }
        ensures stand { Stand result.pool result.numbers }
    {
        Texts {
            pool,
            places: BTreeMap::new(alloc),
            numbers: BTreeMap::new(alloc),
        }
    }

    pub fn pool(&self) -> &'p [PoolEntry]
        ensures { result.now ≡ self.now.pool }
    {
        self.pool
    }

    /// The text at a place.
    pub fn see(&mut self, place: u16) -> Result<Option<Seen>, AllocError>
        ensures pool { self.new.pool ≡ self.old.pool }
        ensures grows { Grows self.old.numbers self.new.numbers }
        ensures stand { Stand self.new.pool self.new.numbers }
        ensures found { IfOk result (IsFound self.old.pool self.new.numbers place) }
    {
        if let Some(seen) = self.places.get(&place) {
            return Ok(Some(seen.clone()?));
        }
        let text = match text_of(self.pool, place) {
            Some(text) => text.clone()?,
            None => return Ok(None),
        };
        let number = number_of(&mut self.numbers, &text, place)?;
        let known = Known::new(text);
        let seen = Seen { known, number };
        self.places.insert(place, seen.clone()?)?;
        Ok(Some(seen))
    }
}
