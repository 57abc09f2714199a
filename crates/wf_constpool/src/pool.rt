//! A whole pool (JVMS 4.4): first all its items, and then the places that its constants name.

ghost use Rattle.std.specs.Prelude.{◌≡◌, ◌+◌, ◌<◌, ◌^◌, ◌∷◌, true, IfOk, IfErr, OnOk};
ghost use Rattle.std.specs.List.{list_all};
ghost use Rattle.wf_data.specs.declared.class_info.PoolEntry.TheVariants.{Unusable};
ghost use Rattle.wf_bytes.specs.declared.fault.Why.TheVariants as why;
ghost use Rattle.wf_grammar.specs.ClassFile.{PoolIs, is_sound};
ghost use Rattle.wf_bytes.specs.Exactness.{Took};
ghost use Rattle.wf_base.specs.Bytes.{IsBytes};
ghost use Rattle.wf_bytes.specs.Reading.{wanted};
ghost use Rattle.wf_grammar.specs.Reading.{pool_entries, pool_at, size_of, wrong_from};
ghost use Rattle.wf_constpool.specs.Readers.{Fails, Gives, GivesAs};
ghost use Rattle.wf_constpool.specs.Sizes.{sizes, constants};

use crate::entries::places;
use crate::fault::ClassFault;
use crate::items::u2;
use crate::places::{is_sound, wrong_in};
use std::alloc::Global;
use wf_base::Items;
use wf_bytes::{Cursor, Why};
use wf_data::PoolEntry;
use wf_grammar::pools_are_read_exactly;

/// How many bytes a constant takes in a file.
fn size_of(entry: &PoolEntry) -> u32
    requires { size_of entry.now < 2 ^ 32 }
    ensures { result ≡ size_of entry.now }
{
    match entry {
        PoolEntry::Unusable => 0,
        PoolEntry::Utf8(text) => 3 + text.as_slice().len() as u32,
        PoolEntry::Class(_) | PoolEntry::Str(_) | PoolEntry::MethodKind(_) => 3,
        PoolEntry::Handle(_, _) => 4,
        PoolEntry::Long(_) | PoolEntry::Double(_) => 9,
        _ => 5,
    }
}

fn are_sound(pool: &[PoolEntry]) -> bool
    ensures { result ≡ list_all (is_sound pool.now) pool.now }
{
    pool.iter().all(|entry| is_sound(pool, entry))
}

/// Where the first wrong place stands in a file in which the pool's constants begin at a place.
#[tactic(auto, using(crate::proofs::Sums::sizes_drop, crate::proofs::Sums::wrong_fits, crate::proofs::Sums::wrong_goes_on, crate::proofs::Sums::wrong_stops))]
fn wrong_from(pool: &[PoolEntry], start: u32) -> u32
    requires { start + sizes pool.now < 2 ^ 32 }
    ensures { result ≡ wrong_from pool.now start pool.now }
{
    let mut place = start;
    for entry in pool {
        if !is_sound(pool, entry) {
            return place + wrong_in(pool, entry);
        }
        place += size_of(entry);
    }
    place
}

/// Place 0, which is unusable, and the constants of the places from 1 on.
#[tactic(auto, unfolding(wf_grammar::specs::Reading::pool_entries))]
fn pool_entries(
    alloc: Global,
    cursor: &mut Cursor<'_>,
    count: u16,
) -> Result<Vec<PoolEntry>, ClassFault>
    ensures entries { GivesAs (λ v. constants v.items) cursor.new result (pool_entries count cursor.old) }
    ensures first { IfOk result (λ v. v.items ≡ Unusable ∷ constants v.items) }
    ensures size { IfOk result (λ v. cursor.new.at ≡ cursor.old.at + sizes v.items) }
{
    let mut left = count;
    let mut wide = false;
    match places(alloc, cursor, count, &mut left, &mut wide) {
        Ok(entries) => Ok(entries),
        Err(fault) => Err(fault),
    }
}

/// The pool of these entries, of which the first constant begins at a place in the file, if each is sound in it.
fn pool_of(entries: Vec<PoolEntry>, start: u32) -> Result<Items<PoolEntry>, ClassFault>
    requires first { entries.items ≡ Unusable ∷ constants entries.items }
    requires fits { start + sizes entries.items < 2 ^ 32 }
    ensures pool { IfOk result (λ pool. pool ≡ Unusable ∷ constants entries.items) }
    ensures sound { OnOk result (list_all (is_sound (Unusable ∷ constants entries.items)) (constants entries.items) ≡ true) }
    ensures unsound { IfErr result (λ e. Fails e (wanted (list_all (is_sound (Unusable ∷ constants entries.items)) (constants entries.items)) (wrong_from (Unusable ∷ constants entries.items) start (constants entries.items)) why.Index)) }
{
    if !are_sound(&entries) {
        return Err(ClassFault::Bad {
            offset: wrong_from(&entries, start),
            why: Why::Index,
        });
    }
    Ok(Items::from_vec(entries))
}

#[tactic(auto, using(crate::proofs::Loops::bind_fails), unfolding(wf_grammar::specs::Reading::pool_at))]
fn pool_at(alloc: Global, cursor: &mut Cursor<'_>) -> Result<Items<PoolEntry>, ClassFault>
    ensures { Gives cursor.new result (pool_at cursor.old) }
{
    let at = cursor.at();
    let count = u2(cursor)?;
    if count == 0 {
        return Err(ClassFault::Bad {
            offset: at,
            why: Why::Index,
        });
    }
    let start = cursor.at();
    let entries = pool_entries(alloc, cursor, count - 1)?;
    let _end = cursor.at();
    pool_of(entries, start)
}

/// Reads a pool from its count to its last constant. Place 0 of what is given is `Unusable`. Where no pool
/// begins at the cursor, the first fault: of the items, and only then of the places that constants name.
/// After a fault the cursor stands anywhere.
pub fn read_pool(alloc: Global, cursor: &mut Cursor<'_>) -> Result<Items<PoolEntry>, ClassFault>
    ensures pool { Gives cursor.new result (pool_at cursor.old) }
    // What is read is spelled by the bytes that were passed.
    ensures spelled { IsBytes cursor.old.left → IfOk result (Took PoolIs cursor.old cursor.new) }
{
    pools_are_read_exactly();
    pool_at(alloc, cursor)
}
