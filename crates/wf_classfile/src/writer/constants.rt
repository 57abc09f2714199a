//! The constant pool (JVMS 4.4).

ghost use Rattle.std.specs.Prelude.{◌≡◌, false, not, ◌&&◌};
ghost use Rattle.std.specs.List.{list_all};
ghost use Rattle.wf_grammar.specs.ClassFile.{is_sound};
ghost use Rattle.wf_grammar.specs.Writing.{put_text, put_two_places, put_handle, tag_of, put_behind_tag, put_entry, is_wide, is_unusable, put_pool_place, put_places, put_entries, put_pool};
ghost use Rattle.wf_classfile.specs.Writers.{Writes};

use super::items::{put, put_count, put_i4, put_i8, put_u1, put_u2, put_u4, put_u8};
use crate::fault::SpellFault;
use wf_constpool::{are_text_bytes, is_sound};
use wf_data::PoolEntry;

#[tactic(auto, unfolding(wf_grammar::specs::Writing::put_text))]
fn put_text(out: &mut Vec<u8>, text: &[u8]) -> Result<(), SpellFault>
    ensures { Writes out.new.items result (put_text text.now out.old.items) }
{
    if !are_text_bytes(text) {
        return Err(SpellFault::NotSpellable);
    }
    put_count(out, text.len())?;
    put(out, text)
}

#[tactic(auto, unfolding(wf_grammar::specs::Writing::put_two_places))]
fn put_two_places(out: &mut Vec<u8>, first: u16, second: u16) -> Result<(), SpellFault>
    ensures { Writes out.new.items result (put_two_places first second out.old.items) }
{
    put_u2(out, first)?;
    put_u2(out, second)
}

#[tactic(auto, unfolding(wf_grammar::specs::Writing::put_handle))]
fn put_handle(out: &mut Vec<u8>, kind: u8, member: u16) -> Result<(), SpellFault>
    ensures { Writes out.new.items result (put_handle kind member out.old.items) }
{
    put_u1(out, kind)?;
    put_u2(out, member)
}

/// The tag of a constant (JVMS table 4.4-A).
fn tag_of(entry: &PoolEntry) -> u8
    ensures { result ≡ tag_of entry.now }
{
    match entry {
        PoolEntry::Unusable => 0,
        PoolEntry::Utf8(_) => 1,
        PoolEntry::Integer(_) => 3,
        PoolEntry::Float(_) => 4,
        PoolEntry::Long(_) => 5,
        PoolEntry::Double(_) => 6,
        PoolEntry::Class(_) => 7,
        PoolEntry::Str(_) => 8,
        PoolEntry::Field(_, _) => 9,
        PoolEntry::Method(_, _) => 10,
        PoolEntry::InterfaceMethod(_, _) => 11,
        PoolEntry::NameType(_, _) => 12,
        PoolEntry::Handle(_, _) => 15,
        PoolEntry::MethodKind(_) => 16,
        PoolEntry::Dynamic(_, _) => 18,
    }
}

#[tactic(auto, unfolding(wf_grammar::specs::Writing::put_behind_tag))]
fn put_behind_tag(out: &mut Vec<u8>, entry: &PoolEntry) -> Result<(), SpellFault>
    ensures { Writes out.new.items result (put_behind_tag entry.now out.old.items) }
{
    match entry {
        PoolEntry::Unusable => Err(SpellFault::NotSpellable),
        PoolEntry::Utf8(text) => put_text(out, text.as_slice()),
        PoolEntry::Integer(number) => put_i4(out, *number),
        PoolEntry::Float(bits) => put_u4(out, *bits),
        PoolEntry::Long(number) => put_i8(out, *number),
        PoolEntry::Double(bits) => put_u8(out, *bits),
        PoolEntry::Class(place) | PoolEntry::Str(place) | PoolEntry::MethodKind(place) => {
            put_u2(out, *place)
        }
        PoolEntry::Field(first, second)
        | PoolEntry::Method(first, second)
        | PoolEntry::InterfaceMethod(first, second)
        | PoolEntry::NameType(first, second)
        | PoolEntry::Dynamic(first, second) => put_two_places(out, *first, *second),
        PoolEntry::Handle(kind, member) => put_handle(out, *kind, *member),
    }
}

#[tactic(auto, unfolding(wf_grammar::specs::Writing::put_entry))]
fn put_entry(out: &mut Vec<u8>, entry: &PoolEntry) -> Result<(), SpellFault>
    ensures { Writes out.new.items result (put_entry entry.now out.old.items) }
{
    put_u1(out, tag_of(entry))?;
    put_behind_tag(out, entry)
}

fn is_wide(entry: &PoolEntry) -> bool
    ensures { result ≡ is_wide entry.now }
{
    match entry {
        PoolEntry::Long(_) | PoolEntry::Double(_) => true,
        _ => false,
    }
}

fn is_unusable(entry: &PoolEntry) -> bool
    ensures { result ≡ is_unusable entry.now }
{
    match entry {
        PoolEntry::Unusable => true,
        _ => false,
    }
}

/// One place, which may be the second of a Long or a Double.
#[tactic(auto, unfolding(wf_grammar::specs::Writing::put_pool_place))]
fn put_pool_place(out: &mut Vec<u8>, is_second: bool, entry: &PoolEntry) -> Result<(), SpellFault>
    ensures { Writes out.new.items result (put_pool_place is_second entry.now out.old.items) }
{
    if !is_second {
        return put_entry(out, entry);
    }
    if !is_unusable(entry) {
        return Err(SpellFault::NotSpellable);
    }
    Ok(())
}

/// Whether the next place belongs to this constant, which may itself stand at a second place.
fn takes_next(is_second: bool, entry: &PoolEntry) -> bool
    ensures { result ≡ (not is_second && is_wide entry.now) }
{
    !is_second && is_wide(entry)
}

#[tactic(auto, using(crate::proofs::WriteLoops::places_stop))]
fn put_places(out: &mut Vec<u8>, entries: &[PoolEntry]) -> Result<(), SpellFault>
    ensures { Writes out.new.items result (put_places false entries.now out.old.items) }
{
    let mut is_second = false;
    for entry in entries {
        put_pool_place(out, is_second, entry)?;
        is_second = takes_next(is_second, entry);
    }
    if is_second {
        return Err(SpellFault::NotSpellable);
    }
    Ok(())
}

fn are_sound(pool: &[PoolEntry], entries: &[PoolEntry]) -> bool
    ensures { result ≡ list_all (is_sound pool.now) entries.now }
{
    entries.iter().all(|entry| is_sound(pool, entry))
}

#[tactic(auto, unfolding(wf_grammar::specs::Writing::put_entries))]
fn put_entries(
    out: &mut Vec<u8>,
    pool: &[PoolEntry],
    entries: &[PoolEntry],
) -> Result<(), SpellFault>
    ensures { Writes out.new.items result (put_entries pool.now entries.now out.old.items) }
{
    if !are_sound(pool, entries) {
        return Err(SpellFault::NotSpellable);
    }
    put_count(out, pool.len())?;
    put_places(out, entries)
}

/// The pool, whose place 0 is unusable.
#[tactic(auto, unfolding(wf_grammar::specs::Writing::put_pool))]
pub fn put_pool(out: &mut Vec<u8>, pool: &[PoolEntry]) -> Result<(), SpellFault>
    ensures { Writes out.new.items result (put_pool pool.now out.old.items) }
{
    match pool {
        [PoolEntry::Unusable, entries @ ..] => put_entries(out, pool, entries),
        _ => Err(SpellFault::NotSpellable),
    }
}
