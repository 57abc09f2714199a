//! The least places of the pool that serve.

ghost use Rattle.std.specs.Prelude.{◌≡◌};
ghost use Rattle.wf_grammar.specs.Writing.{is_text, is_class, text_place, class_place, put_place};
ghost use Rattle.wf_classfile.specs.Writers.{Writes};

use super::items::put_count;
use crate::fault::SpellFault;
use wf_constpool::text_at;
use wf_data::PoolEntry;

fn is_text(text: &[u8], entry: &PoolEntry) -> bool
    ensures { result ≡ is_text text.now entry.now }
{
    match entry {
        PoolEntry::Utf8(found) => text == found.as_slice(),
        _ => false,
    }
}

fn is_class(pool: &[PoolEntry], name: &[u8], entry: &PoolEntry) -> bool
    ensures { result ≡ is_class pool.now name.now entry.now }
{
    let PoolEntry::Class(place) = entry else {
        return false;
    };
    match text_at(pool, *place) {
        Some(found) => name == found,
        None => false,
    }
}

fn text_place(pool: &[PoolEntry], text: &[u8]) -> Option<usize>
    ensures { result ≡ text_place pool.now text.now }
{
    pool.iter().position(|entry| is_text(text, entry))
}

fn class_place(pool: &[PoolEntry], name: &[u8]) -> Option<usize>
    ensures { result ≡ class_place pool.now name.now }
{
    pool.iter().position(|entry| is_class(pool, name, entry))
}

#[tactic(auto, unfolding(wf_grammar::specs::Writing::put_place))]
fn put_place(out: &mut Vec<u8>, place: Option<usize>) -> Result<(), SpellFault>
    ensures { Writes out.new.items result (put_place place out.old.items) }
{
    match place {
        Some(place) => put_count(out, place),
        None => Err(SpellFault::NotSpellable),
    }
}

/// The place of a text.
pub fn put_text_place(out: &mut Vec<u8>, pool: &[PoolEntry], text: &[u8]) -> Result<(), SpellFault>
    ensures { Writes out.new.items result (put_place (text_place pool.now text.now) out.old.items) }
{
    put_place(out, text_place(pool, text))
}

/// The place of a class of this name.
pub fn put_class_place(out: &mut Vec<u8>, pool: &[PoolEntry], name: &[u8]) -> Result<(), SpellFault>
    ensures { Writes out.new.items result (put_place (class_place pool.now name.now) out.old.items) }
{
    put_place(out, class_place(pool, name))
}
