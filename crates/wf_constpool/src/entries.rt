//! The constants of a pool, each behind its tag (JVMS table 4.4-A).

ghost use Rattle.std.specs.Prelude.{◌≡◌, ℕ, ◌+◌, ◌<◌, ◌^◌, ◌||◌, ◌==◌, ◌∷◌, length, IfOk};
ghost use Rattle.std.specs.List.{list_all};
ghost use Rattle.wf_data.specs.declared.class_info.PoolEntry.{PoolEntry};
ghost use Rattle.wf_data.specs.declared.class_info.PoolEntry.TheVariants.{Unusable};
ghost use Rattle.wf_grammar.specs.ClassFile.{is_text_byte};
ghost use Rattle.wf_grammar.specs.Reading.{bad_byte_from, text_of, text_entry, two_places, handle_entry, narrow_as, is_wide_tag, wide_as, pool_entry, pool_place, size_of};
ghost use Rattle.wf_bytes.specs.Reading.{many_on};
ghost use Rattle.wf_constpool.specs.Readers.{Gives, GivesAs};
ghost use Rattle.wf_constpool.specs.Sizes.{sizes, constants};

use crate::fault::ClassFault;
use crate::items::{text, u1, u2, u4, u8};
use std::alloc::Global;
use wf_base::Text;
use wf_bytes::{Cursor, Why};
use wf_data::PoolEntry;

fn is_text_byte(byte: u8) -> bool
    ensures { result ≡ is_text_byte byte }
{
    byte != 0 && byte < 0xF0
}

/// Whether each of the bytes may stand in a constant text.
pub fn are_text_bytes(bytes: &[u8]) -> bool
    ensures { result ≡ list_all is_text_byte bytes.now }
{
    bytes.iter().all(|byte| is_text_byte(*byte))
}

/// The place of the first byte that may not stand in a text, where the bytes begin at a place.
fn bad_byte_from(at: u32, bytes: &[u8]) -> u32
    requires { at + length bytes.now < 2 ^ 32 }
    ensures { result ≡ bad_byte_from at bytes.now }
{
    let mut place = at;
    for byte in bytes {
        if !is_text_byte(*byte) {
            return place;
        }
        place += 1;
    }
    place
}

#[tactic(auto, unfolding(wf_grammar::specs::Reading::text_of, wf_bytes::specs::Reading::run))]
fn text_of(alloc: Global, cursor: &mut Cursor<'_>, n: u16) -> Result<Text, ClassFault>
    ensures text { Gives cursor.new result (text_of n cursor.old) }
    ensures size { IfOk result (λ text. cursor.new.at ≡ cursor.old.at + length text) }
{
    let at = cursor.at();
    let text = text(alloc, cursor, n as u32)?;
    if !are_text_bytes(text.as_slice()) {
        return Err(ClassFault::Bad {
            offset: bad_byte_from(at, text.as_slice()),
            why: Why::Utf8,
        });
    }
    Ok(text)
}

#[tactic(auto, unfolding(wf_grammar::specs::Reading::text_entry, wf_bytes::specs::Reading::number))]
fn text_entry(alloc: Global, cursor: &mut Cursor<'_>) -> Result<PoolEntry, ClassFault>
    ensures entry { Gives cursor.new result (text_entry cursor.old) }
    ensures size { IfOk result (λ e. cursor.new.at + 1 ≡ cursor.old.at + size_of e) }
{
    let n = u2(cursor)?;
    let text = text_of(alloc, cursor, n)?;
    Ok(PoolEntry::Utf8(text))
}

/// Two places of the pool, for any constant that is made of two.
#[tactic(auto, unfolding(wf_grammar::specs::Reading::two_places, wf_bytes::specs::Reading::number))]
fn two_places(cursor: &mut Cursor<'_>) -> Result<(u16, u16), ClassFault>
    ensures places { (made : ℕ → ℕ → PoolEntry) → GivesAs (λ r. made r.0 r.1) cursor.new result (two_places made cursor.old) }
    ensures size { IfOk result (λ r. cursor.new.at ≡ cursor.old.at + 4) }
{
    let first = u2(cursor)?;
    let second = u2(cursor)?;
    Ok((first, second))
}

#[tactic(auto, unfolding(wf_grammar::specs::Reading::handle_entry, wf_bytes::specs::Reading::number))]
fn handle_entry(cursor: &mut Cursor<'_>) -> Result<PoolEntry, ClassFault>
    ensures entry { Gives cursor.new result (handle_entry cursor.old) }
    ensures size { IfOk result (λ e. cursor.new.at + 1 ≡ cursor.old.at + size_of e) }
{
    let kind = u1(cursor)?;
    let member = u2(cursor)?;
    Ok(PoolEntry::Handle(kind, member))
}

/// What follows the tag of a constant that takes one place.
#[tactic(auto, unfolding(wf_grammar::specs::Reading::narrow_as, wf_grammar::specs::Reading::integer_entry, wf_grammar::specs::Reading::float_entry, wf_grammar::specs::Reading::one_place, wf_bytes::specs::Reading::number))]
fn narrow_as(
    alloc: Global,
    cursor: &mut Cursor<'_>,
    tag: u8,
    at: u32,
) -> Result<PoolEntry, ClassFault>
    ensures entry { Gives cursor.new result (narrow_as tag at cursor.old) }
    ensures size { IfOk result (λ e. cursor.new.at + 1 ≡ cursor.old.at + size_of e) }
{
    match tag {
        1 => text_entry(alloc, cursor),
        3 => Ok(PoolEntry::Integer(u4(cursor)?.cast_signed())),
        4 => Ok(PoolEntry::Float(u4(cursor)?)),
        7 => Ok(PoolEntry::Class(u2(cursor)?)),
        8 => Ok(PoolEntry::Str(u2(cursor)?)),
        9 => {
            let (class, member) = two_places(cursor)?;
            Ok(PoolEntry::Field(class, member))
        }
        10 => {
            let (class, member) = two_places(cursor)?;
            Ok(PoolEntry::Method(class, member))
        }
        11 => {
            let (class, member) = two_places(cursor)?;
            Ok(PoolEntry::InterfaceMethod(class, member))
        }
        12 => {
            let (name, desc) = two_places(cursor)?;
            Ok(PoolEntry::NameType(name, desc))
        }
        15 => handle_entry(cursor),
        16 => Ok(PoolEntry::MethodKind(u2(cursor)?)),
        18 => {
            let (bootstrap, member) = two_places(cursor)?;
            Ok(PoolEntry::Dynamic(bootstrap, member))
        }
        _ => Err(ClassFault::Bad {
            offset: at,
            why: Why::Tag,
        }),
    }
}

/// Whether a constant with this tag takes two places: a Long or a Double (JVMS 4.4.5).
fn is_wide_tag(tag: u8) -> bool
    ensures { result ≡ is_wide_tag tag }
{
    tag == 5 || tag == 6
}

/// What follows the tag of a Long or a Double.
#[tactic(auto, unfolding(wf_grammar::specs::Reading::wide_as, wf_grammar::specs::Reading::long_entry, wf_grammar::specs::Reading::double_entry, wf_bytes::specs::Reading::number))]
fn wide_as(cursor: &mut Cursor<'_>, tag: u8) -> Result<PoolEntry, ClassFault>
    ensures entry { Gives cursor.new result (wide_as tag cursor.old) }
    ensures size { IfOk result (λ e. cursor.new.at + 1 ≡ cursor.old.at + size_of e) }
{
    let bits = u8(cursor)?;
    Ok(if tag == 5 {
        PoolEntry::Long(bits.cast_signed())
    } else {
        PoolEntry::Double(bits)
    })
}

/// A constant, where so many places are left, its own among them. Tells how many are left behind it, and
/// whether the first of them belongs to it.
#[tactic(auto, unfolding(wf_grammar::specs::Reading::pool_entry, wf_grammar::specs::Reading::entry_as, wf_bytes::specs::Reading::number))]
fn pool_entry(
    alloc: Global,
    cursor: &mut Cursor<'_>,
    left: &mut u16,
    wide: &mut bool,
) -> Result<PoolEntry, ClassFault>
    ensures entry { GivesAs (λ e. (e, (left.new, wide.new))) cursor.new result (pool_entry left.old cursor.old) }
    ensures size { IfOk result (λ e. cursor.new.at ≡ cursor.old.at + size_of e) }
{
    let at = cursor.at();
    let tag = u1(cursor)?;
    if !is_wide_tag(tag) {
        let entry = narrow_as(alloc, cursor, tag, at)?;
        *left = left.saturating_sub(1);
        *wide = false;
        return Ok(entry);
    }
    if *left <= 1 {
        return Err(ClassFault::Bad {
            offset: at,
            why: Why::Tag,
        });
    }
    let entry = wide_as(cursor, tag)?;
    *left = left.saturating_sub(1);
    *wide = true;
    Ok(entry)
}

/// What stands at the next place: nothing that is used where the place belongs to a wide constant.
#[tactic(auto, unfolding(wf_grammar::specs::Reading::pool_place))]
fn pool_place(
    alloc: Global,
    cursor: &mut Cursor<'_>,
    left: &mut u16,
    wide: &mut bool,
) -> Result<PoolEntry, ClassFault>
    ensures entry { GivesAs (λ e. (e, (left.new, wide.new))) cursor.new result (pool_place (left.old, wide.old) cursor.old) }
    ensures size { IfOk result (λ e. cursor.new.at ≡ cursor.old.at + size_of e) }
{
    if *wide {
        *left = left.saturating_sub(1);
        *wide = false;
        return Ok(PoolEntry::Unusable);
    }
    pool_entry(alloc, cursor, left, wide)
}

/// For how many places of a pool with so many more of them there may be room in the bytes that are left: no
/// place takes fewer than 3, and place 0 none.
fn room(cursor: &Cursor<'_>, count: u16) -> usize {
    1 + (count as usize).min(cursor.left() / 3)
}

/// What stands at so many places behind place 0, which is unusable.
#[tactic(auto, using(wf_bytes::proofs::Loops::goes_on_on, crate::proofs::Loops::ends_on, wf_bytes::proofs::Loops::is_done_on, crate::proofs::Sums::sizes_push, crate::proofs::Sums::constants_push, crate::proofs::Sums::still_unusable))]
pub fn places(
    alloc: Global,
    cursor: &mut Cursor<'_>,
    count: u16,
    left: &mut u16,
    wide: &mut bool,
) -> Result<Vec<PoolEntry>, ClassFault>
    ensures entries { GivesAs (λ v. (constants v.items, (left.new, wide.new))) cursor.new result (many_on pool_place count (left.old, wide.old) cursor.old) }
    ensures first { IfOk result (λ v. v.items ≡ Unusable ∷ constants v.items) }
    ensures size { IfOk result (λ v. cursor.new.at ≡ cursor.old.at + sizes v.items) }
{
    let mut entries = Vec::with_capacity(alloc, room(cursor, count))?;
    entries.push(PoolEntry::Unusable)?;
    for _ in 0..count {
        entries.push(pool_place(alloc, cursor, left, wide)?)?;
    }
    Ok(entries)
}
