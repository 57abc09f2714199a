//! What the places of a constant pool hold (JVMS 4.4).

ghost use Rattle.std.specs.Prelude.{◌≡◌, ◌&&◌, option_and_then, option_map, slice_get};
ghost use Rattle.std.specs.Option.{option_copied};
ghost use Rattle.wf_data.specs.Pool.{text_at, class_at, name_type_in, member_with, method_at, has_text, has_class, has_name_type};
ghost use Rattle.wf_grammar.specs.ClassFile.{is_sound};
ghost use Rattle.wf_names.specs.Members.{named_by};
ghost use Rattle.wf_grammar.specs.Reading.{wrong_in};

use wf_base::Text;
use wf_data::PoolEntry;
use wf_names::MemberRef;

/// The text that the pool has at a place.
pub fn text_of(pool: &[PoolEntry], place: u16) -> Option<&Text>
    ensures { option_copied result ≡ text_at pool.now place }
{
    match pool.get(place as usize)? {
        PoolEntry::Utf8(text) => Some(text),
        _ => None,
    }
}

/// The bytes of the text at a place.
pub fn text_at(pool: &[PoolEntry], place: u16) -> Option<&[u8]>
    ensures { option_copied result ≡ text_at pool.now place }
{
    match pool.get(place as usize)? {
        PoolEntry::Utf8(text) => Some(text.as_slice()),
        _ => None,
    }
}

/// The name of the class at a place.
pub fn class_at(pool: &[PoolEntry], place: u16) -> Option<&[u8]>
    ensures { option_copied result ≡ class_at pool.now place }
{
    match pool.get(place as usize)? {
        PoolEntry::Class(name) => text_at(pool, *name),
        _ => None,
    }
}

/// The name and the descriptor at a place, with a class.
fn member_at<'p>(pool: &'p [PoolEntry], class: &'p [u8], place: u16) -> Option<MemberRef<'p>>
    ensures { option_map named_by result ≡ option_and_then (member_with pool.now class.now) (option_and_then name_type_in (slice_get pool.now place)) }
{
    match pool.get(place as usize)? {
        PoolEntry::NameType(name, desc) => Some(MemberRef {
            class,
            name: text_at(pool, *name)?,
            desc: text_at(pool, *desc)?,
        }),
        _ => None,
    }
}

/// The method that a place names, where a Methodref stands there.
pub fn method_at(pool: &[PoolEntry], place: u16) -> Option<MemberRef<'_>>
    ensures { option_map named_by result ≡ method_at pool.now place }
{
    match pool.get(place as usize)? {
        PoolEntry::Method(class, member) => member_at(pool, class_at(pool, *class)?, *member),
        _ => None,
    }
}

fn has_text(pool: &[PoolEntry], place: u16) -> bool
    ensures { result ≡ has_text pool.now place }
{
    text_at(pool, place).is_some()
}

fn has_class(pool: &[PoolEntry], place: u16) -> bool
    ensures { result ≡ has_class pool.now place }
{
    match pool.get(place as usize) {
        Some(PoolEntry::Class(_)) => true,
        _ => false,
    }
}

fn has_name_type(pool: &[PoolEntry], place: u16) -> bool
    ensures { result ≡ has_name_type pool.now place }
{
    match pool.get(place as usize) {
        Some(PoolEntry::NameType(_, _)) => true,
        _ => false,
    }
}

fn has_member(pool: &[PoolEntry], class: u16, member: u16) -> bool
    ensures { result ≡ (has_class pool.now class && has_name_type pool.now member) }
{
    has_class(pool, class) && has_name_type(pool, member)
}

/// Whether a constant's own places are of the sorts that it needs.
pub fn is_sound(pool: &[PoolEntry], entry: &PoolEntry) -> bool
    ensures { result ≡ is_sound pool.now entry.now }
{
    match entry {
        PoolEntry::Class(text) | PoolEntry::Str(text) => has_text(pool, *text),
        PoolEntry::Field(class, member)
        | PoolEntry::Method(class, member)
        | PoolEntry::InterfaceMethod(class, member) => has_member(pool, *class, *member),
        PoolEntry::NameType(name, desc) => has_text(pool, *name) && has_text(pool, *desc),
        _ => true,
    }
}

/// Where in a constant that isn't sound the first wrong place stands, in bytes from its tag.
pub fn wrong_in(pool: &[PoolEntry], entry: &PoolEntry) -> u32
    ensures { result ≡ wrong_in pool.now entry.now }
{
    match entry {
        PoolEntry::Field(class, _)
        | PoolEntry::Method(class, _)
        | PoolEntry::InterfaceMethod(class, _)
            if has_class(pool, *class) => 3,
        PoolEntry::NameType(name, _) if has_text(pool, *name) => 3,
        _ => 1,
    }
}
