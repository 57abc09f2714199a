//! What places of a constant pool say of slots (JVMS 4.4).

ghost use Rattle.std.specs.Prelude.{◌≡◌};
ghost use Rattle.std.specs.Option.{option_copied};
ghost use Rattle.wf_operation.specs.PoolSlots.{is_followed, constant_kind, name_type_of_field, name_type_of_method, desc_at, method_desc_at, field_desc_at, followed_kind, field_kind_at, dimensions};

use crate::sort::Call;
use wf_base::Kind;
use wf_constpool::text_at;
use wf_data::PoolEntry;
use wf_descriptor::{is_field_descriptor, kind_of};

/// Whether the analysis follows values of a kind.
pub fn is_followed(kind: Kind) -> bool
    ensures { result ≡ is_followed kind }
{
    matches!(kind, Kind::Int | Kind::Long | Kind::Ref)
}

/// The kind of a constant that `ldc` takes.
pub fn constant_kind(entry: &PoolEntry) -> Option<Kind>
    ensures { result ≡ constant_kind entry.now }
{
    match entry {
        PoolEntry::Integer(_) => Some(Kind::Int),
        PoolEntry::Str(_) | PoolEntry::Class(_) => Some(Kind::Ref),
        _ => None,
    }
}

fn name_type_of_field(entry: &PoolEntry) -> Option<u16>
    ensures { result ≡ name_type_of_field entry.now }
{
    match entry {
        PoolEntry::Field(_, name_type) => Some(*name_type),
        _ => None,
    }
}

/// The place of the name and the descriptor of a method that is called so.
fn name_type_of_method(call: Call, entry: &PoolEntry) -> Option<u16>
    ensures { result ≡ name_type_of_method call entry.now }
{
    match (call, entry) {
        (Call::Virtual | Call::Special | Call::Static, PoolEntry::Method(_, name_type)) => {
            Some(*name_type)
        }
        (
            Call::Interface | Call::Special | Call::Static,
            PoolEntry::InterfaceMethod(_, name_type),
        ) => Some(*name_type),
        _ => None,
    }
}

/// The descriptor of the name and descriptor at a place.
fn desc_at(pool: &[PoolEntry], place: u16) -> Option<&[u8]>
    ensures { option_copied result ≡ desc_at pool.now place }
{
    match pool.get(place as usize)? {
        PoolEntry::NameType(_, desc) => text_at(pool, *desc),
        _ => None,
    }
}

/// The descriptor of the method that is called so by a place.
pub fn method_desc_at(pool: &[PoolEntry], call: Call, place: u16) -> Option<&[u8]>
    ensures { option_copied result ≡ method_desc_at pool.now call place }
{
    let entry = pool.get(place as usize)?;
    desc_at(pool, name_type_of_method(call, entry)?)
}

/// The descriptor of the field at a place.
pub fn field_desc_at(pool: &[PoolEntry], place: u16) -> Option<&[u8]>
    ensures { option_copied result ≡ field_desc_at pool.now place }
{
    desc_at(pool, name_type_of_field(pool.get(place as usize)?)?)
}

/// The kind of a field by its descriptor, if it is one and of a kind that is followed.
fn followed_kind(desc: &[u8]) -> Option<Kind>
    ensures { result ≡ followed_kind desc.now }
{
    if !is_field_descriptor(desc) {
        return None;
    }
    let kind = kind_of(*desc.first()?);
    if is_followed(kind) { Some(kind) } else { None }
}

/// The kind of the field at a place, if it is one that is followed.
pub fn field_kind_at(pool: &[PoolEntry], place: u16) -> Option<Kind>
    ensures { result ≡ field_kind_at pool.now place }
{
    let name_type = name_type_of_field(pool.get(place as usize)?)?;
    followed_kind(desc_at(pool, name_type)?)
}

/// How many dimensions the type of a name has: the `[` that it begins with.
pub fn dimensions(name: &[u8]) -> usize
    ensures { result ≡ dimensions name.now }
{
    name.iter().take_while(|b| **b == b'[').count()
}
