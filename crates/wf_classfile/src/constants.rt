//! Which constants fields may have (JVMS table 4.7.2-A).

ghost use Rattle.std.specs.Prelude.{◌≡◌};
ghost use Rattle.wf_grammar.specs.ClassFile.{is_int_type, is_constant_of, has_constant_of};

use wf_data::PoolEntry;

/// Whether the values of a type are ints.
fn is_int_type(desc: &[u8]) -> bool
    ensures { result ≡ is_int_type desc.now }
{
    desc == b"B".as_slice()
        || desc == b"C".as_slice()
        || desc == b"I".as_slice()
        || desc == b"S".as_slice()
        || desc == b"Z".as_slice()
}

/// Whether a field of this type may have this constant.
fn is_constant_of(desc: &[u8], entry: &PoolEntry) -> bool
    ensures { result ≡ is_constant_of desc.now entry.now }
{
    match entry {
        PoolEntry::Integer(_) => is_int_type(desc),
        PoolEntry::Long(_) => desc == b"J".as_slice(),
        PoolEntry::Float(_) => desc == b"F".as_slice(),
        PoolEntry::Double(_) => desc == b"D".as_slice(),
        PoolEntry::Str(_) => desc == b"Ljava/lang/String;".as_slice(),
        _ => false,
    }
}

/// Whether a constant that a field of this type may have stands at a place.
pub fn has_constant_of(pool: &[PoolEntry], desc: &[u8], place: u16) -> bool
    ensures { result ≡ has_constant_of pool.now desc.now place }
{
    match pool.get(place as usize) {
        Some(entry) => is_constant_of(desc, entry),
        None => false,
    }
}
