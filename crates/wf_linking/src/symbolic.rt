//! What an instruction names in the constant pool.

ghost use Rattle.std.specs.Prelude.{◌≡◌, option_and_then, option_map, slice_get};
ghost use Rattle.wf_data.specs.Pool.{member_with, method_with, name_type_in};
ghost use Rattle.wf_names.specs.Members.{named_by};
ghost use Rattle.wf_opcode.specs.Instructions.{place_of};
ghost use Rattle.wf_linking.specs.Symbolic.{symbolic_by, constant_named, field_named, method_named, symbolic_at, symbolic_of};

use wf_constpool::{class_at, text_at};
use wf_data::{Instr, PoolEntry};
use wf_names::MemberRef;
use wf_operation::{Call, Sort, sort_of};
use wf_resolve::Calling;

/// A symbolic reference of the constant pool (JVMS 5.1), by the instruction that has it as its operand.
#[derive(Clone, Copy, Debug)]
pub enum SymbolicRef<'a> {
    /// A string, of `ldc`.
    StringConstant,
    /// A class or an array as an object, of `ldc`.
    ClassConstant(&'a [u8]),
    /// The class of a new object, of `new`.
    NewObject(&'a [u8]),
    /// A class or an array: what `checkcast` and `instanceof` test for, the components of `anewarray`, the arrays of
    /// `multianewarray`.
    TypeName(&'a [u8]),
    /// A field of a class, of `getstatic` and `putstatic`, or of objects, of `getfield` and `putfield`.
    FieldName {
        of_class: bool,
        member: MemberRef<'a>,
    },
    /// A method of a class or of an interface, as the tag of the entry says, and how it is called.
    MethodName {
        call: Calling,
        of_interface: bool,
        member: MemberRef<'a>,
    },
}

/// The member of a class with the name and the descriptor at a place.
fn member_at<'p>(pool: &'p [PoolEntry], class: &'p [u8], place: u16) -> Option<MemberRef<'p>>
    ensures { option_map named_by result ≡ option_and_then (member_with pool.now class.now) (option_and_then name_type_in (slice_get pool.now place)) }
{
    match pool.get(place as usize)? {
        PoolEntry::NameType(name, desc) => Some(MemberRef {
            class,
            name: text_at(pool, *name)?,
            desc: text_at(pool, *desc)?,
        }),
        _ => None,
    }
}

/// The member whose class, and whose name with its descriptor, stand at these places.
fn member_by(pool: &[PoolEntry], class: u16, name_type: u16) -> Option<MemberRef<'_>>
    ensures { option_map named_by result ≡ method_with pool.now (class, name_type) }
{
    member_at(pool, class_at(pool, class)?, name_type)
}

/// What `ldc` names, but numbers.
fn constant_named<'p>(pool: &'p [PoolEntry], entry: &PoolEntry) -> Option<SymbolicRef<'p>>
    ensures { option_map symbolic_by result ≡ constant_named pool.now entry.now }
{
    match entry {
        PoolEntry::Str(_) => Some(SymbolicRef::StringConstant),
        PoolEntry::Class(name) => Some(SymbolicRef::ClassConstant(text_at(pool, *name)?)),
        _ => None,
    }
}

fn field_named<'p>(
    pool: &'p [PoolEntry],
    of_class: bool,
    entry: &PoolEntry,
) -> Option<SymbolicRef<'p>>
    ensures { option_map symbolic_by result ≡ field_named pool.now of_class entry.now }
{
    match entry {
        PoolEntry::Field(class, name_type) => Some(SymbolicRef::FieldName {
            of_class,
            member: member_by(pool, *class, *name_type)?,
        }),
        _ => None,
    }
}

fn method_named<'p>(pool: &'p [PoolEntry], call: Call, entry: &PoolEntry) -> Option<SymbolicRef<'p>>
    ensures { option_map symbolic_by result ≡ method_named pool.now call entry.now }
{
    let (call, of_interface, class, name_type) = match (call, entry) {
        (Call::Virtual, PoolEntry::Method(c, n)) => (Calling::Object, false, *c, *n),
        (Call::Special, PoolEntry::Method(c, n)) => (Calling::Special, false, *c, *n),
        (Call::Static, PoolEntry::Method(c, n)) => (Calling::Static, false, *c, *n),
        (Call::Special, PoolEntry::InterfaceMethod(c, n)) => (Calling::Special, true, *c, *n),
        (Call::Static, PoolEntry::InterfaceMethod(c, n)) => (Calling::Static, true, *c, *n),
        (Call::Interface, PoolEntry::InterfaceMethod(c, n)) => (Calling::Object, true, *c, *n),
        _ => return None,
    };
    Some(SymbolicRef::MethodName {
        call,
        of_interface,
        member: member_by(pool, class, name_type)?,
    })
}

/// What an instruction of a sort names by a place.
fn symbolic_at(pool: &[PoolEntry], place: u16, sort: Sort) -> Option<SymbolicRef<'_>>
    ensures { option_map symbolic_by result ≡ symbolic_at pool.now place sort }
{
    match sort {
        Sort::PoolConstant => constant_named(pool, pool.get(place as usize)?),
        Sort::New => Some(SymbolicRef::NewObject(class_at(pool, place)?)),
        Sort::Cast | Sort::InstanceOf | Sort::NewRefArray | Sort::NewManyArray => {
            Some(SymbolicRef::TypeName(class_at(pool, place)?))
        }
        Sort::GetStatic | Sort::PutStatic => field_named(pool, true, pool.get(place as usize)?),
        Sort::GetField | Sort::PutField => field_named(pool, false, pool.get(place as usize)?),
        Sort::Invoke(call) => method_named(pool, call, pool.get(place as usize)?),
        _ => None,
    }
}

/// A place of the pool, where a number is one.
fn place_of(number: i32) -> Option<u16>
    ensures { result ≡ place_of number }
{
    u16::try_from(number).ok()
}

/// What an instruction names in the constant pool of its class. None where it names nothing that is resolved, and where
/// the pool has no entry of the sort that the instruction needs.
pub fn symbolic_of<'p>(pool: &'p [PoolEntry], instr: &Instr) -> Option<SymbolicRef<'p>>
    ensures { option_map symbolic_by result ≡ symbolic_of pool.now instr.now }
{
    let sort = sort_of(instr.op)?;
    let place = place_of(instr.a)?;
    symbolic_at(pool, place, sort)
}
