ghost use Rattle.std.specs.Prelude.{◌≡◌, ◌≤◌, false, IsTrue, IfOk, OnOk, length};
ghost use Rattle.std.specs.Option.{option_copied};
ghost use Rattle.wf_opcode.specs.Instructions.{place_of};
ghost use Rattle.wf_classes.specs.World.{IsClosedWorld, IsAscending};
ghost use Rattle.wf_subtype.specs.References.{IsArray};
ghost use Rattle.wf_subtype.specs.Universe.{letter_of, array_name, operand_name, Makes, MakesOne, CodeMakes, MethodMakes, ClassMakes, IsMade, IsAmong, HasObjects, IsInstantiable, IsUniverse, Inserts, InsertsArrays, IsComponent, HasShortCode, HaveShortCodes};

use crate::reference::{brackets, reference_of};
use std::alloc::{AllocError, Global};
use std::collections::BTreeSet;
use wf_base::{Items, Text};
use wf_classes::Classes;
use wf_constpool::class_at;
use wf_data::{ClassInfo, Instr, MethodInfo, Placed, PoolEntry, is_abstract, is_interface};
use wf_opcode::{DecodeFault, decode};

/// The letter of the primitive type of a newarray (JVMS table 6.5.newarray-A).
pub fn letter_of(code: u16) -> u8
    ensures { result ≡ letter_of code }
{
    match code {
        4 => b'Z',
        5 => b'C',
        6 => b'F',
        7 => b'D',
        8 => b'B',
        9 => b'S',
        10 => b'I',
        _ => b'J',
    }
}

/// The name of the arrays of a class or an array.
pub fn array_name(alloc: Global, name: &[u8]) -> Result<Text, AllocError>
    ensures { IfOk result (λ text. text ≡ array_name name.now) }
{
    let mut text = Text::new(alloc);
    if brackets(name) == 0 {
        text.push_slice(b"[L".as_slice())?;
        text.push_slice(name)?;
        text.push_slice(b";".as_slice())?;
        return Ok(text);
    }
    text.push_slice(b"[".as_slice())?;
    text.push_slice(name)?;
    Ok(text)
}

/// The first operand of an instruction, where it is a number of two bytes.
fn first_operand(instr: &Instr) -> Option<u16>
    ensures { result ≡ place_of instr.now.a }
{
    u16::try_from(instr.a).ok()
}

/// The second operand.
fn second_operand(instr: &Instr) -> Option<u16>
    ensures { result ≡ place_of instr.now.b }
{
    u16::try_from(instr.b).ok()
}

/// The name of a class or an array that an instruction has as its operand.
pub fn operand_name<'p>(pool: &'p [PoolEntry], instr: &Instr) -> Option<&'p [u8]>
    ensures { option_copied result ≡ operand_name pool.now instr.now }
{
    class_at(pool, first_operand(instr)?)
}

/// Whether a name is that of an array that is loadable.
fn is_array(classes: &Classes, name: &[u8]) -> bool
    requires { IsClosedWorld classes.now }
    ensures some { IsTrue result → IsArray classes.now name.now }
    ensures none { result ≡ false → IsArray classes.now name.now → ⊥ }
{
    match reference_of(classes, name) {
        Some(r) => r.dims > 0,
        None => false,
    }
}

/// Inserts a name, where it is that of an array that is loadable.
fn insert_array(
    alloc: Global,
    classes: &Classes,
    name: &[u8],
    types: &mut BTreeSet<Text>,
) -> Result<(), AllocError>
    requires { IsClosedWorld classes.now }
    ensures { OnOk result (InsertsArrays classes.now types.old.keys types.new.keys (λ n. n ≡ name.now)) }
{
    if is_array(classes, name) {
        types.insert(Text::from_slice(alloc, name)?)?;
    }
    Ok(())
}

/// Inserts the components of an array, so many of them, itself among them.
fn insert_components(
    alloc: Global,
    classes: &Classes,
    name: &[u8],
    lengths: u16,
    types: &mut BTreeSet<Text>,
) -> Result<(), AllocError>
    requires { IsClosedWorld classes.now }
    ensures { OnOk result (InsertsArrays classes.now types.old.keys types.new.keys (IsComponent name.now lengths)) }
{
    let count = name.len().min(lengths as usize);
    for n in 0..count {
        insert_array(alloc, classes, &name[n..], types)?;
    }
    Ok(())
}

/// Inserts the arrays that a newarray makes.
fn insert_primitives(
    alloc: Global,
    classes: &Classes,
    pool: &[PoolEntry],
    instr: &Instr,
    types: &mut BTreeSet<Text>,
) -> Result<(), AllocError>
    requires world { IsClosedWorld classes.now }
    requires op { instr.now.op ≡ 0xBC }
    ensures { OnOk result (InsertsArrays classes.now types.old.keys types.new.keys (Makes pool.now instr.now)) }
{
    match first_operand(instr) {
        Some(code) => insert_array(alloc, classes, &[b'[', letter_of(code)], types),
        None => Ok(()),
    }
}

/// Inserts the arrays that an anewarray makes.
fn insert_references(
    alloc: Global,
    classes: &Classes,
    pool: &[PoolEntry],
    instr: &Instr,
    types: &mut BTreeSet<Text>,
) -> Result<(), AllocError>
    requires world { IsClosedWorld classes.now }
    requires op { instr.now.op ≡ 0xBD }
    ensures { OnOk result (InsertsArrays classes.now types.old.keys types.new.keys (Makes pool.now instr.now)) }
{
    match operand_name(pool, instr) {
        Some(component) => {
            let name = array_name(alloc, component)?;
            insert_array(alloc, classes, name.as_slice(), types)
        }
        None => Ok(()),
    }
}

/// Inserts the arrays that a multianewarray makes.
fn insert_arrays_of_arrays(
    alloc: Global,
    classes: &Classes,
    pool: &[PoolEntry],
    instr: &Instr,
    types: &mut BTreeSet<Text>,
) -> Result<(), AllocError>
    requires world { IsClosedWorld classes.now }
    requires op { instr.now.op ≡ 0xC5 }
    ensures { OnOk result (InsertsArrays classes.now types.old.keys types.new.keys (Makes pool.now instr.now)) }
{
    match operand_name(pool, instr) {
        Some(outer) => match second_operand(instr) {
            Some(lengths) => insert_components(alloc, classes, outer, lengths, types),
            None => Ok(()),
        },
        None => Ok(()),
    }
}

/// Inserts the arrays that an instruction makes.
fn insert_made(
    alloc: Global,
    classes: &Classes,
    pool: &[PoolEntry],
    instr: &Instr,
    types: &mut BTreeSet<Text>,
) -> Result<(), AllocError>
    requires { IsClosedWorld classes.now }
    ensures { OnOk result (InsertsArrays classes.now types.old.keys types.new.keys (Makes pool.now instr.now)) }
{
    if instr.op == 0xBC {
        return insert_primitives(alloc, classes, pool, instr, types);
    }
    if instr.op == 0xBD {
        return insert_references(alloc, classes, pool, instr, types);
    }
    if instr.op == 0xC5 {
        return insert_arrays_of_arrays(alloc, classes, pool, instr, types);
    }
    Ok(())
}

/// Inserts the arrays that the instructions of a code make.
fn insert_all_made(
    alloc: Global,
    classes: &Classes,
    pool: &[PoolEntry],
    code: &[Placed],
    types: &mut BTreeSet<Text>,
) -> Result<(), AllocError>
    requires { IsClosedWorld classes.now }
    ensures { OnOk result (InsertsArrays classes.now types.old.keys types.new.keys (MakesOne pool.now code.now)) }
{
    for placed in code {
        insert_made(alloc, classes, pool, &placed.instr, types)?;
    }
    Ok(())
}

/// Inserts the arrays that a code makes, where it is instructions as a whole.
fn insert_code(
    alloc: Global,
    classes: &Classes,
    pool: &[PoolEntry],
    code: &[u8],
    types: &mut BTreeSet<Text>,
) -> Result<(), AllocError>
    requires world { IsClosedWorld classes.now }
    requires short { length code.now ≤ 65535 }
    ensures { OnOk result (InsertsArrays classes.now types.old.keys types.new.keys (CodeMakes pool.now code.now)) }
{
    match decode(alloc, code) {
        Ok(placed) => insert_all_made(alloc, classes, pool, placed.as_slice(), types),
        Err(DecodeFault::BadCode { .. }) => Ok(()),
        Err(DecodeFault::NoMemory) => Err(AllocError),
    }
}

/// Inserts the arrays that the code of a method makes.
fn insert_method(
    alloc: Global,
    classes: &Classes,
    pool: &[PoolEntry],
    method: &MethodInfo,
    types: &mut BTreeSet<Text>,
) -> Result<(), AllocError>
    requires world { IsClosedWorld classes.now }
    requires short { HasShortCode method.now }
    ensures { OnOk result (InsertsArrays classes.now types.old.keys types.new.keys (MethodMakes pool.now method.now)) }
{
    match &method.code {
        Some(code) => insert_code(alloc, classes, pool, code.code.as_slice(), types),
        None => Ok(()),
    }
}

/// Inserts the arrays that the methods of a class make.
fn insert_class(
    alloc: Global,
    classes: &Classes,
    class: &ClassInfo,
    types: &mut BTreeSet<Text>,
) -> Result<(), AllocError>
    requires world { IsClosedWorld classes.now }
    requires short { HaveShortCodes class.now }
    ensures { OnOk result (InsertsArrays classes.now types.old.keys types.new.keys (ClassMakes class.now)) }
{
    let pool = class.pool.as_slice();
    for method in class.methods.as_slice() {
        insert_method(alloc, classes, pool, method, types)?;
    }
    Ok(())
}

/// Inserts the arrays that the classes make.
fn insert_classes(
    alloc: Global,
    classes: &Classes,
    types: &mut BTreeSet<Text>,
) -> Result<(), AllocError>
    ensures { OnOk result (InsertsArrays classes.now types.old.keys types.new.keys (IsMade classes.now)) }
{
    for class in classes.list().as_slice() {
        insert_class(alloc, classes, class, types)?;
    }
    Ok(())
}

/// Inserts the arrays among some names.
fn insert_named(
    alloc: Global,
    classes: &Classes,
    named: &[Text],
    types: &mut BTreeSet<Text>,
) -> Result<(), AllocError>
    requires { IsClosedWorld classes.now }
    ensures { OnOk result (InsertsArrays classes.now types.old.keys types.new.keys (IsAmong named.now)) }
{
    for name in named {
        insert_array(alloc, classes, name.as_slice(), types)?;
    }
    Ok(())
}

/// Inserts the name of a class, where it has objects.
fn insert_if_instantiable(class: &ClassInfo, types: &mut BTreeSet<Text>) -> Result<(), AllocError>
    ensures { OnOk result (Inserts types.old.keys types.new.keys (HasObjects class.now)) }
{
    if is_abstract(class.flags) {
        return Ok(());
    }
    if is_interface(class.flags) {
        return Ok(());
    }
    types.insert(class.name.clone()?)?;
    Ok(())
}

/// Inserts the names of the classes that have objects.
fn insert_instantiable(classes: &[ClassInfo], types: &mut BTreeSet<Text>) -> Result<(), AllocError>
    ensures { OnOk result (Inserts types.old.keys types.new.keys (IsInstantiable classes.now)) }
{
    for class in classes {
        insert_if_instantiable(class, types)?;
    }
    Ok(())
}

/// The names of a set, in the order of their bytes.
fn in_order(alloc: Global, types: BTreeSet<Text>) -> Result<Vec<Text>, AllocError>
    ensures keys { IfOk result (λ names. names.items ≡ types.keys) }
    ensures ascending { IfOk result (λ names. IsAscending names.items) }
{
    let mut names = Vec::new(alloc);
    for name in types {
        names.push(name)?;
    }
    Ok(names)
}

/// The names of the types, in the order of their bytes.
pub fn type_names(alloc: Global, classes: &Classes, named: &[Text]) -> Result<Vec<Text>, AllocError>
    ensures { IfOk result (λ names. IsUniverse classes.now named.now names.items) }
{
    let mut types = BTreeSet::new(alloc);
    insert_instantiable(classes.list().as_slice(), &mut types)?;
    insert_classes(alloc, classes, &mut types)?;
    insert_named(alloc, classes, named, &mut types)?;
    Ok(in_order(alloc, types)?)
}
