//! What the summary says of literals, and `ldc`.

ghost use Rattle.std.specs.Prelude.{◌≡◌, ◌<◌, length, IfOk, IfSome, OnOk, option_and_then};
ghost use Rattle.wf_classes.specs.Members.{field_keys, member_count};
ghost use Rattle.wf_opcode.specs.Instructions.{place_of};
ghost use Rattle.wf_actions.specs.Literals.{stated_of, IsLiteralField, AreLiteralFields, AreFieldsThere, with_field};
ghost use Rattle.wf_actions.specs.Actions.{at_of, int_at, int_action, IsLiteralOf, IsLiteral, IsConstant};

use crate::instruction::Instruction;
use crate::named::type_of_class;
use std::alloc::{AllocError, Global};
use wf_base::{ClassId, Items};
use wf_binding::{LiteralNumbers, ValueNumbers};
use wf_classes::{Classes, declared_field};
use wf_data::PoolEntry;
use wf_linking::{Linked, resolve};
use wf_operation::place_of;
use wf_rows::{Action, Computation, Literal, LiteralField, StatedValue};
use wf_subtype::Types;

/// A value that a line on literals can state.
fn stated_of(value: ValueNumbers) -> Option<StatedValue>
    ensures { result ≡ stated_of value }
{
    match value {
        ValueNumbers::Null => Some(StatedValue::Null),
        ValueNumbers::AnyInt => Some(StatedValue::AnyInt),
        ValueNumbers::AnyLong => Some(StatedValue::AnyLong),
        ValueNumbers::Int(n) => Some(StatedValue::Int(n)),
        ValueNumbers::New(t) => Some(StatedValue::New(t)),
        ValueNumbers::Under(u) => Some(StatedValue::Under(u)),
        ValueNumbers::Arg(_) => None,
    }
}

/// What a line says of literals of a class.
fn literal_field(classes: &Classes, c: ClassId, line: LiteralNumbers) -> Option<LiteralField>
    requires { line.field.0 < member_count (field_keys classes.now) }
    ensures { IsLiteralField classes.now c.0 line result }
{
    if declared_field(classes, line.field).class.0 != c.0 {
        return None;
    }
    match stated_of(line.value) {
        Some(value) => Some(LiteralField {
            field: line.field,
            value,
        }),
        None => None,
    }
}

fn push_field(fields: &mut Vec<LiteralField>, field: Option<LiteralField>) -> Result<(), AllocError>
    ensures { OnOk result (fields.new.items ≡ with_field fields.old.items field) }
{
    match field {
        Some(field) => fields.push(field)?,
        None => {}
    }
    Ok(())
}

/// What the summary says of literals of a class, in the order of its lines.
fn literal_fields(
    alloc: Global,
    classes: &Classes,
    c: ClassId,
    lines: &[LiteralNumbers],
) -> Result<Items<LiteralField>, AllocError>
    requires { AreFieldsThere classes.now lines.now }
    ensures { IfOk result (AreLiteralFields classes.now c.0 lines.now (length lines.now)) }
{
    let mut fields = Vec::new(alloc);
    for line in lines {
        push_field(&mut fields, literal_field(classes, c, *line))?;
    }
    Ok(Items::from_vec(fields))
}

/// A literal of a class.
fn literal_of(
    alloc: Global,
    types: &Types,
    literals: &[LiteralNumbers],
    c: ClassId,
) -> Result<Option<Action>, AllocError>
    requires class_in { c.0 < length types.now.classes }
    requires fields_in { AreFieldsThere types.now.classes literals.now }
    ensures { IfOk result (IsLiteralOf (record { types = types.now; literals = literals.now }) c) }
{
    let fields = literal_fields(alloc, types.classes(), c, literals)?;
    match type_of_class(types, c) {
        Some(class) => Ok(Some(Action::Literal(Ok(Literal { class, fields })))),
        None => Ok(None),
    }
}

/// The int constant that an instruction names.
fn int_at(at: &Instruction<'_>) -> Option<i32>
    ensures { result ≡ int_at (at_of at.now) }
{
    let place = place_of(at.instr.a)?;
    match at.pool.get(place as usize)? {
        PoolEntry::Integer(n) => Some(*n),
        _ => None,
    }
}

/// It is given.
fn int_action(at: &Instruction<'_>) -> Option<Action>
    ensures { result ≡ int_action (at_of at.now) }
{
    Some(Action::Computes(Computation::Int(int_at(at)?)))
}

/// A string or a class as an object.
fn literal_at(
    alloc: Global,
    types: &Types,
    literals: &[LiteralNumbers],
    at: &Instruction<'_>,
) -> Result<Option<Action>, AllocError>
    requires { AreFieldsThere types.now.classes literals.now }
    ensures { IfOk result (IsLiteral (record { types = types.now; literals = literals.now }) (at_of at.now)) }
{
    match resolve(types.classes(), at.pool, at.instr) {
        Some(Ok(Linked::Object(c))) => literal_of(alloc, types, literals, c),
        Some(Err(error)) => Ok(Some(Action::Literal(Err(error)))),
        _ => Ok(None),
    }
}

/// What `ldc` does.
pub fn constant(
    alloc: Global,
    types: &Types,
    literals: &[LiteralNumbers],
    at: &Instruction<'_>,
) -> Result<Option<Action>, AllocError>
    requires { AreFieldsThere types.now.classes literals.now }
    ensures { IfOk result (IsConstant (record { types = types.now; literals = literals.now }) (at_of at.now)) }
{
    match int_action(at) {
        Some(action) => Ok(Some(action)),
        None => literal_at(alloc, types, literals, at),
    }
}
