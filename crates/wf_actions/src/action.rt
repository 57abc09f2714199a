//! What an instruction does.

ghost use Rattle.std.specs.Prelude.{◌≡◌, IfOk};
ghost use Rattle.wf_linking.specs.Linking.{IsAmongClasses};
ghost use Rattle.wf_rows.specs.Actions.{plain_action};
ghost use Rattle.wf_actions.specs.Literals.{AreFieldsThere};
ghost use Rattle.wf_actions.specs.Actions.{at_of, linked_action, IsLinkedAction, IsNamedAction, IsAction};

use crate::arrays::{new_many, new_object, new_primitives, new_references};
use crate::calls::call;
use crate::fields::{get, get_static, put, put_static};
use crate::instruction::Instruction;
use crate::literals::constant;
use crate::operands::{taken_slots, top_kind};
use crate::tests_of_types::{cast, instance_of};
use std::alloc::{AllocError, Global};
use wf_binding::LiteralNumbers;
use wf_linking::{Linked, resolve};
use wf_names::LinkError;
use wf_operation::{Sort, place_of};
use wf_rows::{Action, plain_action};
use wf_subtype::{Types, operand_name};

/// What an instruction of a sort does, where what it names resolves so.
fn linked_action(
    alloc: Global,
    types: &Types,
    at: &Instruction<'_>,
    sort: Sort,
    linked: Result<Linked, LinkError>,
) -> Result<Option<Action>, AllocError>
    requires { IfOk linked (IsAmongClasses types.now.classes) }
    ensures { IfOk result (λ action. action ≡ linked_action types.now (at_of at.now) sort linked) }
{
    match sort {
        Sort::GetStatic => Ok(get_static(linked)),
        Sort::PutStatic => match top_kind(taken_slots(&at.operation.effect)) {
            Some(kind) => Ok(put_static(linked, kind)),
            None => Ok(None),
        },
        Sort::GetField => Ok(get(linked)),
        Sort::PutField => match top_kind(taken_slots(&at.operation.effect)) {
            Some(kind) => Ok(put(linked, kind)),
            None => Ok(None),
        },
        Sort::New => Ok(new_object(types, linked)),
        Sort::NewRefArray => {
            let name = operand_name(at.pool, at.instr);
            new_references(alloc, types, name, linked)
        }
        Sort::NewManyArray => {
            let name = operand_name(at.pool, at.instr);
            new_many(alloc, types, name, place_of(at.instr.b), linked)
        }
        Sort::Invoke(how) => call(alloc, at, how, linked),
        _ => Ok(None),
    }
}

/// The same, by resolving what it names.
fn resolved_action(
    alloc: Global,
    types: &Types,
    at: &Instruction<'_>,
    sort: Sort,
) -> Result<Option<Action>, AllocError>
    ensures { IfOk result (IsLinkedAction types.now (at_of at.now) sort) }
{
    match resolve(types.classes(), at.pool, at.instr) {
        Some(linked) => linked_action(alloc, types, at, sort, linked),
        None => Ok(None),
    }
}

/// The same, of any sort that names something.
fn named_action(
    alloc: Global,
    types: &Types,
    literals: &[LiteralNumbers],
    at: &Instruction<'_>,
    sort: Sort,
) -> Result<Option<Action>, AllocError>
    requires { AreFieldsThere types.now.classes literals.now }
    ensures { IfOk result (IsNamedAction (record { types = types.now; literals = literals.now }) (at_of at.now) sort) }
{
    match sort {
        Sort::PoolConstant => constant(alloc, types, literals, at),
        Sort::NewArray => Ok(new_primitives(types, at.instr)),
        Sort::Cast => Ok(cast(types, at)),
        Sort::InstanceOf => Ok(instance_of(types, at)),
        other => resolved_action(alloc, types, at, other),
    }
}

/// What an instruction does that names nothing.
fn plain_at(at: &Instruction<'_>) -> Option<Action>
    ensures { result ≡ plain_action at.now.operation.now.sort at.now.instr.now.a }
{
    plain_action(at.operation.sort, at.instr.a)
}

/// What an instruction does, by what it names and what that resolves to. None where an operand is wrong, or names a type
/// that isn't one of the run's: neither is so in a method that isn't refused, where the types are those of the run.
pub fn action_of(
    alloc: Global,
    types: &Types,
    literals: &[LiteralNumbers],
    at: &Instruction<'_>,
) -> Result<Option<Action>, AllocError>
    requires { AreFieldsThere types.now.classes literals.now }
    ensures { IfOk result (IsAction (record { types = types.now; literals = literals.now }) (at_of at.now)) }
{
    match plain_at(at) {
        Some(action) => Ok(Some(action)),
        None => named_action(alloc, types, literals, at, at.operation.sort),
    }
}
