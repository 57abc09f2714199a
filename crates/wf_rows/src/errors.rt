//! What the machine throws.

ghost use Rattle.std.specs.Prelude.{◌≡◌, ◌++◌, OnOk};
ghost use Rattle.wf_rows.specs.Renaming.{all_renamed};
ghost use Rattle.wf_rows.specs.Errors.{computation_errors, field_errors, array_errors, making_errors, test_errors, own_errors, error_of, field_error, making_error, test_error, link_error, thrown_rows, error_rows, failing_rows, machine_rows};

use crate::action::{Action, ArrayUse, Computation, FieldUse, Making, TypeTest};
use crate::context::{Context, push};
use crate::known::{Known, row_under};
use crate::node::{Node, Own};
use crate::throwable::Throwable;
use std::alloc::AllocError;
use wf_base::NodeId;
use wf_names::LinkError;
use wf_system::{Guard, Inequality, ValueOp};

fn array_errors(array: ArrayUse) -> &'static [Throwable]
    ensures { result.now ≡ array_errors array }
{
    match array {
        ArrayUse::Length => &[Throwable::NullPointer],
        ArrayUse::LoadInt | ArrayUse::LoadLong | ArrayUse::LoadRef | ArrayUse::StoreNumber => {
            &[Throwable::NullPointer, Throwable::ArrayIndexOutOfBounds]
        }
        ArrayUse::StoreRef => &[
            Throwable::NullPointer,
            Throwable::ArrayIndexOutOfBounds,
            Throwable::ArrayStore,
        ],
    }
}

/// What an instruction may throw, however its operand resolves.
pub fn own_errors(action: &Action) -> &'static [Throwable]
    ensures { result.now ≡ own_errors action.now }
{
    match action {
        Action::Computes(Computation::IntQuotient | Computation::LongQuotient) => {
            &[Throwable::Arithmetic]
        }
        Action::Field(FieldUse::Get(_) | FieldUse::Put(_, _)) => &[Throwable::NullPointer],
        Action::Array(array) => array_errors(*array),
        Action::Makes(Making::Array(_) | Making::ManyArray(_)) => &[Throwable::NegativeArraySize],
        Action::Tests(TypeTest::Cast(_)) => &[Throwable::ClassCast],
        Action::Calls(_) => &[
            Throwable::NullPointer,
            Throwable::IncompatibleClassChange,
            Throwable::AbstractMethod,
        ],
        Action::Throws | Action::Monitors => &[Throwable::NullPointer],
        _ => &[],
    }
}

fn error_of<A>(resolved: &Result<A, LinkError>) -> Option<LinkError>
    ensures { result ≡ error_of resolved.now }
{
    match resolved {
        Ok(_) => None,
        Err(error) => Some(*error),
    }
}

/// How what an instruction names fails to resolve, where it does.
pub fn link_error(action: &Action) -> Option<LinkError>
    ensures { result ≡ link_error action.now }
{
    match action {
        Action::Literal(literal) => error_of(literal),
        Action::Field(FieldUse::GetStatic(field) | FieldUse::PutStatic(field, _)) => error_of(
            field,
        ),
        Action::Field(FieldUse::Get(field) | FieldUse::Put(field, _)) => error_of(field),
        Action::Makes(Making::Object(object)) => error_of(object),
        Action::Makes(Making::Array(array)) => error_of(array),
        Action::Makes(Making::ManyArray(many)) => error_of(many),
        Action::Tests(TypeTest::Cast(target) | TypeTest::InstanceOf(target)) => error_of(target),
        Action::CallsStatic(call) => error_of(call),
        Action::Calls(call) => error_of(call),
        Action::Moves
        | Action::Computes(_)
        | Action::Array(_)
        | Action::Returns(_)
        | Action::Throws
        | Action::Monitors => None,
    }
}

fn push_error<C: Context>(
    context: &C,
    guard: Guard<Node<Own>>,
    error: Throwable,
    rows: &mut Vec<Inequality<NodeId>>,
) -> Result<(), AllocError>
    ensures { OnOk result (rows.new.items ≡ rows.old.items ++ all_renamed (C.number context.now) (thrown_rows guard (C.thrown context.now error))) }
{
    match context.thrown(error) {
        Some(class) => push(
            context,
            row_under(guard, Node::Inst, ValueOp::OneType(class)),
            rows,
        ),
        None => Ok(()),
    }
}

/// Adds the rows of errors that may be thrown where the guard holds.
pub fn push_all<C: Context>(
    context: &C,
    guard: Guard<Node<Own>>,
    errors: &[Throwable],
    rows: &mut Vec<Inequality<NodeId>>,
) -> Result<(), AllocError>
    ensures { OnOk result (rows.new.items ≡ rows.old.items ++ all_renamed (C.number context.now) (error_rows guard (C.thrown context.now) errors.now)) }
{
    for error in errors {
        push_error(context, guard, *error, rows)?;
    }
    Ok(())
}

/// Adds the rows of what the machine may throw at an instruction.
pub fn push_errors<C: Context>(
    context: &C,
    known: &Known<'_>,
    action: &Action,
    rows: &mut Vec<Inequality<NodeId>>,
) -> Result<(), AllocError>
    ensures { OnOk result (rows.new.items ≡ rows.old.items ++ all_renamed (C.number context.now) (machine_rows known.now (C.thrown context.now) action.now)) }
{
    let guard = Guard::NonEmpty(known.predicate);
    push_all(context, guard, own_errors(action), rows)?;
    match link_error(action) {
        Some(error) => push_error(context, guard, Throwable::of(error), rows),
        None => Ok(()),
    }
}
