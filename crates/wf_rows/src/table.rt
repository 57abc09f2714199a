//! The rows of a place, and which nodes of its own it has.

ghost use Rattle.std.specs.Prelude.{◌≡◌, ◌++◌, OnOk};
ghost use Rattle.wf_rows.specs.Renaming.{all_renamed};
ghost use Rattle.wf_rows.specs.Table.{IsShort, rows_at, place_rows};

use crate::action::Action;
use crate::arrays::{push_array, push_making, push_test};
use crate::branches::push_branches;
use crate::calls::{push_call, push_return, push_static_call};
use crate::context::Context;
use crate::errors::push_errors;
use crate::fields::push_field;
use crate::known::Known;
use crate::values::{push_computed, push_literal};
use std::alloc::AllocError;
use wf_base::NodeId;
use wf_operation::Next;
use wf_system::Inequality;

/// Adds the rows of what an instruction does, in the order of the table.
pub fn push_action<C: Context>(
    context: &C,
    known: &Known<'_>,
    action: &Action,
    rows: &mut Vec<Inequality<NodeId>>,
) -> Result<(), AllocError>
    requires { IsShort action.now }
    ensures { OnOk result (rows.new.items ≡ rows.old.items ++ all_renamed (C.number context.now) (rows_at known.now (C.arrays context.now) action.now)) }
{
    match action {
        Action::Computes(computation) => push_computed(context, known, *computation, rows),
        Action::Literal(literal) => push_literal(context, known, literal, rows),
        Action::Field(field) => push_field(context, known, field, rows),
        Action::Array(array) => push_array(context, known, *array, rows),
        Action::Makes(making) => push_making(context, known, making, rows),
        Action::Tests(test) => push_test(context, known, test, rows),
        Action::CallsStatic(call) => push_static_call(context, known, call, rows),
        Action::Calls(call) => push_call(context, known, call, rows),
        Action::Returns(kind) => push_return(context, known, *kind, rows),
        Action::Moves | Action::Throws | Action::Monitors => Ok(()),
    }
}

/// Adds all rows of a place: those of its edges, of what it does and of what it throws. `next` is where its
/// instruction leads, and `keys` the number of the list of keys of a switch.
pub fn push_place<C: Context>(
    context: &C,
    known: &Known<'_>,
    next: &Next,
    keys: u32,
    action: &Action,
    rows: &mut Vec<Inequality<NodeId>>,
) -> Result<(), AllocError>
    requires { IsShort action.now }
    ensures { OnOk result (rows.new.items ≡ rows.old.items ++ all_renamed (C.number context.now) (place_rows known.now (C.arrays context.now) (C.thrown context.now) keys next.now action.now)) }
{
    push_branches(context, known, next, keys, rows)?;
    push_action(context, known, action, rows)?;
    push_errors(context, known, action, rows)
}
