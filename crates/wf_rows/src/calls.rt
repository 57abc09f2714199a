//! Calls and returns.

ghost use Rattle.std.specs.Prelude.{◌≡◌, ◌++◌, ◌<◌, ◌≤◌, ◌^◌, OnOk, length};
ghost use Rattle.std.specs.Result.{ForOk};
ghost use Rattle.wf_rows.specs.Renaming.{all_renamed};
ghost use Rattle.wf_rows.specs.Calls.{argument_rows, static_rows, candidate_rows, selected_rows, return_rows};
ghost use Rattle.wf_rows.specs.Each.{each_from};

use crate::action::{SelectedCall, StaticCall};
use crate::context::{Context, push};
use crate::known::{Known, row_under};
use crate::node::{Node, Own};
use std::alloc::AllocError;
use wf_base::{Kind, MethodId, NodeId};
use wf_names::LinkError;
use wf_system::{Guard, Inequality, ValueOp};

/// The arguments that stand at these depths flow into the parameters from `first` on.
fn push_arguments<C: Context>(
    context: &C,
    known: &Known<'_>,
    guard: Guard<Node<Own>>,
    method: MethodId,
    first: usize,
    depths: &[usize],
    rows: &mut Vec<Inequality<NodeId>>,
) -> Result<(), AllocError>
    requires { first ≤ 1 }
    ensures { OnOk result (rows.new.items ≡ rows.old.items ++ all_renamed (C.number context.now) (each_from (argument_rows known.now guard method) first depths.now)) }
{
    for (i, depth) in depths.iter().enumerate() {
        let parameter = Node::Parameter(method, first + i);
        let argument = ValueOp::Copy(known.operand(*depth));
        push(context, row_under(guard, parameter, argument), rows)?;
    }
    Ok(())
}

pub fn push_static_call<C: Context>(
    context: &C,
    known: &Known<'_>,
    call: &Result<StaticCall, LinkError>,
    rows: &mut Vec<Inequality<NodeId>>,
) -> Result<(), AllocError>
    ensures { OnOk result (rows.new.items ≡ rows.old.items ++ all_renamed (C.number context.now) (static_rows known.now call.now)) }
{
    let Ok(call) = call else {
        return Ok(());
    };
    push(
        context,
        known.row(Node::Initialized(call.class), ValueOp::Token),
        rows,
    )?;
    push(
        context,
        known.row(Node::Entered(call.method), ValueOp::Token),
        rows,
    )?;
    let returned = ValueOp::Copy(Node::Returned(call.method));
    push(context, known.row(known.given(), returned), rows)?;
    let guard = Guard::NonEmpty(known.predicate);
    let depths = call.arguments.as_slice();
    push_arguments(context, known, guard, call.method, 0, depths, rows)
}

/// What one candidate gets and gives, by its number at the call.
fn push_candidate<C: Context>(
    context: &C,
    known: &Known<'_>,
    call: &SelectedCall,
    candidate: u32,
    method: MethodId,
    rows: &mut Vec<Inequality<NodeId>>,
) -> Result<(), AllocError>
    ensures { OnOk result (rows.new.items ≡ rows.old.items ++ all_renamed (C.number context.now) (candidate_rows known.now call.now candidate method)) }
{
    let guard = Guard::Linked(known.links(), candidate);
    let receivers = ValueOp::Picked(known.operand(call.receiver), call.site, candidate);
    let returned = ValueOp::Copy(Node::Returned(method));
    push(
        context,
        row_under(guard, Node::Entered(method), ValueOp::Token),
        rows,
    )?;
    push(
        context,
        row_under(guard, Node::Parameter(method, 0), receivers),
        rows,
    )?;
    push(context, row_under(guard, known.given(), returned), rows)?;
    push_arguments(
        context,
        known,
        guard,
        method,
        1,
        call.arguments.as_slice(),
        rows,
    )
}

fn push_candidates<C: Context>(
    context: &C,
    known: &Known<'_>,
    call: &SelectedCall,
    candidates: &[MethodId],
    rows: &mut Vec<Inequality<NodeId>>,
) -> Result<(), AllocError>
    requires { length candidates.now < 2 ^ 32 }
    ensures { OnOk result (rows.new.items ≡ rows.old.items ++ all_renamed (C.number context.now) (each_from (candidate_rows known.now call.now) 0 candidates.now)) }
{
    for (candidate, method) in candidates.iter().enumerate() {
        push_candidate(context, known, call, candidate as u32, *method, rows)?;
    }
    Ok(())
}

pub fn push_call<C: Context>(
    context: &C,
    known: &Known<'_>,
    call: &Result<SelectedCall, LinkError>,
    rows: &mut Vec<Inequality<NodeId>>,
) -> Result<(), AllocError>
    requires { ForOk call.now (λ c. length c.candidates < 2 ^ 32) }
    ensures { OnOk result (rows.new.items ≡ rows.old.items ++ all_renamed (C.number context.now) (selected_rows known.now call.now)) }
{
    let Ok(call) = call else {
        return Ok(());
    };
    let picks = ValueOp::Picks(known.operand(call.receiver), call.site);
    push(context, known.row(known.links(), picks), rows)?;
    push_candidates(context, known, call, call.candidates.as_slice(), rows)
}

pub fn push_return<C: Context>(
    context: &C,
    known: &Known<'_>,
    kind: Option<Kind>,
    rows: &mut Vec<Inequality<NodeId>>,
) -> Result<(), AllocError>
    ensures { OnOk result (rows.new.items ≡ rows.old.items ++ all_renamed (C.number context.now) (return_rows known.now kind)) }
{
    let value = match kind {
        Some(kind) => ValueOp::Copy(known.value(kind)),
        None => ValueOp::Token,
    };
    push(
        context,
        known.row(Node::Returned(known.method), value),
        rows,
    )
}
