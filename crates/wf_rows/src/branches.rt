//! What is left of the operands of branches and switches.

ghost use Rattle.std.specs.Prelude.{◌≡◌, ◌++◌, OnOk, option_map};
ghost use Rattle.wf_rows.specs.Renaming.{all_renamed};
ghost use Rattle.wf_rows.specs.Branches.{left_value, first_operand, left_rows, along_rows, case_rows, branch_rows};
ghost use Rattle.wf_rows.specs.Each.{each_from};

use crate::context::{Context, push};
use crate::known::Known;
use crate::node::{Node, Own};
use std::alloc::AllocError;
use wf_base::NodeId;
use wf_data::Case;
use wf_operation::{Left, Next, Test, left_of};
use wf_system::{Inequality, ValueOp};

fn left_value(this: Node<Own>, other: Node<Own>, keys: u32, left: Left) -> ValueOp<Node<Own>>
    ensures { result ≡ left_value this other keys left }
{
    match left {
        Left::Compared(cmp) => ValueOp::IntRefine(cmp, this, other),
        Left::ComparedTo(cmp, by) => ValueOp::IntRefineBy(cmp, this, by),
        Left::NoKey => ValueOp::NotIn(this, keys),
        Left::SameRef => ValueOp::RefEq(this, other),
        Left::OtherRef => ValueOp::RefNe(this, other),
        Left::OnlyNull => ValueOp::OnlyNull(this),
        Left::NoNull => ValueOp::NoNull(this),
    }
}

fn first_operand(known: &Known<'_>, next: &Next) -> Node<Own>
    ensures { result ≡ first_operand known.now next.now }
{
    match next {
        Next::Branches { test, .. } => match test {
            Test::Ints(_) | Test::Refs(_) => known.operand(1),
            Test::ToZero(_) | Test::ToNull(_) => known.operand(0),
        },
        _ => known.operand(0),
    }
}

fn value_left(
    this: Node<Own>,
    other: Node<Own>,
    keys: u32,
    left: Option<Left>,
) -> Option<ValueOp<Node<Own>>>
    ensures { result ≡ option_map (left_value this other keys) left }
{
    Some(left_value(this, other, keys, left?))
}

/// The row of an operand along an edge, where something is to be said of it.
fn push_left<C: Context>(
    context: &C,
    known: &Known<'_>,
    target: Node<Own>,
    value: Option<ValueOp<Node<Own>>>,
    rows: &mut Vec<Inequality<NodeId>>,
) -> Result<(), AllocError>
    ensures { OnOk result (rows.new.items ≡ rows.old.items ++ all_renamed (C.number context.now) (left_rows known.now target value)) }
{
    match value {
        Some(value) => push(context, known.row(target, value), rows),
        None => Ok(()),
    }
}

fn push_along<C: Context>(
    context: &C,
    known: &Known<'_>,
    next: &Next,
    keys: u32,
    edge: usize,
    rows: &mut Vec<Inequality<NodeId>>,
) -> Result<(), AllocError>
    ensures { OnOk result (rows.new.items ≡ rows.old.items ++ all_renamed (C.number context.now) (along_rows known.now next.now keys edge)) }
{
    let first = first_operand(known, next);
    let second = known.operand(0);
    let left = value_left(first, second, keys, left_of(next, edge, 1));
    push_left(context, known, known.refined(edge, 1), left, rows)?;
    let left = value_left(second, first, keys, left_of(next, edge, 2));
    push_left(context, known, known.refined(edge, 2), left, rows)
}

fn push_cases<C: Context>(
    context: &C,
    known: &Known<'_>,
    next: &Next,
    keys: u32,
    cases: &[Case],
    rows: &mut Vec<Inequality<NodeId>>,
) -> Result<(), AllocError>
    ensures { OnOk result (rows.new.items ≡ rows.old.items ++ all_renamed (C.number context.now) (each_from (case_rows known.now next.now keys) 0 cases.now)) }
{
    for (edge, _case) in cases.iter().enumerate() {
        push_along(context, known, next, keys, edge, rows)?;
    }
    Ok(())
}

/// Adds what is left of the operands of a branch or a switch along each edge. `keys` is the number of the
/// switch's list of keys.
pub fn push_branches<C: Context>(
    context: &C,
    known: &Known<'_>,
    next: &Next,
    keys: u32,
    rows: &mut Vec<Inequality<NodeId>>,
) -> Result<(), AllocError>
    ensures { OnOk result (rows.new.items ≡ rows.old.items ++ all_renamed (C.number context.now) (branch_rows known.now next.now keys)) }
{
    match next {
        Next::Branches { .. } => {
            push_along(context, known, next, keys, 0, rows)?;
            push_along(context, known, next, keys, 1, rows)
        }
        Next::Switches { cases, .. } => {
            push_cases(context, known, next, keys, cases.as_slice(), rows)?;
            push_along(context, known, next, keys, cases.len(), rows)
        }
        Next::Falls | Next::Jumps { .. } | Next::Returns { .. } | Next::Throws => Ok(()),
    }
}
