//! Constants, arithmetic and literals.

ghost use Rattle.std.specs.Prelude.{◌≡◌, ◌++◌, OnOk};
ghost use Rattle.wf_rows.specs.Renaming.{all_renamed};
ghost use Rattle.wf_rows.specs.Values.{computed, computed_rows, stated_value, made_rows, literal_field_rows, object_rows, literal_rows};
ghost use Rattle.wf_rows.specs.Each.{each_from};

use crate::action::{Computation, Literal, LiteralField, StatedValue};
use crate::context::{Context, push};
use crate::known::{Known, row_under};
use crate::node::{Node, Own};
use std::alloc::AllocError;
use wf_base::NodeId;
use wf_names::LinkError;
use wf_system::{Guard, Inequality, ValueOp};

fn computed(computation: Computation) -> ValueOp<Node<Own>>
    ensures { result ≡ computed computation }
{
    match computation {
        Computation::Int(int) => ValueOp::IntIs(int),
        Computation::Null => ValueOp::NullRef,
        Computation::AnyInt | Computation::IntQuotient => ValueOp::AnyInt,
        Computation::AnyLong | Computation::LongQuotient => ValueOp::AnyLong,
    }
}

pub fn push_computed<C: Context>(
    context: &C,
    known: &Known<'_>,
    computation: Computation,
    rows: &mut Vec<Inequality<NodeId>>,
) -> Result<(), AllocError>
    ensures { OnOk result (rows.new.items ≡ rows.old.items ++ all_renamed (C.number context.now) (computed_rows known.now computation)) }
{
    push(
        context,
        known.row(known.given(), computed(computation)),
        rows,
    )
}

/// A value that the summary states.
pub fn stated_value(value: StatedValue) -> ValueOp<Node<Own>>
    ensures { result ≡ stated_value value }
{
    match value {
        StatedValue::Null => ValueOp::NullRef,
        StatedValue::Int(int) => ValueOp::IntIs(int),
        StatedValue::AnyInt => ValueOp::AnyInt,
        StatedValue::AnyLong => ValueOp::AnyLong,
        StatedValue::New(made) => ValueOp::OneType(made),
        StatedValue::Under(target) => ValueOp::SomeUnder(target),
    }
}

/// That a new object that is stated is made.
pub fn push_made<C: Context>(
    context: &C,
    guard: Guard<Node<Own>>,
    value: StatedValue,
    rows: &mut Vec<Inequality<NodeId>>,
) -> Result<(), AllocError>
    ensures { OnOk result (rows.new.items ≡ rows.old.items ++ all_renamed (C.number context.now) (made_rows guard value)) }
{
    match value {
        StatedValue::New(made) => push(
            context,
            row_under(guard, Node::Inst, ValueOp::OneType(made)),
            rows,
        ),
        _ => Ok(()),
    }
}

fn push_literal_field<C: Context>(
    context: &C,
    guard: Guard<Node<Own>>,
    line: LiteralField,
    rows: &mut Vec<Inequality<NodeId>>,
) -> Result<(), AllocError>
    ensures { OnOk result (rows.new.items ≡ rows.old.items ++ all_renamed (C.number context.now) (literal_field_rows guard 0 line)) }
{
    let held = Node::Held(line.field);
    let touched = Node::Touched(line.field);
    push(
        context,
        row_under(guard, held, stated_value(line.value)),
        rows,
    )?;
    push(context, row_under(guard, touched, ValueOp::Token), rows)?;
    push_made(context, guard, line.value, rows)
}

fn push_literal_fields<C: Context>(
    context: &C,
    guard: Guard<Node<Own>>,
    fields: &[LiteralField],
    rows: &mut Vec<Inequality<NodeId>>,
) -> Result<(), AllocError>
    ensures { OnOk result (rows.new.items ≡ rows.old.items ++ all_renamed (C.number context.now) (each_from (literal_field_rows guard) 0 fields.now)) }
{
    for line in fields {
        push_literal_field(context, guard, *line, rows)?;
    }
    Ok(())
}

/// That a literal flows into a node.
pub fn push_object<C: Context>(
    context: &C,
    guard: Guard<Node<Own>>,
    target: Node<Own>,
    literal: &Literal,
    rows: &mut Vec<Inequality<NodeId>>,
) -> Result<(), AllocError>
    ensures { OnOk result (rows.new.items ≡ rows.old.items ++ all_renamed (C.number context.now) (object_rows guard target literal.now)) }
{
    let made = ValueOp::OneType(literal.class);
    push(context, row_under(guard, target, made), rows)?;
    push(context, row_under(guard, Node::Inst, made), rows)?;
    push_literal_fields(context, guard, literal.fields.as_slice(), rows)
}

pub fn push_literal<C: Context>(
    context: &C,
    known: &Known<'_>,
    literal: &Result<Literal, LinkError>,
    rows: &mut Vec<Inequality<NodeId>>,
) -> Result<(), AllocError>
    ensures { OnOk result (rows.new.items ≡ rows.old.items ++ all_renamed (C.number context.now) (literal_rows known.now literal.now)) }
{
    match literal {
        Ok(literal) => push_object(
            context,
            Guard::NonEmpty(known.predicate),
            known.given(),
            literal,
            rows,
        ),
        Err(_) => Ok(()),
    }
}
