//! Methods of which the summary says what they do.

ghost use Rattle.std.specs.Prelude.{◌≡◌, ◌++◌, OnOk};
ghost use Rattle.wf_rows.specs.Renaming.{all_renamed};
ghost use Rattle.wf_rows.specs.Summaries.{summary_value, summary_made_rows, effect_under, effect_rows};

use crate::action::StatedValue;
use crate::arrays::push_stored;
use crate::context::{Context, push};
use crate::known::row_under;
use crate::node::{Node, Own};
use crate::values::{push_made, stated_value};
use std::alloc::AllocError;
use wf_base::{FieldId, MethodId, NodeId, TypeId};
use wf_system::{Guard, Inequality, ValueOp};

/// A value that such a method returns or writes.
#[derive(Clone, Copy)]
pub enum SummaryValue {
    Stated(StatedValue),
    /// The argument, the receiver first.
    Argument(usize),
}

/// What a line of the summary says that such a method does.
#[derive(Clone, Copy)]
pub enum SummaryEffect {
    /// It returns without a value.
    ReturnsVoid,
    Returns(SummaryValue),
    /// It makes an object of the type.
    Makes(TypeId),
    Writes(FieldId, SummaryValue),
    /// It copies elements of the array that is one argument into the array that is another.
    Copies {
        /// The number of the line among all copying lines.
        line: u32,
        source: usize,
        into: usize,
    },
}

fn summary_value(method: MethodId, value: SummaryValue) -> ValueOp<Node<Own>>
    ensures { result ≡ summary_value method value }
{
    match value {
        SummaryValue::Stated(value) => stated_value(value),
        SummaryValue::Argument(i) => ValueOp::Copy(Node::Parameter(method, i)),
    }
}

fn push_summary_made<C: Context>(
    context: &C,
    guard: Guard<Node<Own>>,
    value: SummaryValue,
    rows: &mut Vec<Inequality<NodeId>>,
) -> Result<(), AllocError>
    ensures { OnOk result (rows.new.items ≡ rows.old.items ++ all_renamed (C.number context.now) (summary_made_rows guard value)) }
{
    match value {
        SummaryValue::Stated(value) => push_made(context, guard, value, rows),
        SummaryValue::Argument(_) => Ok(()),
    }
}

fn push_under<C: Context>(
    context: &C,
    guard: Guard<Node<Own>>,
    method: MethodId,
    effect: SummaryEffect,
    rows: &mut Vec<Inequality<NodeId>>,
) -> Result<(), AllocError>
    ensures { OnOk result (rows.new.items ≡ rows.old.items ++ all_renamed (C.number context.now) (effect_under guard method (C.arrays context.now) effect)) }
{
    let returned = Node::Returned(method);
    match effect {
        SummaryEffect::ReturnsVoid => push(
            context,
            row_under(guard, returned, ValueOp::Token),
            rows,
        ),
        SummaryEffect::Returns(value) => {
            push(
                context,
                row_under(guard, returned, summary_value(method, value)),
                rows,
            )?;
            push_summary_made(context, guard, value, rows)
        }
        SummaryEffect::Makes(made) => push(
            context,
            row_under(guard, Node::Inst, ValueOp::OneType(made)),
            rows,
        ),
        SummaryEffect::Writes(field, value) => {
            let written = summary_value(method, value);
            let touched = Node::Touched(field);
            push(context, row_under(guard, Node::Held(field), written), rows)?;
            push(context, row_under(guard, touched, ValueOp::Token), rows)?;
            push_summary_made(context, guard, value, rows)
        }
        SummaryEffect::Copies { line, source, into } => {
            let copied = Node::Copied(line);
            let elements = ValueOp::ElementsOf(Node::Parameter(method, source));
            push(context, row_under(guard, copied, elements), rows)?;
            let array = Node::Parameter(method, into);
            push_stored(context, guard, array, copied, context.arrays(), rows)
        }
    }
}

/// Adds the rows of what the summary says that a method does where it is entered.
pub fn push_effect<C: Context>(
    context: &C,
    method: MethodId,
    effect: SummaryEffect,
    rows: &mut Vec<Inequality<NodeId>>,
) -> Result<(), AllocError>
    ensures { OnOk result (rows.new.items ≡ rows.old.items ++ all_renamed (C.number context.now) (effect_rows method (C.arrays context.now) effect)) }
{
    push_under(
        context,
        Guard::NonEmpty(Node::Entered(method)),
        method,
        effect,
        rows,
    )
}
