//! Edges into blocks, and handlers.

ghost use Rattle.std.specs.Prelude.{◌≡◌, ◌++◌, OnOk, take};
ghost use Rattle.wf_rows.specs.Renaming.{all_renamed};
ghost use Rattle.wf_rows.specs.Joins.{merged_rows, edge_rows, covered_rows, caught_rows};
ghost use Rattle.wf_rows.specs.Each.{each_from};

use crate::context::{Context, push};
use crate::known::{Known, row_under};
use crate::node::{Node, Own};
use std::alloc::AllocError;
use wf_base::{NodeId, TargetId};
use wf_system::{Guard, Inequality, ValueOp};

/// An entry of a method's exception table.
#[derive(Clone, Copy)]
pub struct HandlerEntry {
    /// Its number in the table.
    pub entry: u16,
    /// The place of its handler.
    pub target: u16,
    /// The class that it catches, `java/lang/Throwable` where it names none. None where the class isn't found.
    pub catches: Option<TargetId>,
    /// How many locals the method has.
    pub locals: u16,
}

/// What slots hold flows into the slots of the block at a place.
fn push_merged<C: Context>(
    context: &C,
    guard: Guard<Node<Own>>,
    to: u16,
    slots: &[Node<Own>],
    rows: &mut Vec<Inequality<NodeId>>,
) -> Result<(), AllocError>
    ensures { OnOk result (rows.new.items ≡ rows.old.items ++ all_renamed (C.number context.now) (each_from (merged_rows guard to) 0 slots.now)) }
{
    for (slot, flow) in slots.iter().enumerate() {
        let merged = Node::In(Own::Merged { pc: to, slot });
        push(
            context,
            row_under(guard, merged, ValueOp::Copy(*flow)),
            rows,
        )?;
    }
    Ok(())
}

/// Adds the rows of an edge into a block: `edge` is what is known along it, at the place of the block.
pub fn push_edge<C: Context>(
    context: &C,
    edge: &Known<'_>,
    rows: &mut Vec<Inequality<NodeId>>,
) -> Result<(), AllocError>
    ensures { OnOk result (rows.new.items ≡ rows.old.items ++ all_renamed (C.number context.now) (edge_rows edge.now)) }
{
    push(
        context,
        edge.row(Node::In(Own::Block(edge.pc)), ValueOp::Token),
        rows,
    )?;
    push_merged(
        context,
        Guard::NonEmpty(edge.predicate),
        edge.pc,
        edge.slots,
        rows,
    )
}

/// Adds the rows of an entry of the exception table over a place that it covers.
pub fn push_covered<C: Context>(
    context: &C,
    known: &Known<'_>,
    handler: HandlerEntry,
    rows: &mut Vec<Inequality<NodeId>>,
) -> Result<(), AllocError>
    ensures { OnOk result (rows.new.items ≡ rows.old.items ++ all_renamed (C.number context.now) (covered_rows known.now handler)) }
{
    let Some(class) = handler.catches else {
        return Ok(());
    };
    let caught = Node::In(Own::Caught(handler.entry));
    push(context, known.row(caught, ValueOp::AllUnder(class)), rows)?;
    let count = known.slots.len().min(handler.locals as usize);
    let locals = &known.slots[..count];
    push_merged(
        context,
        Guard::NonEmpty(known.predicate),
        handler.target,
        locals,
        rows,
    )
}

/// Adds the rows of an entry of the exception table that do not depend on the place.
pub fn push_caught<C: Context>(
    context: &C,
    handler: HandlerEntry,
    rows: &mut Vec<Inequality<NodeId>>,
) -> Result<(), AllocError>
    ensures { OnOk result (rows.new.items ≡ rows.old.items ++ all_renamed (C.number context.now) (caught_rows handler)) }
{
    let Some(_class) = handler.catches else {
        return Ok(());
    };
    let caught = Node::In(Own::Caught(handler.entry));
    let guard = Guard::NonEmpty(caught);
    let block = Node::In(Own::Block(handler.target));
    let top = Node::In(Own::Merged {
        pc: handler.target,
        slot: handler.locals as usize,
    });
    push(context, row_under(guard, block, ValueOp::Token), rows)?;
    push(context, row_under(guard, top, ValueOp::Copy(caught)), rows)
}
