//! Entries of the exception table: over the places that they cover, and what they catch.

ghost use Rattle.std.specs.Prelude.{◌≡◌, ℕ, ◌++◌, None, slice_index_or, OnOk};
ghost use Rattle.wf_rows.specs.Each.{each_from};
ghost use Rattle.wf_rows.specs.Renaming.{all_renamed};
ghost use Rattle.wf_graph.specs.BodyRows.{caught_if, entry_over, rows_of_handler};

use std::alloc::AllocError;
use wf_base::NodeId;
use wf_blocks::{Catcher, covers};
use wf_rows::{Context, HandlerEntry, Known, push_caught, push_covered};
use wf_system::Inequality;

/// What the entry of this number catches, where a path reaches its handler.
fn handler_at(handlers: &[Option<HandlerEntry>], entry: usize) -> Option<HandlerEntry>
    ensures { result ≡ slice_index_or handlers.now entry None }
{
    handlers.get(entry).copied().unwrap_or(None)
}

/// Adds the rows of an entry over a place that it covers.
fn push_caught_if<C: Context>(
    context: &C,
    known: &Known<'_>,
    handler: Option<HandlerEntry>,
    rows: &mut Vec<Inequality<NodeId>>,
) -> Result<(), AllocError>
    ensures { OnOk result (rows.new.items ≡ rows.old.items ++ all_renamed (C.number context.now) (caught_if known.now handler)) }
{
    match handler {
        Some(handler) => push_covered(context, known, handler, rows),
        None => Ok(()),
    }
}

/// Adds the rows of an entry over the place of this number, if it covers the place.
fn push_entry_over<C: Context>(
    context: &C,
    known: &Known<'_>,
    place: usize,
    entry: usize,
    catcher: &Catcher,
    handlers: &[Option<HandlerEntry>],
    rows: &mut Vec<Inequality<NodeId>>,
) -> Result<(), AllocError>
    ensures { OnOk result (rows.new.items ≡ rows.old.items ++ all_renamed (C.number context.now) (entry_over handlers.now known.now place entry catcher.now)) }
{
    if covers(place, catcher) {
        push_caught_if(context, known, handler_at(handlers, entry), rows)
    } else {
        Ok(())
    }
}

/// Adds the rows of all entries over the place of this number. `handlers` says by the same numbers what entries catch.
pub fn push_covering<C: Context>(
    context: &C,
    known: &Known<'_>,
    place: usize,
    catchers: &[Catcher],
    handlers: &[Option<HandlerEntry>],
    rows: &mut Vec<Inequality<NodeId>>,
) -> Result<(), AllocError>
    ensures { OnOk result (rows.new.items ≡ rows.old.items ++ all_renamed (C.number context.now) (each_from (entry_over handlers.now known.now place) 0 catchers.now)) }
{
    for (entry, catcher) in catchers.iter().enumerate() {
        push_entry_over(context, known, place, entry, catcher, handlers, rows)?;
    }
    Ok(())
}

/// Adds the rows of an entry that do not depend on a place.
fn push_handler<C: Context>(
    context: &C,
    handler: Option<HandlerEntry>,
    rows: &mut Vec<Inequality<NodeId>>,
) -> Result<(), AllocError>
    ensures { (entry : ℕ) → OnOk result (rows.new.items ≡ rows.old.items ++ all_renamed (C.number context.now) (rows_of_handler entry handler)) }
{
    match handler {
        Some(handler) => push_caught(context, handler, rows),
        None => Ok(()),
    }
}

/// The same of all entries.
pub fn push_handlers<C: Context>(
    context: &C,
    handlers: &[Option<HandlerEntry>],
    rows: &mut Vec<Inequality<NodeId>>,
) -> Result<(), AllocError>
    ensures { OnOk result (rows.new.items ≡ rows.old.items ++ all_renamed (C.number context.now) (each_from rows_of_handler 0 handlers.now)) }
{
    for handler in handlers {
        push_handler(context, *handler, rows)?;
    }
    Ok(())
}
