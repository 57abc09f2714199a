//! What the handlers of a method catch.

ghost use Rattle.std.specs.Prelude.{◌≡◌, ℕ, Some, None, option_map, IfOk};
ghost use Rattle.std.specs.Option.{option_copied};
ghost use Rattle.wf_actions.specs.Named.{caught_name, number_of_target};
ghost use Rattle.wf_subtype.specs.Subtypes.{IsTargetFound};
ghost use Rattle.wf_blocks.specs.Bodies.{graph_of};
ghost use Rattle.wf_blocks.specs.Graphs.{Reached};
ghost use Rattle.wf_ssa.specs.Environments.{pc_at};
ghost use Rattle.wf_body.specs.Each.{AreEach};
ghost use Rattle.wf_body.specs.Methods.{entries_of, handler_place, caught_at, IsHandlerAt};

use crate::parts::Parts;
use crate::source::Source;
use std::alloc::{AllocError, Global};
use wf_base::Items;
use wf_blocks::{Blocks, Body};
use wf_constpool::class_at;
use wf_data::PoolEntry;
use wf_rows::HandlerEntry;

/// The name of the class of objects that an entry catches, by the place of its class in the pool.
fn caught_name(pool: &[PoolEntry], class: u16) -> Option<&[u8]>
    ensures { option_copied result ≡ caught_name pool.now class }
{
    if class == 0 {
        Some(b"java/lang/Throwable")
    } else {
        class_at(pool, class)
    }
}

/// The name of what an entry catches.
fn caught_at<'a>(source: &Source<'a>, entry: usize) -> Option<&'a [u8]>
    ensures { option_copied result ≡ caught_at source.now entry }
{
    let handler = source.code.table.as_slice().get(entry)?;
    caught_name(source.class.pool.as_slice(), handler.catch_class)
}

/// The place of the handler of an entry.
fn handler_place(body: &Body, entry: usize) -> Option<usize>
    ensures { result ≡ handler_place body.now entry }
{
    body.catchers.as_slice().get(entry)?.target
}

/// The place of the handler of an entry, where a path leads there.
fn reached_handler(blocks: &Blocks, entry: usize) -> Option<usize>
    ensures some { (place : ℕ) → result ≡ Some place → handler_place blocks.now entry ≡ Some place }
    ensures reached { (place : ℕ) → result ≡ Some place → Reached (graph_of blocks.now) place }
    ensures none { (place : ℕ) → result ≡ None → handler_place blocks.now entry ≡ Some place → Reached (graph_of blocks.now) place → ⊥ }
{
    let place = handler_place(blocks.body(), entry)?;
    blocks.slots(place)?;
    Some(place)
}

/// An entry whose handler stands at a place, by the name of what it catches.
fn entry_by(
    parts: &Parts<'_>,
    source: &Source<'_>,
    body: &Body,
    entry: u16,
    place: usize,
    name: &[u8],
) -> HandlerEntry
    ensures number { result.entry ≡ entry }
    ensures target { result.target ≡ pc_at body.now place }
    ensures locals { result.locals ≡ source.now.code.max_locals }
    ensures catches { IsTargetFound parts.now.types name.now (option_map number_of_target result.catches) }
{
    let target = match body.steps.as_slice().get(place) {
        Some(step) => step.pc,
        None => 0,
    };
    HandlerEntry {
        entry,
        target,
        catches: parts.types.target(name),
        locals: source.code.max_locals,
    }
}

/// An entry of the exception table, where a path leads to its handler.
fn handler_at(
    parts: &Parts<'_>,
    source: &Source<'_>,
    blocks: &Blocks,
    entry: u16,
) -> Option<HandlerEntry>
    ensures { IsHandlerAt parts.now source.now blocks.now entry result }
{
    let place = reached_handler(blocks, entry as usize)?;
    let name = caught_at(source, entry as usize)?;
    Some(entry_by(parts, source, blocks.body(), entry, place, name))
}

/// How many entries of the exception table count.
fn entries_of(body: &Body) -> u16
    ensures { result ≡ entries_of body.now }
{
    body.catchers.len().min(65535) as u16
}

/// The entries of the exception table to whose handlers a path leads, each in its place.
#[tactic(auto, using(crate::proofs::Lists::none_yet, crate::proofs::Lists::one_more))]
pub fn handlers_of(
    alloc: Global,
    parts: &Parts<'_>,
    source: &Source<'_>,
    blocks: &Blocks,
) -> Result<Items<Option<HandlerEntry>>, AllocError>
    ensures { IfOk result (λ handlers. AreEach (IsHandlerAt parts.now source.now blocks.now) (entries_of blocks.now) handlers) }
{
    let mut handlers = Vec::new(alloc);
    for entry in 0..entries_of(blocks.body()) {
        handlers.push(handler_at(parts, source, blocks, entry))?;
    }
    Ok(Items::from_vec(handlers))
}
