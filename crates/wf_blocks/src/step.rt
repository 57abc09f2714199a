//! One place of a block: what is asked of its row, and the rows behind it.

ghost use Rattle.std.specs.Prelude.{◌≡◌, ℕ, ◌+◌, ◌<◌, ◌≤◌, ◌^◌, true, false, length, map, IfOk};
ghost use Rattle.wf_blocks.specs.Bodies.{locals_of, sources_at, graph_of};
ghost use Rattle.wf_blocks.specs.Graphs.{caught_sources};
ghost use Rattle.wf_blocks.specs.Rows.{seen_from, seen_after};
ghost use Rattle.wf_blocks.specs.Walking.{IsMet, LacksOne, IsSound, IsUnsound};
ghost use Rattle.wf_operation.specs.Effects.{slots_after, sources};

use crate::body::{Body, fails, operation_at};
use crate::seen::{Seen, all_allowed, only, through};
use std::alloc::{AllocError, Global};
use wf_base::Items;
use wf_operation::{Effect, SlotKind, Source, slots_after, source_at, wanted};

/// Whether each slot of a row holds only kinds that the instruction wants there.
fn meets(effect: &Effect, row: &[Seen]) -> bool
    requires { length row.now < 2 ^ 32 }
    ensures met { result ≡ true → IsMet effect.now row.now (length row.now) }
    ensures lacks { result ≡ false → LacksOne effect.now row.now }
{
    for i in 0..row.len() {
        if !all_allowed(wanted(effect, row.len(), i), row[i]) {
            return false;
        }
    }
    true
}

/// Whether no path that leaves kinds of the row meets a fault at the place.
#[tactic(auto, unfolding(crate::specs::Bodies::graph_of))]
pub fn is_sound(body: &Body, place: usize, row: &[Seen]) -> bool
    requires small { locals_of body.now ≤ 65535 × body.now.max_stack ≤ 65535 }
    requires few { length row.now < 2 ^ 32 }
    ensures good { result ≡ true → IsSound (graph_of body.now) place row.now }
    ensures bad { result ≡ false → IsUnsound (graph_of body.now) place row.now }
{
    if fails(body, place, row.len()) {
        return false;
    }
    match operation_at(body, place) {
        Some(operation) => meets(&operation.effect, row),
        None => false,
    }
}

/// The kinds of a slot with this source.
fn seen_from(row: &[Seen], source: Source) -> Seen
    ensures { result ≡ seen_from row.now source }
{
    let named = match source {
        Source::Keep(slot) | Source::KeepNoHead(slot) | Source::KeepNoRest(slot) => slot,
        Source::Gives(_) => 0,
    };
    let before = row.get(named).copied().unwrap_or(only(SlotKind::Unused));
    through(source, before)
}

/// The row behind an instruction.
#[tactic(auto, using(crate::proofs::AfterLemmas::after_more))]
pub fn row_behind(alloc: Global, effect: &Effect, row: &[Seen]) -> Result<Items<Seen>, AllocError>
    requires few { length row.now < 2 ^ 32 }
    requires fits { slots_after effect.now (length row.now) < 2 ^ 32 }
    ensures { IfOk result (λ v. v ≡ seen_after row.now (sources effect.now (length row.now))) }
{
    let count = slots_after(effect, row.len());
    let mut after = Vec::with_capacity(alloc, count)?;
    for i in 0..count {
        after.push(seen_from(row, source_at(effect, row.len(), i)))?;
    }
    Ok(Items::from_vec(after))
}

/// The row in front of a handler: the locals are kept, and the stack is what was thrown.
#[tactic(auto, using(crate::proofs::AfterLemmas::after_more, crate::proofs::AfterLemmas::after_caught))]
pub fn row_caught(alloc: Global, row: &[Seen], locals: usize) -> Result<Items<Seen>, AllocError>
    ensures { IfOk result (λ v. v ≡ seen_after row.now (caught_sources locals)) }
{
    let mut after = Vec::new(alloc);
    for i in 0..locals {
        after.push(seen_from(row, Source::Keep(i)))?;
    }
    after.push(only(SlotKind::Ref))?;
    Ok(Items::from_vec(after))
}
