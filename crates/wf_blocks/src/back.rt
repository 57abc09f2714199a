//! Where a slot came from, back through a block.

ghost use Rattle.std.specs.Prelude.{◌≡◌, ℕ, ◌<◌, ◌^◌, List, length, slice_index_or, Some, IsSome};
ghost use Rattle.wf_blocks.specs.Answers.{lost, traced, count_at, AreRows, RowIn, AreCounts};
ghost use Rattle.wf_blocks.specs.Bodies.{sources_at, AreStarts, BodyFits};
ghost use Rattle.wf_blocks.specs.Rows.{seen_at, row_in};
ghost use Rattle.wf_blocks.specs.declared.seen.Seen.{Seen};
ghost use Rattle.wf_operation.specs.declared.slot.SlotKind.TheVariants.{Unused};
ghost use Rattle.wf_operation.specs.declared.slot.Source.TheVariants.{Gives};

use crate::body::{Body, operation_at};
use crate::seen::{Seen, only};
use crate::walk::{Row, is_start};
use wf_operation::{SlotKind, Source, source_at};

/// What a slot lost on its way: the first half of a long, where its second half was overwritten, or the second half,
/// where its first was.
#[derive(Clone, Copy, Debug, PartialEq, Eq)]
pub struct Losses {
    pub head: bool,
    pub rest: bool,
}

/// What an instruction does to a slot that lost something since.
#[derive(Clone, Copy, Debug, PartialEq, Eq)]
pub enum Trail {
    /// It comes from this slot, and lost this since.
    Before(usize, Losses),
    /// It has these kinds.
    Here(Seen),
}

/// The kinds of a slot that lost this.
pub fn lost(loss: Losses, seen: Seen) -> Seen
    ensures { result ≡ lost loss seen }
{
    Seen {
        int: seen.int,
        reference: seen.reference,
        long: seen.long && !loss.head,
        rest: seen.rest && !loss.rest,
        unused: seen.unused || (seen.long && loss.head) || (seen.rest && loss.rest),
    }
}

/// Where a slot has from what it holds behind an instruction that leaves so many slots. Nothing stands past the end.
#[tactic(auto, using(crate::proofs::BackLemmas::source_there, crate::proofs::BackLemmas::source_past))]
pub fn source_behind(body: &Body, place: usize, count: usize, after: usize, slot: usize) -> Source
    requires few { count < 2 ^ 32 }
    requires low { after < 2 ^ 32 }
    requires fits { length (sources_at body.now place count) ≡ after }
    ensures { result ≡ slice_index_or (sources_at body.now place count) slot (Gives Unused) }
{
    match operation_at(body, place) {
        Some(operation) => {
            if slot < after {
                source_at(&operation.effect, count, slot)
            } else {
                Source::Gives(SlotKind::Unused)
            }
        }
        None => Source::Gives(SlotKind::Unused),
    }
}

fn kept_at(rows: &[Row], place: usize, slot: usize) -> Seen
    ensures { (row : List Seen) → row_in rows.now place ≡ Some row → result ≡ seen_at row slot }
{
    match rows.get(place) {
        Some(Some(row)) => row
            .as_slice()
            .get(slot)
            .copied()
            .unwrap_or(only(SlotKind::Unused)),
        _ => only(SlotKind::Unused),
    }
}

fn traced(source: Source, loss: Losses) -> Trail
    ensures { result ≡ traced source loss }
{
    match source {
        Source::Keep(slot) => Trail::Before(slot, loss),
        Source::KeepNoHead(slot) => Trail::Before(
            slot,
            Losses {
                head: true,
                rest: loss.rest,
            },
        ),
        Source::KeepNoRest(slot) => Trail::Before(
            slot,
            Losses {
                head: loss.head,
                rest: true,
            },
        ),
        Source::Gives(kind) => Trail::Here(lost(loss, only(kind))),
    }
}

/// How many slots there are in front of a place, if a path reaches it.
pub fn count_at(counts: &[Option<u32>], place: usize) -> Option<u32>
    ensures { result ≡ count_at counts.now place }
{
    counts.get(place).copied().unwrap_or(None)
}

/// The same of a place that a path reaches.
fn known_count(counts: &[Option<u32>], place: usize) -> u32
    ensures { (n : ℕ) → count_at counts.now place ≡ Some n → result ≡ n }
{
    count_at(counts, place).unwrap_or(0)
}

/// The kinds that paths leave in a slot in front of a place that one of them reaches, in the time of a walk back to
/// where its block starts.
pub fn seen_in(
    body: &Body,
    starts: &[bool],
    rows: &[Row],
    counts: &[Option<u32>],
    place: usize,
    slot: usize,
) -> Seen
    requires fits { BodyFits body.now }
    requires marks { AreStarts body.now starts.now }
    requires rows { AreRows body.now rows.now }
    requires counts { AreCounts body.now rows.now counts.now }
    requires inside { place < length body.now.steps }
    requires reached { IsSome (count_at counts.now place) }
    ensures { (row : List Seen) → RowIn body.now rows.now place row → result ≡ seen_at row slot }
{
    let mut at = place;
    let mut after = known_count(counts, place);
    let mut from = slot;
    let mut loss = Losses {
        head: false,
        rest: false,
    };
    while !is_start(starts, at) {
        let before = known_count(counts, at - 1);
        let source = source_behind(body, at - 1, before as usize, after as usize, from);
        match traced(source, loss) {
            Trail::Here(seen) => return seen,
            Trail::Before(slot, more) => {
                from = slot;
                loss = more;
                after = before;
                at -= 1;
            }
        }
    }
    lost(loss, kept_at(rows, at, from))
}
