//! The walk back from a place to where something is kept.

ghost use Rattle.std.specs.Prelude.{◌≡◌, ℕ, ◌<◌, ◌^◌, Bool, List, length, true, nat_lt, unwrap_or};
ghost use Rattle.std.specs.Option.{option_copied};
ghost use Rattle.wf_blocks.specs.Answers.{AreReached};
ghost use Rattle.wf_blocks.specs.Bodies.{operation_at};
ghost use Rattle.wf_ssa.specs.Environments.{name_at, pc_at, met_name, along_edge, entry_name, fails_there, meets, IsKnown};
ghost use Rattle.wf_ssa.specs.Keeping.{refines_at, ends, goes_back, row_at, answers_at, answered, origin_from, origin_by, named, renamed_by, linked_by, AreMeets, AreFails, AreSound};
ghost use Rattle.wf_ssa.specs.declared.before.Before.{Before};

use crate::before::Before;
use crate::marks::is_marked;
use crate::name::FlowName;
use crate::rename::{linked, refines};
use wf_blocks::{Blocks, Body, operation_at};
use wf_operation::{Operation, SlotKind, Source, link_of, source_at};

/// Where a slot behind an instruction comes from.
#[derive(Clone, Copy, Debug, PartialEq, Eq)]
pub enum Origin {
    /// From a slot in front of it.
    Slot(usize),
    /// It has this name.
    Name(FlowName),
}

/// The place of an instruction in bytes.
pub fn pc_at(body: &Body, place: usize) -> u16
    ensures { result ≡ pc_at body.now place }
{
    match body.steps.as_slice().get(place) {
        Some(step) => step.pc,
        None => 0,
    }
}

fn refines_at(operation: Option<&Operation>) -> bool
    ensures { result ≡ refines_at (option_copied operation.entry) }
{
    match operation {
        Some(operation) => refines(&operation.next),
        None => true,
    }
}

/// Whether the walk back ends at a place.
pub fn ends(blocks: &Blocks, meets: &[bool], place: usize) -> bool
    requires { place < length blocks.now.steps }
    ensures { result ≡ ends blocks.now meets.now place }
{
    is_marked(meets, place)
        || blocks.starts(place)
        || refines_at(operation_at(blocks.body(), place.saturating_sub(1)))
}

/// Whether the walk back goes on to the place before.
fn goes_back(blocks: &Blocks, meets: &[bool], place: usize) -> bool
    requires { place < length blocks.now.steps }
    ensures value { result ≡ goes_back blocks.now meets.now place }
    ensures low { result ≡ true → 0 < place }
{
    place > 0 && !ends(blocks, meets, place)
}

fn origin_from(pc: u16, source: Source) -> Origin
    ensures { result ≡ origin_from pc source }
{
    match source {
        Source::Keep(slot) | Source::KeepNoHead(slot) | Source::KeepNoRest(slot) => {
            Origin::Slot(slot)
        }
        Source::Gives(_) => Origin::Name(FlowName::Res(pc)),
    }
}

fn origin_by(
    pc: u16,
    operation: Option<&Operation>,
    before: Option<u32>,
    after: Option<u32>,
    slot: usize,
) -> Origin
    ensures { result ≡ origin_by pc (option_copied operation.entry) before after slot }
{
    match (operation, before, after) {
        (Some(operation), Some(before), Some(after)) if slot < after as usize => {
            origin_from(pc, source_at(&operation.effect, before as usize, slot))
        }
        _ => Origin::Name(FlowName::Nothing),
    }
}

/// Where a slot in front of a place comes from, by the instruction at another that leads there.
pub fn trace(blocks: &Blocks, last: usize, place: usize, slot: usize) -> Origin
    ensures { (failing : List ℕ) (edge : ℕ) (k : Before) → IsKnown blocks.now failing last k → IsKnown blocks.now failing place (along_edge blocks.now failing last edge k) → name_at (along_edge blocks.now failing last edge k).names slot ≡ named (renamed_by (operation_at blocks.now last) (pc_at blocks.now last) edge k.names) result }
{
    origin_by(
        pc_at(blocks.body(), last),
        operation_at(blocks.body(), last),
        blocks.slots(last),
        blocks.slots(place),
        slot,
    )
}

fn met_name(pc: u16, kind: SlotKind, slot: u32) -> FlowName
    ensures { result ≡ met_name pc kind slot }
{
    match kind {
        SlotKind::Unused => FlowName::Nothing,
        SlotKind::Int | SlotKind::Ref | SlotKind::Long | SlotKind::LongRest => {
            FlowName::Phi { pc, slot }
        }
    }
}

fn entry_name(body: &Body, slot: usize) -> FlowName
    ensures { result ≡ entry_name body.now slot }
{
    match body
        .entry
        .as_slice()
        .get(slot)
        .copied()
        .unwrap_or(SlotKind::Unused)
    {
        SlotKind::Unused => FlowName::Nothing,
        _ => FlowName::Par(body.params.as_slice().get(slot).copied().unwrap_or(0)),
    }
}

fn row_name(row: &Before, slot: usize) -> FlowName
    ensures { result ≡ name_at row.now.names slot }
{
    row.names
        .as_slice()
        .get(slot)
        .copied()
        .unwrap_or(FlowName::Nothing)
}

/// Whether so many slots are in front of a place that this is one of them.
fn is_slot(blocks: &Blocks, place: usize, slot: usize) -> bool
    ensures value { (failing : List ℕ) (k : Before) → IsKnown blocks.now failing place k → result ≡ nat_lt slot (length k.names) }
    ensures low { result ≡ true → slot < 2 ^ 32 }
{
    match blocks.slots(place) {
        Some(count) => slot < count as usize,
        None => false,
    }
}

/// What is kept of a place.
fn row_at(known: &[Option<Before>], place: usize) -> Option<&Before>
    ensures { option_copied result ≡ row_at known.now place }
{
    known.get(place)?.as_ref()
}

/// The flow of a slot in front of a place where ways meet.
fn met_flow(blocks: &Blocks, place: usize, slot: usize) -> FlowName
    requires { place < length blocks.now.steps }
    ensures { (failing : List ℕ) (k : Before) (marks : List Bool) → AreReached blocks.now marks → meets blocks.now marks place ≡ true → IsKnown blocks.now failing place k → result ≡ name_at k.names slot }
{
    if is_slot(blocks, place, slot) {
        return met_name(
            pc_at(blocks.body(), place),
            blocks.kind_in(place, slot),
            slot as u32,
        );
    }
    FlowName::Nothing
}

/// The flow of a slot where the walk back ends.
fn kept_flow(
    blocks: &Blocks,
    meets: &[bool],
    known: &[Option<Before>],
    place: usize,
    slot: usize,
) -> FlowName
    requires inside { place < length blocks.now.steps }
    requires meets { AreMeets blocks.now meets.now }
    ensures { (failing : List ℕ) (k : Before) → AreSound blocks.now failing known.now → answers_at meets.now known.now place ≡ true → IsKnown blocks.now failing place k → result ≡ name_at k.names slot }
{
    if is_marked(meets, place) {
        return met_flow(blocks, place, slot);
    }
    if place == 0 {
        return entry_name(blocks.body(), slot);
    }
    match row_at(known, place) {
        Some(row) => row_name(row, slot),
        None => FlowName::Nothing,
    }
}

/// By what a place is reached where the walk back ends.
fn kept_predicate(
    blocks: &Blocks,
    meets: &[bool],
    known: &[Option<Before>],
    place: usize,
) -> FlowName
    requires inside { place < length blocks.now.steps }
    requires meets { AreMeets blocks.now meets.now }
    ensures { (failing : List ℕ) (k : Before) → AreSound blocks.now failing known.now → answers_at meets.now known.now place ≡ true → IsKnown blocks.now failing place k → result ≡ k.predicate }
{
    if is_marked(meets, place) {
        return FlowName::Blk(pc_at(blocks.body(), place));
    }
    if place == 0 {
        return FlowName::Entry;
    }
    match row_at(known, place) {
        Some(row) => row.predicate,
        None => FlowName::Nothing,
    }
}

/// Whether something is kept of the place where the walk back from a place ends.
pub fn is_answered(blocks: &Blocks, meets: &[bool], known: &[Option<Before>], place: usize) -> bool
    requires { place < length blocks.now.steps }
    ensures { result ≡ answered blocks.now meets.now known.now place }
{
    let mut at = place;
    while goes_back(blocks, meets, at) {
        at -= 1;
    }
    answers_at(meets, known, at)
}

/// Whether something is kept of a place.
pub fn answers_at(meets: &[bool], known: &[Option<Before>], place: usize) -> bool
    ensures { result ≡ answers_at meets.now known.now place }
{
    is_marked(meets, place) || place == 0 || matches!(known.get(place), Some(Some(_)))
}

/// The flow of a slot in front of a place, in the time of a walk back to where its block starts.
pub fn flow_in(
    blocks: &Blocks,
    meets: &[bool],
    known: &[Option<Before>],
    place: usize,
    slot: usize,
) -> FlowName
    requires inside { place < length blocks.now.steps }
    requires meets { AreMeets blocks.now meets.now }
    ensures { (failing : List ℕ) (k : Before) → AreSound blocks.now failing known.now → answered blocks.now meets.now known.now place ≡ true → IsKnown blocks.now failing place k → result ≡ name_at k.names slot }
{
    let mut at = place;
    let mut from = slot;
    while goes_back(blocks, meets, at) {
        match trace(blocks, at - 1, at, from) {
            Origin::Name(name) => return name,
            Origin::Slot(before) => {
                from = before;
                at -= 1;
            }
        }
    }
    kept_flow(blocks, meets, known, at, from)
}

/// The predicate behind an instruction that leaves nothing of its operands, or None where it is that in front of it.
fn linked_by(operation: Option<&Operation>, pc: u16, fails: bool) -> Option<FlowName>
    ensures { (before : FlowName) → unwrap_or result before ≡ linked_by (option_copied operation.entry) pc fails before }
{
    match operation {
        Some(operation) => linked(pc, link_of(operation.sort), fails),
        None => None,
    }
}

/// The same of the instruction at a place.
pub fn linked_at(blocks: &Blocks, fails: &[bool], place: usize) -> Option<FlowName>
    ensures { (failing : List ℕ) (before : FlowName) → AreFails failing fails.now → unwrap_or result before ≡ linked_by (operation_at blocks.now place) (pc_at blocks.now place) (fails_there failing (pc_at blocks.now place)) before }
{
    let pc = pc_at(blocks.body(), place);
    linked_by(
        operation_at(blocks.body(), place),
        pc,
        is_marked(fails, pc as usize),
    )
}

/// By what a place is reached.
pub fn predicate_in(
    blocks: &Blocks,
    fails: &[bool],
    meets: &[bool],
    known: &[Option<Before>],
    place: usize,
) -> FlowName
    requires inside { place < length blocks.now.steps }
    requires meets { AreMeets blocks.now meets.now }
    ensures { (failing : List ℕ) (k : Before) → AreFails failing fails.now → AreSound blocks.now failing known.now → answered blocks.now meets.now known.now place ≡ true → IsKnown blocks.now failing place k → result ≡ k.predicate }
{
    let mut at = place;
    while goes_back(blocks, meets, at) {
        match linked_at(blocks, fails, at - 1) {
            Some(own) => return own,
            None => at -= 1,
        }
    }
    kept_predicate(blocks, meets, known, at)
}
