//! What is kept, from where ways meet on.

ghost use Rattle.std.specs.Prelude.{◌≡◌, ℕ, ◌+◌, ◌<◌, ◌≤◌, ◌&&◌, not, nat_lt, List, length, true, false, Ok, Some, IfOk, slice_get};
ghost use Rattle.std.specs.Option.{option_copied};
ghost use Rattle.wf_blocks.specs.Bodies.{graph_of, operation_at, targets_at};
ghost use Rattle.wf_blocks.specs.Graphs.{Reached};
ghost use Rattle.wf_ssa.specs.Environments.{name_at, pc_at, fails_there, along_edge, IsKnown};
ghost use Rattle.wf_ssa.specs.Keeping.{answered, answers_at, ends, left_by, linked_by, name_by, slot_by, AreMeets, AreFails, AreSound, IsFilled, IsLeft, nones};
ghost use Rattle.wf_ssa.specs.declared.before.Before.{Before};

use crate::before::Before;
use crate::name::FlowName;
use crate::rename::{operand_slot, refined, refines};
use crate::walk::{
    Origin, answers_at, ends, flow_in, is_answered, linked_at, pc_at, predicate_in, trace,
};
use std::alloc::{AllocError, Global};
use wf_base::Items;
use wf_blocks::{Blocks, operation_at, targets_at};
use wf_operation::Operation;

/// The slot of an operand in front of an instruction.
fn slot_by(operation: Option<&Operation>, count: Option<u32>, operand: usize) -> usize
    requires { operand ≤ 2 }
    ensures { result ≡ slot_by (option_copied operation.entry) count operand }
{
    match (operation, count) {
        (Some(operation), Some(count)) => operand_slot(&operation.effect, count as usize, operand),
        _ => 0,
    }
}

/// The flow of an operand of the instruction at a place.
fn operand_flow(
    blocks: &Blocks,
    meets: &[bool],
    known: &[Option<Before>],
    place: usize,
    operand: usize,
) -> FlowName
    requires inside { place < length blocks.now.steps }
    requires meets { AreMeets blocks.now meets.now }
    requires low { operand ≤ 2 }
    ensures { (failing : List ℕ) (k : Before) → AreSound blocks.now failing known.now → answered blocks.now meets.now known.now place ≡ true → IsKnown blocks.now failing place k → result ≡ name_at k.names (slot_by (operation_at blocks.now place) (Some (length k.names)) operand) }
{
    let operation = operation_at(blocks.body(), place);
    let count = blocks.slots(place);
    let slot = slot_by(operation, count, operand);
    flow_in(blocks, meets, known, place, slot)
}

/// A flow in front of an instruction with the operands' names along an edge, if its slot is there.
fn name_by(
    pc: u16,
    operation: Option<&Operation>,
    count: Option<u32>,
    edge: u32,
    one: FlowName,
    two: FlowName,
    from: usize,
    name: FlowName,
) -> FlowName
    ensures { result ≡ name_by pc (option_copied operation.entry) count edge one two from name }
{
    match (operation, count) {
        (Some(operation), Some(count)) if from < count as usize => {
            refined(pc, &operation.next, edge, one, two, name)
        }
        _ => FlowName::Nothing,
    }
}

/// The flow of a slot in front of a place, along an edge that leads there, by the flows of the operands.
fn name_along(
    blocks: &Blocks,
    meets: &[bool],
    known: &[Option<Before>],
    place: usize,
    edge: u32,
    one: FlowName,
    two: FlowName,
    to: usize,
    slot: usize,
) -> FlowName
    requires inside { place < length blocks.now.steps }
    requires meets { AreMeets blocks.now meets.now }
    ensures { (failing : List ℕ) (k : Before) → AreSound blocks.now failing known.now → answered blocks.now meets.now known.now place ≡ true → IsKnown blocks.now failing place k → IsKnown blocks.now failing to (along_edge blocks.now failing place edge k) → one ≡ name_at k.names (slot_by (operation_at blocks.now place) (Some (length k.names)) 1) → two ≡ name_at k.names (slot_by (operation_at blocks.now place) (Some (length k.names)) 2) → result ≡ name_at (along_edge blocks.now failing place edge k).names slot }
{
    match trace(blocks, place, to, slot) {
        Origin::Name(name) => name,
        Origin::Slot(from) => {
            let pc = pc_at(blocks.body(), place);
            let operation = operation_at(blocks.body(), place);
            let count = blocks.slots(place);
            let name = flow_in(blocks, meets, known, place, from);
            name_by(pc, operation, count, edge, one, two, from, name)
        }
    }
}

/// The predicate behind an instruction that leaves nothing of its operands.
fn predicate_after(
    blocks: &Blocks,
    fails: &[bool],
    meets: &[bool],
    known: &[Option<Before>],
    place: usize,
) -> FlowName
    requires inside { place < length blocks.now.steps }
    requires meets { AreMeets blocks.now meets.now }
    ensures { (failing : List ℕ) (k : Before) → AreFails failing fails.now → AreSound blocks.now failing known.now → answered blocks.now meets.now known.now place ≡ true → IsKnown blocks.now failing place k → result ≡ linked_by (operation_at blocks.now place) (pc_at blocks.now place) (fails_there failing (pc_at blocks.now place)) k.predicate }
{
    match linked_at(blocks, fails, place) {
        Some(own) => own,
        None => predicate_in(blocks, fails, meets, known, place),
    }
}

/// The predicate along an edge of an instruction, where it is this one if nothing is left of an operand.
fn left_by(pc: u16, operation: Option<&Operation>, edge: u32, other: FlowName) -> FlowName
    ensures { result ≡ left_by pc (option_copied operation.entry) edge other }
{
    match operation {
        Some(operation) if refines(&operation.next) => FlowName::Refined {
            pc,
            edge,
            operand: 1,
        },
        Some(_) | None => other,
    }
}

/// The predicate along an edge of the instruction at a place.
fn predicate_along(
    blocks: &Blocks,
    fails: &[bool],
    meets: &[bool],
    known: &[Option<Before>],
    place: usize,
    edge: u32,
) -> FlowName
    requires inside { place < length blocks.now.steps }
    requires meets { AreMeets blocks.now meets.now }
    ensures { (failing : List ℕ) (k : Before) → AreFails failing fails.now → AreSound blocks.now failing known.now → answered blocks.now meets.now known.now place ≡ true → IsKnown blocks.now failing place k → result ≡ (along_edge blocks.now failing place edge k).predicate }
{
    let pc = pc_at(blocks.body(), place);
    let operation = operation_at(blocks.body(), place);
    let other = predicate_after(blocks, fails, meets, known, place);
    left_by(pc, operation, edge, other)
}

/// What is known in front of a place, along an edge that leads there.
fn along(
    alloc: Global,
    blocks: &Blocks,
    fails: &[bool],
    meets: &[bool],
    known: &[Option<Before>],
    place: usize,
    edge: u32,
    to: usize,
) -> Result<Before, AllocError>
    requires inside { place < length blocks.now.steps }
    requires meets { AreMeets blocks.now meets.now }
    ensures { IfOk result (λ row. (failing : List ℕ) (k : Before) → AreFails failing fails.now → AreSound blocks.now failing known.now → answered blocks.now meets.now known.now place ≡ true → IsKnown blocks.now failing place k → IsKnown blocks.now failing to (along_edge blocks.now failing place edge k) → row ≡ along_edge blocks.now failing place edge k) }
{
    let one = operand_flow(blocks, meets, known, place, 1);
    let two = operand_flow(blocks, meets, known, place, 2);
    let after = blocks.slots(to).unwrap_or(0) as usize;
    let mut names = Vec::with_capacity(alloc, after)?;
    for slot in 0..after {
        names.push(name_along(blocks, meets, known, place, edge, one, two, to, slot))?;
    }
    Ok(Before {
        predicate: predicate_along(blocks, fails, meets, known, place, edge),
        names: Items::from_vec(names),
    })
}

/// Whether a place is one where the walk back ends, and nothing is kept of it.
fn lacks(blocks: &Blocks, meets: &[bool], known: &[Option<Before>], to: usize) -> bool
    requires { length known.now ≡ length blocks.now.steps }
    ensures { result ≡ (nat_lt to (length known.now) && not (answers_at meets.now known.now to) && ends blocks.now meets.now to) }
{
    to < known.len() && !answers_at(meets, known, to) && ends(blocks, meets, to)
}

/// Whether a path reaches a place, and something is kept of the place where the walk back from it ends.
fn leads(blocks: &Blocks, meets: &[bool], known: &[Option<Before>], place: usize) -> bool
    requires { place < length blocks.now.steps }
    ensures reached { result ≡ true → Reached (graph_of blocks.now) place }
    ensures answered { result ≡ true → answered blocks.now meets.now known.now place ≡ true }
    ensures all { Reached (graph_of blocks.now) place → answered blocks.now meets.now known.now place ≡ true → result ≡ true }
{
    blocks.slots(place).is_some() && is_answered(blocks, meets, known, place)
}

/// Keeps what is known along an edge, where that isn't kept yet and the walk back ends behind it, and notes the place
/// behind the edge. Answers whether it did.
fn leave_edge(
    alloc: Global,
    blocks: &Blocks,
    fails: &[bool],
    meets: &[bool],
    known: &mut [Option<Before>],
    noted: &mut Vec<usize>,
    place: usize,
    edge: u32,
    to: usize,
) -> Result<bool, AllocError>
    requires inside { place < length blocks.now.steps }
    requires meets { AreMeets blocks.now meets.now }
    requires count { length known.old ≡ length blocks.now.steps }
    requires leads { slice_get (targets_at blocks.now place) edge ≡ Some to }
    ensures sound { (failing : List ℕ) → IfOk result (λ _. AreFails failing fails.now → AreSound blocks.now failing known.old → AreSound blocks.now failing known.new) }
    ensures less { result ≡ Ok true → nones known.new < nones known.old }
    ensures same { result ≡ Ok false → known.new ≡ known.old }
    ensures room { IfOk result (λ _. nones known.new + length noted.new.items ≤ nones known.old + length noted.old.items) }
    ensures filled { result ≡ Ok false → Reached (graph_of blocks.now) place → answered blocks.now meets.now known.old place ≡ true → IsFilled blocks.now meets.now known.old to }
{
    if !lacks(blocks, meets, known, to) {
        return Ok(false);
    }
    if !leads(blocks, meets, known, place) {
        return Ok(false);
    }
    let row = along(alloc, blocks, fails, meets, known, place, edge, to)?;
    known[to] = Some(row);
    noted.push(to)?;
    Ok(true)
}

/// The same along all edges of a place.
fn leave(
    alloc: Global,
    blocks: &Blocks,
    fails: &[bool],
    meets: &[bool],
    known: &mut [Option<Before>],
    noted: &mut Vec<usize>,
    place: usize,
) -> Result<bool, AllocError>
    requires inside { place < length blocks.now.steps }
    requires meets { AreMeets blocks.now meets.now }
    requires count { length known.old ≡ length blocks.now.steps }
    ensures sound { (failing : List ℕ) → IfOk result (λ _. AreFails failing fails.now → AreSound blocks.now failing known.old → AreSound blocks.now failing known.new) }
    ensures less { result ≡ Ok true → nones known.new < nones known.old }
    ensures same { result ≡ Ok false → known.new ≡ known.old }
    ensures room { IfOk result (λ _. nones known.new + length noted.new.items ≤ nones known.old + length noted.old.items) }
    ensures left { result ≡ Ok false → IsLeft blocks.now meets.now known.old place }
{
    let targets = targets_at(blocks.body(), place);
    let mut more = false;
    for edge in 0..targets.len() {
        let Ok(number) = u32::try_from(edge) else {
            return Err(AllocError);
        };
        let kept = leave_edge(
            alloc,
            blocks,
            fails,
            meets,
            known,
            noted,
            place,
            number,
            targets[edge],
        )?;
        more = more || kept;
    }
    Ok(more)
}

/// The same for a place and the places behind it in its block.
fn leave_block(
    alloc: Global,
    blocks: &Blocks,
    fails: &[bool],
    meets: &[bool],
    known: &mut [Option<Before>],
    noted: &mut Vec<usize>,
    place: usize,
) -> Result<(), AllocError>
    requires meets { AreMeets blocks.now meets.now }
    requires count { length known.old ≡ length blocks.now.steps }
    ensures sound { (failing : List ℕ) → IfOk result (λ _. AreFails failing fails.now → AreSound blocks.now failing known.old → AreSound blocks.now failing known.new) }
    ensures fewer { IfOk result (λ _. nones known.new ≤ nones known.old) }
    ensures room { IfOk result (λ _. nones known.new + length noted.new.items ≤ nones known.old + length noted.old.items) }
{
    for at in place..known.len() {
        if at > place && ends(blocks, meets, at) {
            return Ok(());
        }
        leave(alloc, blocks, fails, meets, known, noted, at)?;
    }
    Ok(())
}

/// The same for all places that were noted, and those noted then.
pub fn leave_noted(
    alloc: Global,
    blocks: &Blocks,
    fails: &[bool],
    meets: &[bool],
    known: &mut [Option<Before>],
    noted: &mut Vec<usize>,
) -> Result<(), AllocError>
    requires meets { AreMeets blocks.now meets.now }
    requires count { length known.old ≡ length blocks.now.steps }
    ensures sound { (failing : List ℕ) → IfOk result (λ _. AreFails failing fails.now → AreSound blocks.now failing known.old → AreSound blocks.now failing known.new) }
    ensures fewer { IfOk result (λ _. nones known.new ≤ nones known.old) }
{
    while let Some(place) = noted.pop() {
        leave_block(alloc, blocks, fails, meets, known, noted, place)?;
    }
    Ok(())
}

/// The same for all places.
pub fn pass(
    alloc: Global,
    blocks: &Blocks,
    fails: &[bool],
    meets: &[bool],
    known: &mut [Option<Before>],
    noted: &mut Vec<usize>,
) -> Result<bool, AllocError>
    requires meets { AreMeets blocks.now meets.now }
    requires count { length known.old ≡ length blocks.now.steps }
    ensures sound { (failing : List ℕ) → IfOk result (λ _. AreFails failing fails.now → AreSound blocks.now failing known.old → AreSound blocks.now failing known.new) }
    ensures less { result ≡ Ok true → nones known.new < nones known.old }
    ensures same { result ≡ Ok false → known.new ≡ known.old }
    ensures left { result ≡ Ok false → (place : ℕ) → place < length blocks.now.steps → IsLeft blocks.now meets.now known.new place }
{
    let mut more = false;
    for place in 0..blocks.body().steps.len() {
        let kept = leave(alloc, blocks, fails, meets, known, noted, place)?;
        more = more || kept;
    }
    Ok(more)
}
