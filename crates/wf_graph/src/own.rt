//! The nodes of a body.

ghost use Rattle.std.specs.Prelude.{◌≡◌, ℕ, ◌<◌, Bool, List, length, ◌&&◌, ◌++◌, IfOk, OnOk};
ghost use Rattle.std.specs.Option.{option_copied};
ghost use Rattle.wf_operation.specs.declared.slot.SlotKind.{SlotKind};
ghost use Rattle.wf_blocks.specs.Answers.{AreReached, HasSlots};
ghost use Rattle.wf_blocks.specs.Bodies.{graph_of};
ghost use Rattle.wf_blocks.specs.Graphs.{Reached};
ghost use Rattle.wf_ssa.specs.Environments.{meets};
ghost use Rattle.wf_rows.specs.Each.{each_from};
ghost use Rattle.wf_graph.specs.Bodies.{Body, is_marked, AreKindsOf, AreKinds};
ghost use Rattle.wf_graph.specs.BodyNodes.{act_nodes, place_nodes, meeting_nodes, handler_nodes, body_nodes};
ghost use Rattle.wf_graph.specs.Flow.{IsBodyBy};

use std::alloc::{AllocError, Global};
use wf_base::Items;
use wf_blocks::{Blocks, Step};
use wf_body::{Reading, act_at};
use wf_operation::{Operation, SlotKind};
use wf_own::OwnNodes;
use wf_rows::{Action, HandlerEntry};
use wf_ssa::Env;

/// Whether a path reaches the place of this number.
pub fn is_reached(blocks: &Blocks, place: usize) -> bool
    ensures { (marks : List Bool) → AreReached blocks.now marks → result ≡ is_marked marks place }
{
    blocks.slots(place).is_some()
}

/// How many slots there are in front of a reached place.
fn slots_at(blocks: &Blocks, place: usize) -> u32
    ensures { Reached (graph_of blocks.now) place → HasSlots blocks.now place result }
{
    match blocks.slots(place) {
        Some(slots) => slots,
        None => 0,
    }
}

/// The kinds of all slots in front of a reached place.
fn kinds_at(alloc: Global, blocks: &Blocks, place: usize) -> Result<Items<SlotKind>, AllocError>
    requires { place < length blocks.now.steps }
    ensures { IfOk result (λ kinds. Reached (graph_of blocks.now) place → AreKindsOf blocks.now place kinds) }
{
    let mut kinds = Vec::new(alloc);
    for slot in 0..slots_at(blocks, place) {
        kinds.push(blocks.kind_in(place, slot as usize))?;
    }
    Ok(Items::from_vec(kinds))
}

/// Puts in the nodes of an instruction that does this.
fn push_act_nodes(
    pc: u16,
    operation: Option<&Operation>,
    act: Option<&Action>,
    own: &mut OwnNodes,
) -> Result<(), AllocError>
    ensures { OnOk result (own.new ≡ own.old ++ act_nodes pc (option_copied operation.entry) (option_copied act.entry)) }
{
    match (operation, act) {
        (Some(operation), Some(act)) => own.push_place(pc, &operation.next, act),
        _ => Ok(()),
    }
}

/// Puts in the nodes of a place, where a path reaches it.
fn push_place_nodes(
    blocks: &Blocks,
    acts: &[Option<Action>],
    place: usize,
    step: &Step,
    own: &mut OwnNodes,
) -> Result<(), AllocError>
    ensures { (marks : List Bool) → AreReached blocks.now marks → OnOk result (own.new ≡ own.old ++ place_nodes marks acts.now place step.now) }
{
    if is_reached(blocks, place) {
        push_act_nodes(step.pc, step.operation.as_ref(), act_at(acts, place), own)
    } else {
        Ok(())
    }
}

/// Puts in the nodes of the places that paths reach.
fn push_places(
    blocks: &Blocks,
    acts: &[Option<Action>],
    own: &mut OwnNodes,
) -> Result<(), AllocError>
    ensures { (marks : List Bool) → AreReached blocks.now marks → OnOk result (own.new ≡ own.old ++ each_from (place_nodes marks acts.now) 0 blocks.now.steps) }
{
    for (place, step) in blocks.body().steps.as_slice().iter().enumerate() {
        push_place_nodes(blocks, acts, place, step, own)?;
    }
    Ok(())
}

/// Whether a path reaches a place where ways meet.
fn meets_at(blocks: &Blocks, env: &Env<'_>, place: usize) -> bool
    requires same { env.now.0 ≡ blocks.now }
    requires within { place < length blocks.now.steps }
    ensures { (marks : List Bool) → AreReached blocks.now marks → result ≡ (is_marked marks place && meets blocks.now marks place) }
{
    is_reached(blocks, place) && env.meets(place)
}

/// Puts in the nodes of a reached place where ways meet.
fn push_meeting_nodes(
    alloc: Global,
    blocks: &Blocks,
    env: &Env<'_>,
    place: usize,
    step: &Step,
    own: &mut OwnNodes,
) -> Result<(), AllocError>
    requires same { env.now.0 ≡ blocks.now }
    requires within { place < length blocks.now.steps }
    ensures { (marks : List Bool) (kinds : ℕ → List SlotKind) → AreReached blocks.now marks → AreKinds blocks.now marks kinds → OnOk result (own.new ≡ own.old ++ meeting_nodes blocks.now marks kinds place step.now) }
{
    if meets_at(blocks, env, place) {
        let kinds = kinds_at(alloc, blocks, place)?;
        own.push_block(step.pc, kinds.as_slice())
    } else {
        Ok(())
    }
}

/// Puts in the nodes of the reached places where ways meet.
fn push_meeting_places(
    alloc: Global,
    blocks: &Blocks,
    env: &Env<'_>,
    own: &mut OwnNodes,
) -> Result<(), AllocError>
    requires { env.now.0 ≡ blocks.now }
    ensures { (marks : List Bool) (kinds : ℕ → List SlotKind) → AreReached blocks.now marks → AreKinds blocks.now marks kinds → OnOk result (own.new ≡ own.old ++ each_from (meeting_nodes blocks.now marks kinds) 0 blocks.now.steps) }
{
    for (place, step) in blocks.body().steps.as_slice().iter().enumerate() {
        push_meeting_nodes(alloc, blocks, env, place, step, own)?;
    }
    Ok(())
}

/// Puts in the node of an entry of the exception table, where a path reaches its handler.
fn push_handler(handler: Option<HandlerEntry>, own: &mut OwnNodes) -> Result<(), AllocError>
    ensures { (entry : ℕ) → OnOk result (own.new ≡ own.old ++ handler_nodes entry handler) }
{
    match handler {
        Some(handler) => own.push_caught(handler),
        None => Ok(()),
    }
}

/// Puts in the nodes of the entries of the exception table whose handlers paths reach.
fn push_handlers(handlers: &[Option<HandlerEntry>], own: &mut OwnNodes) -> Result<(), AllocError>
    ensures { OnOk result (own.new ≡ own.old ++ each_from handler_nodes 0 handlers.now) }
{
    for handler in handlers {
        push_handler(*handler, own)?;
    }
    Ok(())
}

/// The nodes of a body, in the order of their numbers.
pub fn own_nodes(alloc: Global, reading: &Reading, env: &Env<'_>) -> Result<OwnNodes, AllocError>
    requires { env.now.0 ≡ reading.now.blocks }
    ensures { IfOk result (λ own. (b : Body) → IsBodyBy reading.now.blocks reading.now.failing reading.now.method reading.now.acts reading.now.handlers b → own ≡ body_nodes b) }
{
    let blocks = &reading.blocks;
    let mut own = OwnNodes::new(alloc);
    push_places(blocks, reading.acts.as_slice(), &mut own)?;
    push_meeting_places(alloc, blocks, env, &mut own)?;
    push_handlers(reading.handlers.as_slice(), &mut own)?;
    Ok(own)
}
