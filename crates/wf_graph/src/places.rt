//! What is known at the places of a body, and what their instructions do.

ghost use Rattle.std.specs.Prelude.{◌≡◌, ◌+◌, ◌<◌, ◌^◌, ◌++◌, true, length, IfOk, OnOk, if◌then◌else◌};
ghost use Rattle.std.specs.Option.{option_copied};
ghost use Rattle.wf_blocks.specs.Bodies.{graph_of};
ghost use Rattle.wf_blocks.specs.Graphs.{Reached};
ghost use Rattle.wf_rows.specs.Each.{each_from};
ghost use Rattle.wf_rows.specs.Renaming.{all_renamed};
ghost use Rattle.wf_known.specs.Fronts.{IsReached, Says};
ghost use Rattle.wf_graph.specs.Bodies.{Body, HasKeys, is_switch_at, keys_at};
ghost use Rattle.wf_graph.specs.BodyRows.{act_rows, reached_rows, rows_of_place};
ghost use Rattle.wf_graph.specs.Flow.{AreShort, IsBodyBy, IsShortIf};

use crate::covered::push_covering;
use crate::edges::push_edges;
use std::alloc::{AllocError, Global};
use wf_base::{MethodId, NodeId};
use wf_blocks::{Blocks, Step};
use wf_body::{Reading, act_at};
use wf_known::{Front, next_front, reached_front};
use wf_operation::{Next, Operation};
use wf_rows::{Action, Context, Known, push_place};
use wf_ssa::Env;
use wf_system::Inequality;

/// Adds the rows of what an instruction does, if its operand isn't wrong. `keys` is the number of the keys of a switch.
fn push_act<C: Context>(
    context: &C,
    known: &Known<'_>,
    operation: Option<&Operation>,
    act: Option<&Action>,
    keys: u32,
    rows: &mut Vec<Inequality<NodeId>>,
) -> Result<(), AllocError>
    requires { IsShortIf (option_copied act) }
    ensures { OnOk result (rows.new.items ≡ rows.old.items ++ all_renamed (C.number context.now) (act_rows known.now (C.arrays context.now) (C.thrown context.now) keys (option_copied operation.entry) (option_copied act.entry))) }
{
    match (operation, act) {
        (Some(operation), Some(act)) => {
            push_place(context, known, &operation.next, keys, act, rows)
        }
        _ => Ok(()),
    }
}

/// Adds the rows of a place that a path reaches, where `front` is what is known there.
fn push_reached<C: Context>(
    alloc: Global,
    context: &C,
    reading: &Reading,
    env: &Env<'_>,
    place: usize,
    step: &Step,
    keys: u32,
    front: &Front,
    rows: &mut Vec<Inequality<NodeId>>,
) -> Result<(), AllocError>
    requires same { env.now.0 ≡ reading.now.blocks }
    requires short { AreShort reading.now.acts }
    ensures { (b : Body) → IsBodyBy reading.now.blocks env.now.1 reading.now.method reading.now.acts reading.now.handlers b → keys ≡ keys_at b place → Reached (graph_of reading.now.blocks) place → Says reading.now.method (b.before place) front.now → OnOk result (rows.new.items ≡ rows.old.items ++ all_renamed (C.number context.now) (reached_rows (C.arrays context.now) (C.thrown context.now) b place step.now)) }
{
    let known = front.known(reading.method, step.pc);
    let act = act_at(reading.acts.as_slice(), place);
    push_act(context, &known, step.operation.as_ref(), act, keys, rows)?;
    push_edges(
        alloc,
        context,
        reading.method,
        env,
        &reading.blocks,
        place,
        front,
        rows,
    )?;
    push_covering(
        context,
        &known,
        place,
        reading.blocks.body().catchers.as_slice(),
        reading.handlers.as_slice(),
        rows,
    )
}

/// Adds the rows of a place. `front` is what is known there, or None where no path reaches it.
fn push_step<C: Context>(
    alloc: Global,
    context: &C,
    reading: &Reading,
    env: &Env<'_>,
    place: usize,
    step: &Step,
    keys: u32,
    front: Option<&Front>,
    rows: &mut Vec<Inequality<NodeId>>,
) -> Result<(), AllocError>
    requires same { env.now.0 ≡ reading.now.blocks }
    requires short { AreShort reading.now.acts }
    ensures { (b : Body) → IsBodyBy reading.now.blocks env.now.1 reading.now.method reading.now.acts reading.now.handlers b → keys ≡ keys_at b place → IsReached reading.now.blocks env.now.1 reading.now.method place (option_copied front.entry) → OnOk result (rows.new.items ≡ rows.old.items ++ all_renamed (C.number context.now) (rows_of_place (C.arrays context.now) (C.thrown context.now) b place step.now)) }
{
    match front {
        Some(front) => push_reached(alloc, context, reading, env, place, step, keys, front, rows),
        None => Ok(()),
    }
}

/// Whether the instruction of a step is a switch.
fn is_switch_at(step: &Step) -> bool
    ensures { result ≡ is_switch_at step.now }
{
    match &step.operation {
        Some(operation) => match operation.next {
            Next::Switches { .. } => true,
            _ => false,
        },
        None => false,
    }
}

/// The number of the keys of the next switch behind a step.
fn keys_behind(keys: u32, step: &Step) -> u32
    requires { is_switch_at step.now ≡ true → keys + 1 < 2 ^ 32 }
    ensures { result ≡ keys + (if is_switch_at step.now then 1 else 0) }
{
    if is_switch_at(step) { keys + 1 } else { keys }
}

/// What is known in front of the first place, if there is one.
fn first_front(
    alloc: Global,
    method: MethodId,
    env: &Env<'_>,
    blocks: &Blocks,
) -> Result<Option<Front>, AllocError>
    requires { env.now.0 ≡ blocks.now }
    ensures { 0 < length blocks.now.steps → IfOk result (IsReached blocks.now env.now.1 method 0) }
{
    if blocks.body().steps.len() > 0 {
        reached_front(alloc, method, env, blocks, 0)
    } else {
        Ok(None)
    }
}

/// What is known in front of the place behind this one, if there is one. `front` is the same of this place.
fn front_behind(
    alloc: Global,
    method: MethodId,
    env: &Env<'_>,
    blocks: &Blocks,
    place: usize,
    front: Option<&Front>,
) -> Result<Option<Front>, AllocError>
    requires same { env.now.0 ≡ blocks.now }
    requires inside { place < length blocks.now.steps }
    requires front { IsReached blocks.now env.now.1 method place (option_copied front) }
    ensures { place + 1 < length blocks.now.steps → IfOk result (IsReached blocks.now env.now.1 method (place + 1)) }
{
    let count = blocks.body().steps.len();
    if place + 1 < count {
        next_front(alloc, method, env, blocks, place, front)
    } else {
        Ok(None)
    }
}

/// Adds the rows of all places, where the keys of the first switch have this number.
pub fn push_places<C: Context>(
    alloc: Global,
    context: &C,
    reading: &Reading,
    env: &Env<'_>,
    first_keys: u32,
    rows: &mut Vec<Inequality<NodeId>>,
) -> Result<(), AllocError>
    requires same { env.now.0 ≡ reading.now.blocks }
    requires keys { HasKeys first_keys reading.now.blocks }
    requires short { AreShort reading.now.acts }
    ensures { (b : Body) → IsBodyBy reading.now.blocks env.now.1 reading.now.method reading.now.acts reading.now.handlers b → b.first_keys ≡ first_keys → OnOk result (rows.new.items ≡ rows.old.items ++ all_renamed (C.number context.now) (each_from (rows_of_place (C.arrays context.now) (C.thrown context.now) b) 0 reading.now.blocks.steps)) }
{
    let method = reading.method;
    let blocks = &reading.blocks;
    let steps = blocks.body().steps.as_slice();
    let mut front = first_front(alloc, method, env, blocks)?;
    let mut keys = first_keys;
    for (place, step) in steps.iter().enumerate() {
        push_step(
            alloc,
            context,
            reading,
            env,
            place,
            step,
            keys,
            front.as_ref(),
            rows,
        )?;
        front = front_behind(alloc, method, env, blocks, place, front.as_ref())?;
        keys = keys_behind(keys, step);
    }
    Ok(())
}
