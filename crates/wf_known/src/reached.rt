//! What is known in front of a place, by the environment alone.

ghost use Rattle.std.specs.Prelude.{◌≡◌, ◌<◌, length, IfOk};
ghost use Rattle.wf_known.specs.Fronts.{IsFront, IsReached};

use crate::front::Front;
use crate::node::node_of;
use std::alloc::{AllocError, Global};
use wf_base::{Items, MethodId};
use wf_blocks::Blocks;
use wf_ssa::Env;

/// What is known in front of the place of this number, if a path reaches it. It takes the time of a walk back to the start
/// of the place's block for each slot.
pub fn front_at(
    alloc: Global,
    method: MethodId,
    env: &Env<'_>,
    blocks: &Blocks,
    place: usize,
) -> Result<Front, AllocError>
    requires same { env.now.0 ≡ blocks.now }
    requires inside { place < length blocks.now.steps }
    ensures { IfOk result (IsFront blocks.now env.now.1 method place) }
{
    let count = blocks.slots(place).unwrap_or(0) as usize;
    let mut slots = Vec::with_capacity(alloc, count)?;
    for slot in 0..count {
        slots.push(node_of(method, env.flow_in(place, slot)))?;
    }
    Ok(Front {
        predicate: node_of(method, env.predicate_in(place)),
        slots: Items::from_vec(slots),
    })
}

/// The same, or None where no path reaches the place.
pub fn reached_front(
    alloc: Global,
    method: MethodId,
    env: &Env<'_>,
    blocks: &Blocks,
    place: usize,
) -> Result<Option<Front>, AllocError>
    requires same { env.now.0 ≡ blocks.now }
    requires inside { place < length blocks.now.steps }
    ensures { IfOk result (IsReached blocks.now env.now.1 method place) }
{
    match blocks.slots(place) {
        Some(_) => Ok(Some(front_at(alloc, method, env, blocks, place)?)),
        None => Ok(None),
    }
}
