//! From place to place.

ghost use Rattle.std.specs.Prelude.{◌≡◌, ◌<◌, ◌+◌, ◌==◌, length, IfOk, IfSome};
ghost use Rattle.std.specs.List.{position};
ghost use Rattle.std.specs.Option.{option_copied};
ghost use Rattle.wf_known.specs.Fronts.{IsOnlyEdge, IsReached};

use crate::along::front_along;
use crate::front::Front;
use crate::reached::reached_front;
use std::alloc::{AllocError, Global};
use wf_base::MethodId;
use wf_blocks::{Blocks, targets_at};
use wf_ssa::Env;

/// The number of the next place.
fn next_place(blocks: &Blocks, place: usize) -> usize
    requires { place + 1 < length blocks.now.steps }
    ensures { result ≡ place + 1 }
{
    let _places = blocks.body().steps.len();
    place + 1
}

/// The first edge that leads to a place.
fn edge_to(targets: &[usize], to: usize) -> Option<usize>
    ensures { result ≡ position (λ target. target == to) targets.now }
{
    targets.iter().position(|target| *target == to)
}

/// The edge of the instruction at a place that leads to another, if no other way leads there.
fn only_edge(env: &Env<'_>, blocks: &Blocks, place: usize, to: usize) -> Option<usize>
    requires same { env.now.0 ≡ blocks.now }
    requires inside { to < length blocks.now.steps }
    ensures { IfSome result (IsOnlyEdge blocks.now place to) }
{
    if env.meets(to) {
        return None;
    }
    edge_to(targets_at(blocks.body(), place), to)
}

/// What is known in front of the place behind this one, or None where no path reaches it. `front` is the same of this
/// place. It is taken from there where no other way leads on, and else from the environment, as `front_at` does.
pub fn next_front(
    alloc: Global,
    method: MethodId,
    env: &Env<'_>,
    blocks: &Blocks,
    place: usize,
    front: Option<&Front>,
) -> Result<Option<Front>, AllocError>
    requires same { env.now.0 ≡ blocks.now }
    requires inside { place + 1 < length blocks.now.steps }
    requires front { IsReached blocks.now env.now.1 method place (option_copied front) }
    ensures { IfOk result (IsReached blocks.now env.now.1 method (place + 1)) }
{
    let next = next_place(blocks, place);
    match (front, only_edge(env, blocks, place, next)) {
        (Some(front), Some(edge)) => Ok(Some(front_along(
            alloc, method, env, blocks, place, edge, next, front,
        )?)),
        _ => reached_front(alloc, method, env, blocks, next),
    }
}
