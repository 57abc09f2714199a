//! Edges into the places where ways meet.

ghost use Rattle.std.specs.Prelude.{◌≡◌, ◌<◌, ◌++◌, Bool, List, [], length, slice_get, Some, OnOk, if◌then◌else◌};
ghost use Rattle.wf_blocks.specs.Answers.{AreReached};
ghost use Rattle.wf_blocks.specs.Bodies.{graph_of, targets_at};
ghost use Rattle.wf_blocks.specs.Graphs.{Reached};
ghost use Rattle.wf_ssa.specs.declared.before.Before.{Before};
ghost use Rattle.wf_ssa.specs.Environments.{meets};
ghost use Rattle.wf_rows.specs.Each.{each_from};
ghost use Rattle.wf_rows.specs.Joins.{edge_rows};
ghost use Rattle.wf_rows.specs.Renaming.{all_renamed};
ghost use Rattle.wf_known.specs.Fronts.{Says};
ghost use Rattle.wf_graph.specs.Bodies.{Body};
ghost use Rattle.wf_graph.specs.BodyRows.{edge_into, edge_from};
ghost use Rattle.wf_graph.specs.Flow.{IsFlow};

use std::alloc::{AllocError, Global};
use wf_base::{MethodId, NodeId};
use wf_blocks::{Blocks, targets_at};
use wf_known::{Front, front_along};
use wf_rows::{Context, Known, push_edge};
use wf_ssa::{Env, pc_at};
use wf_system::Inequality;

/// Adds the rows of an edge into the place of this number, if ways meet there. `edge` is what is known along it.
pub fn push_met<C: Context>(
    context: &C,
    env: &Env<'_>,
    to: usize,
    edge: &Known<'_>,
    rows: &mut Vec<Inequality<NodeId>>,
) -> Result<(), AllocError>
    ensures { (marks : List Bool) → AreReached env.now.0 marks → to < length env.now.0.steps → OnOk result (rows.new.items ≡ rows.old.items ++ all_renamed (C.number context.now) (if meets env.now.0 marks to then edge_rows edge.now else [])) }
{
    if env.meets(to) {
        push_edge(context, edge, rows)
    } else {
        Ok(())
    }
}

/// The same, where `front` is what is known along the edge.
fn push_edge_into<C: Context>(
    context: &C,
    method: MethodId,
    env: &Env<'_>,
    blocks: &Blocks,
    to: usize,
    front: &Front,
    rows: &mut Vec<Inequality<NodeId>>,
) -> Result<(), AllocError>
    requires { env.now.0 ≡ blocks.now }
    ensures { (b : Body) (k : Before) → IsFlow blocks.now env.now.1 method b → Says method k front.now → to < length blocks.now.steps → OnOk result (rows.new.items ≡ rows.old.items ++ all_renamed (C.number context.now) (edge_into b to k)) }
{
    let known = front.known(method, pc_at(blocks.body(), to));
    push_met(context, env, to, &known, rows)
}

/// Adds the rows of an edge of the instruction at a place, where `front` is what is known in front of it.
fn push_edge_from<C: Context>(
    alloc: Global,
    context: &C,
    method: MethodId,
    env: &Env<'_>,
    blocks: &Blocks,
    place: usize,
    edge: usize,
    to: usize,
    front: &Front,
    rows: &mut Vec<Inequality<NodeId>>,
) -> Result<(), AllocError>
    requires same { env.now.0 ≡ blocks.now }
    requires leads { slice_get (targets_at blocks.now place) edge ≡ Some to }
    ensures { (b : Body) → IsFlow blocks.now env.now.1 method b → Reached (graph_of blocks.now) place → Says method (b.before place) front.now → OnOk result (rows.new.items ≡ rows.old.items ++ all_renamed (C.number context.now) (edge_from b place edge to)) }
{
    let along = front_along(alloc, method, env, blocks, place, edge, to, front)?;
    push_edge_into(context, method, env, blocks, to, &along, rows)
}

/// Adds the rows of all edges of the instruction at a place, where `front` is what is known in front of it.
pub fn push_edges<C: Context>(
    alloc: Global,
    context: &C,
    method: MethodId,
    env: &Env<'_>,
    blocks: &Blocks,
    place: usize,
    front: &Front,
    rows: &mut Vec<Inequality<NodeId>>,
) -> Result<(), AllocError>
    requires { env.now.0 ≡ blocks.now }
    ensures { (b : Body) → IsFlow blocks.now env.now.1 method b → Reached (graph_of blocks.now) place → Says method (b.before place) front.now → OnOk result (rows.new.items ≡ rows.old.items ++ all_renamed (C.number context.now) (each_from (edge_from b place) 0 (targets_at blocks.now place))) }
{
    let targets = targets_at(blocks.body(), place);
    for (edge, to) in targets.iter().enumerate() {
        push_edge_from(
            alloc, context, method, env, blocks, place, edge, *to, front, rows,
        )?;
    }
    Ok(())
}
