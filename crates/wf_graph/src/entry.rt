//! The entry of a method, which is an edge into its first place.

ghost use Rattle.std.specs.Prelude.{◌≡◌, ◌++◌, List, map, IfOk, OnOk};
ghost use Rattle.std.specs.List.{range_with_len};
ghost use Rattle.wf_blocks.specs.Bodies.{locals_of};
ghost use Rattle.wf_ssa.specs.Environments.{entry_name};
ghost use Rattle.wf_rows.specs.Renaming.{all_renamed};
ghost use Rattle.wf_known.specs.Flows.{node_of};
ghost use Rattle.wf_graph.specs.Bodies.{Body};
ghost use Rattle.wf_graph.specs.BodyRows.{rows_of_entry};
ghost use Rattle.wf_graph.specs.Flow.{IsFlow};

use crate::edges::push_met;
use std::alloc::{AllocError, Global};
use wf_base::{MethodId, NodeId};
use wf_blocks::{Blocks, Body as Shape};
use wf_operation::SlotKind;
use wf_rows::{Context, Known, Node, Own};
use wf_ssa::{Env, pc_at};
use wf_system::Inequality;

/// What a local holds at the entry: nothing, where it is unused.
fn entry_node(method: MethodId, body: &Shape, local: usize) -> Node<Own>
    ensures { result ≡ node_of method (entry_name body.now local) }
{
    match body
        .entry
        .as_slice()
        .get(local)
        .copied()
        .unwrap_or(SlotKind::Unused)
    {
        SlotKind::Unused => Node::Nothing,
        _ => {
            let parameter = body.params.as_slice().get(local).copied().unwrap_or(0);
            Node::Parameter(method, parameter as usize)
        }
    }
}

/// What the locals hold at the entry.
fn entry_nodes(alloc: Global, method: MethodId, body: &Shape) -> Result<Vec<Node<Own>>, AllocError>
    ensures { IfOk result (λ nodes. nodes.items ≡ map (node_of method) (map (entry_name body.now) (range_with_len 0 (locals_of body.now)))) }
{
    let count = body.entry.len();
    let mut nodes = Vec::with_capacity(alloc, count)?;
    for local in 0..count {
        nodes.push(entry_node(method, body, local))?;
    }
    Ok(nodes)
}

/// Adds the rows of the entry of a method.
pub fn push_entry<C: Context>(
    alloc: Global,
    context: &C,
    method: MethodId,
    env: &Env<'_>,
    blocks: &Blocks,
    rows: &mut Vec<Inequality<NodeId>>,
) -> Result<(), AllocError>
    requires { env.now.0 ≡ blocks.now }
    ensures { (b : Body) → IsFlow blocks.now env.now.1 method b → OnOk result (rows.new.items ≡ rows.old.items ++ all_renamed (C.number context.now) (rows_of_entry b)) }
{
    let nodes = entry_nodes(alloc, method, blocks.body())?;
    let known = Known {
        method,
        pc: pc_at(blocks.body(), 0),
        predicate: Node::Entered(method),
        slots: nodes.as_slice(),
    };
    push_met(context, env, 0, &known, rows)
}
