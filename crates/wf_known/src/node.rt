//! Flows as nodes.

ghost use Rattle.std.specs.Prelude.{◌≡◌, ◌++◌, map, OnOk};
ghost use Rattle.wf_known.specs.Flows.{node_of};

use std::alloc::AllocError;
use wf_base::MethodId;
use wf_rows::{Node, Own};
use wf_ssa::FlowName;

/// The node of a flow in the body of a method.
pub fn node_of(method: MethodId, name: FlowName) -> Node<Own>
    ensures { result ≡ node_of method name }
{
    match name {
        FlowName::Nothing => Node::Nothing,
        FlowName::Entry => Node::Entered(method),
        FlowName::Par(i) => Node::Parameter(method, i as usize),
        FlowName::Res(pc) => Node::In(Own::Result(pc)),
        FlowName::Refined { pc, edge, operand } => Node::In(Own::Refined {
            pc,
            edge: edge as usize,
            operand,
        }),
        FlowName::Blk(pc) => Node::In(Own::Block(pc)),
        FlowName::Phi { pc, slot } => Node::In(Own::Merged {
            pc,
            slot: slot as usize,
        }),
        FlowName::Cat(entry) => Node::In(Own::Caught(entry)),
    }
}

/// Adds the nodes of flows.
pub fn nodes_of(
    method: MethodId,
    names: &[FlowName],
    nodes: &mut Vec<Node<Own>>,
) -> Result<(), AllocError>
    ensures { OnOk result (nodes.new.items ≡ nodes.old.items ++ map (node_of method) names.now) }
{
    for name in names {
        nodes.push(node_of(method, *name))?;
    }
    Ok(())
}
