//! What is known along an edge, from what is known in front of the instruction there.

ghost use Rattle.std.specs.Prelude.{◌≡◌, ◌<◌, ◌^◌, ◌&&◌, List, [], true, length, map, slice_index_or, Some, slice_get, IfOk};
ghost use Rattle.wf_base.specs.declared.ids.MethodId.{MethodId};
ghost use Rattle.wf_operation.specs.Effects.{slots_after, source_at};
ghost use Rattle.wf_operation.specs.Slots.{from};
ghost use Rattle.wf_rows.specs.declared.node.Node.TheVariants.{Nothing};
ghost use Rattle.wf_ssa.specs.declared.before.Before.{Before};
ghost use Rattle.wf_ssa.specs.declared.name.FlowName.{FlowName};
ghost use Rattle.wf_ssa.specs.declared.name.FlowName.TheVariants as flow;
ghost use Rattle.wf_ssa.specs.Environments.{name_at, same_name, leaves, refined, renamed, names_along, predicate_along, before_along};
ghost use Rattle.wf_known.specs.Flows.{node_of};
ghost use Rattle.wf_blocks.specs.Bodies.{targets_at};
ghost use Rattle.wf_known.specs.Fronts.{Says, IsAlong};

use crate::front::Front;
use crate::node::node_of;
use std::alloc::{AllocError, Global};
use wf_base::{Items, MethodId};
use wf_blocks::{Blocks, operation_at};
use wf_operation::{Next, Operation, Source, left_of, link_of, source_at};
use wf_rows::{Node, Own};
use wf_ssa::{Env, linked, operand_slot, pc_at, refines};

/// Whether two nodes are one.
fn same_node(a: Node<Own>, b: Node<Own>) -> bool
    ensures same { result ≡ true → a ≡ b }
    ensures all { a ≡ b → result ≡ true }
{
    a == b
}

/// Whether an edge leaves something of an operand, and a node is that operand's.
fn is_left(next: &Next, edge: usize, operand: u8, of: Node<Own>, node: Node<Own>) -> bool
    ensures { (m : MethodId) (name other : FlowName) → of ≡ node_of m other → node ≡ node_of m name → result ≡ (leaves next.now edge operand && same_name name other) }
{
    left_of(next, edge, operand).is_some() && same_node(node, of)
}

/// A node along an edge of the instruction at a place, by the nodes of its operands.
fn refined_node(
    pc: u16,
    next: &Next,
    edge: usize,
    one: Node<Own>,
    two: Node<Own>,
    node: Node<Own>,
) -> Node<Own>
    ensures { (m : MethodId) (first second name : FlowName) → one ≡ node_of m first → two ≡ node_of m second → node ≡ node_of m name → result ≡ node_of m (refined pc next.now edge first second name) }
{
    if is_left(next, edge, 1, one, node) {
        return Node::In(Own::Refined {
            pc,
            edge,
            operand: 1,
        });
    }
    if is_left(next, edge, 2, two, node) {
        return Node::In(Own::Refined {
            pc,
            edge,
            operand: 2,
        });
    }
    node
}

/// The node of a slot; nothing stands past the end.
fn node_at(nodes: &[Node<Own>], slot: usize) -> Node<Own>
    ensures { result ≡ slice_index_or nodes.now slot Nothing }
{
    nodes.get(slot).copied().unwrap_or(Node::Nothing)
}

/// The node of a slot in front of an instruction, with the operands' nodes along an edge.
fn renamed_node(
    pc: u16,
    operation: &Operation,
    edge: usize,
    slots: &[Node<Own>],
    slot: usize,
) -> Node<Own>
    requires { length slots.now < 2 ^ 32 }
    ensures { (m : MethodId) (names : List FlowName) → slots.now ≡ map (node_of m) names → result ≡ node_of m (name_at (renamed pc operation.now edge names) slot) }
{
    if slot >= slots.len() {
        return Node::Nothing;
    }
    let one = node_at(slots, operand_slot(&operation.effect, slots.len(), 1));
    let two = node_at(slots, operand_slot(&operation.effect, slots.len(), 2));
    let node = node_at(slots, slot);
    refined_node(pc, &operation.next, edge, one, two, node)
}

/// The node of a slot behind an instruction that has this source.
fn moved_node(
    pc: u16,
    operation: &Operation,
    edge: usize,
    slots: &[Node<Own>],
    source: Source,
) -> Node<Own>
    requires { length slots.now < 2 ^ 32 }
    ensures { (m : MethodId) (names : List FlowName) → slots.now ≡ map (node_of m) names → result ≡ node_of m (from (renamed pc operation.now edge names) (flow.Res pc) flow.Nothing source) }
{
    match source {
        Source::Keep(slot) | Source::KeepNoHead(slot) | Source::KeepNoRest(slot) => {
            renamed_node(pc, operation, edge, slots, slot)
        }
        Source::Gives(_) => Node::In(Own::Result(pc)),
    }
}

/// The nodes of the slots along an edge of an instruction, behind which there are so many.
fn slots_along(
    alloc: Global,
    pc: u16,
    operation: &Operation,
    edge: usize,
    slots: &[Node<Own>],
    count: usize,
) -> Result<Items<Node<Own>>, AllocError>
    requires few { length slots.now < 2 ^ 32 }
    requires small { count < 2 ^ 32 }
    ensures along { IfOk result (λ after. (m : MethodId) (names : List FlowName) → slots.now ≡ map (node_of m) names → count ≡ slots_after operation.now.effect (length names) → after ≡ map (node_of m) (names_along pc operation.now edge names)) }
    ensures many { IfOk result (λ after. length after ≡ count) }
{
    let mut after = Vec::with_capacity(alloc, count)?;
    for slot in 0..count {
        let source = source_at(&operation.effect, slots.len(), slot);
        after.push(moved_node(pc, operation, edge, slots, source))?;
    }
    Ok(Items::from_vec(after))
}

/// The node that says whether control comes along an edge of an instruction, where `before` says so in front of it.
fn predicate_along(
    method: MethodId,
    pc: u16,
    operation: &Operation,
    edge: usize,
    fails: bool,
    before: Node<Own>,
) -> Node<Own>
    ensures { (name : FlowName) → before ≡ node_of method name → result ≡ node_of method (predicate_along pc operation.now edge fails name) }
{
    if refines(&operation.next) {
        return Node::In(Own::Refined {
            pc,
            edge,
            operand: 1,
        });
    }
    match linked(pc, link_of(operation.sort), fails) {
        Some(own) => node_of(method, own),
        None => before,
    }
}

/// What is known along an edge of an instruction, behind which there are so many slots.
fn moved(
    alloc: Global,
    method: MethodId,
    pc: u16,
    operation: &Operation,
    edge: usize,
    fails: bool,
    front: &Front,
    count: u32,
) -> Result<Front, AllocError>
    ensures { IfOk result (λ f. (k : Before) → Says method k front.now → count ≡ slots_after operation.now.effect (length k.names) → Says method (before_along (Some operation.now) pc edge fails k) f) }
{
    let slots = slots_along(
        alloc,
        pc,
        operation,
        edge,
        front.slots.as_slice(),
        count as usize,
    )?;
    let predicate = predicate_along(method, pc, operation, edge, fails, front.predicate);
    Ok(Front { predicate, slots })
}

/// What is known where no slot is left.
fn without_slots(alloc: Global, predicate: Node<Own>) -> Front
    ensures predicate { result.predicate ≡ predicate }
    ensures slots { result.slots ≡ [] }
{
    Front {
        predicate,
        slots: Items::new(alloc),
    }
}

/// What is known along an edge of the instruction at the place of this number, where `front` is what is known in front of
/// it and `to` the number of the place to which the edge leads. Where an operand of the instruction is wrong, no slot is
/// left.
pub fn front_along(
    alloc: Global,
    method: MethodId,
    env: &Env<'_>,
    blocks: &Blocks,
    place: usize,
    edge: usize,
    to: usize,
    front: &Front,
) -> Result<Front, AllocError>
    requires leads { slice_get (targets_at blocks.now place) edge ≡ Some to }
    ensures { IfOk result (IsAlong blocks.now env.now.1 method place edge front.now) }
{
    let pc = pc_at(blocks.body(), place);
    let count = blocks.slots(to).unwrap_or(0);
    match operation_at(blocks.body(), place) {
        Some(operation) => {
            moved(
                alloc,
                method,
                pc,
                operation,
                edge,
                env.fails(pc),
                front,
                count,
            )
        }
        None => Ok(without_slots(alloc, front.predicate)),
    }
}
