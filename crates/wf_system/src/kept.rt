//! A system whose inequalities are kept in a list, with the readers of each node beside it.

ghost use Rattle.std.specs.Prelude.{◌≡◌, ◌||◌, ◌++◌, ◌∷◌, [], ℕ, List, length, OnOk, IfOk, MatchOption};
ghost use Rattle.wf_base.specs.declared.ids.NodeId.{NodeId};
ghost use Rattle.wf_system.specs.declared.node_shape.NodeShape.{NodeShape};
ghost use Rattle.wf_system.specs.declared.inequality.ValueOp.{ValueOp};
ghost use Rattle.wf_system.specs.Bodies.{tables_of, system_of, is_node, guard_reads, type_reads, elem_is, is_element, value_reads, reads, SystemFits};
ghost use Rattle.wf_system.specs.Shapes.{shape_at};
ghost use Rattle.wf_lattice.specs.declared.kind.NodeKind.{NodeKind};
ghost use Rattle.wf_system.specs.Kept.{PutsWhere, AreEmpty, AreListed};

use crate::bodies::{Bodies, Readers};
use crate::fit::kind_of;
use crate::inequality::{Guard, Inequality, ValueOp};
use crate::shape::Shape;
use crate::shaped::system_fits;
use crate::side::Side;
use std::alloc::{AllocError, Global};
use std::marker::Model;
use wf_base::{Items, NodeId};
use wf_lattice::NodeKind;

/// A system whose inequalities are all kept, so that readers are lent. A contract sees it as the system.
#[derive(Debug, Drop)]
pub struct KeptSystem {
    shape: Shape,
    side: Side,
    threshold: u32,
    rows: Items<Inequality<NodeId>>,
    readers: Items<Items<Inequality<NodeId>>>,
}

impl Model for KeptSystem {
    ghost use Rattle.wf_system.specs.Bodies.{System, system_of};
    ghost use Rattle.wf_system.specs.Kept.{AreKept};

    ghost Value = { System };

    ghost view = { λ k. system_of k.shape k.threshold k.side k.rows };

    ghost invariant = { λ k. AreKept (system_of k.shape k.threshold k.side k.rows) k.readers };
}

impl KeptSystem {
    /// The system of some nodes, a side table, a threshold and a list of inequalities; `system_fits` tells
    /// whether they fit.
    pub fn new(
        alloc: Global,
        shape: Shape,
        side: Side,
        threshold: u32,
        rows: Items<Inequality<NodeId>>,
    ) -> Result<KeptSystem, AllocError>
        requires fits { SystemFits (system_of shape threshold side rows) }
        ensures { IfOk result (λ k. k ≡ system_of shape threshold side rows) }
    {
        let readers = readers_of(alloc, &shape, &side, rows.as_slice())?;
        Ok(KeptSystem {
            shape,
            side,
            threshold,
            rows,
            readers,
        })
    }

    /// The same where the inequalities fit; none exactly where they don't.
    pub fn new_checked(
        alloc: Global,
        shape: Shape,
        side: Side,
        threshold: u32,
        rows: Items<Inequality<NodeId>>,
    ) -> Result<Option<KeptSystem>, AllocError>
        ensures { IfOk result (λ o. MatchOption o (SystemFits (system_of shape threshold side rows) → ⊥) (λ k. k ≡ system_of shape threshold side rows)) }
    {
        if !system_fits(&shape, &side, rows.as_slice()) {
            return Ok(None);
        }
        let system = KeptSystem::new(alloc, shape, side, threshold, rows)?;
        Ok(Some(system))
    }

    /// All inequalities, in their order.
    pub fn rows(&self) -> &[Inequality<NodeId>]
        ensures rows { result.now ≡ self.now.rows }
        ensures fits { SystemFits self.now }
    {
        self.rows.as_slice()
    }
}

impl Bodies for KeptSystem {
    ghost use Rattle.std.specs.Prelude.{true};

    ghost system = { λ k. k };

    ghost all_built = { λ _. true };

    fn shape(&self) -> &Shape {
        &self.shape
    }

    fn threshold(&self) -> u32 {
        self.threshold
    }

    fn side(&self) -> &Side {
        &self.side
    }

    fn readers(&self, alloc: Global, node: NodeId) -> Result<Readers<'_>, AllocError> {
        let _ = alloc;
        let list = self.readers.as_slice()[node.0 as usize].as_slice();
        Ok(Readers::Kept(list))
    }
}

/// The readers of each node.
fn readers_of(
    alloc: Global,
    shape: &Shape,
    side: &Side,
    rows: &[Inequality<NodeId>],
) -> Result<Items<Items<Inequality<NodeId>>>, AllocError>
    ensures { (most : ℕ) → IfOk result (λ lists. AreListed (system_of shape.now most side.now rows.now) (length rows.now) lists) }
{
    let mut lists = empty_lists(alloc, shape.nodes())?;
    for row in rows {
        put_row(shape, side, lists.as_mut_slice(), *row)?;
    }
    Ok(lists)
}

/// So many empty lists.
fn empty_lists(alloc: Global, count: u32) -> Result<Items<Items<Inequality<NodeId>>>, AllocError>
    ensures { IfOk result (λ lists. AreEmpty count lists) }
{
    let mut lists = Items::new(alloc);
    for _ in 0..count {
        add_list(alloc, &mut lists)?;
    }
    Ok(lists)
}

/// Adds an empty list.
fn add_list(alloc: Global, lists: &mut Items<Items<Inequality<NodeId>>>) -> Result<(), AllocError>
    ensures { OnOk result (lists.new ≡ lists.old ++ [] ∷ []) }
{
    match lists.push(Items::new(alloc)) {
        Ok(()) => Ok(()),
        Err(_) => Err(AllocError),
    }
}

/// Puts an inequality into the lists of the nodes that it reads.
fn put_row(
    shape: &Shape,
    side: &Side,
    lists: &mut [Items<Inequality<NodeId>>],
    q: Inequality<NodeId>,
) -> Result<(), AllocError>
    ensures { (most : ℕ) → OnOk result (PutsWhere (λ n. reads is_node (tables_of shape.now most side.now) q n) q lists.old lists.new) }
{
    put_guard(side, lists, q.guard, q)?;
    put_value(shape, side, lists, q.value, q)?;
    Ok(())
}

/// Puts an inequality into the list of the node that its guard reads.
fn put_guard(
    side: &Side,
    lists: &mut [Items<Inequality<NodeId>>],
    guard: Guard<NodeId>,
    q: Inequality<NodeId>,
) -> Result<(), AllocError>
    ensures { (nodes : List NodeShape) (most : ℕ) → OnOk result (PutsWhere (λ n. guard_reads is_node (tables_of nodes most side.now) guard n) q lists.old lists.new) }
{
    match guard {
        Guard::Always => Ok(()),
        Guard::NonEmpty(a) => put(lists, a, q),
        Guard::HasType(_) => put(lists, side.inst, q),
        Guard::HasUnder(_) => put(lists, side.inst, q),
        Guard::Linked(a, _) => put(lists, a, q),
    }
}

/// Puts an inequality into the lists of the nodes that its value reads.
fn put_value(
    shape: &Shape,
    side: &Side,
    lists: &mut [Items<Inequality<NodeId>>],
    value: ValueOp<NodeId>,
    q: Inequality<NodeId>,
) -> Result<(), AllocError>
    ensures { (most : ℕ) → OnOk result (PutsWhere (λ n. value_reads is_node (tables_of shape.now most side.now) value (shape_at shape.now q.target.0).kind n) q lists.old lists.new) }
{
    let inst = side.inst;
    match value {
        ValueOp::Token
        | ValueOp::IntIs(_)
        | ValueOp::AnyInt
        | ValueOp::AnyLong
        | ValueOp::NullRef => Ok(()),
        ValueOp::OneType(_) => put_type(kind_of(shape, q.target), inst, lists, q),
        ValueOp::Copy(a) => put(lists, a, q),
        ValueOp::IntRefine(_, a, b) => put_two(lists, a, b, q),
        ValueOp::IntRefineBy(_, a, _) => put(lists, a, q),
        ValueOp::NotIn(a, _) => put(lists, a, q),
        ValueOp::RefEq(a, b) => put_three(lists, a, b, inst, q),
        ValueOp::RefNe(a, b) => put_three(lists, a, b, inst, q),
        ValueOp::OnlyNull(a) => put_two(lists, a, inst, q),
        ValueOp::NoNull(a) => put_two(lists, a, inst, q),
        ValueOp::Under(a, _) => put_two(lists, a, inst, q),
        ValueOp::AllUnder(_) => put(lists, inst, q),
        ValueOp::SomeUnder(_) => put(lists, inst, q),
        ValueOp::Picked(a, _, _) => put_two(lists, a, inst, q),
        ValueOp::Picks(a, _) => put_two(lists, a, inst, q),
        ValueOp::Tested(a, _) => put_two(lists, a, inst, q),
        ValueOp::ElementsOf(a) => put_elements(side, lists, a, q),
        ValueOp::IfHolds(a, _, b, _) => put_three(lists, a, b, inst, q),
        ValueOp::IfNull(a) => put_two(lists, a, inst, q),
    }
}

/// Puts an inequality that gives one type to a node of a kind into the list of the types that are made,
/// unless it gives it to them.
fn put_type(
    to: NodeKind,
    inst: NodeId,
    lists: &mut [Items<Inequality<NodeId>>],
    q: Inequality<NodeId>,
) -> Result<(), AllocError>
    ensures { OnOk result (PutsWhere (λ n. type_reads to (is_node inst n)) q lists.old lists.new) }
{
    match to {
        NodeKind::Inst => Ok(()),
        _ => put(lists, inst, q),
    }
}

/// Puts an inequality into the lists of a node, of the types that are made, and of all elements.
fn put_elements(
    side: &Side,
    lists: &mut [Items<Inequality<NodeId>>],
    a: NodeId,
    q: Inequality<NodeId>,
) -> Result<(), AllocError>
    ensures { (nodes : List NodeShape) (most : ℕ) → OnOk result (PutsWhere (λ n. value_reads is_node (tables_of nodes most side.now) (ValueOp.ElementsOf a) NodeKind.Refs n) q lists.old lists.new) }
{
    put_two(lists, a, side.inst, q)?;
    put_each(side, lists, q)?;
    Ok(())
}

/// Puts an inequality into the lists of all elements.
fn put_each(
    side: &Side,
    lists: &mut [Items<Inequality<NodeId>>],
    q: Inequality<NodeId>,
) -> Result<(), AllocError>
    ensures { (nodes : List NodeShape) (most : ℕ) → OnOk result (PutsWhere (λ n. is_element is_node (tables_of nodes most side.now) (length side.now.elems) n) q lists.old lists.new) }
{
    for elem in side.elems.as_slice() {
        put_some(lists, *elem, q)?;
    }
    Ok(())
}

/// Puts an inequality into the list of a node, if there is one.
fn put_some(
    lists: &mut [Items<Inequality<NodeId>>],
    elem: Option<NodeId>,
    q: Inequality<NodeId>,
) -> Result<(), AllocError>
    ensures { OnOk result (PutsWhere (λ n. elem_is is_node elem n) q lists.old lists.new) }
{
    match elem {
        None => Ok(()),
        Some(n) => put(lists, n, q),
    }
}

/// Puts an inequality into the lists of two nodes.
fn put_two(
    lists: &mut [Items<Inequality<NodeId>>],
    a: NodeId,
    b: NodeId,
    q: Inequality<NodeId>,
) -> Result<(), AllocError>
    ensures { OnOk result (PutsWhere (λ n. is_node a n || is_node b n) q lists.old lists.new) }
{
    put(lists, a, q)?;
    put(lists, b, q)?;
    Ok(())
}

/// Puts an inequality into the lists of three nodes.
fn put_three(
    lists: &mut [Items<Inequality<NodeId>>],
    a: NodeId,
    b: NodeId,
    c: NodeId,
    q: Inequality<NodeId>,
) -> Result<(), AllocError>
    ensures { OnOk result (PutsWhere (λ n. is_node a n || is_node b n || is_node c n) q lists.old lists.new) }
{
    put_two(lists, a, b, q)?;
    put(lists, c, q)?;
    Ok(())
}

/// Puts an inequality into the list of a node, if there is one.
fn put(
    lists: &mut [Items<Inequality<NodeId>>],
    n: NodeId,
    q: Inequality<NodeId>,
) -> Result<(), AllocError>
    ensures { OnOk result (PutsWhere (λ m. is_node n m) q lists.old lists.new) }
{
    let place = n.0 as usize;
    if place >= lists.len() {
        return Ok(());
    }
    match lists[place].push(q) {
        Ok(()) => Ok(()),
        Err(_) => Err(AllocError),
    }
}
