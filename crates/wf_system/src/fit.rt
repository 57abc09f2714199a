//! Whether inequalities fit the tables of a system, so that a system can be made and then tried.

ghost use Rattle.std.specs.Prelude.{◌≡◌, ◌*◌, ◌<◌, ◌↔◌, ℕ, length, IsTrue, Some, nat_lt};
ghost use Rattle.wf_lattice.specs.declared.kind.NodeKind.{NodeKind};
ghost use Rattle.wf_system.specs.Shapes.{shape_at};
ghost use Rattle.wf_system.specs.Sides.{Ascends, pick_of};
ghost use Rattle.wf_system.specs.Bodies.{tables_of};
ghost use Rattle.wf_system.specs.declared.inequality.ValueOp.{ValueOp};
ghost use Rattle.wf_system.specs.Fits.{IsOfTypes, IsCopied, GuardFits, ValueFits, GuardIsThere, ValueIsThere, Fits};

use crate::inequality::{Guard, Inequality, ValueOp};
use crate::pick::Pick;
use crate::shape::Shape;
use crate::side::Side;
use wf_base::NodeId;
use wf_lattice::NodeKind;

/// Whether an inequality fits a system with these nodes and this side table, whatever its threshold is: its
/// numbers are there, and its nodes have the kinds that it wants.
pub fn fits(shape: &Shape, side: &Side, row: Inequality<NodeId>) -> bool
    ensures { (most : ℕ) → (IsTrue result ↔ Fits (tables_of shape.now most side.now) row) }
{
    if !is_whole(shape, side, row) {
        return false;
    }
    guard_fits(shape, side, row.guard) && value_fits(shape, side, row.value, row.target)
}

/// Whether all numbers of an inequality are there.
fn is_whole(shape: &Shape, side: &Side, row: Inequality<NodeId>) -> bool
    ensures { (most : ℕ) → (IsTrue result ↔ (GuardIsThere (tables_of shape.now most side.now) row.guard × (ValueIsThere (tables_of shape.now most side.now) row.value × IsTrue (nat_lt row.target.0 (length shape.now))))) }
{
    if !guard_is_there(shape, side, row.guard) {
        return false;
    }
    if !value_is_there(shape, side, row.value) {
        return false;
    }
    is_there(shape, row.target)
}

/// Whether a node is there.
fn is_there(shape: &Shape, n: NodeId) -> bool
    ensures { result ≡ nat_lt n.0 (length shape.now) }
{
    n.0 < shape.nodes()
}

/// Whether two nodes are there.
fn are_there(shape: &Shape, a: NodeId, b: NodeId) -> bool
    ensures { IsTrue result ↔ (IsTrue (nat_lt a.0 (length shape.now)) × IsTrue (nat_lt b.0 (length shape.now))) }
{
    is_there(shape, a) && is_there(shape, b)
}

/// Whether a node is there, and a number is below another.
fn is_there_below(shape: &Shape, n: NodeId, number: u32, count: usize) -> bool
    ensures { IsTrue result ↔ (IsTrue (nat_lt n.0 (length shape.now)) × (number < count)) }
{
    is_there(shape, n) && (number as usize) < count
}

fn guard_is_there(shape: &Shape, side: &Side, guard: Guard<NodeId>) -> bool
    ensures { (most : ℕ) → (IsTrue result ↔ GuardIsThere (tables_of shape.now most side.now) guard) }
{
    match guard {
        Guard::Always => true,
        Guard::NonEmpty(n) => is_there(shape, n),
        Guard::HasType(_) => is_there(shape, side.inst()),
        Guard::HasUnder(u) => is_there_below(shape, side.inst(), u.0, side.masks.len()),
        Guard::Linked(n, _) => is_there(shape, n),
    }
}

fn value_is_there(shape: &Shape, side: &Side, value: ValueOp<NodeId>) -> bool
    ensures { (most : ℕ) → (IsTrue result ↔ ValueIsThere (tables_of shape.now most side.now) value) }
{
    match value {
        ValueOp::Token
        | ValueOp::IntIs(_)
        | ValueOp::AnyInt
        | ValueOp::AnyLong
        | ValueOp::NullRef
        | ValueOp::OneType(_) => true,
        ValueOp::Copy(a) => is_there(shape, a),
        ValueOp::IntRefine(_, a, b) => are_there(shape, a, b),
        ValueOp::IntRefineBy(_, a, _) => is_there(shape, a),
        ValueOp::NotIn(a, place) => is_there_below(shape, a, place, side.keys.len()),
        ValueOp::RefEq(a, b) => are_there(shape, a, b),
        ValueOp::RefNe(a, b) => are_there(shape, a, b),
        ValueOp::OnlyNull(a) => is_there(shape, a),
        ValueOp::NoNull(a) => is_there(shape, a),
        ValueOp::Under(a, u) => is_there_below(shape, a, u.0, side.masks.len()),
        ValueOp::AllUnder(u) => (u.0 as usize) < side.masks.len(),
        ValueOp::SomeUnder(u) => (u.0 as usize) < side.masks.len(),
        ValueOp::Picked(a, site, _) => is_there_below(shape, a, site, side.sites.len()),
        ValueOp::Picks(a, site) => is_there_below(shape, a, site, side.sites.len()),
        ValueOp::Tested(a, u) => is_there_below(shape, a, u.0, side.masks.len()),
        ValueOp::ElementsOf(a) => is_there(shape, a),
        ValueOp::IfHolds(a, _, b, u) => both_there_below(shape, a, b, u.0, side.masks.len()),
        ValueOp::IfNull(a) => is_there(shape, a),
    }
}

/// Whether two nodes are there, and a number is below another.
fn both_there_below(shape: &Shape, a: NodeId, b: NodeId, number: u32, count: usize) -> bool
    ensures { IsTrue result ↔ (IsTrue (nat_lt a.0 (length shape.now)) × (IsTrue (nat_lt b.0 (length shape.now)) × (number < count))) }
{
    is_there(shape, a) && is_there_below(shape, b, number, count)
}

/// A node's kind, and that of a token where it isn't there.
pub(crate) fn kind_of(shape: &Shape, n: NodeId) -> NodeKind
    ensures { result ≡ (shape_at shape.now n.0).kind }
{
    if n.0 < shape.nodes() {
        shape.node(n).kind
    } else {
        NodeKind::Token
    }
}

/// How many words a node has, and 1 where it isn't there.
pub(crate) fn words_of(shape: &Shape, n: NodeId) -> u32
    ensures { result ≡ (shape_at shape.now n.0).words }
{
    if n.0 < shape.nodes() {
        shape.node(n).words
    } else {
        1
    }
}

/// Whether a node has a kind.
pub(crate) fn has_kind(shape: &Shape, n: NodeId, kind: NodeKind) -> bool
    ensures { IsTrue result ↔ ((shape_at shape.now n.0).kind ≡ kind) }
{
    kind_of(shape, n) == kind
}

/// Whether two nodes have two kinds.
fn have_kinds(shape: &Shape, a: NodeId, one: NodeKind, b: NodeId, other: NodeKind) -> bool
    ensures { IsTrue result ↔ (((shape_at shape.now a.0).kind ≡ one) × ((shape_at shape.now b.0).kind ≡ other)) }
{
    has_kind(shape, a, one) && has_kind(shape, b, other)
}

/// Whether three nodes have one kind.
fn have_kind(shape: &Shape, a: NodeId, b: NodeId, c: NodeId, kind: NodeKind) -> bool
    ensures { IsTrue result ↔ (((shape_at shape.now a.0).kind ≡ kind) × (((shape_at shape.now b.0).kind ≡ kind) × ((shape_at shape.now c.0).kind ≡ kind))) }
{
    has_kind(shape, a, kind) && have_kinds(shape, b, kind, c, kind)
}

fn guard_fits(shape: &Shape, side: &Side, guard: Guard<NodeId>) -> bool
    ensures { (most : ℕ) → (IsTrue result ↔ GuardFits (tables_of shape.now most side.now) guard) }
{
    match guard {
        Guard::Always | Guard::NonEmpty(_) => true,
        Guard::HasType(c) => kind_below(shape, side.inst(), NodeKind::Inst, c.0, side.elems.len()),
        Guard::HasUnder(_) => has_kind(shape, side.inst(), NodeKind::Inst),
        Guard::Linked(n, j) => {
            has_kind(shape, n, NodeKind::Links) && (j as u64) < 64 * words_of(shape, n) as u64
        }
    }
}

/// Whether a node has a kind, and a number is below another.
fn kind_below(shape: &Shape, n: NodeId, kind: NodeKind, number: u32, count: usize) -> bool
    ensures { IsTrue result ↔ (((shape_at shape.now n.0).kind ≡ kind) × (number < count)) }
{
    has_kind(shape, n, kind) && (number as usize) < count
}

fn value_fits(shape: &Shape, side: &Side, value: ValueOp<NodeId>, to: NodeId) -> bool
    requires { (most : ℕ) → ValueIsThere (tables_of shape.now most side.now) value }
    ensures { (most : ℕ) → (IsTrue result ↔ ValueFits (tables_of shape.now most side.now) value to) }
{
    match value {
        ValueOp::Token => has_kind(shape, to, NodeKind::Token),
        ValueOp::IntIs(_) => has_kind(shape, to, NodeKind::Int),
        ValueOp::AnyInt => has_kind(shape, to, NodeKind::Int),
        ValueOp::AnyLong => has_kind(shape, to, NodeKind::Long),
        ValueOp::NullRef => has_kind(shape, to, NodeKind::Refs),
        ValueOp::OneType(c) => type_fits(kind_of(shape, to), c.0, side.elems.len()),
        ValueOp::Copy(a) => copy_fits(kind_of(shape, a), kind_of(shape, to)),
        ValueOp::IntRefine(_, a, b) => have_kind(shape, to, a, b, NodeKind::Int),
        ValueOp::IntRefineBy(_, a, _) => int_from(shape, to, a, NodeKind::Int),
        ValueOp::NotIn(a, _) => int_from(shape, to, a, NodeKind::Int),
        ValueOp::RefEq(a, b) => have_kind(shape, to, a, b, NodeKind::Refs),
        ValueOp::RefNe(a, b) => have_kind(shape, to, a, b, NodeKind::Refs),
        ValueOp::OnlyNull(a) => refs_from(shape, to, a),
        ValueOp::NoNull(a) => refs_from(shape, to, a),
        ValueOp::Under(a, _) => refs_from(shape, to, a),
        ValueOp::AllUnder(_) => has_kind(shape, to, NodeKind::Refs),
        ValueOp::SomeUnder(_) => has_kind(shape, to, NodeKind::Refs),
        ValueOp::Picked(a, _, _) => refs_from(shape, to, a),
        ValueOp::Picks(a, site) => picks_fit(shape, side, a, site, to),
        ValueOp::Tested(a, _) => int_from(shape, to, a, NodeKind::Refs),
        ValueOp::ElementsOf(a) => refs_from(shape, to, a),
        ValueOp::IfHolds(a, c, b, _) => test_fits(shape, to, a, b, c.0, side.elems.len()),
        ValueOp::IfNull(a) => int_from(shape, to, a, NodeKind::Refs),
    }
}

/// Whether a node is of ints, and another of a kind.
fn int_from(shape: &Shape, to: NodeId, a: NodeId, kind: NodeKind) -> bool
    ensures { IsTrue result ↔ (((shape_at shape.now to.0).kind ≡ NodeKind.Int) × ((shape_at shape.now a.0).kind ≡ kind)) }
{
    have_kinds(shape, to, NodeKind::Int, a, kind)
}

/// Whether two nodes are of references.
fn refs_from(shape: &Shape, to: NodeId, a: NodeId) -> bool
    ensures { IsTrue result ↔ (((shape_at shape.now to.0).kind ≡ NodeKind.Refs) × ((shape_at shape.now a.0).kind ≡ NodeKind.Refs)) }
{
    have_kinds(shape, to, NodeKind::Refs, a, NodeKind::Refs)
}

/// Whether one type fits a node of a kind: the node is of types, and the type is there and isn't null.
fn type_fits(to: NodeKind, c: u32, types: usize) -> bool
    ensures { IsTrue result ↔ (IsOfTypes to × ((0 < c) × (c < types))) }
{
    match to {
        NodeKind::Refs | NodeKind::Inst => 0 < c && (c as usize) < types,
        _ => false,
    }
}

/// Whether a value is copied from a kind to another.
fn copy_fits(from: NodeKind, to: NodeKind) -> bool
    ensures { IsTrue result ↔ ((from ≡ to) × IsCopied to) }
{
    match to {
        NodeKind::Inst | NodeKind::Links => false,
        _ => from == to,
    }
}

/// Whether three nodes are of references, and a number is below another.
fn test_fits(shape: &Shape, to: NodeId, a: NodeId, b: NodeId, c: u32, types: usize) -> bool
    ensures { IsTrue result ↔ (((shape_at shape.now to.0).kind ≡ NodeKind.Refs) × (((shape_at shape.now a.0).kind ≡ NodeKind.Refs) × (((shape_at shape.now b.0).kind ≡ NodeKind.Refs) × (c < types)))) }
{
    has_kind(shape, to, NodeKind::Refs)
        && has_kind(shape, a, NodeKind::Refs)
        && kind_below(shape, b, NodeKind::Refs, c, types)
}

/// Whether the candidates that a receiver picks at a site have bits in a node of candidates.
fn picks_fit(shape: &Shape, side: &Side, a: NodeId, site: u32, to: NodeId) -> bool
    requires { site < length side.now.sites }
    ensures { (most : ℕ) → (IsTrue result ↔ ValueFits (tables_of shape.now most side.now) (ValueOp.Picks a site) to) }
{
    have_kinds(shape, to, NodeKind::Links, a, NodeKind::Refs)
        && candidates_fit(side.table(site), words_of(shape, to))
}

/// Whether each candidate of a table has a bit in so many words.
fn candidates_fit(table: &[Pick], words: u32) -> bool
    requires { Ascends table.now }
    ensures { IsTrue result ↔ ((c j : ℕ) → pick_of table.now c ≡ Some j → j < 64 * words) }
{
    for pick in table {
        if pick.candidate as u64 >= 64 * words as u64 {
            return false;
        }
    }
    true
}
