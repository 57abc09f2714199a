//! Whether the nodes and the side table of a system are of the right shape.

ghost use Rattle.std.specs.Prelude.{◌≡◌, ◌↔◌, ◌<◌, ◌≢◌, ℕ, [], true, false, length, slice_index_or, IsTrue, Some, None, Contains};
ghost use Rattle.wf_base.specs.declared.ids.NodeId.{NodeId};
ghost use Rattle.wf_lattice.specs.Words.{AreWords, words_of};
ghost use Rattle.wf_lattice.specs.declared.kind.NodeKind.{NodeKind};
ghost use Rattle.wf_system.specs.declared.inequality.Guard.{Guard};
ghost use Rattle.wf_system.specs.declared.inequality.Inequality.{Inequality};
ghost use Rattle.wf_system.specs.Shapes.{shape_at};
ghost use Rattle.wf_system.specs.Shaped.{HasItsWords, FitsTypes};
ghost use Rattle.wf_system.specs.Fits.{IsOfTypes, HasTypes, AreShaped, Fits};
ghost use Rattle.wf_system.specs.Bodies.{tables_of, system_of, SystemFits};

use crate::fit::{fits, has_kind, words_of};
use crate::inequality::{Guard, Inequality};
use crate::shape::Shape;
use crate::side::Side;
use wf_base::{Items, NodeId};
use wf_lattice::NodeKind;

/// Whether a system with these nodes, this side table and these inequalities fits, whatever its threshold
/// is: its nodes are of the right shape, each inequality fits, and none holds always.
pub fn system_fits(shape: &Shape, side: &Side, rows: &[Inequality<NodeId>]) -> bool
    ensures { (most : ℕ) → (IsTrue result ↔ SystemFits (system_of shape.now most side.now rows.now)) }
{
    if !are_shaped(shape, side) {
        return false;
    }
    rows_fit(shape, side, rows)
}

/// Whether each inequality fits, and none holds always.
fn rows_fit(shape: &Shape, side: &Side, rows: &[Inequality<NodeId>]) -> bool
    ensures { (most : ℕ) → (IsTrue result ↔ ((q : Inequality NodeId) → Contains rows.now q → (Fits (tables_of shape.now most side.now) q × (q.guard ≢ Guard.Always)))) }
{
    for row in rows {
        if !row_fits(shape, side, *row) {
            return false;
        }
    }
    true
}

/// Whether an inequality fits, and doesn't hold always.
fn row_fits(shape: &Shape, side: &Side, row: Inequality<NodeId>) -> bool
    ensures { (most : ℕ) → (IsTrue result ↔ (Fits (tables_of shape.now most side.now) row × (row.guard ≢ Guard.Always))) }
{
    if !fits(shape, side, row) {
        return false;
    }
    is_asked(row.guard)
}

/// Whether a guard asks for anything.
fn is_asked(guard: Guard<NodeId>) -> bool
    ensures { IsTrue result ↔ (guard ≢ Guard.Always) }
{
    match guard {
        Guard::Always => false,
        _ => true,
    }
}

/// Whether the nodes and the side table of a system are of the right shape, whatever its threshold is.
pub fn are_shaped(shape: &Shape, side: &Side) -> bool
    ensures { (most : ℕ) → (IsTrue result ↔ AreShaped (tables_of shape.now most side.now)) }
{
    rows_are_words(side.masks.as_slice());
    if !words_fit(shape) {
        return false;
    }
    if some_of_types(shape) {
        return has_types(shape, side);
    }
    true
}

/// Each word of the rows of types has at most 64 bits.
fn rows_are_words(masks: &[Items<u64>])
    ensures { (u : ℕ) → AreWords (words_of (slice_index_or masks.now u [])) }
{
    for mask in masks {
        row_is_words(mask.as_slice());
    }
}

fn row_is_words(row: &[u64])
    ensures { AreWords (words_of row.now) }
{
    let _ = row;
}

/// Whether each node has as many words as its kind wants.
fn words_fit(shape: &Shape) -> bool
    ensures { IsTrue result ↔ ((n : ℕ) → HasItsWords (shape_at shape.now n).kind (shape_at shape.now n).words) }
{
    for n in 0..shape.nodes() {
        let node = shape.node(NodeId(n));
        if !has_its_words(node.kind, node.words) {
            return false;
        }
    }
    true
}

/// Whether a node of a kind may have so many words.
fn has_its_words(kind: NodeKind, words: u32) -> bool
    ensures { IsTrue result ↔ HasItsWords kind words }
{
    match kind {
        NodeKind::Token | NodeKind::Int | NodeKind::Long => words == 1,
        NodeKind::Refs | NodeKind::Inst => true,
        NodeKind::Links => 0 < words,
    }
}

/// Whether some node is of types.
fn some_of_types(shape: &Shape) -> bool
    ensures some { IsTrue result → ((n : ℕ) × IsOfTypes (shape_at shape.now n).kind) }
    ensures none { (n : ℕ) → result ≡ false → IsOfTypes (shape_at shape.now n).kind → ⊥ }
{
    for n in 0..shape.nodes() {
        if is_of_types(shape.node(NodeId(n)).kind) {
            return true;
        }
    }
    false
}

fn is_of_types(kind: NodeKind) -> bool
    ensures { IsTrue result ↔ IsOfTypes kind }
{
    match kind {
        NodeKind::Refs | NodeKind::Inst => true,
        _ => false,
    }
}

/// Whether a system has what one with types has.
fn has_types(shape: &Shape, side: &Side) -> bool
    ensures { (most : ℕ) → (IsTrue result ↔ HasTypes (tables_of shape.now most side.now)) }
{
    let row = words_of(shape, side.inst);
    if !has_kind(shape, side.inst, NodeKind::Inst) {
        return false;
    }
    if !types_fit(shape, side.inst, row) {
        return false;
    }
    if side.elems.len() as u64 >= 64 * row as u64 {
        return false;
    }
    elems_fit(shape, side.elems.as_slice())
}

/// Whether no other node is of the types that are made, and all nodes of references have so many words.
fn types_fit(shape: &Shape, inst: NodeId, row: u32) -> bool
    ensures { IsTrue result ↔ ((n : ℕ) → FitsTypes (shape_at shape.now n).kind inst.0 n row (shape_at shape.now n).words) }
{
    for n in 0..shape.nodes() {
        let node = shape.node(NodeId(n));
        if !fits_types(node.kind, inst.0, n, row, node.words) {
            return false;
        }
    }
    true
}

fn fits_types(kind: NodeKind, inst: u32, n: u32, row: u32, words: u32) -> bool
    ensures { IsTrue result ↔ FitsTypes kind inst n row words }
{
    match kind {
        NodeKind::Inst => n == inst,
        NodeKind::Refs => words == row,
        NodeKind::Token | NodeKind::Int | NodeKind::Long | NodeKind::Links => true,
    }
}

/// Whether the nodes of elements are of references.
fn elems_fit(shape: &Shape, elems: &[Option<NodeId>]) -> bool
    ensures { IsTrue result ↔ ((c : ℕ) (n : NodeId) → slice_index_or elems.now c None ≡ Some n → (shape_at shape.now n.0).kind ≡ NodeKind.Refs) }
{
    for elem in elems {
        if !elem_fits(shape, *elem) {
            return false;
        }
    }
    true
}

fn elem_fits(shape: &Shape, elem: Option<NodeId>) -> bool
    ensures { IsTrue result ↔ ((n : NodeId) → elem ≡ Some n → (shape_at shape.now n.0).kind ≡ NodeKind.Refs) }
{
    match elem {
        None => true,
        Some(n) => has_kind(shape, n, NodeKind::Refs),
    }
}
