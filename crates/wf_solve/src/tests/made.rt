//! Small systems, solved: what they must end with was worked out by hand.

ghost use Rattle.std.specs.Prelude.{◌≡◌, ◌<◌};

use crate::solver::solve_all;
use crate::steps::Steps;
use std::alloc::{AllocError, Global};
use std::marker::Brand;
use std::sync::ledger::{Blank, Ledger};
use std::test::Fail;
use wf_base::{Items, NodeId, TargetId, TypeId};
use wf_lattice::NodeKind;
use wf_system::{
    Bodies, Guard, Inequality, KeptSystem, NodeShape, Pick, Shape, Side, ValueOp, are_laid_out,
    have_tables,
};

/// The nodes: a token that is set, the types that are made, two of references, the elements of type 2,
/// candidates, and two tokens.
const START: NodeId = NodeId(0);

const INST: NodeId = NodeId(1);

const A: NodeId = NodeId(2);

const B: NodeId = NodeId(3);

const ELEM: NodeId = NodeId(4);

const LINKS: NodeId = NodeId(5);

const C: NodeId = NodeId(6);

const D: NodeId = NodeId(7);

const KINDS: [NodeKind; 8] = [
    NodeKind::Token,
    NodeKind::Inst,
    NodeKind::Refs,
    NodeKind::Refs,
    NodeKind::Refs,
    NodeKind::Links,
    NodeKind::Token,
    NodeKind::Token,
];

/// A class of which types 1 to 3 are.
const ALL: TargetId = TargetId(0);

/// The nodes, a word each, as far as there is memory.
fn nodes(alloc: Global) -> Items<NodeShape> {
    let mut nodes = Items::new(alloc);
    for (i, kind) in KINDS.into_iter().enumerate() {
        let _ = nodes.push(NodeShape {
            kind,
            first_word: i as u32,
            words: 1,
        });
    }
    nodes
}

/// The nodes of elements: type 2 is an array's.
fn elems(alloc: Global) -> Items<Option<NodeId>> {
    let mut elems = Items::new(alloc);
    for elem in [None, None, Some(ELEM), None] {
        let _ = elems.push(elem);
    }
    elems
}

/// The row of types 1 to 3: bits 2 to 4.
fn masks(alloc: Global) -> Items<Items<u64>> {
    let mut all = Items::new(alloc);
    let _ = all.push(28u64);
    let mut masks = Items::new(alloc);
    let _ = masks.push(all);
    masks
}

/// The table of a site where type 1 picks candidate 0, and type 2 candidate 1.
fn tables(alloc: Global) -> Items<Items<Pick>> {
    let mut table = Items::new(alloc);
    for n in 0..2u32 {
        let _ = table.push(Pick {
            t: TypeId(n + 1),
            candidate: n,
        });
    }
    let mut tables = Items::new(alloc);
    let _ = tables.push(table);
    tables
}

/// What is looked up; none for want of memory.
fn side(alloc: Global) -> Option<Side> {
    let tables = tables(alloc);
    let mut sites = Items::new(alloc);
    let _ = sites.push(0u32);
    if !have_tables(tables.as_slice(), sites.as_slice()) {
        return None;
    }
    let keys = Items::new(alloc);
    Some(Side::new(INST, elems(alloc), masks(alloc), keys, tables, sites))
}

/// The system of the nodes with some inequalities; none where it doesn't fit, or for want of memory.
fn system(alloc: Global, threshold: u32, rows: &[Inequality<NodeId>]) -> Option<KeptSystem> {
    let nodes = nodes(alloc);
    if !are_laid_out(nodes.as_slice()) {
        return None;
    }
    let shape = Shape::new(nodes);
    let side = side(alloc)?;
    let mut kept = Items::new(alloc);
    for row in rows {
        let _ = kept.push(*row);
    }
    match KeptSystem::new_checked(alloc, shape, side, threshold, kept) {
        Ok(system) => system,
        Err(_) => None,
    }
}

/// Solves a system from some words; false where their number is another.
fn solves<L: Ledger>(
    alloc: Global,
    blank: Blank,
    system: &KeptSystem,
    words: &mut [u64],
) -> Result<bool, AllocError>
    requires name { blank.name ≡ L.name }
    requires parts { blank.parts ≡ L.parts }
    requires some { 0 < blank.parts }
{
    let _rows = system.rows();
    if words.len() != system.shape().words() as usize {
        return Ok(false);
    }
    let (book, share) = blank.open::<L>();
    let mut steps = Steps::new(book, share);
    solve_all(alloc, system, words, &mut steps)?;
    Ok(true)
}

/// An inequality that holds once the first node isn't empty.
fn row(target: NodeId, guard: NodeId, value: ValueOp<NodeId>) -> Inequality<NodeId> {
    Inequality {
        target,
        guard: Guard::NonEmpty(guard),
        value,
    }
}

/// What the words are after the inequalities were solved from others; the words before where that was
/// refused.
fn after(
    alloc: Global,
    threshold: u32,
    rows: &[Inequality<NodeId>],
    before: [u64; 8],
) -> Result<[u64; 8], AllocError> {
    let mut words = before;
    if let Some(system) = system(alloc, threshold, rows) {
        let _fits = solves::<Brand>(alloc, Blank::new(1), &system, &mut words)?;
    }
    Ok(words)
}

/// Copies in a ring reach all of it from any node, and a guard that never holds stops them.
#[test]
fn copies_go_round(rt: HostRuntime) -> Result<(), Fail> {
    let ring = [
        row(B, START, ValueOp::Copy(A)),
        row(ELEM, START, ValueOp::Copy(B)),
        row(A, START, ValueOp::Copy(ELEM)),
    ];
    let made = after(rt.alloc(), 3, &ring, [1, 12, 4, 0, 8, 0, 0, 0])?;
    assert_eq!(rt; made, [1, 12, 12, 12, 12, 0, 0, 0]);
    let never = after(rt.alloc(), 3, &ring, [0, 12, 4, 0, 8, 0, 0, 0])?;
    assert_eq!(rt; never, [0, 12, 4, 0, 8, 0, 0, 0]);
    let tokens = [
        row(C, D, ValueOp::Token),
        row(D, START, ValueOp::Copy(START)),
    ];
    let set = after(rt.alloc(), 3, &tokens, [1, 0, 0, 0, 0, 0, 0, 0])?;
    assert_eq!(rt; set, [1, 0, 0, 0, 0, 0, 1, 1]);
    Ok(())
}

/// A filter of more types than the threshold is saturated, and then has what is made later.
#[test]
fn filters_saturate(rt: HostRuntime) -> Result<(), Fail> {
    let filter = [
        row(B, START, ValueOp::Under(A, ALL)),
        row(INST, B, ValueOp::OneType(TypeId(3))),
    ];
    let set = after(rt.alloc(), 2, &filter, [1, 12, 14, 0, 0, 0, 0, 0])?;
    assert_eq!(rt; set, [1, 28, 14, 14, 0, 0, 0, 0]);
    let saturated = after(rt.alloc(), 1, &filter, [1, 12, 12, 0, 0, 0, 0, 0])?;
    assert_eq!(rt; saturated, [1, 28, 12, 31, 0, 0, 0, 0]);
    let made = [row(B, START, ValueOp::AllUnder(ALL))];
    let few = after(rt.alloc(), 3, &made, [1, 28, 0, 0, 0, 0, 0, 0])?;
    assert_eq!(rt; few, [1, 28, 0, 28, 0, 0, 0, 0]);
    let many = after(rt.alloc(), 2, &made, [1, 28, 0, 0, 0, 0, 0, 0])?;
    assert_eq!(rt; many, [1, 28, 0, 29, 0, 0, 0, 0]);
    Ok(())
}

/// The elements of arrays are those of the array types that are held and made, null among them.
#[test]
fn elements_flow_out_of_arrays(rt: HostRuntime) -> Result<(), Fail> {
    let rows = [row(B, START, ValueOp::ElementsOf(A))];
    let held = after(rt.alloc(), 3, &rows, [1, 12, 8, 0, 6, 0, 0, 0])?;
    assert_eq!(rt; held, [1, 12, 8, 6, 6, 0, 0, 0]);
    let unmade = after(rt.alloc(), 3, &rows, [1, 4, 8, 0, 6, 0, 0, 0])?;
    assert_eq!(rt; unmade, [1, 4, 8, 0, 6, 0, 0, 0]);
    let saturated = after(rt.alloc(), 3, &rows, [1, 12, 1, 0, 6, 0, 0, 0])?;
    assert_eq!(rt; saturated, [1, 12, 1, 6, 6, 0, 0, 0]);
    Ok(())
}

/// Types pick candidates at a site, and a candidate's receiver has the types that pick it.
#[test]
fn types_pick_candidates(rt: HostRuntime) -> Result<(), Fail> {
    let rows = [
        row(LINKS, START, ValueOp::Picks(A, 0)),
        Inequality {
            target: B,
            guard: Guard::Linked(LINKS, 1),
            value: ValueOp::Picked(A, 0, 1),
        },
    ];
    let both = after(rt.alloc(), 3, &rows, [1, 28, 30, 0, 0, 0, 0, 0])?;
    assert_eq!(rt; both, [1, 28, 30, 8, 0, 3, 0, 0]);
    let first = after(rt.alloc(), 3, &rows, [1, 4, 12, 0, 0, 0, 0, 0])?;
    assert_eq!(rt; first, [1, 4, 12, 0, 0, 1, 0, 0]);
    Ok(())
}
