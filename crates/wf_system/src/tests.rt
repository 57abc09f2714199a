//! The shape of some nodes, and what a side table says.

use crate::bodies::Readers;
use crate::inequality::{Guard, Inequality, ValueOp};
use crate::node_shape::NodeShape;
use crate::shape::are_laid_out;
use crate::side::Side;
use std::test::Fail;
use wf_base::{Items, NodeId, TargetId, TypeId};
use wf_lattice::NodeKind;

/// Nodes follow each other without a gap, and none is without a word.
#[test]
fn nodes_follow_each_other(rt: HostRuntime) -> Result<(), Fail> {
    let cases = [
        (0, 1, 1, 2, true),
        (0, 2, 2, 1, true),
        (0, 1, 2, 1, false),
        (0, 2, 1, 1, false),
        (1, 1, 2, 1, false),
        (0, 0, 0, 1, false),
        (0, 1, 1, 0, false),
        (0, 1, 1, 4294967295, false),
    ];
    for (i, (first, words, second, more, laid)) in cases.into_iter().enumerate() {
        let nodes = [
            NodeShape {
                kind: NodeKind::Token,
                first_word: first,
                words,
            },
            NodeShape {
                kind: NodeKind::Refs,
                first_word: second,
                words: more,
            },
        ];
        assert_eq!(rt; are_laid_out(&nodes), laid, "at {i}");
    }
    Ok(())
}

/// What a side table has for types, classes, switches and sites.
#[test]
fn side_tables_are_looked_up(rt: HostRuntime) -> Result<(), Fail> {
    let alloc = rt.alloc();
    let mut elems = Items::new(alloc);
    let _ = elems.push(None);
    let _ = elems.push(Some(NodeId(3)));
    let side = Side::new(
        NodeId(7),
        elems,
        Items::new(alloc),
        Items::new(alloc),
        Items::new(alloc),
        Items::new(alloc),
    );
    assert_eq!(rt; side.inst(), NodeId(7));
    assert_eq!(rt; side.elem(TypeId(0)), None);
    assert_eq!(rt; side.elem(TypeId(1)), Some(NodeId(3)));
    assert_eq!(rt; side.elem(TypeId(2)), None);
    Ok(())
}

/// Readers that are lent.
#[test]
fn readers_are_lent(rt: HostRuntime) -> Result<(), Fail> {
    let row = Inequality {
        target: NodeId(1),
        guard: Guard::NonEmpty(NodeId(0)),
        value: ValueOp::Under(NodeId(0), TargetId(2)),
    };
    let rows = [row];
    let readers = Readers::Kept(&rows);
    assert_eq!(rt; readers.as_slice().len(), 1);
    Ok(())
}
