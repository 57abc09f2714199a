//! Which nodes places, blocks and entries have, and their numbers.

use crate::nodes::OwnNodes;
use std::test::Fail;
use wf_base::{Cmp, Items};
use wf_data::Case;
use wf_names::LinkError;
use wf_operation::{Next, SlotKind, Test};
use wf_rows::{Action, HandlerEntry, Own};

fn left(pc: u16, edge: usize, operand: u8) -> Own {
    Own::Refined { pc, edge, operand }
}

/// A call has what it gives and its candidates, a node each. It falls through, so no operand is refined.
#[test]
fn nodes_of_a_call(rt: HostRuntime) -> Result<(), Fail> {
    let mut nodes = OwnNodes::new(rt.alloc());
    let call = Action::Calls(Err(LinkError::NoSuchMethod));
    nodes.push_place(7, &Next::Falls, &call)?;
    assert!(rt; nodes.len() == 2);
    assert!(rt; nodes.position(Own::Result(7)) == Some(0));
    assert!(rt; nodes.position(Own::Links(7)) == Some(1));
    assert!(rt; nodes.position(Own::Links(8)) == None);
    Ok(())
}

/// `if_icmplt` has both operands along both edges, `tableswitch` its operand along each case and the default.
#[test]
fn nodes_of_branches(rt: HostRuntime) -> Result<(), Fail> {
    let mut nodes = OwnNodes::new(rt.alloc());
    let branch = Next::Branches {
        test: Test::Ints(Cmp::Lt),
        target: 20,
    };
    nodes.push_place(3, &branch, &Action::Moves)?;
    let cases = [Case { key: 1, target: 30 }, Case { key: 2, target: 40 }];
    let switch = Next::Switches {
        cases: Items::from_vec(Vec::from_slice(rt.alloc(), &cases)?),
        default: 50,
    };
    nodes.push_place(6, &switch, &Action::Moves)?;
    assert!(rt; nodes.len() == 7);
    assert!(rt; nodes.position(left(3, 0, 1)) == Some(0));
    assert!(rt; nodes.position(left(3, 0, 2)) == Some(1));
    assert!(rt; nodes.position(left(3, 1, 2)) == Some(3));
    assert!(rt; nodes.position(left(6, 0, 1)) == Some(4));
    assert!(rt; nodes.position(left(6, 2, 1)) == Some(6));
    assert!(rt; nodes.position(left(6, 0, 2)) == None);
    assert!(rt; nodes.position(Own::Result(3)) == None);
    Ok(())
}

/// A block has a node, and one for each slot that is used; an entry has one.
#[test]
fn nodes_of_blocks(rt: HostRuntime) -> Result<(), Fail> {
    let mut nodes = OwnNodes::new(rt.alloc());
    let kinds = [
        SlotKind::Int,
        SlotKind::Unused,
        SlotKind::Long,
        SlotKind::LongRest,
    ];
    nodes.push_block(9, &kinds)?;
    let entry = HandlerEntry {
        entry: 2,
        target: 9,
        catches: None,
        locals: 4,
    };
    nodes.push_caught(entry)?;
    assert!(rt; nodes.len() == 5);
    assert!(rt; nodes.position(Own::Block(9)) == Some(0));
    assert!(rt; nodes.position(Own::Merged { pc: 9, slot: 1 }) == None);
    assert!(rt; nodes.position(Own::Merged { pc: 9, slot: 3 }) == Some(3));
    assert!(rt; nodes.position(Own::Caught(2)) == Some(4));
    Ok(())
}

/// A node that was put in twice has its first place, and counts twice for those behind it.
#[test]
fn a_node_twice(rt: HostRuntime) -> Result<(), Fail> {
    let mut nodes = OwnNodes::new(rt.alloc());
    nodes.push(Own::Result(1))?;
    nodes.push(Own::Result(1))?;
    nodes.push(Own::Block(4))?;
    assert!(rt; nodes.len() == 3);
    assert!(rt; nodes.number(100, Own::Result(1)) == Some(100));
    assert!(rt; nodes.number(100, Own::Block(4)) == Some(102));
    assert!(rt; nodes.number(100, Own::Caught(4)) == None);
    Ok(())
}
