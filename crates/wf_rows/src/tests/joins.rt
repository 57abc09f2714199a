use super::context::EXAMPLES;
use super::{METHOD, at, gives, known, numbered, slots};
use crate::context::push;
use crate::joins::{HandlerEntry, push_caught, push_covered, push_edge};
use crate::node::{Node, Own};
use std::test::Fail;
use wf_base::TargetId;
use wf_system::{Guard, Inequality, ValueOp};

const HANDLER: HandlerEntry = HandlerEntry {
    entry: 6,
    target: 30,
    catches: Some(TargetId(8)),
    locals: 2,
};

fn merged(pc: u16, slot: usize) -> Node<Own> {
    Node::In(Own::Merged { pc, slot })
}

#[test]
fn an_edge(rt: HostRuntime) -> Result<(), Fail> {
    let mut rows = Vec::new(rt.alloc());
    push_edge(&EXAMPLES, &known(&slots()), &mut rows)?;
    let expected = [
        at(Node::In(Own::Block(9)), ValueOp::Token),
        at(merged(9, 0), ValueOp::Copy(gives(1))),
        at(merged(9, 1), ValueOp::Copy(gives(2))),
        at(merged(9, 2), ValueOp::Copy(gives(3))),
        at(merged(9, 3), ValueOp::Copy(gives(4))),
    ];
    let expected = numbered(rt.alloc(), &expected)?;
    assert_eq!(rt; rows.as_slice(), expected.as_slice());
    Ok(())
}

/// An entry over a place passes on the two locals, and what it catches to the slot of the stack.
#[test]
fn a_handler(rt: HostRuntime) -> Result<(), Fail> {
    let mut rows = Vec::new(rt.alloc());
    push_covered(&EXAMPLES, &known(&slots()), HANDLER, &mut rows)?;
    push_caught(&EXAMPLES, HANDLER, &mut rows)?;
    let caught = Node::In(Own::Caught(6));
    let guard = Guard::NonEmpty(caught);
    let expected = [
        at(caught, ValueOp::AllUnder(TargetId(8))),
        at(merged(30, 0), ValueOp::Copy(gives(1))),
        at(merged(30, 1), ValueOp::Copy(gives(2))),
        Inequality {
            target: Node::In(Own::Block(30)),
            guard,
            value: ValueOp::Token,
        },
        Inequality {
            target: merged(30, 2),
            guard,
            value: ValueOp::Copy(caught),
        },
    ];
    let expected = numbered(rt.alloc(), &expected)?;
    assert_eq!(rt; rows.as_slice(), expected.as_slice());
    Ok(())
}

/// An entry whose class isn't found has no rows, and a row with a missing node is left out.
#[test]
fn nothing_is_added(rt: HostRuntime) -> Result<(), Fail> {
    let mut rows = Vec::new(rt.alloc());
    let absent = HandlerEntry {
        catches: None,
        ..HANDLER
    };
    push_covered(&EXAMPLES, &known(&slots()), absent, &mut rows)?;
    push_caught(&EXAMPLES, absent, &mut rows)?;
    push(&EXAMPLES, at(Node::Start, ValueOp::Token), &mut rows)?;
    push(
        &EXAMPLES,
        at(Node::Returned(METHOD), ValueOp::Copy(Node::Start)),
        &mut rows,
    )?;
    assert_eq!(rt; rows.len(), 0);
    Ok(())
}
