//! The rows of instructions, edges and handlers, against the written table. Method 7 is at place 9 there, where
//! control comes if it is entered, and slots 0 to 3 hold what places 1 to 4 give.

mod branches;
mod calls;
mod classes;
mod context;
mod joins;
mod nodes;
mod objects;
mod plain;
mod roots;
mod summaries;
mod values;

ghost use Rattle.wf_rows.specs.Table.{IsShort};

use crate::action::Action;
use crate::context::push;
use crate::known::Known;
use crate::node::{Node, Own};
use crate::table::push_place;
use context::EXAMPLES;
use std::alloc::{AllocError, Global};
use std::process::Abort;
use std::test::Fail;
use wf_base::{MethodId, NodeId, TypeId};
use wf_operation::Next;
use wf_system::{Guard, Inequality, ValueOp};

const METHOD: MethodId = MethodId(7);

fn gives(pc: u16) -> Node<Own> {
    Node::In(Own::Result(pc))
}

fn slots() -> [Node<Own>; 4] {
    [gives(1), gives(2), gives(3), gives(4)]
}

fn known<'a>(slots: &'a [Node<Own>]) -> Known<'a> {
    Known {
        method: METHOD,
        pc: 9,
        predicate: Node::Entered(METHOD),
        slots,
    }
}

fn under(
    guard: Guard<Node<Own>>,
    target: Node<Own>,
    value: ValueOp<Node<Own>>,
) -> Inequality<Node<Own>> {
    Inequality {
        target,
        guard,
        value,
    }
}

/// A row under the predicate of the place.
fn at(target: Node<Own>, value: ValueOp<Node<Own>>) -> Inequality<Node<Own>> {
    under(Guard::NonEmpty(Node::Entered(METHOD)), target, value)
}

/// That this error is made.
fn thrown(class: u32) -> Inequality<Node<Own>> {
    at(Node::Inst, ValueOp::OneType(TypeId(class)))
}

fn numbered(
    alloc: Global,
    rows: &[Inequality<Node<Own>>],
) -> Result<Vec<Inequality<NodeId>>, AllocError> {
    let mut numbered = Vec::new(alloc);
    for row in rows {
        push(&EXAMPLES, *row, &mut numbered)?;
    }
    Ok(numbered)
}

/// The rows by numbers are the expected ones.
fn gives_rows(
    rt: &impl Abort,
    alloc: Global,
    rows: &[Inequality<NodeId>],
    expected: &[Inequality<Node<Own>>],
) -> Result<(), Fail> {
    let expected = numbered(alloc, expected)?;
    assert_eq!(rt; rows, expected.as_slice());
    Ok(())
}

/// The rows of a place with this instruction are the expected ones.
fn says(
    rt: &impl Abort,
    alloc: Global,
    next: &Next,
    action: &Action,
    expected: &[Inequality<Node<Own>>],
) -> Result<(), Fail>
    requires { IsShort action.now }
{
    let mut rows = Vec::new(alloc);
    push_place(&EXAMPLES, &known(&slots()), next, 40, action, &mut rows)?;
    let expected = numbered(alloc, expected)?;
    assert_eq!(rt; rows.as_slice(), expected.as_slice());
    Ok(())
}
