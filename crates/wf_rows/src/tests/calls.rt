use super::{METHOD, at, gives, says, thrown};
use crate::action::{Action, SelectedCall, StaticCall};
use crate::node::{Node, Own};
use std::test::Fail;
use wf_base::{ClassId, Items, Kind, MethodId};
use wf_names::LinkError;
use wf_operation::Next;
use wf_system::{Guard, Inequality, ValueOp};

/// A row of a candidate.
fn linked(candidate: u32, target: Node<Own>, value: ValueOp<Node<Own>>) -> Inequality<Node<Own>> {
    Inequality {
        target,
        guard: Guard::Linked(Node::In(Own::Links(9)), candidate),
        value,
    }
}

#[test]
fn static_calls(rt: HostRuntime) -> Result<(), Fail> {
    let call = Action::CallsStatic(Ok(StaticCall {
        class: ClassId(2),
        method: MethodId(3),
        arguments: Items::from_vec(Vec::from_slice(rt.alloc(), &[1, 0])?),
    }));
    let rows = [
        at(Node::Initialized(ClassId(2)), ValueOp::Token),
        at(Node::Entered(MethodId(3)), ValueOp::Token),
        at(gives(9), ValueOp::Copy(Node::Returned(MethodId(3)))),
        at(Node::Parameter(MethodId(3), 0), ValueOp::Copy(gives(3))),
        at(Node::Parameter(MethodId(3), 1), ValueOp::Copy(gives(4))),
    ];
    says(&rt, rt.alloc(), &Next::Falls, &call, &rows)?;
    let absent = Action::CallsStatic(Err(LinkError::NoSuchMethod));
    says(&rt, rt.alloc(), &Next::Falls, &absent, &[thrown(60)])
}

/// A call with two candidates and an argument.
#[test]
fn selected_calls(rt: HostRuntime) -> Result<(), Fail> {
    let call = Action::Calls(Ok(SelectedCall {
        site: 20,
        candidates: Items::from_vec(Vec::from_slice(rt.alloc(), &[MethodId(3), MethodId(4)])?),
        receiver: 1,
        arguments: Items::from_vec(Vec::from_slice(rt.alloc(), &[0])?),
    }));
    let rows = [
        at(Node::In(Own::Links(9)), ValueOp::Picks(gives(3), 20)),
        linked(0, Node::Entered(MethodId(3)), ValueOp::Token),
        linked(
            0,
            Node::Parameter(MethodId(3), 0),
            ValueOp::Picked(gives(3), 20, 0),
        ),
        linked(0, gives(9), ValueOp::Copy(Node::Returned(MethodId(3)))),
        linked(0, Node::Parameter(MethodId(3), 1), ValueOp::Copy(gives(4))),
        linked(1, Node::Entered(MethodId(4)), ValueOp::Token),
        linked(
            1,
            Node::Parameter(MethodId(4), 0),
            ValueOp::Picked(gives(3), 20, 1),
        ),
        linked(1, gives(9), ValueOp::Copy(Node::Returned(MethodId(4)))),
        linked(1, Node::Parameter(MethodId(4), 1), ValueOp::Copy(gives(4))),
        thrown(50),
        thrown(57),
        thrown(56),
    ];
    says(&rt, rt.alloc(), &Next::Falls, &call, &rows)
}

#[test]
fn failing_calls_and_returns(rt: HostRuntime) -> Result<(), Fail> {
    let absent = Action::Calls(Err(LinkError::NoSuchMethod));
    let rows = [thrown(50), thrown(57), thrown(56), thrown(60)];
    says(&rt, rt.alloc(), &Next::Falls, &absent, &rows)?;
    let cases = [
        (None, ValueOp::Token),
        (Some(Kind::Ref), ValueOp::Copy(gives(4))),
        (Some(Kind::Long), ValueOp::Copy(gives(3))),
    ];
    for (kind, value) in cases {
        let rows = [at(Node::Returned(METHOD), value)];
        says(
            &rt,
            rt.alloc(),
            &Next::Returns { kind },
            &Action::Returns(kind),
            &rows,
        )?;
    }
    for action in [Action::Throws, Action::Monitors] {
        says(&rt, rt.alloc(), &Next::Throws, &action, &[thrown(50)])?;
    }
    Ok(())
}
