use super::context::EXAMPLES;
use super::{METHOD, at, gives_rows};
use crate::action::StatedValue;
use crate::node::{Node, Own};
use crate::summaries::{SummaryEffect, SummaryValue, push_effect};
use std::alloc::Global;
use std::process::Abort;
use std::test::Fail;
use wf_base::{FieldId, TargetId, TypeId};
use wf_system::{Inequality, ValueOp};

/// The rows of an effect of the method 7 are these.
fn does(
    rt: &impl Abort,
    alloc: Global,
    effect: SummaryEffect,
    rows: &[Inequality<Node<Own>>],
) -> Result<(), Fail> {
    let mut pushed = Vec::new(alloc);
    push_effect(&EXAMPLES, METHOD, effect, &mut pushed)?;
    gives_rows(rt, alloc, pushed.as_slice(), rows)
}

#[test]
fn returns(rt: HostRuntime) -> Result<(), Fail> {
    let returned = Node::Returned(METHOD);
    let nothing = [at(returned, ValueOp::Token)];
    does(&rt, rt.alloc(), SummaryEffect::ReturnsVoid, &nothing)?;
    let argument = SummaryEffect::Returns(SummaryValue::Argument(1));
    let rows = [at(returned, ValueOp::Copy(Node::Parameter(METHOD, 1)))];
    does(&rt, rt.alloc(), argument, &rows)?;
    let new = SummaryEffect::Returns(SummaryValue::Stated(StatedValue::New(TypeId(12))));
    let made = ValueOp::OneType(TypeId(12));
    does(
        &rt,
        rt.alloc(),
        new,
        &[at(returned, made), at(Node::Inst, made)],
    )
}

/// What is stated of a value, as it is written to a field.
#[test]
fn writes(rt: HostRuntime) -> Result<(), Fail> {
    let cases = [
        (StatedValue::Null, ValueOp::NullRef),
        (StatedValue::Int(-1), ValueOp::IntIs(-1)),
        (StatedValue::AnyInt, ValueOp::AnyInt),
        (StatedValue::AnyLong, ValueOp::AnyLong),
        (
            StatedValue::Under(TargetId(14)),
            ValueOp::SomeUnder(TargetId(14)),
        ),
    ];
    for (stated, value) in cases {
        let effect = SummaryEffect::Writes(FieldId(3), SummaryValue::Stated(stated));
        let rows = [
            at(Node::Held(FieldId(3)), value),
            at(Node::Touched(FieldId(3)), ValueOp::Token),
        ];
        does(&rt, rt.alloc(), effect, &rows)?;
    }
    Ok(())
}

/// It makes an object, or copies elements of its receiver to its first parameter.
#[test]
fn makes_and_copies(rt: HostRuntime) -> Result<(), Fail> {
    let made = [at(Node::Inst, ValueOp::OneType(TypeId(13)))];
    does(&rt, rt.alloc(), SummaryEffect::Makes(TypeId(13)), &made)?;
    let copies = SummaryEffect::Copies {
        line: 2,
        source: 0,
        into: 1,
    };
    let copied = Node::Copied(2);
    let into = Node::Parameter(METHOD, 1);
    let rows = [
        at(copied, ValueOp::ElementsOf(Node::Parameter(METHOD, 0))),
        at(
            Node::Element(TypeId(30)),
            ValueOp::IfHolds(into, TypeId(30), copied, TargetId(31)),
        ),
        at(
            Node::Element(TypeId(32)),
            ValueOp::IfHolds(into, TypeId(32), copied, TargetId(33)),
        ),
    ];
    does(&rt, rt.alloc(), copies, &rows)
}
