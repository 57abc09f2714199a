use super::{at, gives, says, thrown};
use crate::action::{Action, Computation, Literal, LiteralField, StatedValue};
use crate::node::Node;
use std::test::Fail;
use wf_base::{FieldId, Items, TargetId, TypeId};
use wf_names::LinkError;
use wf_operation::Next;
use wf_system::ValueOp;

#[test]
fn numbers(rt: HostRuntime) -> Result<(), Fail> {
    let cases = [
        (Computation::Int(-5), ValueOp::IntIs(-5)),
        (Computation::Null, ValueOp::NullRef),
        (Computation::AnyInt, ValueOp::AnyInt),
        (Computation::AnyLong, ValueOp::AnyLong),
    ];
    for (computation, value) in cases {
        let action = Action::Computes(computation);
        says(
            &rt,
            rt.alloc(),
            &Next::Falls,
            &action,
            &[at(gives(9), value)],
        )?;
    }
    Ok(())
}

#[test]
fn quotients(rt: HostRuntime) -> Result<(), Fail> {
    let cases = [
        (Computation::IntQuotient, ValueOp::AnyInt),
        (Computation::LongQuotient, ValueOp::AnyLong),
    ];
    for (computation, value) in cases {
        let action = Action::Computes(computation);
        let rows = [at(gives(9), value), thrown(55)];
        says(&rt, rt.alloc(), &Next::Falls, &action, &rows)?;
    }
    Ok(())
}

/// `ldc` of a string, with a literal line of each sort that raises something else, and one that isn't found.
#[test]
fn literals(rt: HostRuntime) -> Result<(), Fail> {
    let lines = [
        LiteralField {
            field: FieldId(1),
            value: StatedValue::New(TypeId(12)),
        },
        LiteralField {
            field: FieldId(2),
            value: StatedValue::Under(TargetId(13)),
        },
    ];
    let literal = Literal {
        class: TypeId(11),
        fields: Items::from_vec(Vec::from_slice(rt.alloc(), &lines)?),
    };
    let rows = [
        at(gives(9), ValueOp::OneType(TypeId(11))),
        at(Node::Inst, ValueOp::OneType(TypeId(11))),
        at(Node::Held(FieldId(1)), ValueOp::OneType(TypeId(12))),
        at(Node::Touched(FieldId(1)), ValueOp::Token),
        at(Node::Inst, ValueOp::OneType(TypeId(12))),
        at(Node::Held(FieldId(2)), ValueOp::SomeUnder(TargetId(13))),
        at(Node::Touched(FieldId(2)), ValueOp::Token),
    ];
    says(
        &rt,
        rt.alloc(),
        &Next::Falls,
        &Action::Literal(Ok(literal)),
        &rows,
    )?;
    let absent = Action::Literal(Err(LinkError::NoClassDefFound));
    says(&rt, rt.alloc(), &Next::Falls, &absent, &[thrown(58)])
}
