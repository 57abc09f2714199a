use super::context::EXAMPLES;
use super::{gives_rows, under};
use crate::action::Literal;
use crate::classes::{
    Initialization, InstanceField, InstanceFields, StartValue, StaticStart, push_elements,
    push_initialization, push_instance_fields,
};
use crate::node::{Node, Own};
use std::alloc::{AllocError, Global};
use std::test::Fail;
use wf_base::{ClassId, FieldId, Items, Kind, MethodId, TargetId, TypeId};
use wf_system::{Guard, Inequality, ValueOp};

fn start(field: u32, value: StartValue) -> StaticStart {
    StaticStart {
        field: FieldId(field),
        value,
    }
}

/// The fields of a class with a string, numbers and default values; a double isn't followed.
fn fields(alloc: Global) -> Result<Items<StaticStart>, AllocError> {
    let string = Literal {
        class: TypeId(11),
        fields: Items::new(alloc),
    };
    let mut fields = Vec::new(alloc);
    fields.push(start(1, StartValue::Zero(Kind::Int)))?;
    fields.push(start(2, StartValue::Int(9)))?;
    fields.push(start(3, StartValue::Long))?;
    fields.push(start(4, StartValue::Object(string)))?;
    fields.push(start(5, StartValue::Zero(Kind::Ref)))?;
    fields.push(start(6, StartValue::Zero(Kind::Double)))?;
    fields.push(start(7, StartValue::Zero(Kind::Long)))?;
    Ok(Items::from_vec(fields))
}

/// Where a class is requested, its initializer is entered, which may fail, its superclass and an interface are
/// requested, and its fields get their first values.
#[test]
fn initializations(rt: HostRuntime) -> Result<(), Fail> {
    let class = Initialization {
        class: ClassId(2),
        initializer: Some(MethodId(5)),
        before: Items::from_vec(Vec::from_slice(rt.alloc(), &[ClassId(1), ClassId(8)])?),
        fields: fields(rt.alloc())?,
    };
    let requested = Guard::NonEmpty(Node::Initialized(ClassId(2)));
    let entered = Guard::NonEmpty(Node::Entered(MethodId(5)));
    let held = |field, value| under(requested, Node::Held(FieldId(field)), value);
    let rows = [
        under(requested, Node::Entered(MethodId(5)), ValueOp::Token),
        under(entered, Node::Inst, ValueOp::OneType(TypeId(61))),
        under(entered, Node::Inst, ValueOp::OneType(TypeId(58))),
        under(requested, Node::Initialized(ClassId(1)), ValueOp::Token),
        under(requested, Node::Initialized(ClassId(8)), ValueOp::Token),
        held(1, ValueOp::IntIs(0)),
        held(2, ValueOp::IntIs(9)),
        held(3, ValueOp::AnyLong),
        held(4, ValueOp::OneType(TypeId(11))),
        under(requested, Node::Inst, ValueOp::OneType(TypeId(11))),
        held(5, ValueOp::NullRef),
        held(7, ValueOp::AnyLong),
    ];
    let mut pushed = Vec::new(rt.alloc());
    push_initialization(&EXAMPLES, &class, &mut pushed)?;
    gives_rows(&rt, rt.alloc(), pushed.as_slice(), &rows)
}

/// An interface without an initializer or fields does nothing.
#[test]
fn nothing_is_initialized(rt: HostRuntime) -> Result<(), Fail> {
    let interface = Initialization {
        class: ClassId(2),
        initializer: None,
        before: Items::new(rt.alloc()),
        fields: Items::new(rt.alloc()),
    };
    let mut pushed = Vec::new(rt.alloc());
    push_initialization(&EXAMPLES, &interface, &mut pushed)?;
    gives_rows(&rt, rt.alloc(), pushed.as_slice(), &[])
}

fn zero(field: u32, value: ValueOp<Node<Own>>) -> Inequality<Node<Own>> {
    under(
        Guard::HasUnder(TargetId(4)),
        Node::Held(FieldId(field)),
        value,
    )
}

#[test]
fn unwritten_fields_and_elements(rt: HostRuntime) -> Result<(), Fail> {
    let fields = [
        InstanceField {
            field: FieldId(1),
            kind: Kind::Int,
        },
        InstanceField {
            field: FieldId(2),
            kind: Kind::Float,
        },
        InstanceField {
            field: FieldId(3),
            kind: Kind::Ref,
        },
    ];
    let class = InstanceFields {
        class: TargetId(4),
        fields: Items::from_vec(Vec::from_slice(rt.alloc(), &fields)?),
    };
    let mut pushed = Vec::new(rt.alloc());
    push_instance_fields(&EXAMPLES, &class, &mut pushed)?;
    push_elements(&EXAMPLES, &mut pushed)?;
    let rows = [
        zero(1, ValueOp::IntIs(0)),
        zero(3, ValueOp::NullRef),
        under(
            Guard::HasType(TypeId(30)),
            Node::Element(TypeId(30)),
            ValueOp::NullRef,
        ),
        under(
            Guard::HasType(TypeId(32)),
            Node::Element(TypeId(32)),
            ValueOp::NullRef,
        ),
    ];
    gives_rows(&rt, rt.alloc(), pushed.as_slice(), &rows)
}
