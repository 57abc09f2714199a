use super::{at, gives, says, thrown};
use crate::action::{
    Action, ArrayUse, FieldUse, Making, ManyArray, NewObject, StaticField, TypeTest,
};
use crate::node::Node;
use std::test::Fail;
use wf_base::{ClassId, FieldId, Items, Kind, TargetId, TypeId};
use wf_names::LinkError;
use wf_operation::Next;
use wf_system::ValueOp;

const STATIC: StaticField = StaticField {
    class: ClassId(2),
    field: FieldId(3),
};

#[test]
fn static_fields(rt: HostRuntime) -> Result<(), Fail> {
    let initialized = at(Node::Initialized(ClassId(2)), ValueOp::Token);
    let touched = at(Node::Touched(FieldId(3)), ValueOp::Token);
    let get = Action::Field(FieldUse::GetStatic(Ok(STATIC)));
    let given = at(gives(9), ValueOp::Copy(Node::Held(FieldId(3))));
    says(
        &rt,
        rt.alloc(),
        &Next::Falls,
        &get,
        &[initialized, touched, given],
    )?;
    let put = Action::Field(FieldUse::PutStatic(Ok(STATIC), Kind::Int));
    let held = at(Node::Held(FieldId(3)), ValueOp::Copy(gives(4)));
    says(
        &rt,
        rt.alloc(),
        &Next::Falls,
        &put,
        &[initialized, touched, held],
    )?;
    let absent = Action::Field(FieldUse::PutStatic(Err(LinkError::NoSuchField), Kind::Int));
    says(&rt, rt.alloc(), &Next::Falls, &absent, &[thrown(59)])
}

/// A long is named by its first slot, and a place whose field isn't found throws for null too.
#[test]
fn instance_fields(rt: HostRuntime) -> Result<(), Fail> {
    let touched = at(Node::Touched(FieldId(3)), ValueOp::Token);
    let get = Action::Field(FieldUse::Get(Ok(FieldId(3))));
    let given = at(gives(9), ValueOp::Copy(Node::Held(FieldId(3))));
    says(
        &rt,
        rt.alloc(),
        &Next::Falls,
        &get,
        &[touched, given, thrown(50)],
    )?;
    let put = Action::Field(FieldUse::Put(Ok(FieldId(3)), Kind::Long));
    let held = at(Node::Held(FieldId(3)), ValueOp::Copy(gives(3)));
    says(
        &rt,
        rt.alloc(),
        &Next::Falls,
        &put,
        &[touched, held, thrown(50)],
    )?;
    let absent = Action::Field(FieldUse::Get(Err(LinkError::NoClassDefFound)));
    says(
        &rt,
        rt.alloc(),
        &Next::Falls,
        &absent,
        &[thrown(50), thrown(58)],
    )
}

#[test]
fn arrays(rt: HostRuntime) -> Result<(), Fail> {
    let cases = [
        (ArrayUse::LoadInt, ValueOp::AnyInt),
        (ArrayUse::LoadLong, ValueOp::AnyLong),
        (ArrayUse::LoadRef, ValueOp::ElementsOf(gives(3))),
    ];
    for (array, value) in cases {
        let rows = [at(gives(9), value), thrown(50), thrown(51)];
        says(&rt, rt.alloc(), &Next::Falls, &Action::Array(array), &rows)?;
    }
    let length = [at(gives(9), ValueOp::AnyInt), thrown(50)];
    says(
        &rt,
        rt.alloc(),
        &Next::Falls,
        &Action::Array(ArrayUse::Length),
        &length,
    )?;
    let store = Action::Array(ArrayUse::StoreNumber);
    says(
        &rt,
        rt.alloc(),
        &Next::Falls,
        &store,
        &[thrown(50), thrown(51)],
    )
}

#[test]
fn stored_references(rt: HostRuntime) -> Result<(), Fail> {
    let rows = [
        at(
            Node::Element(TypeId(30)),
            ValueOp::IfHolds(gives(2), TypeId(30), gives(4), TargetId(31)),
        ),
        at(
            Node::Element(TypeId(32)),
            ValueOp::IfHolds(gives(2), TypeId(32), gives(4), TargetId(33)),
        ),
        thrown(50),
        thrown(51),
        thrown(52),
    ];
    says(
        &rt,
        rt.alloc(),
        &Next::Falls,
        &Action::Array(ArrayUse::StoreRef),
        &rows,
    )
}

/// `new`, also of an abstract class, whose error isn't loadable in the example, and `newarray`.
#[test]
fn made_objects(rt: HostRuntime) -> Result<(), Fail> {
    let object = Action::Makes(Making::Object(Ok(NewObject {
        class: ClassId(2),
        made: TypeId(5),
    })));
    let rows = [
        at(Node::Initialized(ClassId(2)), ValueOp::Token),
        at(gives(9), ValueOp::OneType(TypeId(5))),
        at(Node::Inst, ValueOp::OneType(TypeId(5))),
    ];
    says(&rt, rt.alloc(), &Next::Falls, &object, &rows)?;
    let absent = Action::Makes(Making::Object(Err(LinkError::Instantiation)));
    says(&rt, rt.alloc(), &Next::Falls, &absent, &[])?;
    let array = Action::Makes(Making::Array(Ok(TypeId(6))));
    let given = at(gives(9), ValueOp::OneType(TypeId(6)));
    says(
        &rt,
        rt.alloc(),
        &Next::Falls,
        &array,
        &[given, thrown(6), thrown(53)],
    )
}

/// `multianewarray` of three types: each is an element of the one before.
#[test]
fn many_arrays(rt: HostRuntime) -> Result<(), Fail> {
    let components = Vec::from_slice(rt.alloc(), &[TypeId(7), TypeId(8)])?;
    let many = Action::Makes(Making::ManyArray(Ok(ManyArray {
        array: TypeId(6),
        components: Items::from_vec(components),
    })));
    let rows = [
        at(gives(9), ValueOp::OneType(TypeId(6))),
        thrown(6),
        thrown(7),
        at(Node::Element(TypeId(6)), ValueOp::OneType(TypeId(7))),
        thrown(8),
        at(Node::Element(TypeId(7)), ValueOp::OneType(TypeId(8))),
        thrown(53),
    ];
    says(&rt, rt.alloc(), &Next::Falls, &many, &rows)
}

#[test]
fn tests_of_types(rt: HostRuntime) -> Result<(), Fail> {
    let cast = Action::Tests(TypeTest::Cast(Ok(TargetId(4))));
    let under = at(gives(9), ValueOp::Under(gives(4), TargetId(4)));
    says(&rt, rt.alloc(), &Next::Falls, &cast, &[under, thrown(54)])?;
    let absent = Action::Tests(TypeTest::Cast(Err(LinkError::NoClassDefFound)));
    let null = at(gives(9), ValueOp::OnlyNull(gives(4)));
    says(
        &rt,
        rt.alloc(),
        &Next::Falls,
        &absent,
        &[null, thrown(54), thrown(58)],
    )?;
    let test = Action::Tests(TypeTest::InstanceOf(Ok(TargetId(4))));
    let tested = at(gives(9), ValueOp::Tested(gives(4), TargetId(4)));
    says(&rt, rt.alloc(), &Next::Falls, &test, &[tested])?;
    let absent = Action::Tests(TypeTest::InstanceOf(Err(LinkError::NoClassDefFound)));
    let zero = at(gives(9), ValueOp::IfNull(gives(4)));
    says(&rt, rt.alloc(), &Next::Falls, &absent, &[zero, thrown(58)])
}
