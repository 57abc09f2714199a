use super::context::EXAMPLES;
use super::{gives_rows, under};
use crate::node::{Node, Own};
use crate::roots::{RootParameter, RootUse, push_root};
use std::alloc::Global;
use std::process::Abort;
use std::test::Fail;
use wf_base::{ClassId, Items, MethodId, TypeId};
use wf_system::{Guard, Inequality, ValueOp};

const METHOD: MethodId = MethodId(3);

fn always(target: Node<Own>, value: ValueOp<Node<Own>>) -> Inequality<Node<Own>> {
    under(Guard::Always, target, value)
}

fn starts(
    rt: &impl Abort,
    alloc: Global,
    root: &RootUse,
    rows: &[Inequality<Node<Own>>],
) -> Result<(), Fail> {
    let mut pushed = Vec::new(alloc);
    push_root(&EXAMPLES, root, &mut pushed)?;
    gives_rows(rt, alloc, pushed.as_slice(), rows)
}

/// A static method with an int, a reference with two types under it, and a long.
#[test]
fn calls(rt: HostRuntime) -> Result<(), Fail> {
    let types = Vec::from_slice(rt.alloc(), &[TypeId(12), TypeId(13)])?;
    let mut parameters = Vec::new(rt.alloc());
    parameters.push(RootParameter::Int)?;
    parameters.push(RootParameter::Ref(Items::from_vec(types)))?;
    parameters.push(RootParameter::Long)?;
    let root = RootUse::Calls {
        class: ClassId(2),
        method: METHOD,
        parameters: Items::from_vec(parameters),
    };
    let rows = [
        always(Node::Entered(METHOD), ValueOp::Token),
        always(Node::Initialized(ClassId(2)), ValueOp::Token),
        always(Node::Parameter(METHOD, 0), ValueOp::AnyInt),
        always(Node::Parameter(METHOD, 1), ValueOp::NullRef),
        always(Node::Parameter(METHOD, 1), ValueOp::OneType(TypeId(12))),
        always(Node::Parameter(METHOD, 1), ValueOp::OneType(TypeId(13))),
        always(Node::Parameter(METHOD, 2), ValueOp::AnyLong),
    ];
    starts(&rt, rt.alloc(), &root, &rows)
}

/// An array and a class of which there are objects, and an object that is made.
#[test]
fn objects(rt: HostRuntime) -> Result<(), Fail> {
    let array = RootUse::Has {
        made: TypeId(30),
        class: None,
    };
    let made = always(Node::Inst, ValueOp::OneType(TypeId(30)));
    starts(&rt, rt.alloc(), &array, &[made])?;
    let object = ValueOp::OneType(TypeId(12));
    let initialized = always(Node::Initialized(ClassId(2)), ValueOp::Token);
    let has = RootUse::Has {
        made: TypeId(12),
        class: Some(ClassId(2)),
    };
    let rows = [always(Node::Inst, object), initialized];
    starts(&rt, rt.alloc(), &has, &rows)?;
    let makes = RootUse::Makes {
        class: ClassId(2),
        made: TypeId(12),
        constructor: METHOD,
    };
    let rows = [
        always(Node::Inst, object),
        initialized,
        always(Node::Entered(METHOD), ValueOp::Token),
        always(Node::Parameter(METHOD, 0), object),
    ];
    starts(&rt, rt.alloc(), &makes, &rows)
}
