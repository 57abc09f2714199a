use crate::node::{Node, Own, OwnOf};
use crate::throwable::Throwable;
use wf_base::{ClassId, FieldId, MethodId, TypeId};
use wf_names::LinkError;

const HERE: MethodId = MethodId(7);

/// A node of a body gets its method, and every other keeps its name.
#[test]
fn in_a_method(rt: HostRuntime) {
    let own = Own::Result(4);
    let named = Node::In(OwnOf { method: HERE, own });
    assert!(rt; Node::In(own).in_method(HERE) == named);
    assert!(rt; Node::Inst.in_method(HERE) == Node::Inst);
    assert!(rt; Node::Start.in_method(HERE) == Node::Start);
    assert!(rt; Node::Nothing.in_method(HERE) == Node::Nothing);
    let class = ClassId(1);
    assert!(rt; Node::Initialized(class).in_method(HERE) == Node::Initialized(class));
    let other = MethodId(2);
    assert!(rt; Node::Entered(other).in_method(HERE) == Node::Entered(other));
    assert!(rt; Node::Parameter(other, 3).in_method(HERE) == Node::Parameter(other, 3));
    assert!(rt; Node::Returned(other).in_method(HERE) == Node::Returned(other));
    let field = FieldId(4);
    assert!(rt; Node::Held(field).in_method(HERE) == Node::Held(field));
    assert!(rt; Node::Touched(field).in_method(HERE) == Node::Touched(field));
    let array = TypeId(5);
    assert!(rt; Node::Element(array).in_method(HERE) == Node::Element(array));
    assert!(rt; Node::Copied(6).in_method(HERE) == Node::Copied(6));
}

#[test]
fn errors_have_classes(rt: HostRuntime) {
    let thrown = Throwable::of(LinkError::NoSuchField);
    assert_eq!(rt;
        thrown.class_name(),
        b"java/lang/NoSuchFieldError".as_slice()
    );
    let thrown = Throwable::ExceptionInInitializer;
    assert_eq!(rt;
        thrown.class_name(),
        b"java/lang/ExceptionInInitializerError".as_slice()
    );
}
