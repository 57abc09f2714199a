//! The numbers of the nodes that bodies share, and the types of what the machine throws.

use super::made::closed;
use std::alloc::Global;
use std::test::Fail;
use wf_base::{ClassId, FieldId, Items, MethodId, TypeId};
use wf_nodes::{SharedNodes, shared_nodes, thrown_types};
use wf_rows::{Node, Own, Throwable};
use wf_subtype::{Types, types_of};

const LISTING: &[u8] = b"class java/lang/Object
abstract A
field a F
field b I
method abstract m ()V
method n (IJLA;)I
iconst_1
newarray int
iconst_1
anewarray A
iconst_1
ireturn
end
method static s (I)V
return
end
method t (F)V
return
end
method u ()F
fconst_0
freturn
end
";

const THROWN: &[u8] = b"class java/lang/Object
class java/lang/NullPointerException
abstract java/lang/ClassCastException
";

fn types_in(alloc: Global, listing: &[u8]) -> Result<Option<Types>, Fail> {
    match closed(alloc, listing)? {
        Some(classes) => Ok(Some(types_of(alloc, classes, &Items::new(alloc))?)),
        None => Ok(None),
    }
}

/// The nodes of the listing, where two lines of a summary copy elements.
fn shared(alloc: Global) -> Result<SharedNodes, Fail> {
    let types = types_in(alloc, LISTING)?.ok_or("no classes")?;
    Ok(shared_nodes(alloc, &types, 2)?)
}

#[test]
fn methods_have_a_node_for_each_value(rt: HostRuntime) -> Result<(), Fail> {
    let shared = shared(rt.alloc())?;
    let wants: [(Node<Own>, Option<u64>); 12] = [
        (Node::Initialized(ClassId(1)), Some(4)),
        (Node::Entered(MethodId(0)), None),
        (Node::Entered(MethodId(1)), Some(5)),
        (Node::Parameter(MethodId(1), 3), Some(9)),
        (Node::Parameter(MethodId(1), 4), None),
        (Node::Returned(MethodId(1)), Some(10)),
        (Node::Parameter(MethodId(2), 0), Some(12)),
        (Node::Returned(MethodId(2)), Some(13)),
        (Node::Entered(MethodId(3)), None),
        (Node::Parameter(MethodId(4), 0), Some(15)),
        (Node::Returned(MethodId(4)), None),
        (Node::Entered(MethodId(5)), None),
    ];
    for (node, number) in wants {
        assert_eq!(rt; shared.number(node), number);
    }
    Ok(())
}

#[test]
fn fields_arrays_and_copies_follow(rt: HostRuntime) -> Result<(), Fail> {
    let shared = shared(rt.alloc())?;
    let wants: [(Node<Own>, Option<u64>); 9] = [
        (Node::Held(FieldId(0)), None),
        (Node::Held(FieldId(1)), Some(16)),
        (Node::Touched(FieldId(1)), Some(17)),
        (Node::Element(TypeId(1)), None),
        (Node::Element(TypeId(2)), Some(18)),
        (Node::Element(TypeId(3)), None),
        (Node::Copied(1), Some(20)),
        (Node::Copied(2), None),
        (Node::In(Own::Block(0)), None),
    ];
    for (node, number) in wants {
        assert_eq!(rt; shared.number(node), number);
    }
    assert_eq!(rt; shared.count(), 21);
    assert_eq!(rt; shared.arrays().len(), 1);
    Ok(())
}

#[test]
fn an_abstract_class_is_never_thrown(rt: HostRuntime) -> Result<(), Fail> {
    let types = types_in(rt.alloc(), THROWN)?.ok_or("no classes")?;
    let thrown = thrown_types(&types);
    assert_eq!(rt; thrown.of(Throwable::NullPointer), Some(TypeId(1)));
    assert_eq!(rt; thrown.of(Throwable::ClassCast), None);
    assert_eq!(rt; thrown.of(Throwable::Arithmetic), None);
    Ok(())
}
