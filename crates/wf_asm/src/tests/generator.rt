use crate::generator::{make_program, next_state, number_of};
use std::process::Abort;
use std::test::Fail;
use wf_data::{ClassInfo, PoolEntry};

#[test]
fn numbers_are_drawn(rt: HostRuntime) {
    let mut state = 1;
    for wanted in [16838, 5758, 10113, 17515, 31051, 5627] {
        state = next_state(state);
        assert_eq!(rt; number_of(state), wanted);
    }
}

/// The tag of the constant at a place, and the places that it names.
fn constant(class: &ClassInfo, place: usize) -> (u8, u16, u16) {
    match class.pool.as_slice().get(place) {
        Some(PoolEntry::Utf8(_)) => (1, 0, 0),
        Some(PoolEntry::Class(name)) => (7, *name, 0),
        Some(PoolEntry::Method(class, member)) => (10, *class, *member),
        Some(PoolEntry::NameType(name, desc)) => (12, *name, *desc),
        _ => (0, 0, 0),
    }
}

/// Whether this text stands at a place.
fn has_text(class: &ClassInfo, place: usize, wanted: &[u8]) -> bool {
    match class.pool.as_slice().get(place) {
        Some(PoolEntry::Utf8(text)) => text.as_slice() == wanted,
        _ => false,
    }
}

/// Whether a method has this name and these bytes.
fn has_code(class: &ClassInfo, i: usize, name: &[u8], wanted: &[u8]) -> bool {
    let Some(method) = class.methods.as_slice().get(i) else {
        return false;
    };
    let Some(code) = &method.code else {
        return false;
    };
    method.name.as_slice() == name && code.code.as_slice() == wanted
}

fn extends(class: &ClassInfo, name: &[u8], wanted: &[u8]) -> bool {
    match &class.superclass {
        Some(superclass) => class.name.as_slice() == name && superclass.as_slice() == wanted,
        None => false,
    }
}

#[test]
fn a_program_of_two_classes(rt: HostRuntime) -> Result<(), Fail> {
    let classes = make_program(rt.alloc(), 1, 2)?;
    let [object, first, second] = classes.as_slice() else {
        assert!(rt; false);
        return Ok(());
    };
    assert!(rt; object.name.as_slice() == b"java/lang/Object".as_slice());
    assert!(rt; object.superclass.is_none());
    assert!(rt; has_code(object, 0, b"<init>", b"\xb1"));
    assert!(rt; extends(first, b"G0", b"java/lang/Object"));
    assert!(rt; extends(second, b"G1", b"G0"));
    Ok(())
}

#[test]
fn the_first_of_two_classes(rt: HostRuntime) -> Result<(), Fail> {
    let classes = make_program(rt.alloc(), 1, 2)?;
    let Some(class) = classes.as_slice().get(1) else {
        assert!(rt; false);
        return Ok(());
    };
    assert_eq!(rt; class.pool.len(), 16);
    assert!(rt; has_code(class, 0, b"s", b"\xb1"));
    let bytes = b"\xbb\0\x09\xb6\0\x0b\x10\x01\x99\0\x06\xb8\0\x0d\xb1";
    assert!(rt; has_code(class, 1, b"m", bytes));
    assert!(rt; has_code(class, 2, b"main", b"\xbb\0\x01\xb6\0\x0b\xb1"));
    assert_eq!(rt; constant(class, 1), (7, 2, 0));
    assert_eq!(rt; constant(class, 9), (7, 10, 0));
    assert_eq!(rt; constant(class, 11), (10, 1, 12));
    assert_eq!(rt; constant(class, 12), (12, 8, 6));
    assert_eq!(rt; constant(class, 13), (10, 9, 14));
    assert_eq!(rt; constant(class, 14), (12, 5, 6));
    assert!(rt; has_text(class, 10, b"G1"));
    assert!(rt; has_text(class, 7, b"Code"));
    Ok(())
}

#[test]
fn the_second_of_two_classes(rt: HostRuntime) -> Result<(), Fail> {
    let classes = make_program(rt.alloc(), 1, 2)?;
    let Some(class) = classes.as_slice().get(2) else {
        assert!(rt; false);
        return Ok(());
    };
    assert_eq!(rt; class.pool.len(), 11);
    assert!(rt; has_code(class, 1, b"m", b"\x10\x01\x99\0\x06\xb8\0\x09\xb1"));
    assert_eq!(rt; class.methods.len(), 2);
    assert_eq!(rt; constant(class, 9), (10, 1, 10));
    assert_eq!(rt; constant(class, 10), (12, 5, 6));
    Ok(())
}

#[test]
fn a_program_without_classes(rt: HostRuntime) -> Result<(), Fail> {
    let classes = make_program(rt.alloc(), 1, 0)?;
    let [object] = classes.as_slice() else {
        assert!(rt; false);
        return Ok(());
    };
    assert!(rt; object.name.as_slice() == b"java/lang/Object".as_slice());
    Ok(())
}
