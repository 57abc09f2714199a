//! Which classes are initialized before a class.

use super::made::closed;
use super::words::{MISSING, class_name, of_method};
use std::alloc::Global;
use std::test::Fail;
use wf_classes::Classes;
use wf_init::{init_order, initializer};

const LISTING: &[u8] = b"class java/lang/Object
interface I
method d ()V
return
end
interface N
method abstract a ()V
method static s ()V
return
end
interface L implements I
method l ()V
return
end
interface R implements I
method r ()V
return
end
interface K implements N I
class C implements I
class B implements N
class D implements L R
class E implements K
class F extends D implements R
abstract G extends F implements L N
class S
method static <clinit> ()V
return
end
class T extends S
method <clinit> ()V
return
end
class U extends S
method static <clinit> ()I
iconst_0
ireturn
end
";

/// The names of the classes that are initialized before a class, with a blank between two.
fn before(alloc: Global, classes: &Classes, class: &[u8]) -> Result<Vec<u8>, Fail> {
    let mut names = Vec::new(alloc);
    let Some(c) = classes.find(class) else {
        names.extend_from_slice(MISSING)?;
        return Ok(names);
    };
    for d in init_order(alloc, classes, c)?.as_slice() {
        if !names.is_empty() {
            names.push(b' ')?;
        }
        names.extend_from_slice(class_name(classes, *d))?;
    }
    Ok(names)
}

/// The superclass, and then the superinterfaces with a default method, each behind its own; a static method is no default
/// method, and an interface without one is passed over, and not what is above it. Nothing before an interface.
#[test]
fn classes_before_a_class(rt: HostRuntime) -> Result<(), Fail> {
    let alloc = rt.alloc();
    let Some(classes) = closed(alloc, LISTING)? else {
        assert!(rt; false);
        return Ok(());
    };
    let cases: [(&[u8], &[u8]); 10] = [
        (b"C", b"java/lang/Object I"),
        (b"B", b"java/lang/Object"),
        (b"D", b"java/lang/Object I L R"),
        (b"E", b"java/lang/Object I"),
        (b"F", b"D I R"),
        (b"G", b"F I L"),
        (b"I", b""),
        (b"R", b""),
        (b"java/lang/Object", b""),
        (b"Missing", MISSING),
    ];
    for (class, expected) in cases {
        let names = before(alloc, &classes, class)?;
        assert!(rt; names.as_slice() == expected);
    }
    Ok(())
}

/// The name of the class that declares the initializer of a class.
fn initializes<'a>(classes: &'a Classes, class: &[u8]) -> &'a [u8] {
    let Some(c) = classes.find(class) else {
        return MISSING;
    };
    match initializer(classes, c) {
        Some(m) => of_method(classes, m),
        None => b"none",
    }
}

/// The initializer is a class's own, static and without a value.
#[test]
fn initializers_of_classes(rt: HostRuntime) -> Result<(), Fail> {
    let alloc = rt.alloc();
    let Some(classes) = closed(alloc, LISTING)? else {
        assert!(rt; false);
        return Ok(());
    };
    let cases: [(&[u8], &[u8]); 5] = [
        (b"S", b"S"),
        (b"T", b"none"),
        (b"U", b"none"),
        (b"I", b"none"),
        (b"Missing", MISSING),
    ];
    for (class, expected) in cases {
        assert!(rt; initializes(&classes, class) == expected);
    }
    Ok(())
}
