//! Types of a run, and which is under which.

ghost use Rattle.std.specs.Prelude.{◌≤◌, length, IfSome};

use super::made::closed;
use super::words::{MISSING, ran};
use std::alloc::Global;
use std::test::Fail;
use wf_base::{Items, Text, TypeId};
use wf_select::{Invoke, select_of_type};
use wf_subtype::{Types, types_of};

const LISTING: &[u8] = b"class java/lang/Object
method m ()V
return
end
interface java/lang/Cloneable
interface java/io/Serializable
interface I
interface J implements I
abstract Z
class X implements J
method m ()V
return
end
class Y extends X
class M extends Z
method static make ()V
iconst_1
newarray int
anewarray X
multianewarray [[LX; 2
return
end
";

/// The types of a listing, and of one more array.
fn types_in(alloc: Global, listing: &[u8], named: &[u8]) -> Result<Option<Types>, Fail> {
    let mut names = Items::new(alloc);
    let mut name = Text::new(alloc);
    name.push_slice(named)?;
    if names.push(name).is_err() {
        return Ok(None);
    }
    match closed(alloc, listing)? {
        Some(classes) => Ok(Some(types_of(alloc, classes, &names)?)),
        None => Ok(None),
    }
}

/// The type of a name, or null.
fn type_of(types: &Types, name: &[u8]) -> Option<TypeId>
    ensures { IfSome result (λ t. t.0 ≤ length types.now.names) }
{
    if name == b"null".as_slice() {
        return Some(TypeId(0));
    }
    types.find(name)
}

/// Whether one is under the other, by their names. `None` where the one is no type or the other isn't loadable.
fn is_under(types: &Types, t: &[u8], u: &[u8]) -> Option<bool> {
    let t = type_of(types, t)?;
    let u = types.target(u)?;
    Some(types.is_subtype(t, u))
}

/// As the Java Virtual Machine answers by `isAssignableFrom`, where neither is null.
#[test]
fn subtypes(rt: HostRuntime) -> Result<(), Fail> {
    let Some(types) = types_in(rt.alloc(), LISTING, b"[[I")? else {
        assert!(rt; false);
        return Ok(());
    };
    let cases: [(&[u8], &[u8], Option<bool>); 38] = [
        (b"[LX;", b"[Ljava/lang/Object;", Some(true)),
        (b"[I", b"[Ljava/lang/Object;", Some(false)),
        (b"[[I", b"[Ljava/lang/Object;", Some(true)),
        (b"[[I", b"[Ljava/lang/Cloneable;", Some(true)),
        (b"[[I", b"[Ljava/io/Serializable;", Some(true)),
        (b"[[I", b"java/lang/Cloneable", Some(true)),
        (b"[I", b"java/lang/Object", Some(true)),
        (b"[I", b"java/io/Serializable", Some(true)),
        (b"[I", b"[I", Some(true)),
        (b"[I", b"[J", Some(false)),
        (b"[I", b"[[I", Some(false)),
        (b"[[I", b"[I", Some(false)),
        (b"[[I", b"[[I", Some(true)),
        (b"[[I", b"[[J", Some(false)),
        (b"[[I", b"[[[[I", Some(false)),
        (b"[LX;", b"[LX;", Some(true)),
        (b"[LX;", b"[LI;", Some(true)),
        (b"[LX;", b"[LJ;", Some(true)),
        (b"[LX;", b"[LY;", Some(false)),
        (b"[LX;", b"X", Some(false)),
        (b"[[LX;", b"[[LI;", Some(true)),
        (b"[[LX;", b"[LI;", Some(false)),
        (b"[[LX;", b"[Ljava/lang/Cloneable;", Some(true)),
        (b"[[LX;", b"[[Ljava/lang/Cloneable;", Some(false)),
        (b"X", b"I", Some(true)),
        (b"X", b"java/lang/Object", Some(true)),
        (b"X", b"Y", Some(false)),
        (b"X", b"java/lang/Cloneable", Some(false)),
        (b"Y", b"I", Some(true)),
        (b"M", b"Z", Some(true)),
        (b"java/lang/Object", b"X", Some(false)),
        (b"null", b"X", Some(true)),
        (b"null", b"[I", Some(true)),
        (b"null", b"I", Some(true)),
        (b"null", b"[[[[[[Z", Some(true)),
        (b"Z", b"Z", None),
        (b"[LY;", b"java/lang/Object", None),
        (b"X", b"[LMissing;", None),
    ];
    for (t, u, expected) in cases {
        assert_eq!(rt; is_under(&types, t, u), expected);
    }
    Ok(())
}

/// Types have numbers by the bytes of their names, and null has number 0.
#[test]
fn numbers_of_types(rt: HostRuntime) -> Result<(), Fail> {
    let Some(types) = types_in(rt.alloc(), LISTING, b"[[I")? else {
        assert!(rt; false);
        return Ok(());
    };
    let numbers: [(&[u8], Option<TypeId>); 11] = [
        (b"M", Some(TypeId(1))),
        (b"X", Some(TypeId(2))),
        (b"Y", Some(TypeId(3))),
        (b"[I", Some(TypeId(4))),
        (b"[LX;", Some(TypeId(5))),
        (b"[[I", Some(TypeId(6))),
        (b"[[LX;", Some(TypeId(7))),
        (b"java/lang/Object", Some(TypeId(8))),
        (b"Z", None),
        (b"null", None),
        (b"", None),
    ];
    assert_eq!(rt; types.len(), 8);
    for (name, number) in numbers {
        assert_eq!(rt; types.find(name), number);
    }
    Ok(())
}

/// Where neither Cloneable nor Serializable is loadable they are no targets.
#[test]
fn arrays_without_their_interfaces(rt: HostRuntime) -> Result<(), Fail> {
    let Some(types) = types_in(rt.alloc(), b"class java/lang/Object\n", b"[[I")? else {
        assert!(rt; false);
        return Ok(());
    };
    assert_eq!(rt;
        is_under(&types, b"[[I", b"[Ljava/lang/Object;"),
        Some(true)
    );
    assert_eq!(rt; is_under(&types, b"[[I", b"[Ljava/lang/Cloneable;"), None);
    assert_eq!(rt; is_under(&types, b"[[I", b"java/io/Serializable"), None);
    Ok(())
}

/// The name of the class whose method runs for an object of a type, where `m ()V` of `java/lang/Object` is called.
fn runs_for<'a>(types: &'a Types, t: &[u8]) -> &'a [u8] {
    let classes = types.classes();
    let Some(object) = classes.find(b"java/lang/Object") else {
        return MISSING;
    };
    let Some(m) = classes.find_method(object, b"m", b"()V") else {
        return MISSING;
    };
    match types.find(t) {
        Some(t) if t.0 > 0 => ran(classes, select_of_type(types, t, m, Invoke::Virtual)),
        _ => MISSING,
    }
}

/// An array has the methods of `java/lang/Object`.
#[test]
fn methods_of_types(rt: HostRuntime) -> Result<(), Fail> {
    let Some(types) = types_in(rt.alloc(), LISTING, b"[[I")? else {
        assert!(rt; false);
        return Ok(());
    };
    let cases: [(&[u8], &[u8]); 5] = [
        (b"M", b"java/lang/Object"),
        (b"X", b"X"),
        (b"Y", b"X"),
        (b"[I", b"java/lang/Object"),
        (b"[LX;", b"java/lang/Object"),
    ];
    for (t, expected) in cases {
        assert!(rt; runs_for(&types, t) == expected);
    }
    Ok(())
}
