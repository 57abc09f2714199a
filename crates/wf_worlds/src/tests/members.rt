//! Members that names mean, and methods that run.

use super::made::closed;
use super::words::{ABSTRACT, INCOMPATIBLE, MISSING, class_name, of_method, ran};
use std::alloc::Global;
use std::test::Fail;
use wf_base::FieldId;
use wf_classes::{Classes, declared_field};
use wf_names::LinkError;
use wf_resolve::{field, interface_method, method};
use wf_select::{Invoke, select, special};

const LISTING: &[u8] = b"class java/lang/Object
method <init> ()V
return
end
method open ()V
return
end
method protected shut ()V
return
end
interface I
method m ()V
return
end
interface J
method m ()V
return
end
class C implements I J
interface K implements I
method m ()V
return
end
class D implements I K
interface O1
method abstract n ()V
interface O2
method abstract n ()V
method static s ()V
return
end
abstract E implements O2 O1
field n I
interface FI
field static f I
class FS
field f I
class FC extends FS implements FI
class p/X
method package m ()V
return
end
class q/Y extends p/X
method package m ()V
return
end
class p/Y extends p/X
method package m ()V
return
end
class p/T extends p/X
method m ()V
return
end
class q/Z extends p/T
method m ()V
return
end
class q/V extends q/Y
method m ()V
return
end
class P
method private m ()V
return
end
class Q extends P
method m ()V
return
end
abstract G
method abstract n ()V
class H extends G implements O1
";

/// What a name is resolved as.
#[derive(Clone, Copy)]
enum Ask {
    Field,
    Method,
    InterfaceMethod,
}

/// The name of the class that declares a field.
fn of_field(classes: &Classes, f: FieldId) -> &[u8] {
    if f.0 < classes.fields() {
        class_name(classes, declared_field(classes, f).class)
    } else {
        MISSING
    }
}

/// The name of the class that declares the member, or the word of the error.
fn resolved<'a>(classes: &'a Classes, ask: Ask, class: &[u8], name: &[u8]) -> &'a [u8] {
    match ask {
        Ask::Field => match field(classes, class, name, b"I") {
            Ok(f) => of_field(classes, f),
            Err(error) => error.word(),
        },
        Ask::Method => match method(classes, class, name, b"()V") {
            Ok(m) => of_method(classes, m),
            Err(error) => error.word(),
        },
        Ask::InterfaceMethod => match interface_method(classes, class, name, b"()V") {
            Ok(m) => of_method(classes, m),
            Err(error) => error.word(),
        },
    }
}

/// The name of the class whose method runs for an object of a class, where that of another is called.
fn selected<'a>(classes: &'a Classes, t: &[u8], of: &[u8], name: &[u8], by: Invoke) -> &'a [u8] {
    let Some(t) = classes.find(t) else {
        return MISSING;
    };
    let Some(c) = classes.find(of) else {
        return MISSING;
    };
    match classes.find_method(c, name, b"()V") {
        None => MISSING,
        Some(m) => ran(classes, select(classes, t, m, by)),
    }
}

/// The name of the class whose method runs where one of a class calls another by invokespecial, by the name of a class.
fn special_of<'a>(
    classes: &'a Classes,
    current: &[u8],
    named: &[u8],
    of: &[u8],
    name: &[u8],
) -> &'a [u8] {
    let Some(current) = classes.find(current) else {
        return MISSING;
    };
    let Some(named) = classes.find(named) else {
        return MISSING;
    };
    let Some(c) = classes.find(of) else {
        return MISSING;
    };
    match classes.find_method(c, name, b"()V") {
        None => MISSING,
        Some(m) => ran(classes, special(classes, current, named, m)),
    }
}

/// An interface's method is found in a class that declares none, and not where two offer one that isn't abstract; a field of
/// an interface comes before that of a superclass; an array has the members of `java/lang/Object`; an interface its public
/// methods, and not its protected ones.
#[test]
fn members(rt: HostRuntime) -> Result<(), Fail> {
    let alloc = rt.alloc();
    let Some(classes) = closed(alloc, LISTING)? else {
        assert!(rt; false);
        return Ok(());
    };
    let no_class = LinkError::NoClassDefFound.word();
    let no_method = LinkError::NoSuchMethod.word();
    let no_field = LinkError::NoSuchField.word();
    let incompatible = LinkError::IncompatibleClassChange.word();
    let cases: [(Ask, &[u8], &[u8], &[u8]); 24] = [
        (Ask::Field, b"Missing", b"f", no_class),
        (Ask::Field, b"[LMissing;", b"f", no_class),
        (Ask::Field, b"[[I", b"f", no_field),
        (Ask::Field, b"FS", b"f", b"FS"),
        (Ask::Field, b"FC", b"f", b"FI"),
        (Ask::Field, b"FC", b"g", no_field),
        (Ask::Method, b"C", b"m", b"I"),
        (Ask::Method, b"D", b"m", b"K"),
        (Ask::Method, b"E", b"n", b"O1"),
        (Ask::Method, b"E", b"s", no_method),
        (Ask::Method, b"O2", b"s", incompatible),
        (Ask::Method, b"q/Z", b"m", b"q/Z"),
        (Ask::Method, b"H", b"n", b"G"),
        (Ask::Method, b"C", b"open", b"java/lang/Object"),
        (Ask::Method, b"C", b"shut", b"java/lang/Object"),
        (Ask::Method, b"[I", b"open", b"java/lang/Object"),
        (Ask::Method, b"[I", b"m", no_method),
        (Ask::Method, b"[Q", b"open", no_class),
        (Ask::Method, b"Missing", b"m", no_class),
        (Ask::InterfaceMethod, b"I", b"open", b"java/lang/Object"),
        (Ask::InterfaceMethod, b"I", b"shut", no_method),
        (Ask::InterfaceMethod, b"K", b"m", b"K"),
        (Ask::InterfaceMethod, b"C", b"m", incompatible),
        (Ask::InterfaceMethod, b"[I", b"open", incompatible),
    ];
    for (ask, class, name, expected) in cases {
        assert!(rt; resolved(&classes, ask, class, name) == expected);
    }
    Ok(())
}

/// Methods of package access are overridden in their package, or through a third method.
#[test]
fn methods_that_run(rt: HostRuntime) -> Result<(), Fail> {
    let alloc = rt.alloc();
    let Some(classes) = closed(alloc, LISTING)? else {
        assert!(rt; false);
        return Ok(());
    };
    let cases: [(&[u8], &[u8], &[u8], Invoke, &[u8]); 14] = [
        (b"C", b"I", b"m", Invoke::Virtual, INCOMPATIBLE),
        (b"C", b"I", b"m", Invoke::Interface, INCOMPATIBLE),
        (b"D", b"I", b"m", Invoke::Interface, b"K"),
        (b"q/Y", b"p/X", b"m", Invoke::Virtual, b"p/X"),
        (b"p/Y", b"p/X", b"m", Invoke::Virtual, b"p/Y"),
        (b"q/Z", b"p/X", b"m", Invoke::Virtual, b"q/Z"),
        (b"q/V", b"p/X", b"m", Invoke::Virtual, b"p/X"),
        (b"q/V", b"q/Y", b"m", Invoke::Virtual, b"q/V"),
        (b"q/Y", b"p/X", b"m", Invoke::Interface, b"q/Y"),
        (b"Q", b"P", b"m", Invoke::Virtual, b"P"),
        (b"H", b"G", b"n", Invoke::Virtual, ABSTRACT),
        (b"H", b"O1", b"n", Invoke::Interface, ABSTRACT),
        (
            b"C",
            b"java/lang/Object",
            b"shut",
            Invoke::Virtual,
            b"java/lang/Object",
        ),
        (b"P", b"Q", b"m", Invoke::Virtual, ABSTRACT),
    ];
    for (t, of, name, by, expected) in cases {
        assert!(rt; selected(&classes, t, of, name, by) == expected);
    }
    Ok(())
}

/// invokespecial of a superclass's method starts at the direct superclass.
#[test]
fn methods_that_invokespecial_runs(rt: HostRuntime) -> Result<(), Fail> {
    let alloc = rt.alloc();
    let Some(classes) = closed(alloc, LISTING)? else {
        assert!(rt; false);
        return Ok(());
    };
    let cases: [(&[u8], &[u8], &[u8], &[u8], &[u8]); 6] = [
        (b"q/Z", b"p/X", b"p/X", b"m", b"p/T"),
        (b"p/X", b"q/Z", b"q/Z", b"m", b"q/Z"),
        (b"C", b"I", b"I", b"m", b"I"),
        (
            b"q/Z",
            b"java/lang/Object",
            b"java/lang/Object",
            b"<init>",
            b"java/lang/Object",
        ),
        (
            b"D",
            b"K",
            b"java/lang/Object",
            b"open",
            b"java/lang/Object",
        ),
        (b"H", b"G", b"G", b"n", ABSTRACT),
    ];
    for (current, named, of, name, expected) in cases {
        assert!(rt; special_of(&classes, current, named, of, name) == expected);
    }
    Ok(())
}

/// Interfaces 200 deep and 2 wide: a search that went along each path would never end.
fn diamonds(alloc: Global) -> Result<String, Fail> {
    let mut text = format!(in alloc;
        "class java/lang/Object\ninterface I0\nmethod m ()V\nreturn\nend\ninterface J0\nfield static f I\n"
    )?;
    for k in 1..200u32 {
        let below = k - 1;
        let more = format!(in alloc;
            "interface I{k} implements I{below} J{below}\ninterface J{k} implements J{below} I{below}\n"
        )?;
        text.push_str(more.as_str())?;
    }
    text.push_str("class C implements I199 J199\nclass D extends C implements J199 I199\n")?;
    Ok(text)
}

#[test]
fn deep_diamonds(rt: HostRuntime) -> Result<(), Fail> {
    let alloc = rt.alloc();
    let text = diamonds(alloc)?;
    let Some(classes) = closed(alloc, text.as_bytes())? else {
        assert!(rt; false);
        return Ok(());
    };
    let no_method = LinkError::NoSuchMethod.word();
    let no_field = LinkError::NoSuchField.word();
    let cases: [(Ask, &[u8], &[u8], &[u8]); 6] = [
        (Ask::Method, b"D", b"m", b"I0"),
        (Ask::Method, b"D", b"n", no_method),
        (Ask::InterfaceMethod, b"J199", b"m", b"I0"),
        (Ask::Field, b"D", b"f", b"J0"),
        (Ask::Field, b"I199", b"f", b"J0"),
        (Ask::Field, b"D", b"g", no_field),
    ];
    for (ask, class, name, expected) in cases {
        assert!(rt; resolved(&classes, ask, class, name) == expected);
    }
    assert!(rt; selected(&classes, b"D", b"I0", b"m", Invoke::Virtual) == b"I0".as_slice());
    assert!(rt; selected(&classes, b"D", b"I0", b"m", Invoke::Interface) == b"I0".as_slice());
    Ok(())
}
