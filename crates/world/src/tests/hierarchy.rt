//! Classes that are written as listings, closed.

ghost use Rattle.std.specs.Prelude.{◌≡◌, false, OnOk, length, ◌≤◌};
ghost use Rattle.wf_classes.specs.Gathering.{IsNew};

use super::listings::{OBJECT, classes_of};
use std::alloc::{AllocError, Global};
use std::test::Fail;
use wf_base::ClassId;
use wf_classes::{Classes, CloseFault, GatheredClasses};
use wf_classfile::{read_class, write_class};
use wf_data::ClassInfo;

/// What `javac --release 8 -g:none` makes of
///
/// ```java
/// interface Shape { int area(); }
/// interface Round extends Shape { }
/// interface Named { String name(); }
/// abstract class Base implements Shape { }
/// class Circle extends Base implements Round, Cloneable { public int area() { return 3; } }
/// final class Ring extends Circle implements Named, Round { public String name() { return null; } }
/// ```
const COMPILED: [&[u8]; 6] = [
    b"\xca\xfe\xba\xbe\x00\x00\x004\x00\x07\x07\x00\x02\x01\x00\x05Shape\x07\x00\x04\x01\x00\x10java/lang/Object\x01\x00\x04area\x01\x00\x03()I\x06\x00\x00\x01\x00\x03\x00\x00\x00\x00\x00\x01\x04\x01\x00\x05\x00\x06\x00\x00\x00\x00",
    b"\xca\xfe\xba\xbe\x00\x00\x004\x00\x07\x07\x00\x02\x01\x00\x05Round\x07\x00\x04\x01\x00\x10java/lang/Object\x07\x00\x06\x01\x00\x05Shape\x06\x00\x00\x01\x00\x03\x00\x01\x00\x05\x00\x00\x00\x00\x00\x00",
    b"\xca\xfe\xba\xbe\x00\x00\x004\x00\x07\x07\x00\x02\x01\x00\x05Named\x07\x00\x04\x01\x00\x10java/lang/Object\x01\x00\x04name\x01\x00\x14()Ljava/lang/String;\x06\x00\x00\x01\x00\x03\x00\x00\x00\x00\x00\x01\x04\x01\x00\x05\x00\x06\x00\x00\x00\x00",
    b"\xca\xfe\xba\xbe\x00\x00\x004\x00\x0c\x0a\x00\x02\x00\x03\x07\x00\x04\x0c\x00\x05\x00\x06\x01\x00\x10java/lang/Object\x01\x00\x06<init>\x01\x00\x03()V\x07\x00\x08\x01\x00\x04Base\x07\x00\x0a\x01\x00\x05Shape\x01\x00\x04Code\x04 \x00\x07\x00\x02\x00\x01\x00\x09\x00\x00\x00\x01\x00\x00\x00\x05\x00\x06\x00\x01\x00\x0b\x00\x00\x00\x11\x00\x01\x00\x01\x00\x00\x00\x05*\xb7\x00\x01\xb1\x00\x00\x00\x00\x00\x00",
    b"\xca\xfe\xba\xbe\x00\x00\x004\x00\x10\x0a\x00\x02\x00\x03\x07\x00\x04\x0c\x00\x05\x00\x06\x01\x00\x04Base\x01\x00\x06<init>\x01\x00\x03()V\x07\x00\x08\x01\x00\x06Circle\x07\x00\x0a\x01\x00\x05Round\x07\x00\x0c\x01\x00\x13java/lang/Cloneable\x01\x00\x04Code\x01\x00\x04area\x01\x00\x03()I\x00 \x00\x07\x00\x02\x00\x02\x00\x09\x00\x0b\x00\x00\x00\x02\x00\x00\x00\x05\x00\x06\x00\x01\x00\x0d\x00\x00\x00\x11\x00\x01\x00\x01\x00\x00\x00\x05*\xb7\x00\x01\xb1\x00\x00\x00\x00\x00\x01\x00\x0e\x00\x0f\x00\x01\x00\x0d\x00\x00\x00\x0e\x00\x01\x00\x01\x00\x00\x00\x02\x06\xac\x00\x00\x00\x00\x00\x00",
    b"\xca\xfe\xba\xbe\x00\x00\x004\x00\x10\x0a\x00\x02\x00\x03\x07\x00\x04\x0c\x00\x05\x00\x06\x01\x00\x06Circle\x01\x00\x06<init>\x01\x00\x03()V\x07\x00\x08\x01\x00\x04Ring\x07\x00\x0a\x01\x00\x05Named\x07\x00\x0c\x01\x00\x05Round\x01\x00\x04Code\x01\x00\x04name\x01\x00\x14()Ljava/lang/String;\x000\x00\x07\x00\x02\x00\x02\x00\x09\x00\x0b\x00\x00\x00\x02\x00\x00\x00\x05\x00\x06\x00\x01\x00\x0d\x00\x00\x00\x11\x00\x01\x00\x01\x00\x00\x00\x05*\xb7\x00\x01\xb1\x00\x00\x00\x00\x00\x01\x00\x0e\x00\x0f\x00\x01\x00\x0d\x00\x00\x00\x0e\x00\x01\x00\x01\x00\x00\x00\x02\x01\xb0\x00\x00\x00\x00\x00\x00",
];

/// Whether one of the classes has the name.
fn is_named(classes: &[ClassInfo], name: &[u8]) -> bool
    ensures { result ≡ false → IsNew classes.now name.now }
{
    for class in classes {
        if class.name.as_slice() == name {
            return true;
        }
    }
    false
}

/// Reads the class of a file, and adds it.
fn gather(alloc: Global, gathered: &mut GatheredClasses, bytes: &[u8]) -> Result<(), Fail> {
    if bytes.len() > gathered.left() as usize || gathered.list().len() >= 65536 {
        return Err(Fail::from(AllocError));
    }
    let class = read_class(alloc, bytes)?;
    if is_named(gathered.list().as_slice(), class.name.as_slice()) {
        return Err(Fail::from(AllocError));
    }
    Ok(gathered.add(bytes, class)?)
}

/// The classes of a listing, each written and read again.
fn gathered(alloc: Global, listing: &str) -> Result<GatheredClasses, Fail> {
    let mut gathered = GatheredClasses::new(alloc);
    for class in classes_of(alloc, listing)?.as_slice() {
        gather(alloc, &mut gathered, write_class(alloc, class)?.as_slice())?;
    }
    Ok(gathered)
}

/// The closed classes of `java/lang/Object` and a listing.
fn closed_with_object(alloc: Global, listing: &str) -> Result<Classes, Fail> {
    let mut text = String::from_str(alloc, OBJECT)?;
    text.push_str(listing)?;
    Ok(gathered(alloc, text.as_str())?.close(alloc)?)
}

/// The names of the classes in class order, each followed by a space.
fn names_in(alloc: Global, classes: &Classes) -> Result<Vec<u8>, AllocError> {
    let mut names = Vec::new(alloc);
    for class in classes.list().as_slice() {
        names.extend_from_slice(class.name.as_slice())?;
        names.push(b' ')?;
    }
    Ok(names)
}

/// Classes that name themselves, each other, nothing that is there, or what is of the wrong kind, and those below
/// them, aren't loadable. The others stand in the order of the bytes of their names.
#[test]
fn what_is_loadable(rt: HostRuntime) -> Result<(), Fail> {
    let cases = [
        (
            "class A\nclass B extends A\ninterface I\nclass C extends B implements I\n",
            "A B C I java/lang/Object ",
        ),
        (
            "class zz\nclass A/B\nclass AB\nclass A\n",
            "A A/B AB java/lang/Object zz ",
        ),
        (
            "class S extends S\nclass T extends S\nclass U\n",
            "U java/lang/Object ",
        ),
        (
            "class A extends B\nclass B extends A\nclass C extends A\n",
            "java/lang/Object ",
        ),
        (
            "interface I implements J\ninterface J implements I\nclass C implements I\n",
            "java/lang/Object ",
        ),
        (
            "class A extends Missing\nclass B extends A\nclass C implements Missing\n",
            "java/lang/Object ",
        ),
        (
            "interface I\nclass A extends I\nclass B extends A\n",
            "I java/lang/Object ",
        ),
        (
            "class K\nclass A implements K\nclass B extends A\n",
            "K java/lang/Object ",
        ),
    ];
    for (listing, names) in cases {
        let classes = closed_with_object(rt.alloc(), listing)?;
        let found = names_in(rt.alloc(), &classes)?;
        assert_eq!(rt; found.as_slice(), names.as_bytes());
    }
    Ok(())
}

/// Without `java/lang/Object`, or where that is an interface, nothing is loadable.
#[test]
fn object_has_to_be_there(rt: HostRuntime) -> Result<(), Fail> {
    match gathered(rt.alloc(), "class A\nclass B extends A\n")?.close(rt.alloc()) {
        Err(CloseFault::NoObject) => {}
        _ => assert!(rt; false),
    }
    Ok(())
}

/// The number of the method that the named class itself declares.
fn method_number(classes: &Classes, class: &[u8], name: &[u8], desc: &[u8]) -> Option<u32> {
    let class = classes.find(class)?;
    if class.0 as usize >= classes.list().len() {
        return None;
    }
    let method = classes.find_method(class, name, desc)?;
    Some(method.0)
}

/// The number of the field that the named class itself declares.
fn field_number(classes: &Classes, class: &[u8], name: &[u8], desc: &[u8]) -> Option<u32> {
    let class = classes.find(class)?;
    if class.0 as usize >= classes.list().len() {
        return None;
    }
    let field = classes.find_field(class, name, desc)?;
    Some(field.0)
}

/// Members are numbered by class, then name, then descriptor. What a class inherits isn't its own.
#[test]
fn numbers_of_members(rt: HostRuntime) -> Result<(), Fail> {
    let classes = closed_with_object(
        rt.alloc(),
        "
        abstract B extends A
        field static b I
        field static a J
        field a I
        method abstract m ()I
        method abstract m (I)V
        method abstract k ()V
        abstract A
        field z I
        method abstract m ()V
    ",
    )?;
    assert_eq!(rt; classes.methods(), 5);
    assert_eq!(rt; classes.fields(), 4);
    let methods: [(&[u8], &[u8], &[u8], Option<u32>); 7] = [
        (b"A", b"m", b"()V", Some(0)),
        (b"B", b"k", b"()V", Some(1)),
        (b"B", b"m", b"()I", Some(2)),
        (b"B", b"m", b"(I)V", Some(3)),
        (b"java/lang/Object", b"<init>", b"()V", Some(4)),
        (b"B", b"m", b"()V", None),
        (b"B", b"", b"()I", None),
    ];
    for (class, name, desc, number) in methods {
        assert_eq!(rt; method_number(&classes, class, name, desc), number);
    }
    let fields: [(&[u8], &[u8], &[u8], Option<u32>); 5] = [
        (b"A", b"z", b"I", Some(0)),
        (b"B", b"a", b"I", Some(1)),
        (b"B", b"a", b"J", Some(2)),
        (b"B", b"b", b"I", Some(3)),
        (b"B", b"z", b"I", None),
    ];
    for (class, name, desc, number) in fields {
        assert_eq!(rt; field_number(&classes, class, name, desc), number);
    }
    Ok(())
}

/// The name of the class with a number, and a space.
fn push_name(names: &mut Vec<u8>, classes: &Classes, class: ClassId) -> Result<(), AllocError> {
    match classes.list().as_slice().get(class.0 as usize) {
        Some(class) => {
            names.extend_from_slice(class.name.as_slice())?;
            names.push(b' ')?;
            Ok(())
        }
        None => Ok(()),
    }
}

/// The names of the superclass and of the interfaces of a class, each followed by a space.
fn names_above(alloc: Global, classes: &Classes, name: &[u8]) -> Result<Vec<u8>, AllocError> {
    let mut names = Vec::new(alloc);
    let Some(class) = classes.find(name) else {
        return Ok(names);
    };
    if class.0 as usize >= classes.list().len() {
        return Ok(names);
    }
    if let Some(superclass) = classes.superclass(class) {
        push_name(&mut names, classes, superclass)?;
    }
    for interface in classes.superinterfaces(class) {
        push_name(&mut names, classes, *interface)?;
    }
    Ok(names)
}

/// What `javap` prints behind `extends` and `implements` of the classes that javac makes, with
/// `java/lang/Object` where it prints none.
#[test]
fn classes_that_javac_makes(rt: HostRuntime) -> Result<(), Fail> {
    let mut text = String::from_str(rt.alloc(), OBJECT)?;
    text.push_str("interface java/lang/Cloneable\n")?;
    let mut gathered = gathered(rt.alloc(), text.as_str())?;
    for bytes in COMPILED {
        gather(rt.alloc(), &mut gathered, bytes)?;
    }
    let classes = gathered.close(rt.alloc())?;
    assert_eq!(rt; classes.list().len(), 8);
    let cases: [(&[u8], &[u8]); 7] = [
        (b"Shape", b"java/lang/Object "),
        (b"Round", b"java/lang/Object Shape "),
        (b"Named", b"java/lang/Object "),
        (b"Base", b"java/lang/Object Shape "),
        (b"Circle", b"Base Round java/lang/Cloneable "),
        (b"Ring", b"Circle Named Round "),
        (b"java/lang/Object", b""),
    ];
    for (name, above) in cases {
        let found = names_above(rt.alloc(), &classes, name)?;
        assert_eq!(rt; found.as_slice(), above);
    }
    Ok(())
}
