use super::names::{TWINS, told_apart};
use super::{BASE, KEPT, OBJECT, changed, not_looked_at};
use crate::{SpellFault, write_class, written_and_read};
use std::alloc::{AllocError, Global};
use std::process::Abort;
use std::test::Fail;
use wf_base::{Items, Text};
use wf_data::{ClassInfo, CodeInfo, FieldInfo, MethodInfo, PoolEntry};

/// KEPT without its StackMapTable and without the constant of the instance field: what its class is written as.
/// `javap -v` reads it.
const WRITTEN: &[u8] = b"\
    \xca\xfe\xba\xbe\0\0\04\0%\x0a\0\x02\0\x03\x07\0\x04\x0c\0\x05\0\x06\x01\0\x10java/lang/Object\
    \x01\0\x06<init>\x01\0\x03()V\x09\0\x08\0\x09\x07\0\x0a\x0c\0\x0b\0\x0c\x01\0\x06p/Kept\x01\0\
    \x04inst\x01\0\x01I\x07\0\x0e\x01\0\x1djava/lang/ArithmeticException\x07\0\x10\x01\0\x12java/l\
    ang/Runnable\x01\0\x0dConstantValue\x03\xff\xff\xff\xf9\x01\0\x01L\x01\0\x01J\x05\0\0\0\x01*\
    \x05\xf2\0\x01\0\x01S\x01\0\x12Ljava/lang/String;\x08\0\x1a\x01\0\x04text\x01\0\x01D\x06@\x04\
    \0\0\0\0\0\0\x03\0\0\0\x03\x01\0\x04Code\x01\0\x01f\x01\0\x17(J[Ljava/lang/String;)I\x01\0\x0d\
    StackMapTable\x01\0\x01g\x01\0\x01n\x04 \0\x08\0\x02\0\x01\0\x0f\0\x05\0\x18\0\x0c\0\x0c\0\x01\
    \0\x11\0\0\0\x02\0\x12\0\x18\0\x13\0\x14\0\x01\0\x11\0\0\0\x02\0\x15\0\x18\0\x17\0\x18\0\x01\0\
    \x11\0\0\0\x02\0\x19\0\x18\0\x1b\0\x1b\0\x01\0\x11\0\0\0\x02\0\x1c\0\x10\0\x0b\0\x0c\0\0\0\x04\
    \0\0\0\x05\0\x06\0\x01\0\x1f\0\0\0\x16\0\x02\0\x01\0\0\0\x0a*\xb7\0\x01*\x06\xb5\0\x07\xb1\0\0\
    \0\0\0\x08\0 \0!\0\x01\0\x1f\0\0\0\x1d\0\x03\0\x04\0\0\0\x09,\xbe\x1e\x88l\xacN\x04\xac\0\x01\
    \0\0\0\x05\0\x06\0\x0d\0\0\x04\0\0#\0\x06\0\0\x01\0\0$\0\x06\0\0\0\0";

fn same_entry(a: &PoolEntry, b: &PoolEntry) -> bool {
    match (a, b) {
        (PoolEntry::Unusable, PoolEntry::Unusable) => true,
        (PoolEntry::Utf8(x), PoolEntry::Utf8(y)) => x == y,
        (PoolEntry::Integer(x), PoolEntry::Integer(y)) => x == y,
        (PoolEntry::Float(x), PoolEntry::Float(y)) => x == y,
        (PoolEntry::Long(x), PoolEntry::Long(y)) => x == y,
        (PoolEntry::Double(x), PoolEntry::Double(y)) => x == y,
        (PoolEntry::Class(x), PoolEntry::Class(y)) => x == y,
        (PoolEntry::Str(x), PoolEntry::Str(y)) => x == y,
        (PoolEntry::Field(x, m), PoolEntry::Field(y, n)) => x == y && m == n,
        (PoolEntry::Method(x, m), PoolEntry::Method(y, n)) => x == y && m == n,
        (PoolEntry::InterfaceMethod(x, m), PoolEntry::InterfaceMethod(y, n)) => x == y && m == n,
        (PoolEntry::NameType(x, m), PoolEntry::NameType(y, n)) => x == y && m == n,
        (PoolEntry::Handle(x, m), PoolEntry::Handle(y, n)) => x == y && m == n,
        (PoolEntry::MethodKind(x), PoolEntry::MethodKind(y)) => x == y,
        (PoolEntry::Dynamic(x, m), PoolEntry::Dynamic(y, n)) => x == y && m == n,
        _ => false,
    }
}

fn same_pool(a: &[PoolEntry], b: &[PoolEntry]) -> bool {
    a.len() == b.len() && a.iter().zip(b).all(|pair| same_entry(pair.0, pair.1))
}

fn same_field(a: &FieldInfo, b: &FieldInfo) -> bool {
    a.name == b.name && a.desc == b.desc && a.flags == b.flags && a.constant == b.constant
}

fn same_code(a: &CodeInfo, b: &CodeInfo) -> bool {
    let (table, other) = (a.table.as_slice(), b.table.as_slice());
    a.max_stack == b.max_stack
        && a.max_locals == b.max_locals
        && a.code == b.code
        && table.len() == other.len()
        && table.iter().zip(other).all(|(x, y)| {
            x.start == y.start
                && x.end == y.end
                && x.target == y.target
                && x.catch_class == y.catch_class
        })
}

fn same_method(a: &MethodInfo, b: &MethodInfo) -> bool {
    let same_code = match (&a.code, &b.code) {
        (Some(x), Some(y)) => same_code(x, y),
        (None, None) => true,
        _ => false,
    };
    same_code && a.name == b.name && a.desc == b.desc && a.flags == b.flags
}

fn same_names(a: &[Text], b: &[Text]) -> bool {
    a.len() == b.len() && a.iter().zip(b).all(|(x, y)| x == y)
}

fn same_superclass(a: &ClassInfo, b: &ClassInfo) -> bool {
    match (&a.superclass, &b.superclass) {
        (Some(x), Some(y)) => x == y,
        (None, None) => true,
        _ => false,
    }
}

fn same_class(a: &ClassInfo, b: &ClassInfo) -> bool {
    let (fields, methods) = (a.fields.as_slice(), a.methods.as_slice());
    a.name == b.name
        && a.flags == b.flags
        && a.major == b.major
        && same_superclass(a, b)
        && same_names(a.interfaces.as_slice(), b.interfaces.as_slice())
        && same_pool(a.pool.as_slice(), b.pool.as_slice())
        && fields.len() == b.fields.len()
        && fields
            .iter()
            .zip(b.fields.as_slice())
            .all(|(x, y)| same_field(x, y))
        && methods.len() == b.methods.len()
        && methods
            .iter()
            .zip(b.methods.as_slice())
            .all(|(x, y)| same_method(x, y))
}

#[test]
fn the_smallest_class_is_its_file(rt: HostRuntime) -> Result<(), Fail> {
    let class = super::read(&rt, OBJECT)?;
    let text = write_class(rt.alloc(), &class)?;
    assert_eq!(rt; text.as_slice(), OBJECT);
    Ok(())
}

#[test]
fn what_is_dropped_of_a_file_of_javac(rt: HostRuntime) -> Result<(), Fail> {
    assert_eq!(rt; WRITTEN.len(), 484);
    let class = super::read(&rt, KEPT)?;
    let text = write_class(rt.alloc(), &class)?;
    assert_eq!(rt; text.as_slice(), WRITTEN);
    Ok(())
}

/// The classes of a file with these changes, written and read again, are the same.
fn check_written(
    rt: &(impl Abort + AllocGlobal),
    file: &[u8],
    changes: &[(&str, super::Change)],
) -> Result<(), Fail> {
    for (label, change) in changes {
        let bytes = changed(rt.alloc(), file, *change)?;
        let class = super::read(rt, &bytes)?;
        let text = write_class(rt.alloc(), &class)?;
        let again = super::read(rt, text.as_slice())?;
        assert!(rt; same_class(&class, &again), "{label}");
    }
    Ok(())
}

#[test]
fn classes_of_changed_files_are_written(rt: HostRuntime) -> Result<(), Fail> {
    check_written(&rt, BASE, &not_looked_at())?;
    check_written(&rt, TWINS, &told_apart())
}

#[test]
fn what_is_written_is_read_again(rt: HostRuntime) -> Result<(), Fail> {
    let files: [(&[u8], usize); 4] = [(OBJECT, 46), (BASE, 188), (KEPT, 484), (TWINS, 123)];
    for (file, size) in files {
        let class = super::read(&rt, file)?;
        let text = write_class(rt.alloc(), &class)?;
        assert_eq!(rt; text.as_slice().len(), size);
        let again = super::read(&rt, text.as_slice())?;
        assert!(rt; same_class(&class, &again));
        let twice = write_class(rt.alloc(), &again)?;
        assert_eq!(rt; text.as_slice(), twice.as_slice());
        let both = written_and_read(rt.alloc(), &class)?.ok_or("too long")?;
        assert!(rt; same_class(&class, &both));
    }
    Ok(())
}

/// What is changed of the class that BASE spells.
#[derive(Clone, Copy, Debug)]
enum Change {
    Nothing,
    ClassName,
    NoSuperclass,
    Major,
    MostInterfaces,
    TooManyInterfaces,
    FieldName,
    TwoFieldsAlike,
    ConstantOfALong,
    ConstantOfAnInstanceField,
    TwoMethodsAlike,
    EmptyCode,
    LongCode,
    MissingCode,
    NativeWithCode,
}

fn text_of(alloc: Global, byte: u8, size: usize) -> Result<Text, AllocError> {
    let mut bytes = Vec::new(alloc);
    bytes.resize(size, byte)?;
    Ok(Text::from_vec(bytes))
}

/// So many interfaces of one name, which stands at place 3 of the pool.
fn interfaces_of(alloc: Global, count: usize) -> Result<Items<Text>, AllocError> {
    let name = Text::shared(alloc, b"java/lang/Object")?;
    let mut interfaces = Vec::new(alloc);
    for _ in 0..count {
        interfaces.push(name.clone()?)?;
    }
    Ok(Items::from_vec(interfaces))
}

fn change_field(alloc: Global, field: &mut FieldInfo, change: Change) -> Result<(), AllocError> {
    match change {
        // Place 3 of the pool.
        Change::FieldName => field.name = Text::from_slice(alloc, b"java/lang/Object")?,
        Change::TwoFieldsAlike => {
            field.name = Text::from_slice(alloc, b"g")?;
            field.desc = Text::from_slice(alloc, b"J")?;
            field.constant = None;
        }
        Change::ConstantOfALong => field.constant = Some(14),
        Change::ConstantOfAnInstanceField => field.flags = 0,
        _ => {}
    }
    Ok(())
}

fn change_method(alloc: Global, method: &mut MethodInfo, change: Change) -> Result<(), AllocError> {
    match change {
        Change::TwoMethodsAlike => method.name = Text::from_slice(alloc, b"g")?,
        Change::MissingCode => method.code = None,
        Change::NativeWithCode => method.flags = 0x0108,
        _ => {}
    }
    if let Some(code) = &mut method.code {
        match change {
            Change::EmptyCode => code.code = Text::new(alloc),
            Change::LongCode => code.code = text_of(alloc, 0, 65536)?,
            _ => {}
        }
    }
    Ok(())
}

fn change_class(alloc: Global, class: &mut ClassInfo, change: Change) -> Result<(), AllocError> {
    match change {
        Change::ClassName => class.name = Text::from_slice(alloc, b"f")?,
        Change::NoSuperclass => class.superclass = None,
        Change::Major => class.major = 53,
        Change::MostInterfaces => class.interfaces = interfaces_of(alloc, 65535)?,
        Change::TooManyInterfaces => class.interfaces = interfaces_of(alloc, 65536)?,
        _ => {}
    }
    if let Some(field) = class.fields.as_mut_slice().get_mut(0) {
        change_field(alloc, field, change)?;
    }
    if let Some(method) = class.methods.as_mut_slice().get_mut(0) {
        change_method(alloc, method, change)?;
    }
    Ok(())
}

fn is_not_spellable(written: &Result<Text, SpellFault>) -> bool {
    match written {
        Err(SpellFault::NotSpellable) => true,
        _ => false,
    }
}

#[test]
fn classes_that_nothing_spells(rt: HostRuntime) -> Result<(), Fail> {
    let changes = [
        (Change::Nothing, false),
        (Change::ClassName, true),
        (Change::NoSuperclass, true),
        (Change::Major, true),
        (Change::MostInterfaces, false),
        (Change::TooManyInterfaces, true),
        (Change::FieldName, true),
        (Change::TwoFieldsAlike, true),
        (Change::ConstantOfALong, true),
        (Change::ConstantOfAnInstanceField, true),
        (Change::TwoMethodsAlike, true),
        (Change::EmptyCode, true),
        (Change::LongCode, true),
        (Change::MissingCode, true),
        (Change::NativeWithCode, true),
    ];
    for (change, refused) in changes {
        let mut class = super::read(&rt, BASE)?;
        change_class(rt.alloc(), &mut class, change)?;
        assert_eq!(rt;
            is_not_spellable(&write_class(rt.alloc(), &class)),
            refused,
            "{change:?}"
        );
    }
    Ok(())
}

/// One more constant at the end of the pool.
#[test]
fn constants_that_nothing_spells(rt: HostRuntime) -> Result<(), Fail> {
    let constants = [
        (
            "a text",
            PoolEntry::Utf8(Text::from_slice(rt.alloc(), b"a")?),
            false,
        ),
        (
            "a text of 65535 bytes",
            PoolEntry::Utf8(text_of(rt.alloc(), 1, 65535)?),
            false,
        ),
        (
            "a text of 65536 bytes",
            PoolEntry::Utf8(text_of(rt.alloc(), 1, 65536)?),
            true,
        ),
        (
            "a text with a zero",
            PoolEntry::Utf8(text_of(rt.alloc(), 0, 1)?),
            true,
        ),
        ("a place that no constant takes", PoolEntry::Unusable, true),
        ("a Long in one place", PoolEntry::Long(1), true),
        ("a class named by a class", PoolEntry::Class(2), true),
    ];
    for (label, constant, refused) in constants {
        let mut class = super::read(&rt, BASE)?;
        assert!(rt; class.pool.push(constant).is_ok());
        assert_eq!(rt;
            is_not_spellable(&write_class(rt.alloc(), &class)),
            refused,
            "{label}"
        );
    }
    Ok(())
}

/// Another constant at a place of the pool.
#[test]
fn pools_that_nothing_spells(rt: HostRuntime) -> Result<(), Fail> {
    let constants = [
        ("a constant at place 0", 0, PoolEntry::Integer(0), true),
        (
            "the class itself by another text",
            1,
            PoolEntry::Utf8(Text::from_slice(rt.alloc(), b"B")?),
            true,
        ),
        ("no Code", 10, PoolEntry::Integer(0), true),
        ("no ConstantValue", 11, PoolEntry::Integer(0), true),
        (
            "a Long in the place of an Integer",
            12,
            PoolEntry::Long(0),
            true,
        ),
        (
            "a constant at the second place of a Long",
            15,
            PoolEntry::Integer(0),
            true,
        ),
        ("another Double", 14, PoolEntry::Double(7), false),
    ];
    for (label, place, constant, refused) in constants {
        let mut class = super::read(&rt, BASE)?;
        if let Some(entry) = class.pool.as_mut_slice().get_mut(place) {
            *entry = constant;
        }
        assert_eq!(rt;
            is_not_spellable(&write_class(rt.alloc(), &class)),
            refused,
            "{label}"
        );
    }
    Ok(())
}
