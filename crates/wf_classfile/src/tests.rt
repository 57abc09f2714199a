mod names;
mod writing;

use super::*;
use std::alloc::{AllocError, Global};
use std::process::Abort;
use std::test::Fail;
use wf_bytes::Why;
use wf_constpool::ClassFault;
use wf_data::{ClassInfo, PoolEntry};

/// `java/lang/Object` with nothing in it. Its constants have the tags at 10 and 13.
const OBJECT: &[u8] = b"\
    \xca\xfe\xba\xbe\0\0\04\0\x03\x07\0\x02\x01\0\x10java/lang/Object\
    \0!\0\x01\0\0\0\0\0\0\0\0\0\0";

/// `public class A implements I` with `static int f = 7`, `long g`, `static void m()` and `native void g()`.
/// Its constants stand from 10 on, the class itself at 107, the fields at 117 and 133, the methods at 143
/// and 185, and an attribute at 195. The code of `m` has a handler and an attribute.
const BASE: &[u8] = b"\
    \xca\xfe\xba\xbe\0\0\04\0\x11\
    \x01\0\x01A\x07\0\x01\x01\0\x10java/lang/Object\x07\0\x03\x01\0\x01I\x07\0\x05\
    \x01\0\x01f\x01\0\x01m\x01\0\x03()V\x01\0\x04Code\x01\0\x0dConstantValue\
    \x03\0\0\0\x07\x01\0\x01J\x05\0\0\0\x01\0\0\0\0\x01\0\x01g\
    \0!\0\x02\0\x04\0\x01\0\x06\
    \0\x02\0\x09\0\x07\0\x05\0\x01\0\x0b\0\0\0\x02\0\x0c\
    \0\x01\0\x10\0\x0d\0\0\
    \0\x02\0\x09\0\x08\0\x09\0\x01\0\x0a\0\0\0\x1c\
    \0\x01\0\0\0\0\0\x01\xb1\0\x01\0\0\0\x01\0\0\0\0\0\x01\0\x01\0\0\0\x01\0\
    \x01\x01\0\x10\0\x09\0\0\
    \0\x01\0\x01\0\0\0\x02\0\0";

/// What `javac` 17 makes, by `-source 8 -target 8 -g:none`, of a class `p.Kept implements Runnable` with four static
/// constants, an instance field with one, a method with a handler, an abstract and a native one.
const KEPT: &[u8] = b"\
    \xca\xfe\xba\xbe\0\0\04\0%\x0a\0\x02\0\x03\x07\0\x04\x0c\0\x05\0\x06\x01\0\x10java/lang/Obje\
    ct\x01\0\x06<init>\x01\0\x03()V\x09\0\x08\0\x09\x07\0\x0a\x0c\0\x0b\0\x0c\x01\0\x06p/Kept\
    \x01\0\x04inst\x01\0\x01I\x07\0\x0e\x01\0\x1djava/lang/ArithmeticException\x07\0\x10\x01\0\
    \x12java/lang/Runnable\x01\0\x0dConstantValue\x03\xff\xff\xff\xf9\x01\0\x01L\x01\0\x01J\x05\
    \0\0\0\x01*\x05\xf2\0\x01\0\x01S\x01\0\x12Ljava/lang/String;\x08\0\x1a\x01\0\x04text\x01\0\
    \x01D\x06@\x04\0\0\0\0\0\0\x03\0\0\0\x03\x01\0\x04Code\x01\0\x01f\x01\0\x17(J[Ljava/lang/Str\
    ing;)I\x01\0\x0dStackMapTable\x01\0\x01g\x01\0\x01n\x04 \0\x08\0\x02\0\x01\0\x0f\0\x05\0\x18\
    \0\x0c\0\x0c\0\x01\0\x11\0\0\0\x02\0\x12\0\x18\0\x13\0\x14\0\x01\0\x11\0\0\0\x02\0\x15\0\x18\
    \0\x17\0\x18\0\x01\0\x11\0\0\0\x02\0\x19\0\x18\0\x1b\0\x1b\0\x01\0\x11\0\0\0\x02\0\x1c\0\x10\
    \0\x0b\0\x0c\0\x01\0\x11\0\0\0\x02\0\x1e\0\x04\0\0\0\x05\0\x06\0\x01\0\x1f\0\0\0\x16\0\x02\0\
    \x01\0\0\0\x0a*\xb7\0\x01*\x06\xb5\0\x07\xb1\0\0\0\0\0\x08\0 \0!\0\x01\0\x1f\0\0\0)\0\x03\0\
    \x04\0\0\0\x09,\xbe\x1e\x88l\xacN\x04\xac\0\x01\0\0\0\x05\0\x06\0\x0d\0\x01\0\x22\0\0\0\x06\
    \0\x01F\x07\0\x0d\x04\0\0#\0\x06\0\0\x01\0\0$\0\x06\0\0\0\0";

/// Some bytes of a file are others, it ends earlier, or more bytes stand somewhere in it.
#[derive(Clone, Copy)]
struct Change {
    bytes: &'static [(usize, u8)],
    end: usize,
    more: (usize, &'static [u8]),
}

const SAME: Change = Change {
    bytes: &[],
    end: usize::MAX,
    more: (0, b""),
};

fn with(bytes: &'static [(usize, u8)]) -> Change {
    Change { bytes, ..SAME }
}

fn cut_at(end: usize) -> Change {
    Change { end, ..SAME }
}

fn changed(alloc: Global, file: &[u8], change: Change) -> Result<Vec<u8>, AllocError> {
    let mut out = Vec::new(alloc);
    let (place, more) = change.more;
    for (i, byte) in file.iter().enumerate() {
        if i == place {
            out.extend_from_slice(more)?;
        }
        if i < change.end {
            out.push(
                change
                    .bytes
                    .iter()
                    .find(|b| b.0 == i)
                    .map_or(*byte, |b| b.1),
            )?;
        }
    }
    if place == file.len() {
        out.extend_from_slice(more)?;
    }
    Ok(out)
}

fn read(rt: &(impl Abort + AllocGlobal), bytes: &[u8]) -> Result<ClassInfo, ClassFault> {
    assert!(rt; bytes.len() < 1000);
    read_class(rt.alloc(), bytes)
}

fn is_bad(read: &Result<ClassInfo, ClassFault>, place: u32, word: Why) -> bool {
    match read {
        Err(ClassFault::Bad { offset, why }) => *offset == place && *why == word,
        _ => false,
    }
}

#[test]
fn the_smallest_file(rt: HostRuntime) -> Result<(), Fail> {
    assert_eq!(rt; OBJECT.len(), 46);
    let class = read(&rt, OBJECT)?;
    assert_eq!(rt; class.name.as_slice(), b"java/lang/Object".as_slice());
    assert!(rt; class.superclass.is_none());
    assert_eq!(rt; class.pool.len(), 3);
    let faults = [
        (cut_at(0), 0, Why::Cut),
        (cut_at(10), 10, Why::Cut),
        (cut_at(20), 16, Why::Cut),
        (cut_at(45), 44, Why::Cut),
        (
            Change {
                more: (46, b"\0"),
                ..SAME
            },
            46,
            Why::Trailing,
        ),
        (with(&[(16, 0)]), 16, Why::Utf8),
        (with(&[(13, 2)]), 13, Why::Tag),
        (with(&[(7, 0x35)]), 6, Why::Version),
        (with(&[(37, 1)]), 36, Why::Super),
        // No class, and an interface.
        (with(&[(37, 2)]), 36, Why::Index),
        (with(&[(32, 2)]), 36, Why::Super),
    ];
    for (change, place, why) in faults {
        let bytes = changed(rt.alloc(), OBJECT, change)?;
        assert!(rt; is_bad(&read(&rt, &bytes), place, why), "{place} {why:?}");
    }
    Ok(())
}

#[test]
fn faults_of_files_and_pools(rt: HostRuntime) -> Result<(), Fail> {
    let faults = [
        (cut_at(3), 0, Why::Cut),
        (cut_at(5), 4, Why::Cut),
        (cut_at(9), 8, Why::Cut),
        (cut_at(13), 13, Why::Cut),
        (cut_at(95), 93, Why::Cut),
        (cut_at(160), 157, Why::Cut),
        (cut_at(200), 197, Why::Cut),
        (cut_at(202), 201, Why::Cut),
        (with(&[(200, 3)]), 201, Why::Cut),
        (
            Change {
                more: (203, b"\0"),
                ..SAME
            },
            203,
            Why::Trailing,
        ),
        (with(&[(3, 0xbf)]), 0, Why::Magic),
        (with(&[(7, 44)]), 6, Why::Version),
        (with(&[(6, 1)]), 6, Why::Version),
        (with(&[(9, 0)]), 8, Why::Index),
        (with(&[(10, 2)]), 10, Why::Tag),
        // No second place is left for a Long.
        (with(&[(9, 15)]), 92, Why::Tag),
        (with(&[(22, 0xf0)]), 22, Why::Utf8),
        // A cut text comes before a wrong byte in it.
        (
            Change {
                end: 14,
                ..with(&[(12, 2), (13, 0)])
            },
            13,
            Why::Cut,
        ),
        // A class named by a class, and by the second place of a Long; the first one counts.
        (with(&[(16, 2)]), 15, Why::Index),
        (with(&[(38, 15)]), 37, Why::Index),
        (with(&[(16, 2), (38, 15)]), 15, Why::Index),
        // The places of the pool come behind all its items.
        (with(&[(16, 2), (101, 2)]), 101, Why::Tag),
    ];
    for (change, place, why) in faults {
        let bytes = changed(rt.alloc(), BASE, change)?;
        assert!(rt; is_bad(&read(&rt, &bytes), place, why), "{place} {why:?}");
    }
    Ok(())
}

#[test]
fn faults_behind_the_pool(rt: HostRuntime) -> Result<(), Fail> {
    let faults = [
        (with(&[(108, 1)]), 107, Why::Index),
        (with(&[(108, 0)]), 107, Why::Index),
        (with(&[(13, b'.')]), 107, Why::Name),
        (with(&[(110, 0)]), 109, Why::Super),
        (with(&[(110, 1)]), 109, Why::Index),
        (with(&[(105, 2), (106, 1), (110, 6)]), 109, Why::Super),
        (with(&[(114, 5)]), 113, Why::Index),
        (with(&[(120, 2)]), 119, Why::Index),
        (with(&[(49, b'/')]), 119, Why::Name),
        (with(&[(122, 2)]), 121, Why::Index),
        (with(&[(122, 7)]), 121, Why::Descriptor),
        (with(&[(122, 9)]), 121, Why::Descriptor),
        (with(&[(136, 7), (138, 5)]), 137, Why::Twice),
        (with(&[(126, 2)]), 125, Why::Index),
        (with(&[(130, 3)]), 127, Why::Length),
        (with(&[(132, 14)]), 131, Why::Constant),
        (with(&[(132, 0)]), 131, Why::Constant),
        (
            Change {
                bytes: &[(124, 2)],
                more: (133, b"\0\x0b\0\0\0\x02\0\x0c"),
                ..SAME
            },
            133,
            Why::Twice,
        ),
        (with(&[(146, 2)]), 145, Why::Index),
        (with(&[(53, b'<')]), 145, Why::Name),
        (with(&[(148, 5)]), 147, Why::Descriptor),
        (with(&[(188, 8)]), 189, Why::Twice),
        // A native method with a code, and another without.
        (with(&[(143, 1)]), 143, Why::Code),
        (with(&[(185, 0)]), 185, Why::Code),
        (with(&[(164, 0)]), 161, Why::Code),
        (with(&[(162, 1), (164, 0)]), 161, Why::Code),
        // The inside of a Code ends behind its length, in front of it, and in its handlers.
        (with(&[(156, 0x1b)]), 153, Why::Length),
        (with(&[(156, 0x1d)]), 153, Why::Length),
        (with(&[(167, 9)]), 153, Why::Length),
        (with(&[(179, 2)]), 178, Why::Index),
        (with(&[(156, 0x1d), (179, 2)]), 178, Why::Index),
        (with(&[(196, 2)]), 195, Why::Index),
    ];
    for (change, place, why) in faults {
        let bytes = changed(rt.alloc(), BASE, change)?;
        assert!(rt; is_bad(&read(&rt, &bytes), place, why), "{place} {why:?}");
    }
    Ok(())
}

/// Changes of BASE that leave it a class file.
fn not_looked_at() -> [(&'static str, Change); 6] {
    [
        ("as it is", SAME),
        ("the minor version", with(&[(4, 1), (5, 2)])),
        ("other flags", with(&[(105, 0x50)])),
        (
            "a ConstantValue of an instance field",
            with(&[(118, 1), (132, 1)]),
        ),
        ("a handler's places", with(&[(168, 9), (175, 9)])),
        ("a code's bytes", with(&[(165, 0xff)])),
    ]
}

#[test]
fn what_is_not_looked_at(rt: HostRuntime) -> Result<(), Fail> {
    for (label, change) in not_looked_at() {
        let bytes = changed(rt.alloc(), BASE, change)?;
        assert!(rt; read(&rt, &bytes).is_ok(), "{label}");
    }
    Ok(())
}

/// The parts are those that `javap -v` prints of the file.
#[test]
fn a_file_of_javac(rt: HostRuntime) -> Result<(), Fail> {
    assert_eq!(rt; KEPT.len(), 504);
    let class = read(&rt, KEPT)?;
    assert_eq!(rt; class.name.as_slice(), b"p/Kept".as_slice());
    assert_eq!(rt; class.flags, 0x0420);
    assert_eq!(rt; class.major, 52);
    assert_eq!(rt; class.pool.len(), 37);
    assert!(rt;
        matches!(&class.superclass, Some(name) if name.as_slice() == b"java/lang/Object".as_slice())
    );
    assert_eq!(rt; class.interfaces.len(), 1);
    for name in class.interfaces.as_slice() {
        assert_eq!(rt; name.as_slice(), b"java/lang/Runnable".as_slice());
    }
    let fields: [(&[u8], &[u8], u16, Option<u16>); 5] = [
        (b"I", b"I", 0x0018, Some(18)),
        (b"L", b"J", 0x0018, Some(21)),
        (b"S", b"Ljava/lang/String;", 0x0018, Some(25)),
        (b"D", b"D", 0x0018, Some(28)),
        (b"inst", b"I", 0x0010, None),
    ];
    assert_eq!(rt; class.fields.len(), fields.len());
    for (field, (name, desc, flags, constant)) in class.fields.as_slice().iter().zip(&fields) {
        assert_eq!(rt; field.name.as_slice(), *name);
        assert_eq!(rt; field.desc.as_slice(), *desc);
        assert_eq!(rt; field.flags, *flags);
        assert_eq!(rt; field.constant, *constant);
    }
    Ok(())
}

#[test]
fn constants_of_javac(rt: HostRuntime) -> Result<(), Fail> {
    let class = read(&rt, KEPT)?;
    let pool = class.pool.as_slice();
    assert_eq!(rt; pool.len(), 37);
    assert!(rt; matches!(pool[0], PoolEntry::Unusable));
    assert!(rt; matches!(pool[1], PoolEntry::Method(2, 3)));
    assert!(rt; matches!(pool[2], PoolEntry::Class(4)));
    assert!(rt; matches!(pool[3], PoolEntry::NameType(5, 6)));
    assert!(rt; matches!(pool[7], PoolEntry::Field(8, 9)));
    assert!(rt; matches!(pool[18], PoolEntry::Integer(-7)));
    assert!(rt; matches!(pool[21], PoolEntry::Long(5000000000)));
    assert!(rt; matches!(pool[22], PoolEntry::Unusable));
    assert!(rt; matches!(pool[25], PoolEntry::Str(26)));
    assert!(rt; matches!(pool[28], PoolEntry::Double(0x4004000000000000)));
    Ok(())
}

#[test]
fn methods_of_javac(rt: HostRuntime) -> Result<(), Fail> {
    let class = read(&rt, KEPT)?;
    let methods: [(&[u8], &[u8], u16, Option<(u16, u16, usize)>); 4] = [
        (b"<init>", b"()V", 0x0000, Some((2, 1, 10))),
        (b"f", b"(J[Ljava/lang/String;)I", 0x0008, Some((3, 4, 9))),
        (b"g", b"()V", 0x0400, None),
        (b"n", b"()V", 0x0100, None),
    ];
    assert_eq!(rt; class.methods.len(), methods.len());
    for (method, (name, desc, flags, code)) in class.methods.as_slice().iter().zip(&methods) {
        assert_eq!(rt; method.name.as_slice(), *name);
        assert_eq!(rt; method.desc.as_slice(), *desc);
        assert_eq!(rt; method.flags, *flags);
        let found = match &method.code {
            Some(code) => Some((code.max_stack, code.max_locals, code.code.as_slice().len())),
            None => None,
        };
        assert_eq!(rt; found, *code);
        if let Some(code) = &method.code {
            for handler in code.table.as_slice() {
                assert_eq!(rt; handler.start, 0);
                assert_eq!(rt; handler.end, 5);
                assert_eq!(rt; handler.target, 6);
                assert_eq!(rt; handler.catch_class, 13);
            }
        }
    }
    Ok(())
}
