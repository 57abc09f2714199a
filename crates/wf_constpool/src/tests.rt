use super::*;
use std::alloc::AllocError;
use std::process::Abort;
use std::test::Fail;
use wf_base::Items;
use wf_bytes::{Cursor, Why};
use wf_data::PoolEntry;

/// A pool with each tag once: its constants stand at the places 1 to 18.
const EACH: &[u8] = b"\
    \0\x13\
    \x01\0\x02\xc3\xa9\
    \x03\xff\xff\xff\xfe\
    \x04\x3f\x80\0\0\
    \x05\xff\xff\xff\xff\xff\xff\xff\xfd\
    \x06\x40\0\0\0\0\0\0\0\
    \x07\0\x01\
    \x08\0\x01\
    \x09\0\x08\0\x0d\
    \x0a\0\x08\0\x0d\
    \x0b\0\x08\0\x0d\
    \x0c\0\x01\0\x01\
    \x0f\x06\0\x63\
    \x10\0\x64\
    \x12\0\x65\0\x66\
    \x01\0\0\
    \x07\0\x11";

fn read(rt: &(impl Abort + AllocGlobal), bytes: &[u8]) -> Result<Items<PoolEntry>, ClassFault> {
    assert!(rt; bytes.len() < 1000);
    read_pool(rt.alloc(), &mut Cursor::new(bytes))
}

#[test]
fn each_tag(rt: HostRuntime) -> Result<(), Fail> {
    let pool = read(&rt, EACH)?;
    let pool = pool.as_slice();
    assert_eq!(rt; pool.len(), 19);
    assert!(rt; matches!(pool[0], PoolEntry::Unusable));
    assert_eq!(rt; text_at(pool, 1), Some("é".as_bytes()));
    assert!(rt; matches!(pool[2], PoolEntry::Integer(-2)));
    assert!(rt; matches!(pool[3], PoolEntry::Float(0x3f800000)));
    assert!(rt; matches!(pool[4], PoolEntry::Long(-3)));
    assert!(rt; matches!(pool[5], PoolEntry::Unusable));
    assert!(rt; matches!(pool[6], PoolEntry::Double(0x4000000000000000)));
    assert!(rt; matches!(pool[7], PoolEntry::Unusable));
    assert!(rt; matches!(pool[8], PoolEntry::Class(1)));
    assert!(rt; matches!(pool[9], PoolEntry::Str(1)));
    assert!(rt; matches!(pool[10], PoolEntry::Field(8, 13)));
    assert!(rt; matches!(pool[11], PoolEntry::Method(8, 13)));
    assert!(rt; matches!(pool[12], PoolEntry::InterfaceMethod(8, 13)));
    assert!(rt; matches!(pool[13], PoolEntry::NameType(1, 1)));
    assert!(rt; matches!(pool[14], PoolEntry::Handle(6, 99)));
    assert!(rt; matches!(pool[15], PoolEntry::MethodKind(100)));
    assert!(rt; matches!(pool[16], PoolEntry::Dynamic(101, 102)));
    assert_eq!(rt; text_at(pool, 17), Some(b"".as_slice()));
    assert_eq!(rt; class_at(pool, 18), Some(b"".as_slice()));
    assert_eq!(rt; class_at(pool, 17), None);
    assert_eq!(rt; text_at(pool, 19), None);
    assert!(rt; method_at(pool, 11).is_some());
    assert!(rt; method_at(pool, 12).is_none());
    Ok(())
}

#[test]
fn first_faults(rt: HostRuntime) {
    let faults: [(&[u8], u32, Why); 20] = [
        (b"", 0, Why::Cut),
        (b"\0", 0, Why::Cut),
        (b"\0\0", 0, Why::Index),
        (b"\0\x02", 2, Why::Cut),
        (b"\0\x02\0", 2, Why::Tag),
        (b"\0\x02\x0d\0\0", 2, Why::Tag),
        (b"\0\x02\x11\0\0\0\0", 2, Why::Tag),
        (b"\0\x02\x13\0\0", 2, Why::Tag),
        (b"\0\x02\x05", 2, Why::Tag),
        (b"\0\x03\x06\0\0\0\0\0\0\0", 3, Why::Cut),
        (b"\0\x02\x01\0", 3, Why::Cut),
        (b"\0\x02\x01\0\x03a\0", 5, Why::Cut),
        (b"\0\x02\x01\0\x03a\0b", 6, Why::Utf8),
        (b"\0\x02\x01\0\x02a\xf0", 6, Why::Utf8),
        (b"\0\x02\x07\0\x01", 3, Why::Index),
        (b"\0\x03\x08\0\x02\x05", 5, Why::Tag),
        // A method of a class that names no text: the class is wrong, not the method.
        (
            b"\0\x04\x0a\0\x02\0\x03\x07\0\x01\x0c\0\0\0\0",
            8,
            Why::Index,
        ),
        (b"\0\x03\x0b\0\x01\0\x02\x0c\0\0\0\0", 3, Why::Index),
        (b"\0\x04\x09\0\x02\0\x02\x07\0\x03\x01\0\0", 5, Why::Index),
        (b"\0\x03\x0c\0\x02\0\x01\x01\0\0", 5, Why::Index),
    ];
    for (bytes, place, word) in faults {
        let is_it = match read(&rt, bytes) {
            Err(ClassFault::Bad { offset, why }) => offset == place && why == word,
            _ => false,
        };
        assert!(rt; is_it, "{place} {word:?}");
    }
}

/// A count of 65535 takes no memory for constants that aren't there.
#[test]
fn a_count_alone(rt: HostRuntime) -> Result<(), AllocError> {
    let result = read(&rt, b"\xff\xff\x03\0\0\0\0");
    assert!(rt;
        matches!(
            result,
            Err(ClassFault::Bad {
                offset: 7,
                why: Why::Cut
            })
        )
    );
    Ok(())
}
