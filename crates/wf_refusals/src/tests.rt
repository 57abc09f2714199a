use crate::{BodyFault, first_refusal, instruction_refusal, listed_refusal, read_body};
use std::alloc::{AllocError, Global};
use std::test::Fail;
use wf_base::{Items, Text};
use wf_data::{Instr, Placed, PoolEntry, What};

fn instr(alloc: Global, op: u8, a: i32) -> Instr {
    Instr {
        op,
        a,
        b: 0,
        cases: Items::new(alloc),
    }
}

/// Descriptors stand at 1 to 4, their names and types at 5 to 8, members at 9 to 13, constants from 14 on.
fn pool(alloc: Global) -> Result<Vec<PoolEntry>, AllocError> {
    let mut pool = Vec::new(alloc);
    pool.push(PoolEntry::Unusable)?;
    pool.push(PoolEntry::Utf8(Text::from_slice(alloc, b"F")?))?;
    pool.push(PoolEntry::Utf8(Text::from_slice(alloc, b"[D")?))?;
    pool.push(PoolEntry::Utf8(Text::from_slice(alloc, b"(ID)V")?))?;
    pool.push(PoolEntry::Utf8(Text::from_slice(alloc, b"([FLDF;)V")?))?;
    pool.push(PoolEntry::NameType(1, 1))?;
    pool.push(PoolEntry::NameType(1, 2))?;
    pool.push(PoolEntry::NameType(1, 3))?;
    pool.push(PoolEntry::NameType(1, 4))?;
    pool.push(PoolEntry::Field(0, 5))?;
    pool.push(PoolEntry::Field(0, 6))?;
    pool.push(PoolEntry::Method(0, 7))?;
    pool.push(PoolEntry::Method(0, 8))?;
    pool.push(PoolEntry::InterfaceMethod(0, 7))?;
    pool.push(PoolEntry::Float(0))?;
    pool.push(PoolEntry::Double(0))?;
    pool.push(PoolEntry::Unusable)?;
    pool.push(PoolEntry::Handle(1, 1))?;
    pool.push(PoolEntry::MethodKind(1))?;
    pool.push(PoolEntry::Integer(5))?;
    Ok(pool)
}

/// By opcode, or by what is named; an entry of another sort than the instruction needs doesn't count.
#[test]
fn instructions(rt: HostRuntime) -> Result<(), Fail> {
    let pool = pool(rt.alloc())?;
    let float = Some(What::Float);
    let cases = [
        (0x00, 0, None),
        (0x0B, 0, float),
        (0x62, 0, float),
        (0xBA, 1, Some(What::InvokeDynamic)),
        (0xA8, 0, Some(What::Jsr)),
        (0xA9, 0, Some(What::Jsr)),
        (0x12, 14, float),
        (0x12, 15, float),
        (0x12, 17, Some(What::MethodHandle)),
        (0x12, 18, Some(What::MethodHandle)),
        (0x12, 19, None),
        (0x14, 15, float),
        (0x14, 17, None),
        (0xB2, 9, float),
        (0xB5, 9, float),
        (0xB4, 10, None),
        (0xB4, 11, None),
        (0xB6, 11, float),
        (0xB8, 11, float),
        (0xB6, 12, None),
        (0xB6, 13, None),
        (0xB9, 13, float),
        (0xB6, 40, None),
        (0x10, -5, None),
    ];
    for (op, a, expected) in cases {
        let refusal = instruction_refusal(rt.alloc(), pool.as_slice(), &instr(rt.alloc(), op, a))?;
        assert_eq!(rt; refusal, expected, "opcode {op} with {a}");
    }
    Ok(())
}

/// The first instruction that is refused, wherever it stands.
#[test]
fn bodies(rt: HostRuntime) -> Result<(), Fail> {
    let mut code = Vec::new(rt.alloc());
    code.push(Placed {
        pc: 0,
        instr: instr(rt.alloc(), 0xB1, 0),
    })?;
    let none = first_refusal(rt.alloc(), &[], code.as_slice())?;
    assert!(rt; none.is_none());
    code.push(Placed {
        pc: 1,
        instr: instr(rt.alloc(), 0xA9, 1),
    })?;
    code.push(Placed {
        pc: 3,
        instr: instr(rt.alloc(), 0x0B, 0),
    })?;
    match first_refusal(rt.alloc(), &[], code.as_slice())? {
        Some(refusal) => {
            assert_eq!(rt; refusal.pc, 1);
            assert_eq!(rt; refusal.what, What::Jsr);
        }
        None => assert!(rt; false),
    }
    Ok(())
}

#[test]
fn names(rt: HostRuntime) {
    let cases = [
        (
            b"java/lang/reflect/Method".as_slice(),
            b"invoke".as_slice(),
            Some(What::Reflection),
        ),
        (
            b"java/lang/invoke/a/B".as_slice(),
            b"m".as_slice(),
            Some(What::Reflection),
        ),
        (b"java/lang/reflection".as_slice(), b"m".as_slice(), None),
        (
            b"java/lang/Class".as_slice(),
            b"forName".as_slice(),
            Some(What::Reflection),
        ),
        (
            b"java/lang/Class".as_slice(),
            b"newInstance".as_slice(),
            Some(What::Reflection),
        ),
        (b"java/lang/Class".as_slice(), b"getName".as_slice(), None),
        (b"a/Class".as_slice(), b"forName".as_slice(), None),
        (
            b"java/lang/Thread".as_slice(),
            b"start".as_slice(),
            Some(What::Thread),
        ),
        (b"java/lang/Thread".as_slice(), b"run".as_slice(), None),
    ];
    for (class, name, expected) in cases {
        assert_eq!(rt; listed_refusal(class, name), expected);
    }
}

/// A body is refused for bytes that are no instruction, for one that is refused, or for nothing.
#[test]
fn readable_bodies(rt: HostRuntime) -> Result<(), Fail> {
    match read_body(rt.alloc(), &[], &[0xB1]) {
        Ok(code) => assert_eq!(rt; code.len(), 1),
        Err(_) => assert!(rt; false),
    }
    match read_body(rt.alloc(), &[], &[0xA9, 0x01, 0xB2]) {
        Err(BodyFault::Refused(refusal)) => {
            assert_eq!(rt; refusal.pc, 2);
            assert_eq!(rt; refusal.what, What::Code);
        }
        _ => assert!(rt; false),
    }
    match read_body(rt.alloc(), &[], &[0x00, 0xA9, 0x01, 0xB1]) {
        Err(BodyFault::Refused(refusal)) => {
            assert_eq!(rt; refusal.pc, 1);
            assert_eq!(rt; refusal.what, What::Jsr);
        }
        _ => assert!(rt; false),
    }
    Ok(())
}
