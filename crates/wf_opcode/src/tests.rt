use super::*;
use std::alloc::{AllocError, Global};
use std::process::Abort;
use std::test::Fail;
use wf_data::{Case, What};

mod table;

use table::{ARITHMETIC, CONSTANTS, CONTROL, LOADS, Listed, OBJECTS, STACK, STORES};

/// The place, the opcode, `a` and `b` of an instruction.
type Line = (u16, u8, i32, i32);

/// What a code decodes to, its cases aside.
fn lines(rt: &(impl Abort + AllocGlobal), code: &[u8]) -> Result<Vec<Line>, DecodeFault> {
    assert!(rt; code.len() <= 65535);
    let mut lines = Vec::new(rt.alloc());
    for placed in decode(rt.alloc(), code)?.as_slice() {
        let instr = &placed.instr;
        lines.push((placed.pc, instr.op, instr.a, instr.b))?;
    }
    Ok(lines)
}

/// The cases of the last instruction of a code.
fn last_cases(rt: &(impl Abort + AllocGlobal), code: &[u8]) -> Result<Vec<Case>, DecodeFault> {
    assert!(rt; code.len() <= 65535);
    let mut cases = Vec::new(rt.alloc());
    if let Some(placed) = decode(rt.alloc(), code)?.as_slice().last() {
        for case in placed.instr.cases.as_slice() {
            cases.push(*case)?;
        }
    }
    Ok(cases)
}

/// The place of the fault of a code.
fn bad_place(rt: &(impl Abort + AllocGlobal), code: &[u8]) -> Option<u16> {
    assert!(rt; code.len() <= 65535);
    match decode(rt.alloc(), code) {
        Err(DecodeFault::BadCode { pc }) => Some(pc),
        _ => None,
    }
}

/// Sees that these are the rows of the opcodes from the first on.
fn are_listed(
    rt: &(impl Abort + AllocGlobal),
    first: u8,
    rows: &[Listed],
) -> Result<(), DecodeFault> {
    let mut opcode = first;
    for (bytes, op, a, b, refused) in rows {
        assert_eq!(rt; bytes.first().copied(), Some(opcode));
        let found = lines(rt, bytes)?;
        let wanted = [(0, *op, *a, *b)];
        assert_eq!(rt; found.as_slice(), wanted.as_slice(), "opcode {opcode}");
        assert_eq!(rt; last_cases(rt, bytes)?.is_empty(), *op != 0xAB);
        assert_eq!(rt; refused_as(opcode), *refused, "opcode {opcode}");
        for end in 1..bytes.len() {
            assert_eq!(rt; bad_place(rt, &bytes[..end]), Some(0), "opcode {opcode}");
        }
        opcode = opcode.wrapping_add(1);
    }
    Ok(())
}

#[test]
fn opcodes_of_constants(rt: HostRuntime) -> Result<(), Fail> {
    are_listed(&rt, 0x00, &CONSTANTS)?;
    Ok(())
}

#[test]
fn opcodes_of_loads(rt: HostRuntime) -> Result<(), Fail> {
    are_listed(&rt, 0x15, &LOADS)?;
    Ok(())
}

#[test]
fn opcodes_of_stores(rt: HostRuntime) -> Result<(), Fail> {
    are_listed(&rt, 0x36, &STORES)?;
    Ok(())
}

#[test]
fn opcodes_of_the_stack(rt: HostRuntime) -> Result<(), Fail> {
    are_listed(&rt, 0x57, &STACK)?;
    Ok(())
}

#[test]
fn opcodes_of_arithmetic(rt: HostRuntime) -> Result<(), Fail> {
    are_listed(&rt, 0x78, &ARITHMETIC)?;
    Ok(())
}

#[test]
fn opcodes_of_jumps(rt: HostRuntime) -> Result<(), Fail> {
    are_listed(&rt, 0x99, &CONTROL)?;
    Ok(())
}

#[test]
fn opcodes_of_objects(rt: HostRuntime) -> Result<(), Fail> {
    are_listed(&rt, 0xB2, &OBJECTS)?;
    Ok(())
}

#[test]
fn unlisted_opcodes(rt: HostRuntime) {
    for opcode in 0xCA..=0xFF {
        assert_eq!(rt; bad_place(&rt, &[opcode]), Some(0), "opcode {opcode}");
        assert_eq!(rt; refused_as(opcode), None, "opcode {opcode}");
    }
}

/// Codes of `javac` 17 by `-source 8 -target 8 -g:none`, with the places as `javap -c` prints them.
#[test]
fn codes_of_javac(rt: HostRuntime) -> Result<(), Fail> {
    // switch (k) { case 3: return 7; case 4: return 8; case 6: return 9; default: return 0; }
    let dense: &[u8] =
        b"\x1a\xaa\x00\x00\x00\x00\x00\x28\x00\x00\x00\x03\x00\x00\x00\x06\x00\x00\x00\x1f\x00\x00\x00\x22\x00\x00\x00\x28\x00\x00\x00\x25\x10\x07\xac\x10\x08\xac\x10\x09\xac\x03\xac";
    let dense_lines: &[Line] = &[
        (0, 0x15, 0, 0),
        (1, 0xAB, 41, 0),
        (32, 0x10, 7, 0),
        (34, 0xAC, 0, 0),
        (35, 0x10, 8, 0),
        (37, 0xAC, 0, 0),
        (38, 0x10, 9, 0),
        (40, 0xAC, 0, 0),
        (41, 0x10, 0, 0),
        (42, 0xAC, 0, 0),
    ];
    // int r = 0; switch (k) { case -5: r = 1; break; case 1000: r = 2; break; case 70000: r = 3; } return r;
    let sparse: &[u8] =
        b"\x03\x3c\x1a\xab\x00\x00\x00\x2d\x00\x00\x00\x03\xff\xff\xff\xfb\x00\x00\x00\x21\x00\x00\x03\xe8\x00\x00\x00\x26\x00\x01\x11\x70\x00\x00\x00\x2b\x04\x3c\xa7\x00\x0a\x05\x3c\xa7\x00\x05\x06\x3c\x1b\xac";
    let sparse_lines: &[Line] = &[
        (0, 0x10, 0, 0),
        (1, 0x36, 1, 0),
        (2, 0x15, 0, 0),
        (3, 0xAB, 48, 0),
        (36, 0x10, 1, 0),
        (37, 0x36, 1, 0),
        (38, 0xA7, 48, 0),
        (41, 0x10, 2, 0),
        (42, 0x36, 1, 0),
        (43, 0xA7, 48, 0),
        (46, 0x10, 3, 0),
        (47, 0x36, 1, 0),
        (48, 0x15, 1, 0),
        (49, 0xAC, 0, 0),
    ];
    // long s = 0; for (int i = 0; i < n; i++) s += i; for (int i = 0; i < 300; i += 200) s = -s; return s;
    let sum: &[u8] =
        b"\x09\x40\x03\x3e\x1d\x1a\xa2\x00\x0e\x1f\x1d\x85\x61\x40\x84\x03\x01\xa7\xff\xf3\x03\x3e\x1d\x11\x01\x2c\xa2\x00\x0f\x1f\x75\x40\xc4\x84\x00\x03\x00\xc8\xa7\xff\xf0\x1f\xad";
    let sum_lines: &[Line] = &[
        (0, 0x09, 0, 0),
        (1, 0x37, 1, 0),
        (2, 0x10, 0, 0),
        (3, 0x36, 3, 0),
        (4, 0x15, 3, 0),
        (5, 0x15, 0, 0),
        (6, 0xA2, 20, 0),
        (9, 0x16, 1, 0),
        (10, 0x15, 3, 0),
        (11, 0x85, 0, 0),
        (12, 0x61, 0, 0),
        (13, 0x37, 1, 0),
        (14, 0x84, 3, 1),
        (17, 0xA7, 4, 0),
        (20, 0x10, 0, 0),
        (21, 0x36, 3, 0),
        (22, 0x15, 3, 0),
        (23, 0x11, 300, 0),
        (26, 0xA2, 41, 0),
        (29, 0x16, 1, 0),
        (30, 0x75, 0, 0),
        (31, 0x37, 1, 0),
        (32, 0x84, 3, 200),
        (38, 0xA7, 22, 0),
        (41, 0x16, 1, 0),
        (42, 0xAD, 0, 0),
    ];
    // try { return a[i]; } catch (RuntimeException e) { return -1; }
    let guarded: &[u8] = b"\x2a\x1b\x2e\xac\x4d\x02\xac";
    let guarded_lines: &[Line] = &[
        (0, 0x19, 0, 0),
        (1, 0x15, 1, 0),
        (2, 0x2E, 0, 0),
        (3, 0xAC, 0, 0),
        (4, 0x3A, 2, 0),
        (5, 0x10, -1, 0),
        (6, 0xAC, 0, 0),
    ];
    assert_eq!(rt; lines(&rt, dense)?.as_slice(), dense_lines);
    assert_eq!(rt; lines(&rt, sparse)?.as_slice(), sparse_lines);
    assert_eq!(rt; lines(&rt, sum)?.as_slice(), sum_lines);
    assert_eq!(rt; lines(&rt, guarded)?.as_slice(), guarded_lines);
    Ok(())
}

fn case(key: i32, target: u16) -> Case {
    Case { key, target }
}

/// A switch behind `nops` instructions of one byte, with bytes of padding that aren't 0.
fn switch_behind(
    alloc: Global,
    nops: usize,
    opcode: u8,
    rest: &[u8],
) -> Result<Vec<u8>, AllocError> {
    let mut code = Vec::new(alloc);
    for _ in 0..nops {
        code.push(0)?;
    }
    code.push(opcode)?;
    for _ in nops..3 {
        code.push(0xEE)?;
    }
    code.extend_from_slice(rest)?;
    Ok(code)
}

#[test]
fn switches(rt: HostRuntime) -> Result<(), Fail> {
    let table = b"\0\0\0\x05\xff\xff\xff\xfe\0\0\0\0\0\0\0\x06\0\0\0\x07\0\0\0\x08";
    let pairs = b"\0\0\0\x05\0\0\0\x02\0\0\0\x09\0\0\0\x06\xff\xff\xff\xff\0\0\0\x07";
    for nops in 0..4u16 {
        let code = switch_behind(rt.alloc(), nops as usize, 0xAA, table.as_slice())?;
        let found = last_cases(&rt, &code)?;
        let wanted = [case(-2, nops + 6), case(-1, nops + 7), case(0, nops + 8)];
        assert_eq!(rt; found.as_slice(), wanted.as_slice(), "{nops}");
        let line = (nops, 0xAB, i32::from(nops) + 5, 0);
        assert_eq!(rt; lines(&rt, &code)?.last().copied(), Some(line), "{nops}");

        let code = switch_behind(rt.alloc(), nops as usize, 0xAB, pairs.as_slice())?;
        let found = last_cases(&rt, &code)?;
        let wanted = [case(9, nops + 6), case(-1, nops + 7)];
        assert_eq!(rt; found.as_slice(), wanted.as_slice(), "{nops}");
        assert_eq!(rt; lines(&rt, &code)?.last().copied(), Some(line), "{nops}");
    }
    // one entry at the highest key, and no pair
    let highest = b"\xaa\0\0\0\0\0\0\0\x7f\xff\xff\xff\x7f\xff\xff\xff\0\0\xff\xff";
    assert_eq!(rt;
        last_cases(&rt, highest)?.as_slice(),
        [case(i32::MAX, 65535)].as_slice()
    );
    assert!(rt; last_cases(&rt, b"\xab\0\0\0\0\0\0\0\0\0\0\0")?.is_empty());
    Ok(())
}

#[test]
fn whole_codes(rt: HostRuntime) -> Result<(), Fail> {
    let cases: &[(&str, &[u8], Line)] = &[
        ("return", b"\xb1", (0, 0xB1, 0, 0)),
        ("wide iload", b"\xc4\x15\x01\x02", (0, 0x15, 258, 0)),
        ("wide astore", b"\xc4\x3a\xff\xff", (0, 0x3A, 65535, 0)),
        ("wide ret", b"\xc4\xa9\x01\x02", (0, 0xA9, 258, 0)),
        (
            "wide iinc",
            b"\xc4\x84\x01\x02\x80\0",
            (0, 0x84, 258, -32768),
        ),
        ("iinc", b"\x84\xff\x80", (0, 0x84, 255, -128)),
        ("a jump to itself", b"\xa7\0\0", (0, 0xA7, 0, 0)),
        (
            "a jump to the last place",
            b"\xc8\0\0\xff\xff",
            (0, 0xA7, 65535, 0),
        ),
        (
            "a jump back to the first place",
            b"\0\xa7\xff\xff",
            (1, 0xA7, 0, 0),
        ),
        ("newarray of boolean", b"\xbc\x04", (0, 0xBC, 4, 0)),
        ("newarray of long", b"\xbc\x0b", (0, 0xBC, 11, 0)),
    ];
    for (label, code, line) in cases {
        assert_eq!(rt; lines(&rt, code)?.last().copied(), Some(*line), "{label}");
    }
    assert!(rt; lines(&rt, b"")?.is_empty());
    Ok(())
}

#[test]
fn bad_codes(rt: HostRuntime) {
    let cases: &[(&str, &[u8], u16)] = &[
        ("half an index", b"\xb2\0", 0),
        (
            "an unlisted opcode behind instructions",
            b"\x03\x3c\xff\xb1",
            2,
        ),
        ("a jump to -1", b"\0\0\xa7\xff\xfd", 2),
        ("a branch to -1", b"\x99\xff\xff", 0),
        ("a long jump to 65536", b"\0\xc8\0\0\xff\xff", 1),
        ("a default at -1", b"\xab\0\0\0\xff\xff\xff\xff\0\0\0\0", 0),
        ("a default at 65536", b"\xab\0\0\0\0\x01\0\0\0\0\0\0", 0),
        (
            "an entry at -1",
            b"\xaa\0\0\0\0\0\0\0\0\0\0\0\0\0\0\0\xff\xff\xff\xff",
            0,
        ),
        (
            "a pair at 65536",
            b"\xab\0\0\0\0\0\0\0\0\0\0\x01\0\0\0\0\0\x01\0\0",
            0,
        ),
        (
            "low above high",
            b"\xaa\0\0\0\0\0\0\0\0\0\0\x02\0\0\0\x01\0\0\0\0\0\0\0\0",
            0,
        ),
        (
            "a negative count",
            b"\xab\0\0\0\0\0\0\0\xff\xff\xff\xff\0\0\0\0\0\0\0\0",
            0,
        ),
        (
            "an entry too few",
            b"\xaa\0\0\0\0\0\0\0\0\0\0\0\0\0\0\x01\0\0\0\0",
            0,
        ),
        (
            "2147483647 pairs",
            b"\xab\0\0\0\0\0\0\0\x7f\xff\xff\xff\0\0\0\0\0\0\0\0",
            0,
        ),
        (
            "4294967296 entries",
            b"\xaa\0\0\0\0\0\0\0\x80\0\0\0\x7f\xff\xff\xff\0\0\0\0",
            0,
        ),
        ("newarray of 3", b"\xbc\x03", 0),
        ("newarray of 12", b"\xbc\x0c", 0),
        ("wide nop", b"\xc4\0\0\0", 0),
        ("wide wide", b"\xc4\xc4\x15\0", 0),
        (
            "wide iinc with a constant of one byte",
            b"\xc4\x84\0\x01\x01",
            0,
        ),
    ];
    for (label, code, pc) in cases {
        assert_eq!(rt; bad_place(&rt, code), Some(*pc), "{label}");
    }
}
