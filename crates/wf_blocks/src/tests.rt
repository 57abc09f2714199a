use super::*;
use std::alloc::{AllocError, Global};
use std::process::Abort;
use std::test::Fail;
use wf_base::{Items, Text};
use wf_data::{ClassInfo, CodeInfo, Handler, Placed};
use wf_descriptor::read_descriptor;
use wf_opcode::decode;
use wf_operation::SlotKind;

mod compiled;

/// A method by its descriptor, the limits of its stack and its locals, its code, and its table: where an entry begins,
/// where it ends, and its handler.
type Method<'a> = (&'a [u8], u16, u16, &'a [u8], &'a [(u16, u16, u16)]);

/// A class without a pool.
fn class(alloc: Global) -> ClassInfo {
    ClassInfo {
        name: Text::new(alloc),
        superclass: None,
        interfaces: Items::new(alloc),
        flags: 0,
        major: 52,
        pool: Items::new(alloc),
        fields: Items::new(alloc),
        methods: Items::new(alloc),
    }
}

fn table(alloc: Global, entries: &[(u16, u16, u16)]) -> Result<Items<Handler>, AllocError> {
    let mut table = Vec::new(alloc);
    for (start, end, target) in entries {
        table.push(Handler {
            start: *start,
            end: *end,
            target: *target,
            catch_class: 0,
        })?;
    }
    Ok(Items::from_vec(table))
}

/// The blocks of a static method, or None where it has the fault of its shape.
fn blocks_of(
    alloc: Global,
    (desc, max_stack, max_locals, code, entries): Method,
) -> Result<Option<Blocks>, AllocError> {
    if desc.len() > 1000 || code.len() > 65535 {
        return Ok(None);
    }
    let desc = match read_descriptor(alloc, desc) {
        Ok(desc) => desc,
        Err(_) => return Ok(None),
    };
    let placed = match decode(alloc, code) {
        Ok(placed) => placed,
        Err(_) => return Ok(None),
    };
    if placed.as_slice().len() > 65535 {
        return Ok(None);
    }
    let info = CodeInfo {
        max_stack,
        max_locals,
        code: Text::from_slice(alloc, code)?,
        table: table(alloc, entries)?,
    };
    Ok(shape_of(alloc, &desc, true, &class(alloc), &info, &placed).ok())
}

/// The letter of a kind, `-` for a slot that nothing may read.
fn letter(kind: SlotKind) -> u8 {
    match kind {
        SlotKind::Int => b'I',
        SlotKind::Ref => b'A',
        SlotKind::Long => b'L',
        SlotKind::LongRest => b'R',
        SlotKind::Unused => b'-',
    }
}

/// Sees that the slots from the first on have these kinds at a place, where a letter says one.
fn has_kinds(rt: &impl Abort, blocks: &Blocks, pc: u16, first: u16, kinds: &[u8]) {
    let mut slot = first as u32;
    for kind in kinds {
        if *kind != b'-' {
            assert_eq!(rt; letter(blocks.kind(pc, slot)), *kind, "place {pc}");
        }
        assert!(rt; slot < 1000000);
        slot += 1;
    }
}

/// `iconst_1; istore 0; L: iload 0; ifeq L; return`: the ways into the loop, and what is known there.
#[test]
fn a_loop(rt: HostRuntime) -> Result<(), Fail> {
    let code = b"\x04\x36\x00\x15\x00\x99\xff\xfe\xb1";
    match blocks_of(rt.alloc(), (b"()V", 1, 1, code, &[]))? {
        Some(blocks) => {
            assert_eq!(&rt; blocks.edges_in(3), 2);
            assert_eq!(&rt; blocks.kind(3, 0), SlotKind::Int);
            assert_eq!(&rt; blocks.depth(5), 1);
            assert_eq!(&rt; blocks.edges_in(0), 1);
            assert!(&rt; blocks.is_start(3) && !blocks.is_start(5) && blocks.is_start(8));
            assert!(&rt; blocks.is_reached(8) && !blocks.is_reached(4));
            assert_eq!(&rt; blocks.kind(0, 0), SlotKind::Unused);
        }
        None => assert!(&rt; false),
    }
    Ok(())
}

/// Methods whose instructions don't fit together, each for a reason of its own, and beside it one that differs from it
/// and fits.
#[test]
fn shapes(rt: HostRuntime) -> Result<(), Fail> {
    let bad: &[Method] = &[
        // iconst_1; ifeq L; iconst_0; L: return, with two depths at L
        (b"()V", 2, 0, b"\x04\x99\x00\x04\x03\xb1", &[]),
        // pop behind a join of a long and two ints
        (
            b"(I)V",
            2,
            1,
            b"\x1a\x99\x00\x07\x09\xa7\x00\x05\x03\x03\x57\x57\xb1",
            &[],
        ),
        // iadd behind a join of an int and a reference
        (
            b"(I)V",
            2,
            1,
            b"\x1a\x99\x00\x07\x03\xa7\x00\x04\x01\x04\x60\x57\xb1",
            &[],
        ),
        // past the end, into an instruction, above the stack, above the locals
        (b"()V", 1, 0, b"\x00", &[]),
        (b"()V", 1, 0, b"\xa7\x00\x02\xb1", &[]),
        (b"()V", 0, 0, b"\x03\x57\xb1", &[]),
        (b"()V", 1, 1, b"\x03\x3c\xb1", &[]),
        (b"(J)V", 1, 1, b"\xb1", &[]),
        // another kind is returned; no operand; an operand of another kind
        (b"()I", 1, 0, b"\x01\xb0", &[]),
        (b"()V", 1, 0, b"\x57\xb1", &[]),
        (b"()V", 1, 1, b"\x01\x3b\xb1", &[]),
        // a table whose start is at its end, whose end is no place, and whose handler is none but is reached
        (b"()V", 1, 0, b"\x00\xb1\x57\xb1", &[(1, 1, 2)]),
        (b"()V", 1, 0, b"\x10\x05\x57\xb1", &[(0, 1, 2)]),
        (b"()V", 1, 0, b"\x10\x05\x57\xb1", &[(0, 2, 1)]),
        // a stack of none has no room for what is thrown
        (b"()V", 0, 0, b"\x00\xb1\xb1", &[(0, 1, 2)]),
    ];
    for method in bad {
        assert!(&rt; blocks_of(rt.alloc(), *method)?.is_none());
    }
    let good: &[Method] = &[
        (b"()V", 2, 0, b"\x04\x99\x00\x05\x03\x57\xb1", &[]),
        // pop behind a join of a reference and an int
        (
            b"(I)V",
            2,
            1,
            b"\x1a\x99\x00\x07\x01\xa7\x00\x04\x03\x57\xb1",
            &[],
        ),
        // what isn't reached may be wrong, and an end may be that of the code
        (b"()V", 1, 0, b"\xb1\x57\xa7\x00\x01", &[(1, 5, 1)]),
        // half of a long that was overwritten
        (b"(J)V", 1, 2, b"\x03\x3c\xb1", &[]),
    ];
    for method in good {
        assert!(&rt; blocks_of(rt.alloc(), *method)?.is_some());
    }
    Ok(())
}

/// What `javac` compiled fits together, with the depths and kinds of its frames.
#[test]
fn compiled_methods(rt: HostRuntime) -> Result<(), Fail> {
    for (desc, stack, locals, code, entries, frames) in compiled::METHODS {
        match blocks_of(rt.alloc(), (*desc, *stack, *locals, *code, *entries))? {
            Some(blocks) => {
                for (pc, held, cells) in *frames {
                    assert_eq!(&rt; blocks.depth(*pc) as usize, cells.len());
                    has_kinds(&rt, &blocks, *pc, 0, held);
                    has_kinds(&rt, &blocks, *pc, *locals, cells);
                }
            }
            None => assert!(&rt; false, "of locals {locals}"),
        }
    }
    Ok(())
}
