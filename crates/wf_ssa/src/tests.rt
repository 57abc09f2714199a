use super::*;
use std::alloc::{AllocError, Global};
use std::process::Abort;
use std::test::Fail;
use wf_base::{Items, Text};
use wf_blocks::{Blocks, shape_of};
use wf_data::{ClassInfo, CodeInfo, Handler};
use wf_descriptor::read_descriptor;
use wf_opcode::decode;

/// A class without a pool.
fn class(alloc: Global) -> ClassInfo {
    ClassInfo {
        name: Text::new(alloc),
        superclass: None,
        interfaces: Items::new(alloc),
        flags: 0,
        major: 52,
        pool: Items::new(alloc),
        fields: Items::new(alloc),
        methods: Items::new(alloc),
    }
}

/// The blocks of a static method with a stack of four cells and four locals, whose code up to `covered` has the handler.
fn blocks_of(
    rt: &(impl Abort + AllocGlobal),
    desc: &[u8],
    code: &[u8],
    covered: u16,
    handler: u16,
) -> Result<Option<Blocks>, AllocError> {
    let alloc = rt.alloc();
    assert!(rt; desc.len() <= 65535);
    let desc = match read_descriptor(alloc, desc) {
        Ok(desc) => desc,
        Err(_) => return Ok(None),
    };
    assert!(rt; code.len() <= 65535);
    let placed = match decode(alloc, code) {
        Ok(placed) => placed,
        Err(_) => return Ok(None),
    };
    assert!(rt; placed.as_slice().len() <= 65535);
    let mut table = Vec::new(alloc);
    if covered > 0 {
        table.push(Handler {
            start: 0,
            end: covered,
            target: handler,
            catch_class: 0,
        })?;
    }
    let info = CodeInfo {
        max_stack: 4,
        max_locals: 4,
        code: Text::from_slice(alloc, code)?,
        table: Items::from_vec(table),
    };
    Ok(shape_of(alloc, &desc, true, &class(alloc), &info, &placed).ok())
}

/// Flows and predicates of a method: a place, a slot and its flow, or no slot and the predicate.
type Row = (u16, Option<u32>, FlowName);

fn has_rows(
    rt: &(impl Abort + AllocGlobal),
    blocks: Option<Blocks>,
    rows: &[Row],
) -> Result<(), AllocError> {
    match blocks {
        Some(blocks) => {
            let failing = Items::new(rt.alloc());
            let env = environments(rt.alloc(), &blocks, &failing)?;
            for (pc, slot, name) in rows {
                let found = match slot {
                    Some(slot) => env.flow(*pc, *slot),
                    None => env.predicate(*pc),
                };
                assert_eq!(rt; found, *name, "place {pc}");
            }
        }
        None => assert!(rt; false),
    }
    Ok(())
}

fn left(pc: u16, edge: u32, operand: u8) -> FlowName {
    FlowName::Refined { pc, edge, operand }
}

/// `iconst_1; istore 0; L: iload 0; ifeq L; return`
#[test]
fn a_loop(rt: HostRuntime) -> Result<(), Fail> {
    let blocks = blocks_of(&rt, b"()V", b"\x04\x36\x00\x15\x00\x99\xff\xfe\xb1", 0, 0)?;
    let rows = [
        (0, None, FlowName::Entry),
        (1, Some(4), FlowName::Res(0)),
        (3, Some(0), FlowName::Phi { pc: 3, slot: 0 }),
        (3, None, FlowName::Blk(3)),
        (5, Some(4), FlowName::Phi { pc: 3, slot: 0 }),
        (8, Some(0), left(5, 1, 1)),
        (8, None, left(5, 1, 1)),
    ];
    has_rows(&rt, blocks, rows.as_slice())?;
    Ok(())
}

/// `iload 0; lload 1; lstore 1; iload 3; if_icmpeq L; iinc 0 1; L: return` of an int, a long and an int: parameters,
/// operands and their copies, and a join.
#[test]
fn operands_and_copies(rt: HostRuntime) -> Result<(), Fail> {
    let code = b"\x1a\x1f\x40\x1d\x9f\x00\x06\x84\x00\x01\xb1";
    let blocks = blocks_of(&rt, b"(IJI)V", code, 0, 0)?;
    let rows = [
        (0, Some(0), FlowName::Par(0)),
        (0, Some(1), FlowName::Par(1)),
        (0, Some(2), FlowName::Par(1)),
        (0, Some(3), FlowName::Par(2)),
        (4, Some(5), FlowName::Par(2)),
        (7, Some(0), left(4, 1, 1)),
        (7, Some(3), left(4, 1, 2)),
        (7, Some(1), FlowName::Par(1)),
        (7, None, left(4, 1, 1)),
        (10, Some(0), FlowName::Phi { pc: 10, slot: 0 }),
        (10, None, FlowName::Blk(10)),
    ];
    has_rows(&rt, blocks, rows.as_slice())?;
    Ok(())
}

/// `aload 0; athrow; H: astore 1; return`, where H is the handler: its slots are renamed.
#[test]
fn a_handler(rt: HostRuntime) -> Result<(), Fail> {
    let blocks = blocks_of(&rt, b"(Ljava/lang/Throwable;)V", b"\x2a\xbf\x4c\xb1", 2, 2)?;
    let rows = [
        (1, Some(4), FlowName::Par(0)),
        (2, Some(0), FlowName::Phi { pc: 2, slot: 0 }),
        (2, Some(4), FlowName::Phi { pc: 2, slot: 4 }),
        (3, Some(1), FlowName::Phi { pc: 2, slot: 4 }),
        (3, None, FlowName::Blk(2)),
    ];
    has_rows(&rt, blocks, rows.as_slice())?;
    Ok(())
}

/// `goto A; B: goto C; A: goto B; C: return`: one way leads to each place, and one of them back.
#[test]
fn a_way_back(rt: HostRuntime) -> Result<(), Fail> {
    let code = b"\xa7\x00\x06\xa7\x00\x06\xa7\xff\xfd\xb1";
    let blocks = blocks_of(&rt, b"(I)V", code, 0, 0)?;
    let rows = [
        (6, Some(0), FlowName::Par(0)),
        (3, Some(0), FlowName::Par(0)),
        (9, Some(0), FlowName::Par(0)),
        (9, None, FlowName::Entry),
    ];
    has_rows(&rt, blocks, rows.as_slice())?;
    Ok(())
}
