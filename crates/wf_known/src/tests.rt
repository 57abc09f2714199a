ghost use Rattle.std.specs.Prelude.{◌≡◌, ◌<◌, length};

use super::*;
use std::alloc::{AllocError, Global};
use std::process::Abort;
use std::test::Fail;
use wf_base::{Items, MethodId, Text};
use wf_blocks::{Blocks, shape_of};
use wf_data::{ClassInfo, CodeInfo, PoolEntry};
use wf_descriptor::read_descriptor;
use wf_opcode::decode;
use wf_rows::{Node, Own};
use wf_ssa::{Env, FlowName, environments};

const METHOD: MethodId = MethodId(7);

/// Place 1 of the pool is a method `f` that takes nothing and gives an int.
fn class(alloc: Global) -> Result<ClassInfo, AllocError> {
    let pool = vec![in alloc;
        PoolEntry::Unusable,
        PoolEntry::Method(2, 3),
        PoolEntry::Class(4),
        PoolEntry::NameType(4, 5),
        PoolEntry::Utf8(Text::from_slice(alloc, b"f")?),
        PoolEntry::Utf8(Text::from_slice(alloc, b"()I")?),
    ]?;
    Ok(ClassInfo {
        name: Text::new(alloc),
        superclass: None,
        interfaces: Items::new(alloc),
        flags: 0,
        major: 52,
        pool: Items::from_vec(pool),
        fields: Items::new(alloc),
        methods: Items::new(alloc),
    })
}

/// The blocks of a method that takes an int, with a stack of two cells.
fn blocks_of(
    rt: &(impl Abort + AllocGlobal),
    is_static: bool,
    locals: u16,
    code: &[u8],
) -> Result<Option<Blocks>, AllocError> {
    let alloc = rt.alloc();
    let desc = match read_descriptor(alloc, b"(I)I") {
        Ok(desc) => desc,
        Err(_) => return Ok(None),
    };
    assert!(rt; code.len() <= 65535);
    let placed = match decode(alloc, code) {
        Ok(placed) => placed,
        Err(_) => return Ok(None),
    };
    assert!(rt; placed.as_slice().len() <= 65535);
    let info = CodeInfo {
        max_stack: 2,
        max_locals: locals,
        code: Text::from_slice(alloc, code)?,
        table: Items::new(alloc),
    };
    let class = class(alloc)?;
    Ok(shape_of(alloc, &desc, is_static, &class, &info, &placed).ok())
}

/// What is known in front of each place, place after place.
fn fronts_of(
    alloc: Global,
    method: MethodId,
    env: &Env<'_>,
    blocks: &Blocks,
) -> Result<Vec<Option<Front>>, AllocError>
    requires same { env.now.0 ≡ blocks.now }
    requires starts { 0 < length blocks.now.steps }
{
    let mut fronts = Vec::new(alloc);
    let mut front = reached_front(alloc, method, env, blocks, 0)?;
    let last = blocks.body().steps.len() - 1;
    for place in 0..last {
        let next = next_front(alloc, method, env, blocks, place, front.as_ref())?;
        fronts.push(front)?;
        front = next;
    }
    fronts.push(front)?;
    Ok(fronts)
}

/// By what a place is reached and what its slots hold, if a path reaches it.
type Row<'a> = Option<(Node<Own>, &'a [Node<Own>])>;

fn is_row(rt: &impl Abort, front: &Option<Front>, row: &Row) {
    match (front, row) {
        (Some(front), Some((predicate, slots))) => {
            let known = front.known(METHOD, 0);
            assert_eq!(rt; known.predicate, *predicate);
            assert_eq!(rt; known.slots, *slots);
        }
        (None, None) => {}
        _ => assert!(rt; false),
    }
}

/// Where the resolution fails at these places, this is known in front of the places of a method.
fn has_rows(
    rt: &(impl Abort + AllocGlobal),
    blocks: Option<Blocks>,
    failing: &[u16],
    rows: &[Row],
) -> Result<(), AllocError> {
    match blocks {
        Some(blocks) => {
            let failing = Items::from_vec(failing.to_vec(rt.alloc())?);
            let env = environments(rt.alloc(), &blocks, &failing)?;
            assert!(rt; blocks.body().steps.len() > 0);
            let fronts = fronts_of(rt.alloc(), METHOD, &env, &blocks)?;
            assert_eq!(rt; fronts.len(), rows.len());
            for (front, row) in fronts.iter().zip(rows) {
                is_row(rt, front, row);
            }
        }
        None => assert!(rt; false),
    }
    Ok(())
}

fn parameter(i: usize) -> Node<Own> {
    Node::Parameter(METHOD, i)
}

fn left(pc: u16, edge: usize, operand: u8) -> Node<Own> {
    Node::In(Own::Refined { pc, edge, operand })
}

fn gives(pc: u16) -> Node<Own> {
    Node::In(Own::Result(pc))
}

fn merged(pc: u16, slot: usize) -> Node<Own> {
    Node::In(Own::Merged { pc, slot })
}

/// `iload 0; ifeq L; iconst_1; goto M; L: iload 0; M: ireturn`
#[test]
fn a_branch_and_a_join(rt: HostRuntime) -> Result<(), Fail> {
    let code = b"\x1a\x99\x00\x07\x04\xa7\x00\x04\x1a\xac";
    let blocks = blocks_of(&rt, true, 1, code)?;
    let entered = Node::Entered(METHOD);
    let (fell, jumped) = (left(1, 1, 1), left(1, 0, 1));
    let rows: [Row; 6] = [
        Some((entered, &[parameter(0)])),
        Some((entered, &[parameter(0), parameter(0)])),
        Some((fell, &[fell])),
        Some((fell, &[fell, gives(4)])),
        Some((jumped, &[jumped])),
        Some((Node::In(Own::Block(9)), &[merged(9, 0), merged(9, 1)])),
    ];
    has_rows(&rt, blocks, &[], rows.as_slice())?;
    Ok(())
}

/// `f(); istore 2; iload 2; ireturn` of an object: local 2 is unused at first. `called` is the predicate behind the call.
fn a_call(
    rt: &(impl Abort + AllocGlobal),
    failing: &[u16],
    called: Node<Own>,
) -> Result<(), AllocError> {
    let blocks = blocks_of(rt, false, 3, b"\xb8\x00\x01\x3d\x1c\xac")?;
    let (this, int, none) = (parameter(0), parameter(1), Node::Nothing);
    let rows: [Row; 4] = [
        Some((Node::Entered(METHOD), &[this, int, none])),
        Some((called, &[this, int, none, gives(0)])),
        Some((called, &[this, int, gives(0)])),
        Some((called, &[this, int, gives(0), gives(0)])),
    ];
    has_rows(rt, blocks, failing, rows.as_slice())
}

#[test]
fn a_call_gives_the_predicate(rt: HostRuntime) -> Result<(), Fail> {
    a_call(&rt, &[], gives(0))?;
    a_call(&rt, &[0], Node::Nothing)?;
    Ok(())
}

/// `goto L; nop; L: iload 0; ireturn`
#[test]
fn a_place_that_no_path_reaches(rt: HostRuntime) -> Result<(), Fail> {
    let blocks = blocks_of(&rt, true, 1, b"\xa7\x00\x04\x00\x1a\xac")?;
    let entered = Node::Entered(METHOD);
    let rows: [Row; 4] = [
        Some((entered, &[parameter(0)])),
        None,
        Some((entered, &[parameter(0)])),
        Some((entered, &[parameter(0), parameter(0)])),
    ];
    has_rows(&rt, blocks, &[], rows.as_slice())?;
    Ok(())
}

#[test]
fn nodes_are_added(rt: HostRuntime) -> Result<(), Fail> {
    let mut nodes = vec![in rt.alloc(); Node::Start]?;
    nodes_of(METHOD, &[FlowName::Blk(3), FlowName::Cat(2)], &mut nodes)?;
    let expected = [
        Node::Start,
        Node::In(Own::Block(3)),
        Node::In(Own::Caught(2)),
    ];
    assert_eq!(rt; nodes.as_slice(), expected.as_slice());
    Ok(())
}
