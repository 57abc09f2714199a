use super::*;
use std::alloc::{AllocError, Global};
use std::process::Abort;
use std::test::Fail;
use wf_base::{Cmp, Items, Kind};
use wf_data::{Case, Instr, PoolEntry};
use wf_opcode::row_of;

mod forms;
mod pools;

/// An instruction without cases.
fn instr(alloc: Global, op: u8, a: i32, b: i32) -> Instr {
    Instr {
        op,
        a,
        b,
        cases: Items::new(alloc),
    }
}

/// The letter of a slot: `L` and `R` for a long, `-` for one that nothing may read.
fn letter(kind: SlotKind) -> u8 {
    match kind {
        SlotKind::Int => b'I',
        SlotKind::Ref => b'A',
        SlotKind::Long => b'L',
        SlotKind::LongRest => b'R',
        SlotKind::Unused => b'-',
    }
}

/// The kind of a letter. Small letters are ints that are told apart.
fn kind(letter: u8) -> SlotKind {
    match letter {
        b'A' => SlotKind::Ref,
        b'L' => SlotKind::Long,
        b'R' => SlotKind::LongRest,
        b'-' => SlotKind::Unused,
        _ => SlotKind::Int,
    }
}

/// What slots hold behind an instruction, each by its letter, or None where one isn't as it is wanted.
fn behind(alloc: Global, effect: &Effect, slots: &[u8]) -> Result<Option<Vec<u8>>, AllocError> {
    let mut found = Vec::new(alloc);
    if slots.len() > 100 || taken(effect) > slots.len() || put(effect) > 300 {
        return Ok(None);
    }
    for (slot, held) in slots.iter().enumerate() {
        if slot > 100 || !allows(wanted(effect, slots.len(), slot), kind(*held)) {
            return Ok(None);
        }
    }
    for slot in 0..slots_after(effect, slots.len()) {
        if slot > 500 {
            return Ok(None);
        }
        found.push(held_at(source_at(effect, slots.len(), slot), slots))?;
    }
    Ok(Some(found))
}

/// What a slot with this source holds.
fn held_at(source: Source, slots: &[u8]) -> u8 {
    let at = match source {
        Source::Keep(slot) | Source::KeepNoHead(slot) | Source::KeepNoRest(slot) => slot,
        Source::Gives(kind) => return letter(kind),
    };
    let before = slots.get(at).copied().unwrap_or(b'?');
    if moved(source, kind(before)) == kind(before) {
        before
    } else {
        b'-'
    }
}

/// Sees that an instruction with this opcode does so.
fn does(
    rt: &(impl Abort + AllocGlobal),
    (op, a, before, after): (u8, i32, &[u8], Option<&[u8]>),
) -> Result<(), AllocError> {
    let instr = instr(rt.alloc(), op, a, 0);
    let found = match operation_of(rt.alloc(), &[], &instr)? {
        Some(operation) => behind(rt.alloc(), &operation.effect, before)?,
        None => None,
    };
    match (found, after) {
        (Some(found), Some(after)) => {
            assert_eq!(rt; found.as_slice(), after, "opcode {op}");
        }
        (None, None) => {}
        _ => assert!(rt; false, "opcode {op}"),
    }
    Ok(())
}

#[test]
fn forms_of_stack_instructions(rt: HostRuntime) -> Result<(), Fail> {
    for (op, before, after) in forms::STACK {
        does(&rt, (*op, 0, before, Some(after)))?;
    }
    Ok(())
}

#[test]
fn longs_are_not_divided(rt: HostRuntime) -> Result<(), Fail> {
    for (op, before) in forms::DIVIDED {
        does(&rt, (*op, 0, before, None))?;
    }
    Ok(())
}

#[test]
fn forms_of_locals(rt: HostRuntime) -> Result<(), Fail> {
    for (op, local, before, after) in forms::LOCALS {
        does(&rt, (*op, *local, before, Some(after)))?;
    }
    Ok(())
}

#[test]
fn forms_of_values(rt: HostRuntime) -> Result<(), Fail> {
    for (op, before, after) in forms::VALUES {
        does(&rt, (*op, 7, before, Some(after)))?;
    }
    Ok(())
}

/// Each instruction that isn't refused has a sort, and no other opcode has one. That of `wide` is never one of an
/// instruction in its long form.
#[test]
fn every_long_form_has_a_sort(rt: HostRuntime) {
    for opcode in 0..=255u8 {
        if opcode == 0xC4 {
            continue;
        }
        match row_of(opcode) {
            Some(row) => {
                assert_eq!(rt;
                    sort_of(row.op).is_some(),
                    row.refused.is_none(),
                    "{opcode}"
                );
            }
            None => assert!(rt; sort_of(opcode).is_none(), "{opcode}"),
        }
    }
}
