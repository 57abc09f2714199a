//! The operands of an instruction, by the slots that it takes off the stack.

ghost use Rattle.std.specs.Prelude.{◌≡◌, IfOk, OnOk, ◌++◌, []};
ghost use Rattle.wf_actions.specs.Operands.{taken_slots, with_depth, depths_of, kind_of_last, top_kind};

use std::alloc::{AllocError, Global};
use wf_base::{Items, Kind};
use wf_operation::{Effect, SlotKind};

/// The slots that an instruction takes to put a value in their place.
pub fn taken_slots(effect: &Effect) -> &[SlotKind]
    ensures { result.now ≡ taken_slots effect.now }
{
    match effect {
        Effect::Acts { takes, .. } => takes.as_slice(),
        Effect::Loads { .. }
        | Effect::Stores { .. }
        | Effect::Increments { .. }
        | Effect::Shuffles { .. } => &[],
    }
}

/// Adds how deep an operand stands, unless its slot is the second one of a long.
fn push_depth(depths: &mut Vec<usize>, slot: SlotKind, below: usize) -> Result<(), AllocError>
    ensures { OnOk result (depths.new.items ≡ depths.old.items ++ with_depth slot below []) }
{
    match slot {
        SlotKind::LongRest => {}
        SlotKind::Int | SlotKind::Ref | SlotKind::Long | SlotKind::Unused => depths.push(below)?,
    }
    Ok(())
}

/// The depths of operands that stand one behind another, the last on top, each by its first slot.
pub fn depths_of(alloc: Global, slots: &[SlotKind]) -> Result<Items<usize>, AllocError>
    ensures { IfOk result (λ depths. depths ≡ depths_of slots.now) }
{
    let mut depths = Vec::new(alloc);
    let mut left = slots;
    'operands: while let Some((slot, rest)) = left.split_first() {
        push_depth(&mut depths, *slot, rest.len())?;
        left = rest;
    }
    Ok(Items::from_vec(depths))
}

/// The kind of the value whose last slot this is.
fn kind_of_last(slot: SlotKind) -> Option<Kind>
    ensures { result ≡ kind_of_last slot }
{
    match slot {
        SlotKind::Int => Some(Kind::Int),
        SlotKind::Ref => Some(Kind::Ref),
        SlotKind::LongRest => Some(Kind::Long),
        SlotKind::Long | SlotKind::Unused => None,
    }
}

/// The kind of the operand on top.
pub fn top_kind(slots: &[SlotKind]) -> Option<Kind>
    ensures { result ≡ top_kind slots.now }
{
    kind_of_last(*slots.last()?)
}
