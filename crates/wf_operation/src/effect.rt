//! What an instruction does with slots.

ghost use Rattle.std.specs.Prelude.{◌≡◌, ◌+◌, ◌<◌, ◌≤◌, ◌^◌, length, slice_index_or};
ghost use Rattle.wf_operation.specs.Effects.{taken_by, depths, divides, width_of, taken, put, locals_used, slots_after, stored_at, source_at, wanted_from, wanted};
ghost use Rattle.wf_operation.specs.declared.effect.Effect.TheVariants.{Shuffles};
ghost use Rattle.wf_operation.specs.declared.slot.SlotKind.TheVariants.{Unused};

use crate::slot::{SlotKind, Source, Wanted, slots_of};
use crate::sort::Shuffle;
use wf_base::{Items, Kind};

/// What an instruction does with slots. Of the operands that it takes off the stack, the last is the top.
#[derive(Debug, Drop)]
pub enum Effect {
    /// It takes operands of these slots off the stack, and puts a value of these in their place.
    Acts {
        takes: Items<SlotKind>,
        gives: Items<SlotKind>,
    },
    /// It puts what a local holds on the stack.
    Loads {
        kind: Kind,
        local: u16,
    },
    /// It takes the top value into a local.
    Stores {
        kind: Kind,
        local: u16,
    },
    /// It gives a local another int.
    Increments {
        local: u16,
    },
    /// It moves slots of the stack.
    Shuffles {
        shuffle: Shuffle,
    },
}

/// How many slots a stack instruction takes off the stack.
fn taken_by(shuffle: Shuffle) -> usize
    ensures value { result ≡ taken_by shuffle }
    ensures few { result ≤ 4 }
{
    match shuffle {
        Shuffle::Pop | Shuffle::Dup => 1,
        Shuffle::Pop2 | Shuffle::DupX1 | Shuffle::Dup2 | Shuffle::Swap => 2,
        Shuffle::DupX2 | Shuffle::Dup2X1 => 3,
        Shuffle::Dup2X2 => 4,
    }
}

/// In place of the slots that it takes, a stack instruction puts those that stood so deep, where 1 is the top.
fn depths(shuffle: Shuffle) -> &'static [usize]
    ensures value { result.now ≡ depths shuffle }
    ensures few { length result.now ≤ 6 }
{
    match shuffle {
        Shuffle::Pop | Shuffle::Pop2 => &[],
        Shuffle::Dup => &[1, 1],
        Shuffle::DupX1 => &[1, 2, 1],
        Shuffle::DupX2 => &[1, 3, 2, 1],
        Shuffle::Dup2 => &[2, 1, 2, 1],
        Shuffle::Dup2X1 => &[2, 1, 3, 2, 1],
        Shuffle::Dup2X2 => &[2, 1, 4, 3, 2, 1],
        Shuffle::Swap => &[1, 2],
    }
}

/// Whether a stack instruction divides the slot that stands so deep from the one below it.
fn divides(shuffle: Shuffle, depth: usize) -> bool
    ensures { result ≡ divides shuffle depth }
{
    match shuffle {
        Shuffle::Pop | Shuffle::Dup => depth == 1,
        Shuffle::Pop2 | Shuffle::Dup2 => depth == 2,
        Shuffle::DupX1 | Shuffle::Swap => depth == 1 || depth == 2,
        Shuffle::DupX2 => depth == 1 || depth == 3,
        Shuffle::Dup2X1 => depth == 2 || depth == 3,
        Shuffle::Dup2X2 => depth == 2 || depth == 4,
    }
}

/// How many slots a value takes.
pub fn width_of(kind: Kind) -> usize
    ensures value { result ≡ width_of kind }
    ensures few { result ≤ 2 }
{
    slots_of(kind).len()
}

/// How many slots an instruction takes off the stack.
pub fn taken(effect: &Effect) -> usize
    ensures { result ≡ taken effect.now }
{
    match effect {
        Effect::Acts { takes, .. } => takes.len(),
        Effect::Loads { .. } | Effect::Increments { .. } => 0,
        Effect::Stores { kind, .. } => width_of(*kind),
        Effect::Shuffles { shuffle } => taken_by(*shuffle),
    }
}

/// How many slots an instruction puts on the stack, behind those that it takes.
pub fn put(effect: &Effect) -> usize
    ensures { result ≡ put effect.now }
{
    match effect {
        Effect::Acts { gives, .. } => gives.len(),
        Effect::Loads { kind, .. } => width_of(*kind),
        Effect::Stores { .. } | Effect::Increments { .. } => 0,
        Effect::Shuffles { shuffle } => depths(*shuffle).len(),
    }
}

/// How many locals have to be there.
pub fn locals_used(effect: &Effect) -> usize
    ensures value { result ≡ locals_used effect.now }
    ensures few { result ≤ 65537 }
{
    match effect {
        Effect::Acts { .. } | Effect::Shuffles { .. } => 0,
        Effect::Loads { kind, local } | Effect::Stores { kind, local } => {
            *local as usize + width_of(*kind)
        }
        Effect::Increments { local } => *local as usize + 1,
    }
}

/// How many slots there are behind an instruction, where `slots` are in front of it.
pub fn slots_after(effect: &Effect, slots: usize) -> usize
    requires { slots + put effect.now < 2 ^ 64 }
    ensures { result ≡ slots_after effect.now slots }
{
    slots.saturating_sub(taken(effect)) + put(effect)
}

fn stored_at(width: usize, local: usize, slots: usize, slot: usize) -> Source
    requires few { slots < 2 ^ 32 }
    requires within { slot < 2 ^ 32 }
    requires narrow { width ≤ 2 }
    requires low { local < 2 ^ 16 }
    ensures { result ≡ stored_at width local slots slot }
{
    if slot < local {
        return if slot + 1 == local {
            Source::KeepNoHead(slot)
        } else {
            Source::Keep(slot)
        };
    }
    if slot < local + width {
        return Source::Keep(slots.saturating_sub(width) + (slot - local));
    }
    if slot == local + width {
        Source::KeepNoRest(slot)
    } else {
        Source::Keep(slot)
    }
}

/// Where a slot has from what it holds behind an instruction, where `slots` are in front of it.
pub fn source_at(effect: &Effect, slots: usize, slot: usize) -> Source
    requires few { slots < 2 ^ 32 }
    requires within { slot < 2 ^ 32 }
    ensures { result ≡ source_at effect.now slots slot }
{
    match effect {
        Effect::Acts { takes, gives } => {
            let kept = slots.saturating_sub(takes.len());
            if slot < kept {
                Source::Keep(slot)
            } else {
                Source::Gives(kind_at(gives.as_slice(), slot - kept))
            }
        }
        Effect::Loads { local, .. } => {
            if slot < slots {
                Source::Keep(slot)
            } else {
                Source::Keep(*local as usize + (slot - slots))
            }
        }
        Effect::Stores { kind, local } => {
            stored_at(width_of(*kind), *local as usize, slots, slot)
        }
        Effect::Increments { local } => {
            if slot == *local as usize {
                Source::Gives(SlotKind::Int)
            } else {
                Source::Keep(slot)
            }
        }
        Effect::Shuffles { shuffle } => shuffled_at(*shuffle, slots, slot),
    }
}

fn shuffled_at(shuffle: Shuffle, slots: usize, slot: usize) -> Source
    ensures { result ≡ source_at (Shuffles shuffle) slots slot }
{
    let kept = slots.saturating_sub(taken_by(shuffle));
    if slot < kept {
        return Source::Keep(slot);
    }
    let depth = depths(shuffle).get(slot - kept).copied().unwrap_or(0);
    Source::Keep(slots.saturating_sub(depth))
}

/// The kind at a place of a list, `Unused` past its end.
fn kind_at(kinds: &[SlotKind], place: usize) -> SlotKind
    ensures { result ≡ slice_index_or kinds.now place Unused }
{
    kinds.get(place).copied().unwrap_or(SlotKind::Unused)
}

/// What is wanted of a slot where slots of these kinds are, from the first on.
fn wanted_from(first: usize, kinds: &[SlotKind], slot: usize) -> Wanted
    requires few { first < 2 ^ 32 }
    ensures { result ≡ wanted_from first kinds.now slot }
{
    if first <= slot && slot - first < kinds.len() {
        Wanted::Only(kind_at(kinds, slot - first))
    } else {
        Wanted::Anything
    }
}

/// What an instruction wants of a slot, where `slots` are in front of it.
pub fn wanted(effect: &Effect, slots: usize, slot: usize) -> Wanted
    requires few { slots < 2 ^ 32 }
    ensures { result ≡ wanted effect.now slots slot }
{
    match effect {
        Effect::Acts { takes, .. } => {
            wanted_from(slots.saturating_sub(takes.len()), takes.as_slice(), slot)
        }
        Effect::Loads { kind, local } => wanted_from(*local as usize, slots_of(*kind), slot),
        Effect::Stores { kind, .. } => {
            wanted_from(slots.saturating_sub(width_of(*kind)), slots_of(*kind), slot)
        }
        Effect::Increments { local } => {
            if slot == *local as usize {
                Wanted::Only(SlotKind::Int)
            } else {
                Wanted::Anything
            }
        }
        Effect::Shuffles { shuffle } => {
            if divides(*shuffle, slots.saturating_sub(slot)) {
                Wanted::NoRest
            } else {
                Wanted::Anything
            }
        }
    }
}
