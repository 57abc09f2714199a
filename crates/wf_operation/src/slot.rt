//! Slots. Those of a method are one list: its locals from 0 on, and behind them the cells of the operand
//! stack, the top last. A long takes two, `Long` with `LongRest` behind it.

ghost use Rattle.std.specs.Prelude.{◌≡◌};
ghost use Rattle.wf_operation.specs.Slots.{slots_of, allows, moved};

use wf_base::Kind;

/// What a slot holds. `Unused` is a slot that nothing may read.
#[derive(Clone, Copy, Debug, PartialEq, Eq)]
pub enum SlotKind {
    Int,
    Ref,
    Long,
    LongRest,
    Unused,
}

/// Where a slot has from what it holds behind an instruction.
#[derive(Clone, Copy, Debug, PartialEq, Eq)]
pub enum Source {
    /// From this slot in front of it.
    Keep(usize),
    /// From this slot, but the first half of a long is lost, since its second half was overwritten.
    KeepNoHead(usize),
    /// From this slot, but the second half of a long is lost, since its first half was overwritten.
    KeepNoRest(usize),
    /// It is new, and of this kind.
    Gives(SlotKind),
}

/// What an instruction wants of a slot.
#[derive(Clone, Copy, Debug, PartialEq, Eq)]
pub enum Wanted {
    Anything,
    /// No second half of a long, which would be divided from its first.
    NoRest,
    Only(SlotKind),
}

/// The slots that a value takes. What is of a kind that the analysis doesn't follow is never read.
pub fn slots_of(kind: Kind) -> &'static [SlotKind]
    ensures { result.now ≡ slots_of kind }
{
    match kind {
        Kind::Int => &[SlotKind::Int],
        Kind::Ref => &[SlotKind::Ref],
        Kind::Long => &[SlotKind::Long, SlotKind::LongRest],
        Kind::Float => &[SlotKind::Unused],
        Kind::Double => &[SlotKind::Unused, SlotKind::Unused],
    }
}

/// Whether a slot of this kind is as it is wanted.
pub fn allows(wanted: Wanted, kind: SlotKind) -> bool
    ensures { result ≡ allows wanted kind }
{
    match wanted {
        Wanted::Anything => true,
        Wanted::NoRest => kind != SlotKind::LongRest,
        Wanted::Only(only) => kind == only,
    }
}

/// The kind behind an instruction of a slot that has from this source what it holds, where `before` is the
/// kind in front of it of the slot that the source names.
pub fn moved(source: Source, before: SlotKind) -> SlotKind
    ensures { result ≡ moved source before }
{
    match source {
        Source::Keep(_) => before,
        Source::KeepNoHead(_) if before == SlotKind::Long => SlotKind::Unused,
        Source::KeepNoRest(_) if before == SlotKind::LongRest => SlotKind::Unused,
        Source::KeepNoHead(_) | Source::KeepNoRest(_) => before,
        Source::Gives(kind) => kind,
    }
}
