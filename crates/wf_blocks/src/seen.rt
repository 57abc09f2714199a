//! Sets of slot kinds.

ghost use Rattle.std.specs.Prelude.{◌≡◌};
ghost use Rattle.wf_blocks.specs.SeenKinds.{has, only, both, adds, through, all_allowed, kind_seen};

use wf_operation::{SlotKind, Source, Wanted, allows};

/// The kinds that paths leave in a slot.
#[derive(Clone, Copy, Debug, PartialEq, Eq)]
pub struct Seen {
    pub int: bool,
    pub reference: bool,
    pub long: bool,
    pub rest: bool,
    pub unused: bool,
}

impl Seen {
    pub const NONE: Seen = Seen {
        int: false,
        reference: false,
        long: false,
        rest: false,
        unused: false,
    };
}

/// One kind alone.
pub fn only(kind: SlotKind) -> Seen
    ensures { result ≡ only kind }
{
    Seen {
        int: kind == SlotKind::Int,
        reference: kind == SlotKind::Ref,
        long: kind == SlotKind::Long,
        rest: kind == SlotKind::LongRest,
        unused: kind == SlotKind::Unused,
    }
}

/// The kinds of both.
pub fn both(a: Seen, b: Seen) -> Seen
    ensures { result ≡ both a b }
{
    Seen {
        int: a.int || b.int,
        reference: a.reference || b.reference,
        long: a.long || b.long,
        rest: a.rest || b.rest,
        unused: a.unused || b.unused,
    }
}

/// Whether the second has a kind that the first doesn't have.
pub fn adds(a: Seen, b: Seen) -> bool
    ensures { result ≡ adds a b }
{
    (b.int && !a.int)
        || (b.reference && !a.reference)
        || (b.long && !a.long)
        || (b.rest && !a.rest)
        || (b.unused && !a.unused)
}

/// The kinds of a slot behind an instruction, by its source, where these are the kinds in front of it of the slot
/// that the source names.
pub fn through(source: Source, before: Seen) -> Seen
    ensures { result ≡ through source before }
{
    match source {
        Source::Keep(_) => before,
        Source::KeepNoHead(_) => Seen {
            int: before.int,
            reference: before.reference,
            long: false,
            rest: before.rest,
            unused: before.unused || before.long,
        },
        Source::KeepNoRest(_) => Seen {
            int: before.int,
            reference: before.reference,
            long: before.long,
            rest: false,
            unused: before.unused || before.rest,
        },
        Source::Gives(kind) => only(kind),
    }
}

/// Whether each of the kinds is as it is wanted.
pub fn all_allowed(wanted: Wanted, seen: Seen) -> bool
    ensures { result ≡ all_allowed wanted seen }
{
    (!seen.int || allows(wanted, SlotKind::Int))
        && (!seen.reference || allows(wanted, SlotKind::Ref))
        && (!seen.long || allows(wanted, SlotKind::Long))
        && (!seen.rest || allows(wanted, SlotKind::LongRest))
        && (!seen.unused || allows(wanted, SlotKind::Unused))
}

/// The kind, where it is the only one, else `Unused`.
pub fn kind_seen(seen: Seen) -> SlotKind
    ensures { result ≡ kind_seen seen }
{
    if seen.unused {
        return SlotKind::Unused;
    }
    match (seen.int, seen.reference, seen.long, seen.rest) {
        (true, false, false, false) => SlotKind::Int,
        (false, true, false, false) => SlotKind::Ref,
        (false, false, true, false) => SlotKind::Long,
        (false, false, false, true) => SlotKind::LongRest,
        _ => SlotKind::Unused,
    }
}
