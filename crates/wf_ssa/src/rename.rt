//! What becomes of names along an edge.

ghost use Rattle.std.specs.Prelude.{◌≡◌, ◌<◌, ◌≤◌, ◌^◌, unwrap_or};
ghost use Rattle.wf_ssa.specs.Environments.{same_name, operand_slot, leaves, refined, refines, linked};

use crate::name::FlowName;
use wf_operation::{Effect, Link, Next, left_of, taken};

fn same_name(a: FlowName, b: FlowName) -> bool
    ensures { result ≡ same_name a b }
{
    match (a, b) {
        (FlowName::Nothing, FlowName::Nothing) | (FlowName::Entry, FlowName::Entry) => true,
        (FlowName::Par(i), FlowName::Par(j)) => i == j,
        (FlowName::Res(p), FlowName::Res(q)) => p == q,
        (
            FlowName::Refined { pc, edge, operand },
            FlowName::Refined {
                pc: q,
                edge: f,
                operand: r,
            },
        ) => pc == q && edge == f && operand == r,
        (FlowName::Blk(p), FlowName::Blk(q)) => p == q,
        (FlowName::Phi { pc, slot }, FlowName::Phi { pc: q, slot: j }) => pc == q && slot == j,
        (FlowName::Cat(i), FlowName::Cat(j)) => i == j,
        _ => false,
    }
}

/// The slot of an operand, where operand 1 stands below operand 2 and so many slots are in front of the instruction.
pub fn operand_slot(effect: &Effect, count: usize, operand: usize) -> usize
    requires few { count < 2 ^ 32 }
    requires low { operand ≤ 2 }
    ensures { result ≡ operand_slot effect.now count operand }
{
    (count.saturating_sub(taken(effect)) + operand).saturating_sub(1)
}

fn leaves(next: &Next, edge: usize, operand: u8) -> bool
    ensures { result ≡ leaves next.now edge operand }
{
    left_of(next, edge, operand).is_some()
}

/// Whether an instruction leaves something of an operand along its edges.
pub fn refines(next: &Next) -> bool
    ensures { result ≡ refines next.now }
{
    match next {
        Next::Branches { .. } | Next::Switches { .. } => true,
        Next::Falls | Next::Jumps { .. } | Next::Returns { .. } | Next::Throws => false,
    }
}

/// A flow along an edge of the instruction at a place, by the flows of its operands.
pub fn refined(
    pc: u16,
    next: &Next,
    edge: u32,
    one: FlowName,
    two: FlowName,
    name: FlowName,
) -> FlowName
    ensures { result ≡ refined pc next.now edge one two name }
{
    if leaves(next, edge as usize, 1) && same_name(name, one) {
        return FlowName::Refined {
            pc,
            edge,
            operand: 1,
        };
    }
    if leaves(next, edge as usize, 2) && same_name(name, two) {
        return FlowName::Refined {
            pc,
            edge,
            operand: 2,
        };
    }
    name
}

/// The predicate behind an instruction, by what its resolution means and whether it fails. None where it stays.
pub fn linked(pc: u16, link: Link, fails: bool) -> Option<FlowName>
    ensures { (before : FlowName) → unwrap_or result before ≡ linked pc link fails before }
{
    match link {
        Link::Plain if fails => Some(FlowName::Nothing),
        Link::Plain => None,
        Link::Calls if fails => Some(FlowName::Nothing),
        Link::Calls => Some(FlowName::Res(pc)),
        Link::Tests if fails => Some(FlowName::Res(pc)),
        Link::Tests => None,
    }
}
