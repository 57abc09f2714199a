//! Where an instruction leads, and what is left of its operands there.

ghost use Rattle.std.specs.Prelude.{◌≡◌, ◌<◌, ◌^◌};
ghost use Rattle.wf_operation.specs.Nexts.{other, edge_count, target, ref_left, null_left, test_left, negated_test, case_left, left_of};

use crate::sort::Equality;
use wf_base::{Cmp, Items, Kind};
use wf_data::Case;

/// What a branch asks of its operands. Operand 1 stands below operand 2 on the stack.
#[derive(Clone, Copy, Debug, PartialEq, Eq)]
pub enum Test {
    /// Operand 1 against 0.
    ToZero(Cmp),
    /// Operand 1 against operand 2.
    Ints(Cmp),
    /// References, operand 1 and operand 2.
    Refs(Equality),
    /// Operand 1 against null.
    ToNull(Equality),
}

/// Where an instruction leads. Its edges are numbered: edge 0 of a branch is its jump and edge 1 its
/// fall-through; the edges of a switch are its cases in order, then the default.
#[derive(Debug, Drop)]
pub enum Next {
    /// To the instruction behind it.
    Falls,
    /// To this place.
    Jumps { target: u16 },
    /// To this place where the test holds, else to the instruction behind it.
    Branches { test: Test, target: u16 },
    /// To the place of the first case with the operand's key, else to the default.
    Switches { cases: Items<Case>, default: u16 },
    /// Out of the method, with a value of this kind, or none.
    Returns { kind: Option<Kind> },
    /// To a handler or out of the method.
    Throws,
}

/// What is left of an operand along an edge.
#[derive(Clone, Copy, Debug, PartialEq, Eq)]
pub enum Left {
    /// The ints that compare so to some int of the other operand.
    Compared(Cmp),
    /// The ints that compare so to this one.
    ComparedTo(Cmp, i32),
    /// The ints that are no key of the switch.
    NoKey,
    /// References that the other operand may hold too.
    SameRef,
    /// References that the other operand may differ from.
    OtherRef,
    /// Null alone.
    OnlyNull,
    /// All but null.
    NoNull,
}

fn other(equality: Equality) -> Equality
    ensures { result ≡ other equality }
{
    match equality {
        Equality::Same => Equality::Different,
        Equality::Different => Equality::Same,
    }
}

/// How many edges lead on, handlers aside.
pub fn edge_count(next: &Next) -> usize
    requires { edge_count next.now < 2 ^ 64 }
    ensures { result ≡ edge_count next.now }
{
    match next {
        Next::Falls | Next::Jumps { .. } => 1,
        Next::Branches { .. } => 2,
        Next::Switches { cases, .. } => cases.len() + 1,
        Next::Returns { .. } | Next::Throws => 0,
    }
}

/// Where an edge leads: to this place, or to the instruction behind (None).
pub fn target(next: &Next, edge: usize) -> Option<u16>
    ensures { result ≡ target next.now edge }
{
    match next {
        Next::Jumps { target } => Some(*target),
        Next::Branches { target, .. } if edge == 0 => Some(*target),
        Next::Switches { cases, default } => match cases.as_slice().get(edge) {
            Some(case) => Some(case.target),
            None => Some(*default),
        },
        Next::Falls | Next::Branches { .. } | Next::Returns { .. } | Next::Throws => None,
    }
}

fn ref_left(equality: Equality) -> Left
    ensures { result ≡ ref_left equality }
{
    match equality {
        Equality::Same => Left::SameRef,
        Equality::Different => Left::OtherRef,
    }
}

fn null_left(equality: Equality) -> Left
    ensures { result ≡ null_left equality }
{
    match equality {
        Equality::Same => Left::OnlyNull,
        Equality::Different => Left::NoNull,
    }
}

/// What is left of an operand where a test holds.
fn test_left(test: Test, operand: u8) -> Option<Left>
    ensures { result ≡ test_left test operand }
{
    match test {
        Test::ToZero(cmp) if operand == 1 => Some(Left::ComparedTo(cmp, 0)),
        Test::Ints(cmp) if operand == 1 => Some(Left::Compared(cmp)),
        Test::Ints(cmp) if operand == 2 => Some(Left::Compared(cmp.exchanged())),
        Test::Refs(equality) if operand == 1 || operand == 2 => Some(ref_left(equality)),
        Test::ToNull(equality) if operand == 1 => Some(null_left(equality)),
        Test::ToZero(_) | Test::Ints(_) | Test::Refs(_) | Test::ToNull(_) => None,
    }
}

/// The test that holds where this one doesn't.
fn negated_test(test: Test) -> Test
    ensures { result ≡ negated_test test }
{
    match test {
        Test::ToZero(cmp) => Test::ToZero(cmp.negated()),
        Test::Ints(cmp) => Test::Ints(cmp.negated()),
        Test::Refs(equality) => Test::Refs(other(equality)),
        Test::ToNull(equality) => Test::ToNull(other(equality)),
    }
}

fn case_left(cases: &[Case], edge: usize) -> Left
    ensures { result ≡ case_left cases.now edge }
{
    match cases.get(edge) {
        Some(case) => Left::ComparedTo(Cmp::Eq, case.key),
        None => Left::NoKey,
    }
}

/// What is left of operand 1 or 2 along an edge, where the edge says anything of it.
pub fn left_of(next: &Next, edge: usize, operand: u8) -> Option<Left>
    ensures { result ≡ left_of next.now edge operand }
{
    match next {
        Next::Branches { test, .. } if edge == 0 => test_left(*test, operand),
        Next::Branches { test, .. } => test_left(negated_test(*test), operand),
        Next::Switches { cases, .. } if operand == 1 => Some(case_left(cases.as_slice(), edge)),
        Next::Falls
        | Next::Jumps { .. }
        | Next::Switches { .. }
        | Next::Returns { .. }
        | Next::Throws => None,
    }
}
