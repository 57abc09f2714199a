//! What instructions do that name nothing, by their opcodes (JVMS 7).

use crate::action::{Action, ArrayUse, Computation};
use crate::plain::plain_action;
use wf_base::Kind;
use wf_operation::sort_of;

fn action(op: u8) -> Option<Action> {
    plain_action(sort_of(op)?, 7)
}

#[test]
fn computations(rt: HostRuntime) {
    let cases = [
        (0x01, Computation::Null),
        (0x09, Computation::AnyLong),
        (0x10, Computation::Int(7)),
        (0x11, Computation::Int(7)),
        (0x14, Computation::AnyLong),
        (0x60, Computation::AnyInt),
        (0x61, Computation::AnyLong),
        (0x64, Computation::AnyInt),
        (0x69, Computation::AnyLong),
        (0x6C, Computation::IntQuotient),
        (0x6D, Computation::LongQuotient),
        (0x70, Computation::IntQuotient),
        (0x71, Computation::LongQuotient),
        (0x74, Computation::AnyInt),
        (0x75, Computation::AnyLong),
        (0x78, Computation::AnyInt),
        (0x7D, Computation::AnyLong),
        (0x82, Computation::AnyInt),
        (0x84, Computation::AnyInt),
        (0x85, Computation::AnyLong),
        (0x88, Computation::AnyInt),
        (0x91, Computation::AnyInt),
        (0x94, Computation::AnyInt),
    ];
    for (op, expected) in cases {
        let done = match action(op) {
            Some(Action::Computes(computation)) => Some(computation),
            _ => None,
        };
        assert_eq!(rt; done, Some(expected), "opcode {op}");
    }
}

#[test]
fn arrays(rt: HostRuntime) {
    let cases = [
        (0x2E, ArrayUse::LoadInt),
        (0x2F, ArrayUse::LoadLong),
        (0x32, ArrayUse::LoadRef),
        (0x33, ArrayUse::LoadInt),
        (0x35, ArrayUse::LoadInt),
        (0x4F, ArrayUse::StoreNumber),
        (0x50, ArrayUse::StoreNumber),
        (0x53, ArrayUse::StoreRef),
        (0x54, ArrayUse::StoreNumber),
        (0xBE, ArrayUse::Length),
    ];
    for (op, expected) in cases {
        let done = match action(op) {
            Some(Action::Array(array)) => Some(array),
            _ => None,
        };
        assert_eq!(rt; done, Some(expected), "opcode {op}");
    }
}

#[test]
fn control(rt: HostRuntime) {
    let moves = [0x00, 0x15, 0x3A, 0x57, 0x5F, 0x99, 0xA6, 0xA7, 0xAB, 0xC6];
    for op in moves {
        assert!(rt; matches!(action(op), Some(Action::Moves)), "opcode {op}");
    }
    let returns = [
        (0xAC, Some(Kind::Int)),
        (0xAD, Some(Kind::Long)),
        (0xB0, Some(Kind::Ref)),
        (0xB1, None),
    ];
    for (op, expected) in returns {
        let done = match action(op) {
            Some(Action::Returns(kind)) => Some(kind),
            _ => None,
        };
        assert_eq!(rt; done, Some(expected), "opcode {op}");
    }
    assert!(rt; matches!(action(0xBF), Some(Action::Throws)));
    assert!(rt; matches!(action(0xC2), Some(Action::Monitors)));
    assert!(rt; matches!(action(0xC3), Some(Action::Monitors)));
    let named = [
        0x12, 0xB2, 0xB5, 0xB6, 0xB8, 0xBB, 0xBC, 0xBD, 0xC0, 0xC1, 0xC5,
    ];
    for op in named {
        assert!(rt; action(op).is_none(), "opcode {op}");
    }
}
