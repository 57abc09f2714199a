//! Small systems, solved by hand.

use crate::solver::solve;
use std::test::Fail;
use wf_sys::{Flow, Guard, Inequality, ValueOp};

/// A chain that each pass carries on by one node, since its rows stand from the last to the first.
#[test]
fn a_chain_is_followed_to_its_end(rt: HostRuntime) {
    let system = [
        Inequality {
            target: 3,
            guard: Guard::NonEmpty(2),
            value: ValueOp::IntIs(-7),
        },
        Inequality {
            target: 2,
            guard: Guard::NonEmpty(1),
            value: ValueOp::Token,
        },
        Inequality {
            target: 1,
            guard: Guard::NonEmpty(0),
            value: ValueOp::Token,
        },
    ];
    let mut values = [
        Flow::Set,
        Flow::Empty,
        Flow::Empty,
        Flow::Empty,
        Flow::Empty,
    ];
    solve(&system, &mut values);
    let want = [Flow::Set, Flow::Set, Flow::Set, Flow::Is(-7), Flow::Empty];
    assert!(rt; values == want);
}

/// Two constants meet in any, and go round a cycle once more.
#[test]
fn two_constants_are_any(rt: HostRuntime) {
    let system = [
        Inequality {
            target: 0,
            guard: Guard::Always,
            value: ValueOp::Copy(1),
        },
        Inequality {
            target: 1,
            guard: Guard::Always,
            value: ValueOp::Copy(0),
        },
        Inequality {
            target: 1,
            guard: Guard::NonEmpty(0),
            value: ValueOp::IntIs(2),
        },
        Inequality {
            target: 2,
            guard: Guard::NonEmpty(7),
            value: ValueOp::Token,
        },
        Inequality {
            target: 3,
            guard: Guard::Always,
            value: ValueOp::IntIs(2),
        },
    ];
    let mut values = [Flow::Is(1), Flow::Empty, Flow::Empty, Flow::Is(2)];
    solve(&system, &mut values);
    let want = [Flow::Any, Flow::Any, Flow::Empty, Flow::Is(2)];
    assert!(rt; values == want);
}
