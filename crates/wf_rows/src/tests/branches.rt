use super::{at, gives, says};
use crate::action::Action;
use crate::node::{Node, Own};
use std::test::Fail;
use wf_base::{Cmp, Items};
use wf_data::Case;
use wf_operation::{Equality, Next, Test};
use wf_system::{Inequality, ValueOp};

fn left(edge: usize, operand: u8, value: ValueOp<Node<Own>>) -> Inequality<Node<Own>> {
    at(
        Node::In(Own::Refined {
            pc: 9,
            edge,
            operand,
        }),
        value,
    )
}

/// `iflt` and `ifnull`: the jump and the fall-through.
#[test]
fn of_one_operand(rt: HostRuntime) -> Result<(), Fail> {
    let less = Next::Branches {
        test: Test::ToZero(Cmp::Lt),
        target: 20,
    };
    let rows = [
        left(0, 1, ValueOp::IntRefineBy(Cmp::Lt, gives(4), 0)),
        left(1, 1, ValueOp::IntRefineBy(Cmp::Ge, gives(4), 0)),
    ];
    says(&rt, rt.alloc(), &less, &Action::Moves, &rows)?;
    let null = Next::Branches {
        test: Test::ToNull(Equality::Same),
        target: 20,
    };
    let rows = [
        left(0, 1, ValueOp::OnlyNull(gives(4))),
        left(1, 1, ValueOp::NoNull(gives(4))),
    ];
    says(&rt, rt.alloc(), &null, &Action::Moves, &rows)
}

/// `if_icmplt` and `if_acmpne`: operand 1 stands below operand 2.
#[test]
fn of_two_operands(rt: HostRuntime) -> Result<(), Fail> {
    let less = Next::Branches {
        test: Test::Ints(Cmp::Lt),
        target: 20,
    };
    let rows = [
        left(0, 1, ValueOp::IntRefine(Cmp::Lt, gives(3), gives(4))),
        left(0, 2, ValueOp::IntRefine(Cmp::Gt, gives(4), gives(3))),
        left(1, 1, ValueOp::IntRefine(Cmp::Ge, gives(3), gives(4))),
        left(1, 2, ValueOp::IntRefine(Cmp::Le, gives(4), gives(3))),
    ];
    says(&rt, rt.alloc(), &less, &Action::Moves, &rows)?;
    let different = Next::Branches {
        test: Test::Refs(Equality::Different),
        target: 20,
    };
    let rows = [
        left(0, 1, ValueOp::RefNe(gives(3), gives(4))),
        left(0, 2, ValueOp::RefNe(gives(4), gives(3))),
        left(1, 1, ValueOp::RefEq(gives(3), gives(4))),
        left(1, 2, ValueOp::RefEq(gives(4), gives(3))),
    ];
    says(&rt, rt.alloc(), &different, &Action::Moves, &rows)
}

/// A switch with two equal keys: each case has what is left.
#[test]
fn of_a_switch(rt: HostRuntime) -> Result<(), Fail> {
    let cases = [
        Case { key: 5, target: 20 },
        Case {
            key: -1,
            target: 21,
        },
        Case { key: 5, target: 22 },
    ];
    let switch = Next::Switches {
        cases: Items::from_vec(Vec::from_slice(rt.alloc(), &cases)?),
        default: 23,
    };
    let rows = [
        left(0, 1, ValueOp::IntRefineBy(Cmp::Eq, gives(4), 5)),
        left(1, 1, ValueOp::IntRefineBy(Cmp::Eq, gives(4), -1)),
        left(2, 1, ValueOp::IntRefineBy(Cmp::Eq, gives(4), 5)),
        left(3, 1, ValueOp::NotIn(gives(4), 40)),
    ];
    says(&rt, rt.alloc(), &switch, &Action::Moves, &rows)
}
