//! What inequalities between two ints join.

ghost use Rattle.std.specs.Prelude.{◌≡◌};
ghost use Rattle.wf_lattice.specs.declared.kind.NodeKind.{NodeKind};
ghost use Rattle.wf_eval.specs.TwoInts.{AreTwoInts, FitsSecond};

use crate::inequality::eval;
use crate::kept_words::KeptWords;
use std::alloc::Global;
use std::test::Fail;
use wf_base::{Cmp, Items, NodeId};
use wf_lattice::{IntValue, IntWord, NodeKind};
use wf_system::{Guard, Inequality, NodeShape, Shape, Side, ValueOp};

/// Two ints, and what inequalities between them look up.
#[derive(Drop)]
struct TwoInts {
    shape: Shape,
    side: Side,
    ghost two: { AreTwoInts shape side },
}

fn int_at(first_word: u32) -> NodeShape
    ensures kind { result.kind ≡ NodeKind.Int }
    ensures first_word { result.first_word ≡ first_word }
    ensures words { result.words ≡ 1 }
{
    NodeShape {
        kind: NodeKind::Int,
        first_word,
        words: 1,
    }
}

/// The two ints, where there is memory for them.
fn two_ints(alloc: Global) -> Option<TwoInts> {
    let mut nodes = Items::new(alloc);
    if nodes.push(int_at(0)).is_err() {
        return None;
    }
    if nodes.push(int_at(1)).is_err() {
        return None;
    }
    let side = Side::new(
        NodeId(0),
        Items::new(alloc),
        Items::new(alloc),
        Items::new(alloc),
        Items::new(alloc),
        Items::new(alloc),
    );
    Some(TwoInts {
        shape: Shape::new(nodes),
        side,
    })
}

/// What a value joins into the second int, where the first isn't empty.
#[tactic(auto, using(crate::proofs::TwoIntsLaws::two_are_shaped, crate::proofs::TwoIntsLaws::two_have_words, crate::proofs::TwoIntsLaws::second_has_a_word, crate::proofs::TwoIntsLaws::second_fits))]
fn joined(ints: &TwoInts, value: ValueOp<NodeId>, first: IntWord) -> IntValue
    requires { FitsSecond ints.now.shape ints.now.side value }
{
    let row = Inequality {
        target: NodeId(1),
        guard: Guard::NonEmpty(NodeId(0)),
        value,
    };
    let words = [first.0, 0];
    let mut kept = KeptWords::new(&words);
    IntWord(eval(&ints.side, &ints.shape, 0, row, 0, &mut kept)).value()
}

/// A guard that doesn't hold, a constant, a copy, and what is left of an int where it is less than 10.
#[test]
fn ints_are_joined(rt: HostRuntime) -> Result<(), Fail> {
    let Some(ints) = two_ints(rt.alloc()) else {
        return Ok(());
    };
    let constant = ValueOp::IntIs(5);
    assert_eq!(rt; joined(&ints, constant, IntWord::empty()), IntValue::Empty);
    assert_eq!(rt; joined(&ints, constant, IntWord::of(1)), IntValue::Is(5));
    let copy = ValueOp::Copy(NodeId(0));
    assert_eq!(rt; joined(&ints, copy, IntWord::of(7)), IntValue::Is(7));
    let less = ValueOp::IntRefineBy(Cmp::Lt, NodeId(0), 10);
    assert_eq!(rt; joined(&ints, less, IntWord::of(7)), IntValue::Is(7));
    assert_eq!(rt; joined(&ints, less, IntWord::of(12)), IntValue::Empty);
    assert_eq!(rt; joined(&ints, less, IntWord::any()), IntValue::Any);
    Ok(())
}
