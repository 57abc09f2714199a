//! A system of one int and no inequality.

ghost use Rattle.std.specs.Prelude.{◌≡◌, ◌<◌, length, [], ◌∷◌};
ghost use Rattle.wf_solve.specs.OneInt.{int_node, no_rows, IsOneInt};

use crate::solver::solve;
use crate::steps::Steps;
use crate::worklist::Worklist;
use std::alloc::{AllocError, Global};
use std::marker::Brand;
use std::sync::ledger::{Blank, Ledger};
use std::test::Fail;
use wf_base::{Items, NodeId};
use wf_lattice::NodeKind;
use wf_system::{Bodies, NodeShape, Readers, Shape, Side};

/// The bodies that mean the system.
#[derive(Drop)]
struct OneInt {
    shape: Shape,
    side: Side,
    ghost one: { IsOneInt shape side },
}

impl Bodies for OneInt {
    ghost use Rattle.std.specs.Prelude.{true};
    ghost use Rattle.wf_solve.specs.OneInt.{no_rows};

    ghost system = { λ b. no_rows b.shape b.side };

    ghost all_built = { λ _. true };

    fn shape(&self) -> &Shape {
        &self.shape
    }

    fn threshold(&self) -> u32 {
        0
    }

    fn side(&self) -> &Side {
        &self.side
    }

    #[tactic(auto, using(crate::proofs::OneIntLaws::no_readers))]
    fn readers(&self, alloc: Global, node: NodeId) -> Result<Readers<'_>, AllocError> {
        Ok(Readers::Kept(&[]))
    }
}

/// The system's bodies, where there is memory for its node.
fn one_int(alloc: Global) -> Option<OneInt> {
    let mut nodes = Items::new(alloc);
    let node = NodeShape {
        kind: NodeKind::Int,
        first_word: 0,
        words: 1,
    };
    if nodes.push(node).is_err() {
        return None;
    }
    let side = Side::new(
        NodeId(0),
        Items::new(alloc),
        Items::new(alloc),
        Items::new(alloc),
        Items::new(alloc),
        Items::new(alloc),
    );
    Some(OneInt {
        shape: Shape::new(nodes),
        side,
    })
}

/// The words of the system, solved.
#[tactic(auto, using(crate::proofs::OneIntLaws::one_int_fits, crate::proofs::OneIntLaws::one_int_has_a_word, crate::proofs::OneIntLaws::one_int_is_covered))]
fn solved<L: Ledger>(
    alloc: Global,
    blank: Blank,
    bodies: &OneInt,
    words: &mut [u64],
) -> Result<(), AllocError>
    requires name { blank.name ≡ L.name }
    requires parts { blank.parts ≡ L.parts }
    requires some { 0 < blank.parts }
    requires words { length words.old ≡ 1 }
{
    let (book, share) = blank.open::<L>();
    let mut steps = Steps::new(book, share);
    let mut work = Worklist::open(alloc, 1)?;
    solve(alloc, bodies, words, &mut work, &mut steps)
}

/// An int that nothing joins stays as it is.
#[test]
fn an_int_without_inequalities_stays(rt: HostRuntime) -> Result<(), Fail> {
    let Some(bodies) = one_int(rt.alloc()) else {
        return Ok(());
    };
    let mut words = [0u64];
    solved::<Brand>(rt.alloc(), Blank::new(1), &bodies, &mut words)?;
    assert_eq!(rt; words[0], 0);
    Ok(())
}
