ghost use Rattle.std.specs.Prelude.{◌≡◌, ◌<◌, if◌then◌else◌};
ghost use Rattle.wf_system.specs.Shapes.{shape_at, all_words};
ghost use Rattle.wf_system.specs.Fits.{AreShaped, Fits};
ghost use Rattle.wf_system.specs.Bodies.{tables_of};
ghost use Rattle.wf_eval.specs.Said.{Seen, SaidWord};
ghost use Rattle.wf_eval.specs.Reading.{rows_of};
ghost use Rattle.wf_eval.specs.Answers.{word_of, LiesBetween};

use crate::lookup::Lookup;
use crate::words::Words;
use wf_base::NodeId;
use wf_system::{Inequality, Shape, Side};

/// The word that an inequality joins into its target at place k. It lies between what the inequality joins
/// in any words that the answers are at least, and in any words that they are at most: so between what it
/// joins in the first answers and in the last ones, and over words that don't change it is exactly that.
pub fn eval<W: Words>(
    side: &Side,
    shape: &Shape,
    threshold: u32,
    ineq: Inequality<NodeId>,
    k: u32,
    words: &mut W,
) -> u64
    requires all { (W.seen words.old).count ≡ all_words shape.now }
    requires shaped { AreShaped (tables_of shape.now threshold side.now) }
    requires fits { Fits (tables_of shape.now threshold side.now) ineq }
    requires inside { k < (shape_at shape.now ineq.target.0).words }
    ensures bounds { SaidWord (λ x. word_of (tables_of shape.now threshold side.now) ineq (rows_of shape.now x) k) (W.seen words.old) (W.seen words.new) result }
    ensures answers { LiesBetween (λ x. word_of (tables_of shape.now threshold side.now) ineq (rows_of shape.now x) k) (W.seen words.old) (W.seen words.new) result }
{
    let lookup = Lookup::new(shape, side, threshold);
    if !lookup.guard(words, ineq.guard) {
        return 0;
    }
    let plan = lookup.plan(words, ineq.value, ineq.target);
    lookup.word(words, plan, k, shape.node(ineq.target).words)
}
