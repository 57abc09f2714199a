//! The plan of each value.

ghost use Rattle.std.specs.Prelude.{◌≡◌, ◌<◌, ℕ, length};
ghost use Rattle.wf_lattice.specs.declared.kind.NodeKind.{NodeKind};
ghost use Rattle.wf_system.specs.declared.inequality.ValueOp.{ValueOp};
ghost use Rattle.wf_system.specs.Shapes.{shape_at, all_words};
ghost use Rattle.wf_system.specs.Fits.{HasKind, AreShaped, ValueFits, ValueIsThere};
ghost use Rattle.wf_system.specs.Bodies.{tables_of};
ghost use Rattle.wf_system.specs.System.{given};
ghost use Rattle.wf_eval.specs.Said.{Seen};
ghost use Rattle.wf_eval.specs.Reading.{rows_of};
ghost use Rattle.wf_eval.specs.Plans.{planned, PlanFits, SaidPlan};

use crate::lookup::Lookup;
use crate::plan::Plan;
use crate::words::Words;
use wf_base::{Cmp, NodeId, TypeId};
use wf_lattice::{IntWord, NodeKind};
use wf_system::ValueOp;

impl Lookup<'_> {
    /// An int constant.
    fn int_is<W: Words>(&self, words: &mut W, c: i32, to: NodeId) -> u64
        ensures { SaidPlan self.now.shape.now self.now.most self.now.side.now (ValueOp.IntIs c) to (W.seen words.old) (W.seen words.new) (Plan.First result) }
    {
        let _ = words;
        IntWord::of(c).0
    }

    /// What is left of an int where it compares so with another.
    fn refined<W: Words>(&self, words: &mut W, cmp: Cmp, a: NodeId, b: NodeId, to: NodeId) -> u64
        requires all { (W.seen words.old).count ≡ all_words self.now.shape.now }
        requires shaped { AreShaped (tables_of self.now.shape.now self.now.most self.now.side.now) }
        requires left { HasKind (tables_of self.now.shape.now self.now.most self.now.side.now) a NodeKind.Int }
        requires right { HasKind (tables_of self.now.shape.now self.now.most self.now.side.now) b NodeKind.Int }
        ensures { SaidPlan self.now.shape.now self.now.most self.now.side.now (ValueOp.IntRefine cmp a b) to (W.seen words.old) (W.seen words.new) (Plan.First result) }
    {
        let left = self.word_of(words, self.shape.node(a), 0);
        let right = self.word_of(words, self.shape.node(b), 0);
        IntWord(left).refine(cmp, IntWord(right)).0
    }

    /// The same with a constant.
    fn refined_by<W: Words>(&self, words: &mut W, cmp: Cmp, a: NodeId, j: i32, to: NodeId) -> u64
        requires all { (W.seen words.old).count ≡ all_words self.now.shape.now }
        requires shaped { AreShaped (tables_of self.now.shape.now self.now.most self.now.side.now) }
        requires left { HasKind (tables_of self.now.shape.now self.now.most self.now.side.now) a NodeKind.Int }
        ensures { SaidPlan self.now.shape.now self.now.most self.now.side.now (ValueOp.IntRefineBy cmp a j) to (W.seen words.old) (W.seen words.new) (Plan.First result) }
    {
        let left = self.word_of(words, self.shape.node(a), 0);
        IntWord(left).refine(cmp, IntWord::of(j)).0
    }

    /// What is left of an int that is none of the keys.
    fn not_in<W: Words>(&self, words: &mut W, a: NodeId, place: u32, to: NodeId) -> u64
        requires all { (W.seen words.old).count ≡ all_words self.now.shape.now }
        requires shaped { AreShaped (tables_of self.now.shape.now self.now.most self.now.side.now) }
        requires left { HasKind (tables_of self.now.shape.now self.now.most self.now.side.now) a NodeKind.Int }
        requires keys { place < length self.now.side.now.keys }
        ensures { SaidPlan self.now.shape.now self.now.most self.now.side.now (ValueOp.NotIn a place) to (W.seen words.old) (W.seen words.new) (Plan.First result) }
    {
        let left = self.word_of(words, self.shape.node(a), 0);
        IntWord(left).not_in(self.side.keys(place)).0
    }

    /// One type: all of it into the types that are made, and elsewhere only where it is made.
    fn one_type(&self, t: TypeId, to: NodeId) -> Plan
        requires shaped { AreShaped (tables_of self.now.shape.now self.now.most self.now.side.now) }
        requires fits { ValueFits (tables_of self.now.shape.now self.now.most self.now.side.now) (ValueOp.OneType t) to }
        ensures given { (x : ℕ → ℕ) (k : ℕ) → planned self.now.shape.now self.now.side.now result x k ≡ given (tables_of self.now.shape.now self.now.most self.now.side.now) (ValueOp.OneType t) (rows_of self.now.shape.now x) to k }
        ensures fits { PlanFits self.now.shape.now self.now.side.now (shape_at self.now.shape.now to.0).words result }
    {
        match self.shape.node(to).kind {
            NodeKind::Inst => Plan::OneType(t),
            _ => Plan::IfMade(t, self.shape.node(self.side.inst)),
        }
    }

    /// The plan of a value for a target.
    pub fn plan<W: Words>(&self, words: &mut W, value: ValueOp<NodeId>, to: NodeId) -> Plan
        requires all { (W.seen words.old).count ≡ all_words self.now.shape.now }
        requires shaped { AreShaped (tables_of self.now.shape.now self.now.most self.now.side.now) }
        requires fits { ValueFits (tables_of self.now.shape.now self.now.most self.now.side.now) value to }
        requires there { ValueIsThere (tables_of self.now.shape.now self.now.most self.now.side.now) value }
        ensures said { SaidPlan self.now.shape.now self.now.most self.now.side.now value to (W.seen words.old) (W.seen words.new) result }
        ensures fits { PlanFits self.now.shape.now self.now.side.now (shape_at self.now.shape.now to.0).words result }
    {
        match value {
            ValueOp::Token => Plan::First(1),
            ValueOp::IntIs(c) => Plan::First(self.int_is(words, c, to)),
            ValueOp::AnyInt => Plan::First(u64::MAX),
            ValueOp::AnyLong => Plan::First(1),
            ValueOp::NullRef => Plan::OneType(TypeId(0)),
            ValueOp::OneType(t) => self.one_type(t, to),
            ValueOp::Copy(a) => Plan::Row(self.shape.node(a)),
            ValueOp::IntRefine(cmp, a, b) => Plan::First(self.refined(words, cmp, a, b, to)),
            ValueOp::IntRefineBy(cmp, a, j) => Plan::First(self.refined_by(words, cmp, a, j, to)),
            ValueOp::NotIn(a, place) => Plan::First(self.not_in(words, a, place, to)),
            ValueOp::RefEq(a, b) => self.equal(words, a, b, to),
            ValueOp::RefNe(a, b) => self.unequal(words, a, b, to),
            ValueOp::OnlyNull(a) => Plan::First(self.only_null(words, a, to)),
            ValueOp::NoNull(a) => self.no_null(words, a, to),
            ValueOp::Under(a, u) => self.under(words, a, u, to),
            ValueOp::AllUnder(u) => self.all_under(words, u, to),
            ValueOp::SomeUnder(u) => self.some_under(words, u, to),
            ValueOp::Picked(a, site, j) => self.picked(words, a, site, j, to),
            ValueOp::Picks(a, site) => self.picks(words, a, site, to),
            ValueOp::Tested(a, u) => Plan::First(self.tested(words, a, u, to)),
            ValueOp::ElementsOf(a) => self.elements(words, a, to),
            ValueOp::IfHolds(a, t, b, u) => self.if_holds(words, a, t, b, u, to),
            ValueOp::IfNull(a) => Plan::First(self.if_null(words, a, to)),
        }
    }
}
