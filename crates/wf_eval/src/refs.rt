//! The plans of values on references: what is found once for all words of a target.

ghost use Rattle.std.specs.Prelude.{◌≡◌, ◌+◌, ◌*◌, ◌<◌, ◌≤◌, ℕ, if◌then◌else◌, length};
ghost use Rattle.wf_lattice.specs.declared.kind.NodeKind.{NodeKind};
ghost use Rattle.wf_lattice.specs.Ints.{constant_word};
ghost use Rattle.wf_lattice.specs.Order.{is_saturated};
ghost use Rattle.wf_system.specs.declared.inequality.ValueOp.{ValueOp};
ghost use Rattle.wf_system.specs.Shapes.{shape_at, all_words};
ghost use Rattle.wf_system.specs.System.{ref_words};
ghost use Rattle.wf_system.specs.Fits.{HasKind, AreShaped};
ghost use Rattle.wf_system.specs.Bodies.{tables_of};
ghost use Rattle.wf_eval.specs.Said.{Seen, SaidBool};
ghost use Rattle.wf_eval.specs.Reading.{span_row};
ghost use Rattle.wf_eval.specs.Plans.{MeaningFits, PlanFits, SaidPlan};

use crate::lookup::Lookup;
use crate::plan::{Mask, Meaning, Plan, Source, TypeSet};
use crate::words::Words;
use wf_base::{NodeId, TargetId, TypeId};
use wf_lattice::IntWord;

impl Lookup<'_> {
    /// The meaning of a node of references.
    pub(crate) fn meaning<W: Words>(&self, words: &mut W, a: NodeId) -> Meaning
        requires all { (W.seen words.old).count ≡ all_words self.now.shape.now }
        requires shaped { AreShaped (tables_of self.now.shape.now self.now.most self.now.side.now) }
        requires refs { HasKind (tables_of self.now.shape.now self.now.most self.now.side.now) a NodeKind.Refs }
        ensures of { result.of ≡ shape_at self.now.shape.now a.0 }
        ensures made { result.made ≡ shape_at self.now.shape.now self.now.side.now.inst.0 }
        ensures said { SaidBool (λ x. is_saturated self.now.most result.made.words (span_row x result.of)) (W.seen words.old) (W.seen words.new) result.saturated }
        ensures fits { MeaningFits self.now.shape.now result }
        ensures bits { length self.now.side.now.elems + 1 ≤ 64 * result.made.words }
    {
        let of = self.shape.node(a);
        let made = self.shape.node(self.side.inst);
        let saturated = self.is_saturated(words, of);
        Meaning {
            of,
            made,
            saturated,
        }
    }

    /// Null alone.
    pub(crate) fn only_null<W: Words>(&self, words: &mut W, a: NodeId, to: NodeId) -> u64
        requires all { (W.seen words.old).count ≡ all_words self.now.shape.now }
        requires shaped { AreShaped (tables_of self.now.shape.now self.now.most self.now.side.now) }
        requires refs { HasKind (tables_of self.now.shape.now self.now.most self.now.side.now) a NodeKind.Refs }
        ensures { SaidPlan self.now.shape.now self.now.most self.now.side.now (ValueOp.OnlyNull a) to (W.seen words.old) (W.seen words.new) (Plan.First result) }
    {
        let m = self.meaning(words, a);
        let null = self.holds(words, m, 1);
        flag_if(null)
    }

    /// The meaning without null.
    pub(crate) fn no_null<W: Words>(&self, words: &mut W, a: NodeId, to: NodeId) -> Plan
        requires all { (W.seen words.old).count ≡ all_words self.now.shape.now }
        requires shaped { AreShaped (tables_of self.now.shape.now self.now.most self.now.side.now) }
        requires refs { HasKind (tables_of self.now.shape.now self.now.most self.now.side.now) a NodeKind.Refs }
        ensures said { SaidPlan self.now.shape.now self.now.most self.now.side.now (ValueOp.NoNull a) to (W.seen words.old) (W.seen words.new) result }
        ensures fits { PlanFits self.now.shape.now self.now.side.now (ref_words (tables_of self.now.shape.now self.now.most self.now.side.now)) result }
    {
        let m = self.meaning(words, a);
        let set = TypeSet {
            there: true,
            words: m.made.words,
            from: Source::Meant(m),
            mask: Mask::All,
        };
        let over = self.is_over(words, set);
        Plan::Types(set, over, false)
    }

    /// The types under a class, and null.
    pub(crate) fn under<W: Words>(&self, words: &mut W, a: NodeId, u: TargetId, to: NodeId) -> Plan
        requires all { (W.seen words.old).count ≡ all_words self.now.shape.now }
        requires shaped { AreShaped (tables_of self.now.shape.now self.now.most self.now.side.now) }
        requires refs { HasKind (tables_of self.now.shape.now self.now.most self.now.side.now) a NodeKind.Refs }
        requires target { u.0 < length self.now.side.now.masks }
        ensures said { SaidPlan self.now.shape.now self.now.most self.now.side.now (ValueOp.Under a u) to (W.seen words.old) (W.seen words.new) result }
        ensures fits { PlanFits self.now.shape.now self.now.side.now (ref_words (tables_of self.now.shape.now self.now.most self.now.side.now)) result }
    {
        let m = self.meaning(words, a);
        let null = self.holds(words, m, 1);
        let set = TypeSet {
            there: true,
            words: m.made.words,
            from: Source::Meant(m),
            mask: Mask::Under(u),
        };
        let over = self.is_over(words, set);
        Plan::Types(set, over, null)
    }

    /// The types that pick a candidate at a site.
    pub(crate) fn picked<W: Words>(
        &self,
        words: &mut W,
        a: NodeId,
        site: u32,
        j: u32,
        to: NodeId,
    ) -> Plan
        requires all { (W.seen words.old).count ≡ all_words self.now.shape.now }
        requires shaped { AreShaped (tables_of self.now.shape.now self.now.most self.now.side.now) }
        requires refs { HasKind (tables_of self.now.shape.now self.now.most self.now.side.now) a NodeKind.Refs }
        requires site { site < length self.now.side.now.sites }
        ensures said { SaidPlan self.now.shape.now self.now.most self.now.side.now (ValueOp.Picked a site j) to (W.seen words.old) (W.seen words.new) result }
        ensures fits { PlanFits self.now.shape.now self.now.side.now (ref_words (tables_of self.now.shape.now self.now.most self.now.side.now)) result }
    {
        let m = self.meaning(words, a);
        let set = TypeSet {
            there: true,
            words: m.made.words,
            from: Source::Meant(m),
            mask: Mask::Picking(site, j),
        };
        let over = self.is_over(words, set);
        Plan::Types(set, over, false)
    }

    /// All types that are made and under a class.
    pub(crate) fn all_under<W: Words>(&self, words: &mut W, u: TargetId, to: NodeId) -> Plan
        requires all { (W.seen words.old).count ≡ all_words self.now.shape.now }
        requires shaped { AreShaped (tables_of self.now.shape.now self.now.most self.now.side.now) }
        requires refs { HasKind (tables_of self.now.shape.now self.now.most self.now.side.now) to NodeKind.Refs }
        requires target { u.0 < length self.now.side.now.masks }
        ensures said { SaidPlan self.now.shape.now self.now.most self.now.side.now (ValueOp.AllUnder u) to (W.seen words.old) (W.seen words.new) result }
        ensures fits { PlanFits self.now.shape.now self.now.side.now (ref_words (tables_of self.now.shape.now self.now.most self.now.side.now)) result }
    {
        let made = self.shape.node(self.side.inst);
        let set = TypeSet {
            there: true,
            words: made.words,
            from: Source::Made(made),
            mask: Mask::Under(u),
        };
        let over = self.is_over(words, set);
        Plan::Types(set, over, false)
    }

    /// The same, and null.
    pub(crate) fn some_under<W: Words>(&self, words: &mut W, u: TargetId, to: NodeId) -> Plan
        requires all { (W.seen words.old).count ≡ all_words self.now.shape.now }
        requires shaped { AreShaped (tables_of self.now.shape.now self.now.most self.now.side.now) }
        requires refs { HasKind (tables_of self.now.shape.now self.now.most self.now.side.now) to NodeKind.Refs }
        requires target { u.0 < length self.now.side.now.masks }
        ensures said { SaidPlan self.now.shape.now self.now.most self.now.side.now (ValueOp.SomeUnder u) to (W.seen words.old) (W.seen words.new) result }
        ensures fits { PlanFits self.now.shape.now self.now.side.now (ref_words (tables_of self.now.shape.now self.now.most self.now.side.now)) result }
    {
        let made = self.shape.node(self.side.inst);
        let set = TypeSet {
            there: true,
            words: made.words,
            from: Source::Made(made),
            mask: Mask::Under(u),
        };
        let over = self.is_over(words, set);
        Plan::Types(set, over, true)
    }

    /// What is in both meanings.
    pub(crate) fn equal<W: Words>(&self, words: &mut W, a: NodeId, b: NodeId, to: NodeId) -> Plan
        requires all { (W.seen words.old).count ≡ all_words self.now.shape.now }
        requires shaped { AreShaped (tables_of self.now.shape.now self.now.most self.now.side.now) }
        requires refs { HasKind (tables_of self.now.shape.now self.now.most self.now.side.now) a NodeKind.Refs }
        requires others { HasKind (tables_of self.now.shape.now self.now.most self.now.side.now) b NodeKind.Refs }
        ensures said { SaidPlan self.now.shape.now self.now.most self.now.side.now (ValueOp.RefEq a b) to (W.seen words.old) (W.seen words.new) result }
        ensures fits { PlanFits self.now.shape.now self.now.side.now (ref_words (tables_of self.now.shape.now self.now.most self.now.side.now)) result }
    {
        let m = self.meaning(words, a);
        let other = self.meaning(words, b);
        let first = self.holds(words, m, 1);
        let second = self.holds(words, other, 1);
        let set = TypeSet {
            there: true,
            words: m.made.words,
            from: Source::Meant(m),
            mask: Mask::AlsoIn(other),
        };
        let over = self.is_over(words, set);
        Plan::Types(set, over, first & second)
    }

    /// What isn't the other.
    pub(crate) fn unequal<W: Words>(&self, words: &mut W, a: NodeId, b: NodeId, to: NodeId) -> Plan
        requires all { (W.seen words.old).count ≡ all_words self.now.shape.now }
        requires shaped { AreShaped (tables_of self.now.shape.now self.now.most self.now.side.now) }
        requires refs { HasKind (tables_of self.now.shape.now self.now.most self.now.side.now) a NodeKind.Refs }
        requires others { HasKind (tables_of self.now.shape.now self.now.most self.now.side.now) b NodeKind.Refs }
        ensures said { SaidPlan self.now.shape.now self.now.most self.now.side.now (ValueOp.RefNe a b) to (W.seen words.old) (W.seen words.new) result }
        ensures fits { PlanFits self.now.shape.now self.now.side.now (ref_words (tables_of self.now.shape.now self.now.most self.now.side.now)) result }
    {
        let m = self.meaning(words, a);
        let other = self.meaning(words, b);
        let first = self.holds(words, m, 1);
        let second = self.holds(words, other, 1);
        let all = TypeSet {
            there: true,
            words: other.made.words,
            from: Source::Meant(other),
            mask: Mask::All,
        };
        let some = self.has_types(words, all);
        let set = TypeSet {
            there: some | second,
            words: m.made.words,
            from: Source::Meant(m),
            mask: Mask::All,
        };
        let over = self.is_over(words, set);
        Plan::Types(set, over, first & some)
    }

    /// The types of the second under a class, and null, where the first has a type.
    pub(crate) fn if_holds<W: Words>(
        &self,
        words: &mut W,
        a: NodeId,
        t: TypeId,
        b: NodeId,
        u: TargetId,
        to: NodeId,
    ) -> Plan
        requires all { (W.seen words.old).count ≡ all_words self.now.shape.now }
        requires shaped { AreShaped (tables_of self.now.shape.now self.now.most self.now.side.now) }
        requires refs { HasKind (tables_of self.now.shape.now self.now.most self.now.side.now) a NodeKind.Refs }
        requires others { HasKind (tables_of self.now.shape.now self.now.most self.now.side.now) b NodeKind.Refs }
        requires there { t.0 < length self.now.side.now.elems }
        requires target { u.0 < length self.now.side.now.masks }
        ensures said { SaidPlan self.now.shape.now self.now.most self.now.side.now (ValueOp.IfHolds a t b u) to (W.seen words.old) (W.seen words.new) result }
        ensures fits { PlanFits self.now.shape.now self.now.side.now (ref_words (tables_of self.now.shape.now self.now.most self.now.side.now)) result }
    {
        let m = self.meaning(words, a);
        let there = self.has_meaning(words, m, t.0 as u64);
        let other = self.meaning(words, b);
        let null = self.holds(words, other, 1);
        let set = TypeSet {
            there: there,
            words: other.made.words,
            from: Source::Meant(other),
            mask: Mask::Under(u),
        };
        let over = self.is_over(words, set);
        Plan::Types(set, over, there & null)
    }

    /// The int of a test of the meaning against a class.
    pub(crate) fn tested<W: Words>(&self, words: &mut W, a: NodeId, u: TargetId, to: NodeId) -> u64
        requires all { (W.seen words.old).count ≡ all_words self.now.shape.now }
        requires shaped { AreShaped (tables_of self.now.shape.now self.now.most self.now.side.now) }
        requires refs { HasKind (tables_of self.now.shape.now self.now.most self.now.side.now) a NodeKind.Refs }
        requires target { u.0 < length self.now.side.now.masks }
        ensures { SaidPlan self.now.shape.now self.now.most self.now.side.now (ValueOp.Tested a u) to (W.seen words.old) (W.seen words.new) (Plan.First result) }
    {
        let m = self.meaning(words, a);
        let inside = TypeSet {
            there: true,
            words: m.made.words,
            from: Source::Meant(m),
            mask: Mask::Under(u),
        };
        let one = self.has_types(words, inside);
        let outside = TypeSet {
            mask: Mask::NotUnder(u),
            ..inside
        };
        let other = self.has_types(words, outside);
        let null = self.holds(words, m, 1);
        int_if(one, 1) | int_if(other | null, 0)
    }

    /// The int 0, where the meaning has null.
    pub(crate) fn if_null<W: Words>(&self, words: &mut W, a: NodeId, to: NodeId) -> u64
        requires all { (W.seen words.old).count ≡ all_words self.now.shape.now }
        requires shaped { AreShaped (tables_of self.now.shape.now self.now.most self.now.side.now) }
        requires refs { HasKind (tables_of self.now.shape.now self.now.most self.now.side.now) a NodeKind.Refs }
        ensures { SaidPlan self.now.shape.now self.now.most self.now.side.now (ValueOp.IfNull a) to (W.seen words.old) (W.seen words.new) (Plan.First result) }
    {
        let m = self.meaning(words, a);
        let null = self.holds(words, m, 1);
        int_if(null, 0)
    }

    /// The candidates that types of the meaning pick.
    pub(crate) fn picks<W: Words>(&self, words: &mut W, a: NodeId, site: u32, to: NodeId) -> Plan
        requires all { (W.seen words.old).count ≡ all_words self.now.shape.now }
        requires shaped { AreShaped (tables_of self.now.shape.now self.now.most self.now.side.now) }
        requires refs { HasKind (tables_of self.now.shape.now self.now.most self.now.side.now) a NodeKind.Refs }
        requires site { site < length self.now.side.now.sites }
        ensures said { SaidPlan self.now.shape.now self.now.most self.now.side.now (ValueOp.Picks a site) to (W.seen words.old) (W.seen words.new) result }
        ensures fits { (n : ℕ) → PlanFits self.now.shape.now self.now.side.now n result }
    {
        let m = self.meaning(words, a);
        Plan::Candidates(m, site)
    }

    /// The elements of the array types of the meaning.
    pub(crate) fn elements<W: Words>(&self, words: &mut W, a: NodeId, to: NodeId) -> Plan
        requires all { (W.seen words.old).count ≡ all_words self.now.shape.now }
        requires shaped { AreShaped (tables_of self.now.shape.now self.now.most self.now.side.now) }
        requires refs { HasKind (tables_of self.now.shape.now self.now.most self.now.side.now) a NodeKind.Refs }
        ensures said { SaidPlan self.now.shape.now self.now.most self.now.side.now (ValueOp.ElementsOf a) to (W.seen words.old) (W.seen words.new) result }
        ensures fits { PlanFits self.now.shape.now self.now.side.now (ref_words (tables_of self.now.shape.now self.now.most self.now.side.now)) result }
    {
        let m = self.meaning(words, a);
        Plan::Elements(m)
    }
}

/// The word of an int, where it is to be given.
fn int_if(given: bool, int: i32) -> u64
    ensures { result ≡ (if given then constant_word int else 0) }
{
    if given { IntWord::of(int).0 } else { 0 }
}

/// The bit that says null, where it is to be set.
fn flag_if(null: bool) -> u64
    ensures { result ≡ (if null then 2 else 0) }
{
    if null { 2 } else { 0 }
}
