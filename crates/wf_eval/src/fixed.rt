//! The same over words that nothing changes meanwhile: what is found is exact.

ghost use Rattle.std.specs.Prelude.{◌≡◌, ◌<◌, ℕ, length};
ghost use Rattle.wf_lattice.specs.Words.{IsWithin, words_of};
ghost use Rattle.wf_system.specs.Shapes.{shape_at, all_words};
ghost use Rattle.wf_system.specs.System.{guard_holds, given};
ghost use Rattle.wf_system.specs.Fits.{AreShaped, GuardFits, GuardIsThere, ValueFits, ValueIsThere};
ghost use Rattle.wf_system.specs.Bodies.{tables_of};
ghost use Rattle.wf_eval.specs.Reading.{rows_of};
ghost use Rattle.wf_eval.specs.Plans.{planned, PlanFits};

use crate::kept_words::KeptWords;
use crate::lookup::Lookup;
use crate::plan::Plan;
use wf_base::NodeId;
use wf_system::{Guard, ValueOp};

impl Lookup<'_> {
    /// Whether a guard holds in the words of a slice.
    pub fn guard_in(&self, words: &[u64], guard: Guard<NodeId>) -> bool
        requires all { length words.now ≡ all_words self.now.shape.now }
        requires shaped { AreShaped (tables_of self.now.shape.now self.now.most self.now.side.now) }
        requires fits { GuardFits (tables_of self.now.shape.now self.now.most self.now.side.now) guard }
        requires there { GuardIsThere (tables_of self.now.shape.now self.now.most self.now.side.now) guard }
        ensures { result ≡ guard_holds (tables_of self.now.shape.now self.now.most self.now.side.now) guard (rows_of self.now.shape.now (words_of words.now)) }
    {
        let mut kept = KeptWords::new(words);
        self.guard(&mut kept, guard)
    }

    /// The plan of a value in the words of a slice: it gives at least the value in them, and in words that
    /// have risen since then at most the value in those.
    pub fn plan_in(&self, words: &[u64], value: ValueOp<NodeId>, to: NodeId) -> Plan
        requires all { length words.now ≡ all_words self.now.shape.now }
        requires shaped { AreShaped (tables_of self.now.shape.now self.now.most self.now.side.now) }
        requires fits { ValueFits (tables_of self.now.shape.now self.now.most self.now.side.now) value to }
        requires there { ValueIsThere (tables_of self.now.shape.now self.now.most self.now.side.now) value }
        ensures low { IsWithin (given (tables_of self.now.shape.now self.now.most self.now.side.now) value (rows_of self.now.shape.now (words_of words.now)) to) (planned self.now.shape.now self.now.side.now result (words_of words.now)) }
        ensures high { (x : ℕ → ℕ) → IsWithin (words_of words.now) x →
            IsWithin (planned self.now.shape.now self.now.side.now result x) (given (tables_of self.now.shape.now self.now.most self.now.side.now) value (rows_of self.now.shape.now x) to) }
        ensures fits { PlanFits self.now.shape.now self.now.side.now (shape_at self.now.shape.now to.0).words result }
    {
        let mut kept = KeptWords::new(words);
        self.plan(&mut kept, value, to)
    }

    /// The word at place k of a plan, for a target of n words.
    pub fn word_in(&self, words: &[u64], plan: Plan, k: u32, n: u32) -> u64
        requires all { length words.now ≡ all_words self.now.shape.now }
        requires fits { PlanFits self.now.shape.now self.now.side.now n plan }
        requires inside { k < n }
        ensures { result ≡ planned self.now.shape.now self.now.side.now plan (words_of words.now) k }
    {
        let mut kept = KeptWords::new(words);
        self.word(&mut kept, plan, k, n)
    }
}
