//! An inequality joined into the words of its target: the whole of it, at the cost of a constant times the
//! words of its sources.

ghost use Rattle.std.specs.Prelude.{◌≡◌, ◌<◌, length};
ghost use Rattle.wf_system.specs.Shapes.{all_words};
ghost use Rattle.wf_system.specs.Fits.{AreShaped, Fits};
ghost use Rattle.wf_system.specs.Bodies.{tables_of};
ghost use Rattle.wf_eval.specs.Raising.{Raises, JoinsWord};

use crate::lookup::Lookup;
use wf_base::NodeId;
use wf_system::Inequality;

impl Lookup<'_> {
    /// Joins an inequality into the words of its target, and says whether some word rose.
    pub fn raise(&self, words: &mut [u64], q: Inequality<NodeId>) -> bool
        requires all { length words.old ≡ all_words self.now.shape.now }
        requires shaped { AreShaped (tables_of self.now.shape.now self.now.most self.now.side.now) }
        requires fits { Fits (tables_of self.now.shape.now self.now.most self.now.side.now) q }
        ensures { Raises self.now.shape.now (tables_of self.now.shape.now self.now.most self.now.side.now) q words.old words.new result }
    {
        if !self.guard_in(words, q.guard) {
            return false;
        }
        let plan = self.plan_in(words, q.value, q.target);
        let at = self.shape.node(q.target);
        let mut changed = false;
        for k in 0..at.words {
            let bits = self.word_in(words, plan, k, at.words);
            let rose = join_at(words, (at.first_word + k) as usize, bits);
            changed = changed | rose;
        }
        changed
    }
}

/// Joins bits into a word, and says whether it rose.
fn join_at(words: &mut [u64], place: usize, bits: u64) -> bool
    requires { place < length words.old }
    ensures { JoinsWord place bits words.old words.new result }
{
    let old = words[place];
    let new = old | bits;
    if new == old {
        return false;
    }
    words[place] = new;
    true
}
