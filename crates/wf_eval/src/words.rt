use crate::log::Log;

/// Words that are read one after another, while others may raise them.
pub trait Words {
    ghost use Rattle.std.specs.Prelude.{◌≡◌, ◌<◌, ◌++◌, ◌∷◌, []};
    ghost use Rattle.wf_eval.specs.Said.{Seen, Grows};

    /// How many words there are, what no call changes, and the answers.
    ghost seen: { Self → Seen };

    /// The word at an index, which has all bits of an earlier answer of this index.
    fn word(&mut self, index: u32) -> u64
        requires { index < (seen self.old).count }
        ensures log { (seen self.new).log ≡ (seen self.old).log ++ (index, result) ∷ [] }
        ensures count { (seen self.new).count ≡ (seen self.old).count }
        ensures kept { (seen self.new).kept ≡ (seen self.old).kept }
        ensures grows { Grows (seen self.old).log → Grows (seen self.new).log };
}
