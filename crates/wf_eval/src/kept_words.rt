ghost use Rattle.wf_eval.specs.Kept.{Tells};

use crate::log::Log;
use crate::words::Words;

/// The words of a slice, which nothing changes meanwhile.
#[derive(Drop)]
pub struct KeptWords<'a> {
    words: &'a [u64],
    log: Log<u32, u64>,
    ghost tells: { Tells words.now log.items },
}

impl<'a> KeptWords<'a> {
    ghost use Rattle.std.specs.Prelude.{◌≡◌, length, []};

    /// The words of a slice, of which nothing was asked yet.
    pub(crate) fn new(words: &'a [u64]) -> KeptWords<'a>
        ensures words { result.words.now ≡ words.now }
        ensures log { result.log.items ≡ [] }
    {
        KeptWords {
            words,
            log: Log::new(),
        }
    }
}

impl Words for KeptWords<'_> {
    ghost use Rattle.std.specs.Prelude.{length};

    ghost seen = { λ w. record { count = length w.words.now; kept = w.words.now; log = w.log.items } };

    fn word(&mut self, index: u32) -> u64 {
        let word = self.words[index as usize];
        self.log = self.log.and(&index, &word);
        word
    }
}
