ghost use Rattle.std.specs.Prelude.{◌≡◌, ◌+◌, ◌-◌, ◌^◌, ◌++◌, ◌∷◌, [], min, if◌then◌else◌};
ghost use Rattle.wf_io.specs.Log.{Listed, WasRead, is_failed, failures, events_of};

use crate::log::Log;
use crate::tree::{Entry, TreeFault};
use wf_base::{Items, Text};

/// What a call asked for at most, and what was answered.
#[derive(Drop)]
pub enum Answer {
    Entries(u32, Result<Items<Entry>, TreeFault>),
    Bytes(u32, Result<Text, TreeFault>),
}

/// The calls that were made of a tree: how many failed, and, for contracts alone, each with its answer.
#[derive(Drop)]
pub struct Calls {
    /// Up to the greatest number of 64 bits.
    failed: u64,
    log: Log<Text, Answer>,
    ghost counted: { failed ≡ failures (events_of log.items) },
}

impl Calls {
    ghost use Rattle.wf_io.specs.Calls.{log_of};

    /// Nothing was called yet.
    pub fn none() -> Calls
        ensures { log_of result ≡ [] }
    {
        Calls {
            failed: 0,
            log: Log::new(),
        }
    }

    /// How many calls failed.
    pub fn failures(&self) -> u64
        ensures { result ≡ failures (log_of self.now) }
    {
        self.failed
    }

    /// Notes a listing with its answer, and hands the answer on.
    pub fn listed(
        &mut self,
        dir: &Text,
        most: u32,
        answer: Result<Items<Entry>, TreeFault>,
    ) -> Result<Items<Entry>, TreeFault>
        ensures answer { result ≡ answer }
        ensures logged { log_of self.new ≡ log_of self.old ++ Listed dir.now most answer ∷ [] }
    {
        self.failed = counted(self.failed, &answer);
        let answer = Answer::Entries(most, answer);
        self.log = self.log.and(dir, &answer);
        match answer {
            Answer::Entries(_most, answer) => answer,
            Answer::Bytes(_most, _bytes) => unreachable!(),
        }
    }

    /// Notes a read with its answer, and hands the answer on.
    pub fn was_read(
        &mut self,
        path: &Text,
        most: u32,
        answer: Result<Text, TreeFault>,
    ) -> Result<Text, TreeFault>
        ensures answer { result ≡ answer }
        ensures logged { log_of self.new ≡ log_of self.old ++ WasRead path.now most answer ∷ [] }
    {
        self.failed = counted(self.failed, &answer);
        let answer = Answer::Bytes(most, answer);
        self.log = self.log.and(path, &answer);
        match answer {
            Answer::Bytes(_most, answer) => answer,
            Answer::Entries(_most, _entries) => unreachable!(),
        }
    }
}

/// The number of failed calls behind a call with this answer.
fn counted<X>(failed: u64, answer: &Result<X, TreeFault>) -> u64
    ensures { result ≡ (if is_failed answer.now then min (failed + 1) (2 ^ 64 - 1) else failed) }
{
    match answer {
        Err(TreeFault::Failed) => failed.saturating_add(1),
        Ok(_) | Err(TreeFault::More | TreeFault::NoMemory) => failed,
    }
}
