ghost use Rattle.std.specs.Prelude.{◌≡◌, ◌≤◌, ◌<◌, ◌++◌, ◌⊎◌, [], Some, Ok, length, take, vec_capacity, IsErr, IfOk, OnErr};
ghost use Rattle.wf_io.specs.Faults.{Rose};

use crate::failing::Failing;
use crate::sink::{Sink, SinkFault};
use std::alloc::{AllocError, Global};
use wf_base::Items;

/// A sink in memory, which fails where it is told to. Its writes of pieces that aren't empty are numbered
/// from 0. They take no memory.
#[derive(Debug, Drop)]
pub struct SinkMem {
    bytes: Vec<u8>,
    room: usize,
    step: usize,
    failing: Failing,
    faults: u64,
    ghost steps: { 1 ≤ step },
    ghost fits: { length bytes.items ≤ room },
    ghost reserved: { room ≤ vec_capacity bytes },
}

impl SinkMem {
    ghost use Rattle.wf_io.specs.InMemory.{bytes_of, room_of, step_of, faults_of, failing_writes, numbers_from};

    /// A sink with room for so many bytes, which it reserves. It takes at most `step` bytes of a piece. The
    /// writes with these numbers fail.
    pub fn new(
        alloc: Global,
        room: usize,
        step: usize,
        failing: Items<u64>,
    ) -> Result<SinkMem, AllocError>
        requires room { 1 ≤ room }
        requires step { 1 ≤ step }
        ensures bytes { IfOk result (λ sink. bytes_of sink ≡ []) }
        ensures room { IfOk result (λ sink. room_of sink ≡ room) }
        ensures step { IfOk result (λ sink. step_of sink ≡ step) }
        ensures failing { IfOk result (λ sink. failing_writes sink ≡ numbers_from failing 0) }
        ensures faults { IfOk result (λ sink. faults_of sink ≡ 0) }
    {
        let bytes = Vec::with_capacity(alloc, room)?;
        Ok(SinkMem {
            bytes,
            room,
            step,
            failing: Failing::new(failing),
            faults: 0,
        })
    }

    /// The bytes taken.
    pub fn bytes(&self) -> &[u8]
        ensures { result.now ≡ bytes_of self.now }
    {
        self.bytes.as_slice()
    }

    /// Counts a fault.
    fn fail(&mut self) -> SinkFault
        ensures rose { Rose (faults_of self.old) (faults_of self.new) }
        ensures grows { faults_of self.old ≤ faults_of self.new }
        ensures bytes { self.new.bytes ≡ self.old.bytes }
        ensures room { room_of self.new ≡ room_of self.old }
        ensures step { step_of self.new ≡ step_of self.old }
        ensures failing { failing_writes self.new ≡ failing_writes self.old }
    {
        self.faults = self.faults.saturating_add(1);
        SinkFault::Failed
    }
}

impl Sink for SinkMem {
    ghost use Rattle.wf_io.specs.InMemory.{bytes_of, room_of, faults_of, failing_writes, taken_of, FailsNext, CountsWrite};

    ghost taken = { λ s. Some (bytes_of s) };

    ghost count = { faults_of };

    ghost takes_empty = { λ _. Unit {0} };

    fn write(&mut self, piece: &[u8]) -> Result<usize, SinkFault>
        ensures took { IfOk result (λ n. bytes_of self.new ≡ bytes_of self.old ++ take n piece.now) }
        ensures some { 0 < length piece.now → IfOk result (λ n. 0 < n) }
        ensures within { IfOk result (λ n. n ≤ length piece.now) }
        ensures nothing { length piece.now ≡ 0 → result ≡ Ok 0 }
        ensures rose { OnErr result (Rose (faults_of self.old) (faults_of self.new)) }
        ensures err { OnErr result (bytes_of self.new ≡ bytes_of self.old) }
        ensures grows { faults_of self.old ≤ faults_of self.new }

        // It takes all that its step and its room allow.
        ensures exact { IfOk result (λ n. n ≡ taken_of self.old (length piece.now)) }

        // The writes that fail are those that are told to, and those that find no room.
        ensures only { OnErr result
            (FailsNext (failing_writes self.old) ⊎ (length (bytes_of self.old) ≡ room_of self.old)) }
        ensures always { FailsNext (failing_writes self.old) → 0 < length piece.now → IsErr result }
        ensures counted { 0 < length piece.now → CountsWrite self.old self.new }
        ensures uncounted { length piece.now ≡ 0 → self.new ≡ self.old }
    {
        if piece.is_empty() {
            return Ok(0);
        }
        let taken = piece.len().min(self.step).min(self.room - self.bytes.len());
        if self.failing.fails_next() {
            return Err(self.fail());
        }
        if taken == 0 {
            return Err(self.fail());
        }
        match self.bytes.extend_from_slice(&piece[..taken]) {
            Ok(()) => Ok(taken),
            Err(_) => unreachable!(),
        }
    }

    fn faults(&self) -> u64 {
        self.faults
    }
}
