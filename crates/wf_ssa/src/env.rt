//! The environments of a method.

ghost use Rattle.std.specs.Prelude.{◌≡◌, ℕ, ◌<◌, Bool, List, length, Some, None, IfOk};
ghost use Rattle.wf_blocks.specs.Answers.{place_of, AreReached};
ghost use Rattle.wf_ssa.specs.Environments.{name_at, fails_there, meets, IsKnown};
ghost use Rattle.wf_ssa.specs.Keeping.{row_at, AreMeets, AreFails, AreSound, IsLeft};
ghost use Rattle.wf_ssa.specs.declared.before.Before.{Before};

use crate::before::Before;
use crate::fill::{leave_noted, pass};
use crate::marks::{failing_marks, is_marked, meeting_marks};
use crate::name::FlowName;
use crate::walk::{flow_in, predicate_in};
use std::alloc::{AllocError, Global};
use std::marker::Model;
use wf_base::Items;
use wf_blocks::Blocks;

/// Where the value of each slot in front of each place of a method comes from. A contract sees it as the method's body
/// and the places in bytes whose resolution fails.
///
/// What is known is kept for the starts of blocks to which one way leads, so that the memory is their number times the
/// number of slots there; a question about another place takes a walk back to where its block starts.
#[derive(Debug, Drop)]
pub struct Env<'a> {
    blocks: &'a Blocks,
    failing: &'a Items<u16>,
    /// Whether the resolution at a place in bytes fails.
    fails: Items<bool>,
    /// Whether ways meet at a place.
    meets: Items<bool>,
    known: Vec<Option<Before>>,
}

impl<'a> Model for Env<'a> {
    ghost use Rattle.std.specs.Prelude.{List, ℕ};
    ghost use Rattle.wf_blocks.specs.declared.body.Body.{Body};
    ghost use Rattle.wf_ssa.specs.Keeping.{AreKnown};

    ghost Value = { Body × List ℕ };

    ghost view = { λ e. (e.blocks.now, e.failing.now) };

    ghost invariant = { λ e. AreKnown e.blocks.now e.failing.now e.fails e.meets e.known.items };
}

impl<'a> Env<'a> {
    /// The flow of a slot in front of the place of this number, as `flow` says.
    pub fn flow_in(&self, place: usize, slot: usize) -> FlowName
        requires { place < length self.now.0.steps }
        ensures { (k : Before) → IsKnown self.now.0 self.now.1 place k → result ≡ name_at k.names slot }
    {
        flow_in(
            self.blocks,
            self.meets.as_slice(),
            self.known.as_slice(),
            place,
            slot,
        )
    }

    /// By what the place of this number is reached.
    pub fn predicate_in(&self, place: usize) -> FlowName
        requires { place < length self.now.0.steps }
        ensures { (k : Before) → IsKnown self.now.0 self.now.1 place k → result ≡ k.predicate }
    {
        predicate_in(
            self.blocks,
            self.fails.as_slice(),
            self.meets.as_slice(),
            self.known.as_slice(),
            place,
        )
    }

    /// Whether ways meet at the place of this number: it is a handler, or other than one way leads there.
    pub fn meets(&self, place: usize) -> bool
        ensures { (marks : List Bool) → AreReached self.now.0 marks → place < length self.now.0.steps → result ≡ meets self.now.0 marks place }
    {
        is_marked(self.meets.as_slice(), place)
    }

    /// Whether the resolution at a place in bytes fails.
    pub fn fails(&self, pc: u16) -> bool
        ensures { result ≡ fails_there self.now.1 pc }
    {
        is_marked(self.fails.as_slice(), pc as usize)
    }

    /// Where the value of a slot in front of a place comes from, if a path reaches the place and the slot is used
    /// there. The locals are numbered from 0, the cells of the stack from the number of locals on. It takes the time of
    /// a walk back to the start of the place's block.
    pub fn flow(&self, pc: u16, slot: u32) -> FlowName
        ensures { (place : ℕ) (k : Before) → place_of self.now.0 pc ≡ Some place → IsKnown self.now.0 self.now.1 place k → result ≡ name_at k.names slot }
    {
        match self.blocks.place_of(pc) {
            Some(place) => self.flow_in(place, slot as usize),
            None => FlowName::Nothing,
        }
    }

    /// By what a place is reached, if a path reaches it.
    pub fn predicate(&self, pc: u16) -> FlowName
        ensures { (place : ℕ) (k : Before) → place_of self.now.0 pc ≡ Some place → IsKnown self.now.0 self.now.1 place k → result ≡ k.predicate }
    {
        match self.blocks.place_of(pc) {
            Some(place) => self.predicate_in(place),
            None => FlowName::Nothing,
        }
    }
}

/// Nothing is kept of so many places.
fn nothing_known(alloc: Global, count: usize) -> Result<Vec<Option<Before>>, AllocError>
    ensures { IfOk result (λ known. (length known.items ≡ count) × ((place : ℕ) → row_at known.items place ≡ None)) }
{
    let mut known = Vec::with_capacity(alloc, count)?;
    while known.len() < count {
        known.push(None)?;
    }
    Ok(known)
}

/// What is kept of each place. The second time round nothing is left to keep, wherever ways lead.
fn known_of(
    alloc: Global,
    blocks: &Blocks,
    fails: &[bool],
    meets: &[bool],
) -> Result<Vec<Option<Before>>, AllocError>
    requires { AreMeets blocks.now meets.now }
    ensures sound { (failing : List ℕ) → IfOk result (λ known. AreFails failing fails.now → AreSound blocks.now failing known.items) }
    ensures left { IfOk result (λ known. (place : ℕ) → place < length blocks.now.steps → IsLeft blocks.now meets.now known.items place) }
{
    let mut known = nothing_known(alloc, blocks.body().steps.len())?;
    let mut noted = Vec::new(alloc);
    let mut more = true;
    while more {
        leave_noted(alloc, blocks, fails, meets, &mut known, &mut noted)?;
        more = pass(alloc, blocks, fails, meets, &mut known, &mut noted)?;
    }
    Ok(known)
}

/// Finds where the value of each slot in front of each place comes from. `failing` lists the places in bytes whose
/// resolution fails. It goes over all places twice, and once more over each block whose start it keeps; and what it keeps
/// of a place takes the number of slots there times the length of the block that leads there.
pub fn environments<'a>(
    alloc: Global,
    blocks: &'a Blocks,
    failing: &'a Items<u16>,
) -> Result<Env<'a>, AllocError>
    ensures { IfOk result (λ env. (env.0 ≡ blocks.now) × (env.1 ≡ failing.now)) }
{
    let fails = failing_marks(alloc, failing.as_slice())?;
    let meets = meeting_marks(alloc, blocks)?;
    let known = known_of(alloc, blocks, fails.as_slice(), meets.as_slice())?;
    Ok(Env {
        blocks,
        failing,
        fails,
        meets,
        known,
    })
}
