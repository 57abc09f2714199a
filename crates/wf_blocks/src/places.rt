//! The places of a code by their numbers.

ghost use Rattle.std.specs.Prelude.{◌≡◌, ℕ, ◌<◌, ◌≤◌, length, slice_index, slice_index_or, replicate, IfOk, None, EachIndex};
ghost use Rattle.wf_blocks.specs.Methods.{number_of, pcs_of};

use std::alloc::{AllocError, Global};
use std::marker::Model;
use wf_data::Placed;

/// The places of a code in bytes, in their order. A contract sees them as that list.
#[derive(Debug, Drop)]
pub struct Places {
    pcs: Vec<u16>,
    /// The number of the instruction at each place, where there is one.
    numbers: Vec<Option<u16>>,
}

impl Model for Places {
    ghost use Rattle.std.specs.Prelude.{List, ℕ};
    ghost use Rattle.wf_blocks.specs.Places.{AreNumbers};

    ghost Value = { List ℕ };

    ghost view = { λ p. p.pcs.items };

    ghost invariant = { λ p. AreNumbers p.pcs.items p.numbers.items };
}

/// A number above all places.
fn end_of(pcs: &[u16]) -> usize
    ensures { EachIndex pcs.now (λ i. slice_index pcs.now i < result) }
{
    let mut end = 0;
    for pc in pcs {
        if end <= *pc as usize {
            end = *pc as usize + 1;
        }
    }
    end
}

#[tactic(auto, using(crate::proofs::MethodLemmas::filled_more, crate::proofs::MethodLemmas::filled_all))]
fn none_at(alloc: Global, count: usize) -> Result<Vec<Option<u16>>, AllocError>
    ensures { IfOk result (λ v. v.items ≡ replicate count None) }
{
    let mut all = Vec::with_capacity(alloc, count)?;
    while all.len() < count {
        all.push(None)?;
    }
    Ok(all)
}

#[tactic(auto, using(crate::proofs::MethodLemmas::number_more, crate::proofs::MethodLemmas::all_alike, crate::proofs::MethodLemmas::numbered_at_end))]
fn numbers_of(alloc: Global, pcs: &[u16]) -> Result<Vec<Option<u16>>, AllocError>
    requires { length pcs.now ≤ 65535 }
    ensures { IfOk result (λ v. (pc : ℕ) → slice_index_or v.items pc None ≡ number_of pcs.now pc) }
{
    let mut numbers = none_at(alloc, end_of(pcs))?;
    let mut place = pcs.len();
    while place > 0 {
        place -= 1;
        numbers[pcs[place] as usize] = Some(place as u16);
    }
    Ok(numbers)
}

impl Places {
    pub fn new(alloc: Global, code: &[Placed]) -> Result<Places, AllocError>
        requires { length code.now ≤ 65535 }
        ensures { IfOk result (λ p. p ≡ pcs_of code.now) }
    {
        let pcs: Vec<u16> = code.iter().map(|placed| placed.pc).collect(alloc)?;
        let numbers = numbers_of(alloc, pcs.as_slice())?;
        Ok(Places { pcs, numbers })
    }

    /// How many places there are.
    pub fn len(&self) -> usize
        ensures count { result ≡ length self.now }
        ensures few { result ≤ 65535 }
    {
        self.pcs.len()
    }

    /// The number of the instruction that stands so many bytes from the start of the code.
    pub fn number_of(&self, pc: u16) -> Option<usize>
        ensures { result ≡ number_of self.now pc }
    {
        match self.numbers.get(pc as usize) {
            Some(Some(number)) => Some(*number as usize),
            _ => None,
        }
    }
}
