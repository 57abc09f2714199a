//! Rows of the worklist: the kinds that paths leave in each slot in front of a place.

ghost use Rattle.std.specs.Prelude.{◌≡◌, ℕ, ◌<◌, ◌≤◌, [], ◌∷◌, length, IfOk, Ok, true, false, All};
ghost use Rattle.wf_blocks.specs.Rows.{row_in, joined, row_adds, grown};
ghost use Rattle.wf_blocks.specs.Flowing.{Flowed, DiffersThere, RowFits, IsLess};

use crate::seen::{Seen, adds, both};
use std::alloc::{AllocError, Global};
use wf_base::Items;

/// What comes of a row by another that comes along a way.
#[derive(Debug, Drop)]
pub enum Grown {
    /// They have different lengths, so the stacks have different depths.
    Differs,
    Same,
    /// The larger row.
    More(Items<Seen>),
}

/// Whether the second row has a kind that the first doesn't have in that slot.
#[tactic(auto, using(crate::proofs::RowLemmas::adds_more, crate::proofs::RowLemmas::adds_all))]
fn row_adds(row: &[Seen], after: &[Seen]) -> bool
    requires { length row.now ≡ length after.now }
    ensures { result ≡ row_adds row.now after.now }
{
    for i in 0..row.len() {
        if adds(row[i], after[i]) {
            return true;
        }
    }
    false
}

/// The kinds of two rows together.
#[tactic(auto, using(crate::proofs::RowLemmas::joined_more, crate::proofs::RowLemmas::joined_all))]
fn joined(alloc: Global, row: &[Seen], after: &[Seen]) -> Result<Items<Seen>, AllocError>
    requires { length row.now ≡ length after.now }
    ensures { IfOk result (λ all. all ≡ joined row.now after.now) }
{
    let mut all = Vec::with_capacity(alloc, row.len())?;
    for i in 0..row.len() {
        all.push(both(row[i], after[i]))?;
    }
    Ok(Items::from_vec(all))
}

/// What comes of a row, if there is one, by another that comes along a way.
fn grow(alloc: Global, row: &Option<Items<Seen>>, after: &[Seen]) -> Result<Grown, AllocError>
    ensures { IfOk result (λ g. g ≡ grown row.now after.now) }
{
    let Some(row) = row else {
        let copy = Vec::from_slice(alloc, after)?;
        return Ok(Grown::More(Items::from_vec(copy)));
    };
    if row.len() != after.len() {
        return Ok(Grown::Differs);
    }
    if !row_adds(row.as_slice(), after) {
        return Ok(Grown::Same);
    }
    Ok(Grown::More(joined(alloc, row.as_slice(), after)?))
}

/// Takes what comes along a way into the row of a place, and has the place visited again where its row got larger.
/// Answers false where the depths differ.
pub fn flow(
    alloc: Global,
    rows: &mut [Option<Items<Seen>>],
    queue: &mut Vec<usize>,
    to: usize,
    after: &[Seen],
) -> Result<bool, AllocError>
    requires { to < length rows.old }
    ensures flows { result ≡ Ok true → Flowed (to ∷ []) after.now rows.old rows.new queue.old.items queue.new.items }
    ensures differs { result ≡ Ok false → DiffersThere (to ∷ []) after.now rows.old }
    ensures less { (width : ℕ) → result ≡ Ok true → All (RowFits width) rows.old → length after.now ≤ width
        → IsLess width rows.old rows.new queue.old.items queue.new.items }
{
    match grow(alloc, &rows[to], after)? {
        Grown::Differs => Ok(false),
        Grown::Same => Ok(true),
        Grown::More(row) => {
            queue.push(to)?;
            rows[to] = Some(row);
            Ok(true)
        }
    }
}
