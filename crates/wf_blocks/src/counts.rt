//! How many slots there are in front of each place that a path reaches.

ghost use Rattle.std.specs.Prelude.{◌≡◌, ℕ, ◌+◌, ◌<◌, true, length, option_map, IfOk};
ghost use Rattle.wf_blocks.specs.Answers.{AreRows, IsCount, AreCounts};
ghost use Rattle.wf_blocks.specs.Bodies.{inner_of, AreStarts, BodyFits};
ghost use Rattle.wf_blocks.specs.Rows.{row_in};

use crate::body::{Body, operation_at, targets_at};
use crate::marks::falls_only;
use crate::walk::{Row, is_start};
use std::alloc::{AllocError, Global};
use wf_base::Items;
use wf_operation::slots_after;

/// How many slots the kept row of a place has.
fn kept_count(body: &Body, rows: &[Row], place: usize) -> Option<u32>
    requires fits { BodyFits body.now }
    requires rows { AreRows body.now rows.now }
    ensures { result ≡ option_map length (row_in rows.now place) }
{
    match rows.get(place) {
        Some(Some(row)) => Some(row.len() as u32),
        _ => None,
    }
}

/// How many slots there are behind a place where its block goes on, where there are `before` in front of it.
fn next_count(body: &Body, rows: &[Row], last: usize, before: Option<u32>) -> Option<u32>
    requires fits { BodyFits body.now }
    requires rows { AreRows body.now rows.now }
    requires low { last < 65535 }
    requires inside { inner_of body.now (last + 1) ≡ true }
    requires before { IsCount body.now rows.now last before }
    ensures { IsCount body.now rows.now (last + 1) result }
{
    if !falls_only(last, targets_at(body, last)) {
        return None;
    }
    match operation_at(body, last) {
        None => None,
        Some(operation) => match before {
            None => None,
            Some(count) => Some(slots_after(&operation.effect, count as usize) as u32),
        },
    }
}

/// How many slots there are in front of a place, where there are `before` in front of the place before it. None where
/// no path reaches them.
fn count_of(
    body: &Body,
    starts: &[bool],
    rows: &[Row],
    place: usize,
    before: Option<u32>,
) -> Option<u32>
    requires fits { BodyFits body.now }
    requires marks { AreStarts body.now starts.now }
    requires rows { AreRows body.now rows.now }
    requires inside { place < length body.now.steps }
    requires before { (p : ℕ) → p + 1 ≡ place → IsCount body.now rows.now p before }
    ensures { IsCount body.now rows.now place result }
{
    if is_start(starts, place) {
        kept_count(body, rows, place)
    } else {
        next_count(body, rows, place - 1, before)
    }
}

/// The same for all places.
pub fn counts_of(
    alloc: Global,
    body: &Body,
    starts: &[bool],
    rows: &[Row],
) -> Result<Items<Option<u32>>, AllocError>
    requires fits { BodyFits body.now }
    requires marks { AreStarts body.now starts.now }
    requires rows { AreRows body.now rows.now }
    ensures { IfOk result (AreCounts body.now rows.now) }
{
    let mut counts = Vec::with_capacity(alloc, body.steps.len())?;
    let mut last = None;
    for place in 0..body.steps.len() {
        last = count_of(body, starts, rows, place, last);
        counts.push(last)?;
    }
    Ok(Items::from_vec(counts))
}
