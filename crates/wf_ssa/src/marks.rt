//! Marks at places.

ghost use Rattle.std.specs.Prelude.{◌≡◌, ℕ, ◌||◌, ◌==◌, not, true, false, slice_index_or, replicate, IfOk};
ghost use Rattle.std.specs.List.{list_any};
ghost use Rattle.wf_blocks.specs.Bodies.{is_handler};
ghost use Rattle.wf_ssa.specs.Keeping.{AreFails, AreMeets};

use std::alloc::{AllocError, Global};
use wf_base::Items;
use wf_blocks::{Blocks, Catcher};

/// Whether a place is marked.
pub fn is_marked(marks: &[bool], place: usize) -> bool
    ensures { result ≡ slice_index_or marks.now place false }
{
    marks.get(place).copied().unwrap_or(false)
}

/// Marks a place, if it is one.
fn mark(marks: &mut [bool], place: usize)
    ensures { (p : ℕ) → slice_index_or marks.new p true ≡ (slice_index_or marks.old p true || place == p) }
{
    if place < marks.len() {
        marks[place] = true;
    }
}

fn mark_all(marks: &mut [bool], places: &[u16])
    ensures { (p : ℕ) → slice_index_or marks.new p true ≡ (slice_index_or marks.old p true || list_any (λ t. t == p) places.now) }
{
    for place in places {
        mark(marks, *place as usize);
    }
}

fn no_marks(alloc: Global, count: usize) -> Result<Vec<bool>, AllocError>
    ensures { IfOk result (λ marks. marks.items ≡ replicate count false) }
{
    vec![in alloc; false; count]
}

/// Marks at the places in bytes whose resolution fails.
pub fn failing_marks(alloc: Global, failing: &[u16]) -> Result<Items<bool>, AllocError>
    ensures { IfOk result (AreFails failing.now) }
{
    let mut marks = no_marks(alloc, 65536)?;
    mark_all(&mut marks, failing);
    Ok(Items::from_vec(marks))
}

fn mark_handler(marks: &mut [bool], catcher: &Catcher)
    ensures { (p : ℕ) → slice_index_or marks.new p true ≡ (slice_index_or marks.old p true || is_handler p catcher.now) }
{
    if let Some(target) = catcher.target {
        mark(marks, target);
    }
}

fn mark_handlers(marks: &mut [bool], catchers: &[Catcher])
    ensures { (p : ℕ) → slice_index_or marks.new p true ≡ (slice_index_or marks.old p true || list_any (is_handler p) catchers.now) }
{
    for catcher in catchers {
        mark_handler(marks, catcher);
    }
}

/// Whether ways meet at a place that is a handler or not, and to which so many ways lead.
fn is_met(is_handler: bool, ways: u32) -> bool
    ensures { result ≡ (is_handler || not (ways == 1)) }
{
    is_handler || ways != 1
}

/// Marks at the places where ways meet: handlers, and places to which other than one way leads.
pub fn meeting_marks(alloc: Global, blocks: &Blocks) -> Result<Items<bool>, AllocError>
    ensures { IfOk result (AreMeets blocks.now) }
{
    let places = blocks.body().steps.len();
    let mut marks = no_marks(alloc, places)?;
    mark_handlers(&mut marks, blocks.body().catchers.as_slice());
    for place in 0..places {
        marks[place] = is_met(marks[place], blocks.ways(place));
    }
    Ok(Items::from_vec(marks))
}
