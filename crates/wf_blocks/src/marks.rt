//! Where blocks start.

ghost use Rattle.std.specs.Prelude.{◌≡◌, ℕ, ◌<◌, ◌≤◌, ◌||◌, ◌==◌, true, false, length, slice_index_or, replicate, IfOk};
ghost use Rattle.std.specs.List.{list_any};
ghost use Rattle.wf_blocks.specs.Bodies.{falls_only, leads_apart, any_leads_apart, is_handler, targets_in, starts_at, AreStarts};

use crate::body::{Body, Catcher, Step};
use std::alloc::{AllocError, Global};
use wf_base::Items;

/// Marks a place, if it is one.
fn mark(marks: &mut [bool], place: usize)
    ensures { (p : ℕ) → slice_index_or marks.new p true ≡ (slice_index_or marks.old p true || place == p) }
{
    if place < marks.len() {
        marks[place] = true;
    }
}

fn mark_all(marks: &mut [bool], places: &[usize])
    ensures { (p : ℕ) → slice_index_or marks.new p true ≡ (slice_index_or marks.old p true || list_any (λ t. t == p) places.now) }
{
    for place in places {
        mark(marks, *place);
    }
}

fn mark_handler(marks: &mut [bool], catcher: &Catcher)
    ensures { (p : ℕ) → slice_index_or marks.new p true ≡ (slice_index_or marks.old p true || is_handler p catcher.now) }
{
    if let Some(target) = catcher.target {
        mark(marks, target);
    }
}

fn mark_handlers(marks: &mut [bool], catchers: &[Catcher])
    ensures { (p : ℕ) → slice_index_or marks.new p true ≡ (slice_index_or marks.old p true || list_any (is_handler p) catchers.now) }
{
    for catcher in catchers {
        mark_handler(marks, catcher);
    }
}

/// The places to which an instruction leads.
pub fn targets_in(step: &Step) -> &[usize]
    ensures { result.now ≡ targets_in step.now }
{
    match &step.targets {
        Some(targets) => targets.as_slice(),
        None => &[],
    }
}

/// Whether an instruction leads to the next place alone.
pub fn falls_only(place: usize, targets: &[usize]) -> bool
    requires { place ≤ 65535 }
    ensures { result ≡ falls_only place targets.now }
{
    targets.len() == 1 && targets[0] == place + 1
}

fn mark_apart(marks: &mut [bool], place: usize, targets: &[usize])
    requires { place ≤ 65535 }
    ensures { (p : ℕ) → slice_index_or marks.new p true ≡ (slice_index_or marks.old p true || leads_apart place targets.now p) }
{
    if !falls_only(place, targets) {
        mark_all(marks, targets);
    }
}

fn mark_steps(marks: &mut [bool], steps: &[Step])
    requires { length steps.now ≤ 65535 }
    ensures { (p : ℕ) → slice_index_or marks.new p true ≡ (slice_index_or marks.old p true || any_leads_apart 0 steps.now p) }
{
    for place in 0..steps.len() {
        mark_apart(marks, place, targets_in(&steps[place]));
    }
}

fn mark_body(marks: &mut [bool], body: &Body)
    requires few { length body.now.steps ≤ 65535 }
    requires none { marks.old ≡ replicate (length body.now.steps) false }
    ensures { (p : ℕ) → p < length body.now.steps → slice_index_or marks.new p true ≡ starts_at body.now p }
{
    mark(marks, 0);
    mark_handlers(marks, body.catchers.as_slice());
    mark_steps(marks, body.steps.as_slice());
}

/// Marks at the starts of blocks.
pub fn starts_of(alloc: Global, body: &Body) -> Result<Items<bool>, AllocError>
    requires { length body.now.steps ≤ 65535 }
    ensures { IfOk result (AreStarts body.now) }
{
    let mut marks = vec![in alloc; false; body.steps.len()]?;
    mark_body(&mut marks, body);
    Ok(Items::from_vec(marks))
}
