//! The worklist: rows are let into the places that ways lead to, until nothing changes.

ghost use Rattle.std.specs.Prelude.{◌≡◌, ℕ, ◌+◌, ◌<◌, ◌≤◌, [], ◌∷◌, ◌++◌, List, length, slice_index_or, IfOk, Ok, true, false, All};
ghost use Rattle.std.specs.List.{filter_map};
ghost use Rattle.wf_blocks.specs.Advancing.{width_of, Ready, Advances, StepAdvances};
ghost use Rattle.wf_blocks.specs.Bodies.{caught_by, catchers_at, inner_of, graph_of, AreStarts, BodyFits};
ghost use Rattle.wf_blocks.specs.Flowing.{Flowed, DiffersThere, RowFits, IsLess};
ghost use Rattle.wf_blocks.specs.Graphs.{BadPaths};
ghost use Rattle.wf_blocks.specs.Rows.{row_in, Settled};
ghost use Rattle.wf_blocks.specs.Walking.{Working, Walking, StepMeans, row_after, row_thrown, block_goes_on};
ghost use Rattle.wf_blocks.specs.declared.seen.Seen.{Seen};

use crate::body::{Body, Catcher, caught_by, operation_at, targets_at};
use crate::rows::flow;
use crate::seen::Seen;
use crate::step::{is_sound, row_behind, row_caught};
use std::alloc::{AllocError, Global};
use wf_base::Items;

/// The rows that are kept, by place.
pub type Row = Option<Items<Seen>>;

/// How a visit goes on behind a place of its block.
#[derive(Debug, Drop)]
pub enum Stepped {
    /// Some path meets a fault, or paths differ in depth.
    Bad,
    /// The block ends here.
    Done,
    /// To the next place, with this row.
    On(Items<Seen>),
}

/// Lets a row into the rows of all these places. Answers false where depths differ.
fn spread(
    alloc: Global,
    rows: &mut [Row],
    queue: &mut Vec<usize>,
    targets: &[usize],
    after: &[Seen],
) -> Result<bool, AllocError>
    requires { All (λ t. t < length rows.old) targets.now }
    ensures flows { result ≡ Ok true → Flowed targets.now after.now rows.old rows.new queue.old.items queue.new.items }
    ensures differs { result ≡ Ok false → DiffersThere targets.now after.now rows.old }
    ensures less { (width : ℕ) → result ≡ Ok true → All (RowFits width) rows.old → length after.now ≤ width
        → IsLess width rows.old rows.new queue.old.items queue.new.items }
{
    for to in targets {
        if !flow(alloc, rows, queue, *to, after)? {
            return Ok(false);
        }
    }
    Ok(true)
}

/// Lets a row into that of the handler to which a place leads by an entry.
fn flow_caught(
    alloc: Global,
    rows: &mut [Row],
    queue: &mut Vec<usize>,
    place: usize,
    catcher: &Catcher,
    thrown: &[Seen],
) -> Result<bool, AllocError>
    requires { All (λ t. t < length rows.old) (filter_map (caught_by place) (catcher.now ∷ [])) }
    ensures flows { result ≡ Ok true → Flowed (filter_map (caught_by place) (catcher.now ∷ [])) thrown.now rows.old rows.new queue.old.items queue.new.items }
    ensures differs { result ≡ Ok false → DiffersThere (filter_map (caught_by place) (catcher.now ∷ [])) thrown.now rows.old }
    ensures less { (width : ℕ) → result ≡ Ok true → All (RowFits width) rows.old → length thrown.now ≤ width
        → IsLess width rows.old rows.new queue.old.items queue.new.items }
{
    match caught_by(place, catcher) {
        Some(to) => flow(alloc, rows, queue, to, thrown),
        None => Ok(true),
    }
}

/// Lets a row into the rows of all handlers to which a place leads. Answers false where depths differ.
fn spread_caught(
    alloc: Global,
    rows: &mut [Row],
    queue: &mut Vec<usize>,
    place: usize,
    catchers: &[Catcher],
    thrown: &[Seen],
) -> Result<bool, AllocError>
    requires { All (λ t. t < length rows.old) (filter_map (caught_by place) catchers.now) }
    ensures flows { result ≡ Ok true → Flowed (filter_map (caught_by place) catchers.now) thrown.now rows.old rows.new queue.old.items queue.new.items }
    ensures differs { result ≡ Ok false → DiffersThere (filter_map (caught_by place) catchers.now) thrown.now rows.old }
    ensures less { (width : ℕ) → result ≡ Ok true → All (RowFits width) rows.old → length thrown.now ≤ width
        → IsLess width rows.old rows.new queue.old.items queue.new.items }
{
    for catcher in catchers {
        if !flow_caught(alloc, rows, queue, place, catcher, thrown)? {
            return Ok(false);
        }
    }
    Ok(true)
}

/// Lets what is thrown at a place into the rows of its handlers. Answers false where depths differ.
fn throw(
    alloc: Global,
    body: &Body,
    rows: &mut [Row],
    queue: &mut Vec<usize>,
    place: usize,
    row: &[Seen],
) -> Result<bool, AllocError>
    requires fits { BodyFits body.now }
    requires ready { Ready body.now rows.old queue.old.items }
    ensures flows { result ≡ Ok true → Flowed (catchers_at body.now place) (row_thrown body.now row.now) rows.old rows.new queue.old.items queue.new.items }
    ensures differs { result ≡ Ok false → DiffersThere (catchers_at body.now place) (row_thrown body.now row.now) rows.old }
    ensures advances { result ≡ Ok true → Advances body.now rows.old rows.new queue.old.items queue.new.items }
{
    let thrown = row_caught(alloc, row, body.entry.len())?;
    match spread_caught(
        alloc,
        rows,
        queue,
        place,
        body.catchers.as_slice(),
        thrown.as_slice(),
    ) {
        Ok(same) => Ok(same),
        Err(fault) => Err(fault),
    }
}

/// The row behind the instruction at a place that doesn't fail.
fn row_after(
    alloc: Global,
    body: &Body,
    place: usize,
    row: &[Seen],
) -> Result<Items<Seen>, AllocError>
    requires fits { BodyFits body.now }
    requires low { length row.now ≤ width_of body.now }
    requires sound { (graph_of body.now).fails place (length row.now) ≡ false }
    ensures { IfOk result (λ v. v ≡ row_after body.now place row.now) }
{
    match operation_at(body, place) {
        Some(operation) => row_behind(alloc, &operation.effect, row),
        None => Ok(Items::new(alloc)),
    }
}

/// Whether a place is marked as the start of a block. Places past the end are.
pub fn is_start(starts: &[bool], place: usize) -> bool
    ensures { result ≡ slice_index_or starts.now place true }
{
    starts.get(place).copied().unwrap_or(true)
}

/// Whether a block goes on behind a place.
fn goes_on(body: &Body, starts: &[bool], place: usize) -> bool
    requires fits { BodyFits body.now }
    requires marks { AreStarts body.now starts.now }
    requires inside { place < length body.now.steps }
    ensures { result ≡ block_goes_on body.now place }
{
    match targets_at(body, place) {
        [only] if *only == place + 1 => !is_start(starts, place + 1),
        _ => false,
    }
}

/// One place of the visit of a block, with its row.
fn step(
    alloc: Global,
    body: &Body,
    starts: &[bool],
    rows: &mut [Row],
    queue: &mut Vec<usize>,
    place: usize,
    row: &[Seen],
) -> Result<Stepped, AllocError>
    requires fits { BodyFits body.now }
    requires marks { AreStarts body.now starts.now }
    requires ready { Ready body.now rows.old queue.old.items }
    requires low { length row.now ≤ width_of body.now }
    requires inside { place < length body.now.steps }
    ensures means { (first : ℕ) (first_row : List Seen)
        → Walking (graph_of body.now) (inner_of body.now) rows.old queue.old.items first first_row place row.now
        → IfOk result (StepMeans (graph_of body.now) (inner_of body.now) rows.new queue.new.items first first_row place) }
    ensures advances { IfOk result (StepAdvances body.now rows.old rows.new queue.old.items queue.new.items place) }
{
    if !is_sound(body, place, row) {
        return Ok(Stepped::Bad);
    }
    if !throw(alloc, body, rows, queue, place, row)? {
        return Ok(Stepped::Bad);
    }
    let after = row_after(alloc, body, place, row)?;
    if goes_on(body, starts, place) {
        return Ok(Stepped::On(after));
    }
    if spread(
        alloc,
        rows,
        queue,
        targets_at(body, place),
        after.as_slice(),
    )? {
        return Ok(Stepped::Done);
    }
    Ok(Stepped::Bad)
}

/// The rest of the visit of a block from a place on. Answers false where some path meets a fault or depths differ.
fn walk(
    alloc: Global,
    body: &Body,
    starts: &[bool],
    rows: &mut [Row],
    queue: &mut Vec<usize>,
    place: usize,
    row: Items<Seen>,
) -> Result<bool, AllocError>
    requires fits { BodyFits body.now }
    requires marks { AreStarts body.now starts.now }
    requires ready { Ready body.now rows.old queue.old.items }
    requires low { length row ≤ width_of body.now }
    requires inside { place < length body.now.steps }
    ensures bad { (first : ℕ) (first_row : List Seen) → result ≡ Ok false
        → Walking (graph_of body.now) (inner_of body.now) rows.old queue.old.items first first_row place row → BadPaths (graph_of body.now) }
    ensures works { (first : ℕ) (first_row : List Seen) → result ≡ Ok true
        → Walking (graph_of body.now) (inner_of body.now) rows.old queue.old.items first first_row place row
        → Working (graph_of body.now) (inner_of body.now) rows.new queue.new.items }
    ensures advances { result ≡ Ok true → Advances body.now rows.old rows.new queue.old.items queue.new.items }
{
    let mut at = place;
    let mut held = row;
    loop {
        match step(alloc, body, starts, rows, queue, at, held.as_slice())? {
            Stepped::Bad => return Ok(false),
            Stepped::Done => return Ok(true),
            Stepped::On(after) => {
                at += 1;
                held = after;
            }
        }
    }
}

/// The row of a place, if it has one.
fn row_of(alloc: Global, rows: &[Row], place: usize) -> Result<Option<Items<Seen>>, AllocError>
    ensures { IfOk result (λ r. r ≡ row_in rows.now place) }
{
    match rows.get(place) {
        Some(Some(row)) => {
            let copy = Vec::from_slice(alloc, row.as_slice())?;
            Ok(Some(Items::from_vec(copy)))
        }
        _ => Ok(None),
    }
}

/// Visits the block that starts at a place which was taken off the queue.
fn visit(
    alloc: Global,
    body: &Body,
    starts: &[bool],
    rows: &mut [Row],
    queue: &mut Vec<usize>,
    first: usize,
) -> Result<bool, AllocError>
    requires fits { BodyFits body.now }
    requires marks { AreStarts body.now starts.now }
    requires ready { Ready body.now rows.old queue.old.items }
    requires inside { first < length body.now.steps }
    ensures bad { result ≡ Ok false → Working (graph_of body.now) (inner_of body.now) rows.old (queue.old.items ++ first ∷ [])
        → BadPaths (graph_of body.now) }
    ensures works { result ≡ Ok true → Working (graph_of body.now) (inner_of body.now) rows.old (queue.old.items ++ first ∷ [])
        → Working (graph_of body.now) (inner_of body.now) rows.new queue.new.items }
    ensures advances { result ≡ Ok true → Advances body.now rows.old rows.new queue.old.items queue.new.items }
{
    match row_of(alloc, rows, first)? {
        Some(row) => walk(alloc, body, starts, rows, queue, first, row),
        None => Ok(true),
    }
}

/// Visits blocks until nothing waits. Answers false where some path meets a fault or two paths differ in depth.
pub fn settle(
    alloc: Global,
    body: &Body,
    starts: &[bool],
    rows: &mut [Row],
    queue: &mut Vec<usize>,
) -> Result<bool, AllocError>
    requires fits { BodyFits body.now }
    requires marks { AreStarts body.now starts.now }
    requires ready { Ready body.now rows.old queue.old.items }
    requires working { Working (graph_of body.now) (inner_of body.now) rows.old queue.old.items }
    ensures bad { result ≡ Ok false → BadPaths (graph_of body.now) }
    ensures settled { result ≡ Ok true → Settled (graph_of body.now) (inner_of body.now) (row_in rows.new) }
    ensures ready { result ≡ Ok true → Ready body.now rows.new queue.new.items }
{
    while let Some(first) = queue.pop() {
        if !visit(alloc, body, starts, rows, queue, first)? {
            return Ok(false);
        }
    }
    Ok(true)
}
