//! The worklist from its start to its end.

ghost use Rattle.std.specs.Prelude.{◌≡◌, [], ◌∷◌, length, IfOk, IfSome, Ok, Some, None};
ghost use Rattle.wf_blocks.specs.Answers.{AreRows};
ghost use Rattle.wf_blocks.specs.Bodies.{graph_of, AreStarts, BodyFits};
ghost use Rattle.wf_blocks.specs.Graphs.{BadPaths};
ghost use Rattle.wf_blocks.specs.Methods.{filled};
ghost use Rattle.wf_blocks.specs.Rows.{entry_row};

use crate::body::Body;
use crate::seen::{Seen, only};
use crate::walk::{Row, settle};
use std::alloc::{AllocError, Global};
use wf_base::Items;

#[tactic(auto, using(crate::proofs::MethodLemmas::map_taken_more), unfolding(crate::specs::Bodies::graph_of))]
fn entry_row(alloc: Global, body: &Body) -> Result<Items<Seen>, AllocError>
    ensures { IfOk result (λ r. r ≡ entry_row (graph_of body.now)) }
{
    let mut row = Vec::with_capacity(alloc, body.entry.len())?;
    let kinds = body.entry.as_slice();
    for kind in kinds {
        row.push(only(*kind))?;
    }
    Ok(Items::from_vec(row))
}

/// The row of the entry, and none elsewhere.
#[tactic(auto, using(crate::proofs::MethodLemmas::filled_more, crate::proofs::MethodLemmas::filled_all))]
fn first_rows(alloc: Global, body: &Body) -> Result<Vec<Row>, AllocError>
    ensures { IfOk result (λ v. v.items ≡ filled (Some (entry_row (graph_of body.now)) ∷ []) None (length body.now.steps)) }
{
    let mut rows = Vec::with_capacity(alloc, body.steps.len())?;
    rows.push(Some(entry_row(alloc, body)?))?;
    while rows.len() < body.steps.len() {
        rows.push(None)?;
    }
    Ok(rows)
}

/// The rows of block starts, with the kinds that paths leave there. None where some path meets a fault or two paths
/// differ in depth.
pub fn settled_rows(
    alloc: Global,
    body: &Body,
    starts: &[bool],
) -> Result<Option<Vec<Row>>, AllocError>
    requires fits { BodyFits body.now }
    requires marks { AreStarts body.now starts.now }
    ensures bad { result ≡ Ok None → BadPaths (graph_of body.now) }
    ensures settled { IfOk result (λ o. IfSome o (λ v. AreRows body.now v.items)) }
{
    if body.steps.is_empty() {
        return Ok(None);
    }
    let mut rows = first_rows(alloc, body)?;
    let mut queue = Vec::with_capacity(alloc, 1)?;
    queue.push(0)?;
    if settle(alloc, body, starts, &mut rows, &mut queue)? {
        Ok(Some(rows))
    } else {
        Ok(None)
    }
}
