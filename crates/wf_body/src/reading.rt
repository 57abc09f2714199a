//! A method that has been read.

ghost use Rattle.std.specs.Prelude.{◌≡◌, ◌≤◌, ◌<◌, ◌+◌, ◌^◌, List, length, Some, IfOk, IfErr};
ghost use Rattle.std.specs.List.{count_by};
ghost use Rattle.wf_actions.specs.Literals.{AreFieldsThere};
ghost use Rattle.wf_blocks.specs.Methods.{body_of, HasShape};
ghost use Rattle.wf_data.specs.declared.instr.Placed.{Placed};
ghost use Rattle.wf_body.specs.Each.{AreEach};
ghost use Rattle.wf_body.specs.Methods.{entries_of, failing_of, IsActAt, IsHandlerAt};
ghost use Rattle.wf_refusals.specs.Refusals.{IsReadable};
ghost use Rattle.wf_body.specs.Reading.{IsRead};
ghost use Rattle.wf_body.specs.Sources.{is_site_at, HasSites, IsFaultOf};

use crate::acts::acts_of;
use crate::failing::failing_of;
use crate::handlers::handlers_of;
use crate::parts::Parts;
use crate::source::Source;
use std::alloc::{AllocError, Global};
use wf_base::{Items, MethodId};
use wf_blocks::{Blocks, ShapeFault, shape_of};
use wf_data::{Placed, What};
use wf_refusals::{BodyFault, Refusal, read_body};
use wf_rows::{Action, HandlerEntry};

/// A method that has been read.
#[derive(Drop)]
pub struct Reading {
    pub method: MethodId,
    pub blocks: Blocks,
    /// What the instruction at each place does. None where an operand is wrong.
    pub acts: Items<Option<Action>>,
    /// The places in bytes whose resolution fails.
    pub failing: Items<u16>,
    /// The entries of the exception table to whose handlers a path leads, each in its place.
    pub handlers: Items<Option<HandlerEntry>>,
}

/// The blocks of a method with these instructions.
fn shape_method(
    alloc: Global,
    source: &Source<'_>,
    placed: &Items<Placed>,
) -> Result<Blocks, BodyFault>
    requires readable { IsReadable source.now.pool source.now.code.code placed.now }
    requires small { length placed.now ≤ 65535 }
    ensures shaped { IfOk result (λ blocks. body_of source.now.desc source.now.is_static source.now.pool source.now.code placed.now ≡ Some blocks) }
    ensures fits { IfOk result (λ blocks. HasShape (Some blocks) → ⊥) }
    ensures fault { IfErr result (IsFaultOf source.now) }
{
    match shape_of(
        alloc,
        source.desc,
        source.is_static,
        source.class,
        source.code,
        placed,
    ) {
        Ok(blocks) => Ok(blocks),
        Err(ShapeFault::Shape) => Err(BodyFault::Refused(Refusal {
            pc: 0,
            what: What::Shape,
        })),
        Err(ShapeFault::NoMemory) => Err(BodyFault::NoMemory),
    }
}

/// What of a method can be said before its flows are known.
fn reading_of(
    alloc: Global,
    parts: &Parts<'_>,
    source: &Source<'_>,
    placed: &Items<Placed>,
    blocks: Blocks,
) -> Result<Reading, AllocError>
    requires fields { AreFieldsThere parts.now.types.classes parts.now.literals }
    requires few { source.now.first_site + count_by is_site_at placed.now < 2 ^ 32 }
    ensures blocks { IfOk result (λ r. r.blocks ≡ blocks) }
    ensures acts { IfOk result (λ r. AreEach (IsActAt parts.now source.now placed.now blocks) (length placed.now) r.acts) }
    ensures handlers { IfOk result (λ r. AreEach (IsHandlerAt parts.now source.now blocks) (entries_of blocks) r.handlers) }
    ensures failing { IfOk result (λ r. r.failing ≡ failing_of blocks r.acts) }
    ensures method { IfOk result (λ r. r.method ≡ source.now.id) }
{
    let acts = acts_of(alloc, parts, source, placed.as_slice(), blocks.body())?;
    let failing = failing_of(alloc, blocks.body(), acts.as_slice())?;
    let handlers = handlers_of(alloc, parts, source, &blocks)?;
    Ok(Reading {
        method: source.id,
        blocks,
        acts,
        failing,
        handlers,
    })
}

/// Reads a method that has code. Refuses it for the first place that starts no instruction, then for its first
/// instruction that the analysis leaves out, then where its instructions don't fit together.
#[tactic(auto, using(crate::proofs::Faults::unreadable))]
pub fn read_method(
    alloc: Global,
    parts: &Parts<'_>,
    source: &Source<'_>,
) -> Result<Reading, BodyFault>
    requires fields { AreFieldsThere parts.now.types.classes parts.now.literals }
    requires few { HasSites source.now }
    requires short { length source.now.code.code ≤ 65535 }
    ensures read { IfOk result (λ r. (placed : List Placed) × IsRead parts.now source.now placed r.blocks r.acts r.handlers) }
    ensures failing { IfOk result (λ r. r.failing ≡ failing_of r.blocks r.acts) }
    ensures method { IfOk result (λ r. r.method ≡ source.now.id) }
    ensures fault { IfErr result (IsFaultOf source.now) }
{
    let placed = read_body(
        alloc,
        source.class.pool.as_slice(),
        source.code.code.as_slice(),
    )?;
    let blocks = shape_method(alloc, source, &placed)?;
    Ok(reading_of(alloc, parts, source, &placed, blocks)?)
}
