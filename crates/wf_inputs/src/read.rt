//! Summaries and roots, read line after line.

ghost use Rattle.std.specs.Prelude.{◌≡◌, ◌<◌, ◌^◌, ◌++◌, ◌∷◌, [], length, nat_lt, Ok, OnOk, IfErr};
ghost use Rattle.wf_inputs.specs.declared.fault.InputFault.TheVariants.{NoMemory, TooMany};
ghost use Rattle.wf_names.specs.declared.limit.Limit.TheVariants.{SummaryLines};
ghost use Rattle.wf_names.specs.Limits.{most_of};
ghost use Rattle.wf_inputs.specs.Giving.{Gives};
ghost use Rattle.wf_inputs.specs.Reading.{closed, with_block, with_effect, with_literal, taken, summary_on, nothing_yet, read_on, summary_of, roots_on, roots_of};
ghost use Rattle.wf_lines.specs.Lines.{lines_of};

use crate::fault::InputFault;
use crate::roots::{RootLine, Roots};
use crate::said::{Said, Stop, line_said, root_said};
use crate::summary::{Block, Effect, EffectLine, Literal, Summary, Value};
use std::alloc::Global;
use wf_base::Items;
use wf_lines::{is_nothing, line_count, next_line};
use wf_names::{InputWhy, Limit, MemberName};

/// What the lines so far gave.
#[derive(Debug, Drop)]
struct SoFar {
    /// The blocks that have ended.
    blocks: Items<Block>,
    /// The block that is open.
    now: Option<Block>,
    literals: Items<Literal>,
}

/// Adds an element, which is dropped for want of memory.
fn push<T: Drop>(items: &mut Items<T>, item: T) -> Result<(), InputFault>
    ensures ok { OnOk result (items.new ≡ items.old ++ item ∷ []) }
    ensures err { IfErr result (λ fault. fault ≡ NoMemory) }
{
    match items.push(item) {
        Ok(()) => Ok(()),
        Err(_) => Err(InputFault::NoMemory),
    }
}

/// The blocks with the one that is open.
fn closed(mut blocks: Items<Block>, now: Option<Block>) -> Result<Items<Block>, InputFault>
    ensures { Gives result (Ok (closed blocks now)) }
{
    if let Some(block) = now {
        push(&mut blocks, block)?;
    }
    Ok(blocks)
}

fn with_block(
    alloc: Global,
    line: u32,
    replace: bool,
    method: MemberName,
    so_far: SoFar,
) -> Result<SoFar, InputFault>
    ensures { Gives result (Ok (with_block line replace method so_far)) }
{
    Ok(SoFar {
        blocks: closed(so_far.blocks, so_far.now)?,
        now: Some(Block {
            line,
            replace,
            method,
            effects: Items::new(alloc),
        }),
        literals: so_far.literals,
    })
}

fn with_effect(line: u32, effect: Effect, so_far: SoFar) -> Result<SoFar, InputFault>
    ensures { Gives result (with_effect line effect so_far so_far.now) }
{
    let SoFar {
        blocks,
        now,
        literals,
    } = so_far;
    let Some(mut block) = now else {
        return Err(InputFault::Bad {
            line,
            why: InputWhy::Place,
        });
    };
    push(&mut block.effects, EffectLine { line, effect })?;
    Ok(SoFar {
        blocks,
        now: Some(block),
        literals,
    })
}

fn with_literal(
    line: u32,
    field: MemberName,
    value: Value,
    so_far: SoFar,
) -> Result<SoFar, InputFault>
    ensures { Gives result (Ok (with_literal line field value so_far)) }
{
    let mut literals = so_far.literals;
    push(&mut literals, Literal { line, field, value })?;
    Ok(SoFar {
        blocks: closed(so_far.blocks, so_far.now)?,
        now: None,
        literals,
    })
}

fn taken(alloc: Global, line: u32, so_far: SoFar, said: Said) -> Result<SoFar, InputFault>
    ensures { Gives result (taken line so_far said) }
{
    match said {
        Said::Opens(replace, method) => with_block(alloc, line, replace, method, so_far),
        Said::Does(effect) => with_effect(line, effect, so_far),
        Said::Sets(field, value) => with_literal(line, field, value, so_far),
    }
}

/// One line of a summary more.
fn summary_on(alloc: Global, line: u32, so_far: SoFar, text: &[u8]) -> Result<SoFar, InputFault>
    requires { length text.now < 2 ^ 32 }
    ensures { Gives result (summary_on line so_far text.now) }
{
    if is_nothing(text) {
        return Ok(so_far);
    }
    match line_said(alloc, text) {
        Ok(said) => taken(alloc, line, so_far, said),
        Err(Stop::NotOfForm) => Err(InputFault::Bad {
            line,
            why: InputWhy::Form,
        }),
        Err(Stop::NoMemory) => Err(InputFault::NoMemory),
    }
}

/// One line of a list of roots more.
fn roots_on(
    alloc: Global,
    line: u32,
    mut lines: Items<RootLine>,
    text: &[u8],
) -> Result<Items<RootLine>, InputFault>
    requires { length text.now < 2 ^ 32 }
    ensures { Gives result (roots_on line lines text.now) }
{
    if is_nothing(text) {
        return Ok(lines);
    }
    match root_said(alloc, text) {
        Ok(root) => {
            push(&mut lines, RootLine { line, root })?;
            Ok(lines)
        }
        Err(Stop::NotOfForm) => Err(InputFault::Bad {
            line,
            why: InputWhy::Form,
        }),
        Err(Stop::NoMemory) => Err(InputFault::NoMemory),
    }
}

fn summary_lines(alloc: Global, bytes: &[u8]) -> Result<SoFar, InputFault>
    requires { length bytes.now < 2 ^ 32 }
    ensures { Gives result (read_on summary_on 1 nothing_yet (lines_of bytes.now)) }
{
    let mut so_far = SoFar {
        blocks: Items::new(alloc),
        now: None,
        literals: Items::new(alloc),
    };
    let mut read = 0;
    let mut rest = bytes;
    while let Some((text, behind)) = next_line(rest) {
        read += 1;
        so_far = summary_on(alloc, read, so_far, text)?;
        rest = behind;
    }
    Ok(so_far)
}

fn roots_lines(alloc: Global, bytes: &[u8]) -> Result<Items<RootLine>, InputFault>
    requires { length bytes.now < 2 ^ 32 }
    ensures { Gives result (read_on roots_on 1 [] (lines_of bytes.now)) }
{
    let mut lines = Items::new(alloc);
    let mut read = 0;
    let mut rest = bytes;
    while let Some((text, behind)) = next_line(rest) {
        read += 1;
        lines = roots_on(alloc, read, lines, text)?;
        rest = behind;
    }
    Ok(lines)
}

fn has_too_many_lines(bytes: &[u8]) -> bool
    ensures { result ≡ nat_lt (most_of SummaryLines) (length (lines_of bytes.now)) }
{
    line_count(bytes) as u64 > Limit::SummaryLines.most()
}

fn too_many() -> InputFault
    ensures { result ≡ TooMany SummaryLines (most_of SummaryLines) }
{
    InputFault::TooMany {
        limit: Limit::SummaryLines,
        most: Limit::SummaryLines.most(),
    }
}

/// Reads a summary. The whole of it is read for lines that are outside the grammar or out of place, of which the first
/// is told; whether what is named is there isn't asked. Own rule.
pub fn read_summary(alloc: Global, bytes: &[u8]) -> Result<Summary, InputFault>
    requires { length bytes.now < 2 ^ 32 }
    ensures { Gives result (summary_of bytes.now) }
{
    if has_too_many_lines(bytes) {
        return Err(too_many());
    }
    let so_far = summary_lines(alloc, bytes)?;
    Ok(Summary {
        blocks: closed(so_far.blocks, so_far.now)?,
        literals: so_far.literals,
    })
}

/// Reads a list of roots, in the same way. Own rule.
pub fn read_roots(alloc: Global, bytes: &[u8]) -> Result<Roots, InputFault>
    requires { length bytes.now < 2 ^ 32 }
    ensures { Gives result (roots_of bytes.now) }
{
    if has_too_many_lines(bytes) {
        return Err(too_many());
    }
    Ok(Roots {
        lines: roots_lines(alloc, bytes)?,
    })
}
