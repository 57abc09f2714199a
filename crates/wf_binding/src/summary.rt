//! Summaries that are bound.

ghost use Rattle.std.specs.Prelude.{◌≡◌, IfOk, OnOk, IfErr};
ghost use Rattle.wf_binding.specs.First.{IsFirst};
ghost use Rattle.wf_binding.specs.Numbering.{NumbersSummary, SummaryStands};
ghost use Rattle.wf_binding.specs.Validity.{IsBadLine, HasNoBad, Tells};

use crate::blocks::first_bad_block;
use crate::first::{BadLine, earlier_of};
use crate::literals::first_bad_literal;
use crate::numbering::{blocks_numbers, literals_numbers};
use crate::numbers::SummaryNumbers;
use std::alloc::{AllocError, Global};
use std::marker::Model;
use wf_classes::Classes;
use wf_inputs::{InputFault, Summary};
use wf_subtype::Types;

/// A summary that was bound, so that what its lines name was found in some classes. A contract sees the summary.
#[derive(Debug, Drop)]
pub struct BoundSummary {
    summary: Summary,
}

impl Model for BoundSummary {
    ghost use Rattle.wf_inputs.specs.declared.summary.Summary.{Summary};

    ghost Value = { Summary };

    ghost view = { λ b. b.summary };
}

impl BoundSummary {
    pub fn get(&self) -> &Summary
        ensures { result.now ≡ self.now }
    {
        &self.summary
    }

    /// The numbers of what its lines name, for types in whose classes no line is bad and that have each type which
    /// `new` or `makes` names.
    pub fn numbers(&self, alloc: Global, types: &Types) -> Result<SummaryNumbers, AllocError>
        requires valid { HasNoBad (IsBadLine types.now.classes self.now) }
        requires stands { SummaryStands types.now self.now }
        ensures { IfOk result (NumbersSummary types.now self.now) }
    {
        summary_numbers(alloc, types, self.get())
    }
}

fn summary_numbers(
    alloc: Global,
    types: &Types,
    summary: &Summary,
) -> Result<SummaryNumbers, AllocError>
    requires valid { HasNoBad (IsBadLine types.now.classes summary.now) }
    requires stands { SummaryStands types.now summary.now }
    ensures { IfOk result (NumbersSummary types.now summary.now) }
{
    let blocks = blocks_numbers(alloc, types, summary.blocks.as_slice())?;
    let literals = literals_numbers(alloc, types, summary.literals.as_slice())?;
    Ok(SummaryNumbers { blocks, literals })
}

/// The first bad line of a summary.
fn first_bad_line(
    alloc: Global,
    classes: &Classes,
    summary: &Summary,
) -> Result<Option<BadLine>, AllocError>
    ensures { IfOk result (IsFirst (IsBadLine classes.now summary.now)) }
{
    let of_block = first_bad_block(alloc, classes, summary.blocks.as_slice())?;
    let of_literal = first_bad_literal(classes, summary.literals.as_slice());
    Ok(earlier_of(of_block, of_literal))
}

/// Finds what the lines of a summary name. Of several bad lines the one of the least number is told. Beside the
/// summary it takes a byte for each method of the classes, and what the parts of one descriptor take. Own rule.
pub fn bind_summary(
    alloc: Global,
    classes: &Classes,
    summary: Summary,
) -> Result<BoundSummary, InputFault>
    ensures same { IfOk result (λ bound. bound ≡ summary) }
    ensures valid { OnOk result (HasNoBad (IsBadLine classes.now summary)) }
    ensures bad { IfErr result (Tells (IsBadLine classes.now summary)) }
{
    match first_bad_line(alloc, classes, &summary)? {
        Some(bad) => Err(InputFault::Bad {
            line: bad.line,
            why: bad.why,
        }),
        None => Ok(BoundSummary { summary }),
    }
}
