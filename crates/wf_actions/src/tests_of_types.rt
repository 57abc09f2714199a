//! `checkcast` and `instanceof`.

ghost use Rattle.std.specs.Prelude.{◌≡◌};
ghost use Rattle.wf_actions.specs.Actions.{at_of, IsFoundTarget, IsTested, IsTest};
ghost use Rattle.wf_rows.specs.declared.action.TypeTest.TheVariants.{Cast, InstanceOf};

use crate::instruction::Instruction;
use crate::named::target_if_named;
use wf_base::TargetId;
use wf_linking::{Linked, resolve};
use wf_names::LinkError;
use wf_rows::{Action, TypeTest};
use wf_subtype::{Types, operand_name};

/// The target that is named.
fn found_target(types: &Types, at: &Instruction<'_>) -> Option<Result<TargetId, LinkError>>
    ensures { IsFoundTarget types.now (at_of at.now) result }
{
    match target_if_named(types, operand_name(at.pool, at.instr)) {
        Some(u) => Some(Ok(u)),
        None => None,
    }
}

/// What is tested for.
fn tested(types: &Types, at: &Instruction<'_>) -> Option<Result<TargetId, LinkError>>
    ensures { IsTested types.now (at_of at.now) result }
{
    match resolve(types.classes(), at.pool, at.instr) {
        Some(Ok(Linked::Type(_))) => found_target(types, at),
        Some(Err(error)) => Some(Err(error)),
        _ => None,
    }
}

pub fn cast(types: &Types, at: &Instruction<'_>) -> Option<Action>
    ensures { IsTest types.now (at_of at.now) Cast result }
{
    match tested(types, at) {
        Some(tested) => Some(Action::Tests(TypeTest::Cast(tested))),
        None => None,
    }
}

pub fn instance_of(types: &Types, at: &Instruction<'_>) -> Option<Action>
    ensures { IsTest types.now (at_of at.now) InstanceOf result }
{
    match tested(types, at) {
        Some(tested) => Some(Action::Tests(TypeTest::InstanceOf(tested))),
        None => None,
    }
}
