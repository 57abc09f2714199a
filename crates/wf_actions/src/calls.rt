//! The calls.

ghost use Rattle.std.specs.Prelude.{◌≡◌, IfOk};
ghost use Rattle.wf_actions.specs.Actions.{at_of, call_static, selected_call, call_selected, call};

use crate::instruction::Instruction;
use crate::operands::{depths_of, taken_slots};
use std::alloc::{AllocError, Global};
use wf_base::{Items, MethodId};
use wf_linking::{Linked, LinkedMethod};
use wf_names::LinkError;
use wf_operation::{Call, SlotKind};
use wf_rows::{Action, SelectedCall, StaticCall};

/// `invokestatic`, where it takes these slots.
fn call_static(
    alloc: Global,
    slots: &[SlotKind],
    linked: Result<Linked, LinkError>,
) -> Result<Option<Action>, AllocError>
    ensures { IfOk result (λ action. action ≡ call_static slots.now linked) }
{
    match linked {
        Err(error) => Ok(Some(Action::CallsStatic(Err(error)))),
        Ok(Linked::Method(LinkedMethod { class, method, .. })) => {
            let arguments = depths_of(alloc, slots)?;
            Ok(Some(Action::CallsStatic(Ok(StaticCall {
                class,
                method,
                arguments,
            }))))
        }
        Ok(Linked::Object(_) | Linked::Type(_) | Linked::Field(_)) => Ok(None),
    }
}

/// A call whose method is selected by the receiver, which stands below the arguments.
fn selected_call(
    alloc: Global,
    site: u32,
    candidates: &[MethodId],
    slots: &[SlotKind],
) -> Result<Option<Action>, AllocError>
    ensures { IfOk result (λ action. action ≡ selected_call site candidates.now slots.now) }
{
    let Some((_, rest)) = slots.split_first() else {
        return Ok(None);
    };
    let arguments = depths_of(alloc, rest)?;
    let candidates = Vec::from_slice(alloc, candidates)?;
    Ok(Some(Action::Calls(Ok(SelectedCall {
        site,
        candidates: Items::from_vec(candidates),
        receiver: rest.len(),
        arguments,
    }))))
}

/// The other calls.
fn call_selected(
    alloc: Global,
    at: &Instruction<'_>,
    linked: Result<Linked, LinkError>,
) -> Result<Option<Action>, AllocError>
    ensures { IfOk result (λ action. action ≡ call_selected (at_of at.now) linked) }
{
    match linked {
        Err(error) => Ok(Some(Action::Calls(Err(error)))),
        Ok(Linked::Method(_)) => {
            let slots = taken_slots(&at.operation.effect);
            selected_call(alloc, at.site, at.candidates, slots)
        }
        Ok(Linked::Object(_) | Linked::Type(_) | Linked::Field(_)) => Ok(None),
    }
}

/// What a call does.
pub fn call(
    alloc: Global,
    at: &Instruction<'_>,
    how: Call,
    linked: Result<Linked, LinkError>,
) -> Result<Option<Action>, AllocError>
    ensures { IfOk result (λ action. action ≡ call (at_of at.now) how linked) }
{
    match how {
        Call::Static => call_static(alloc, taken_slots(&at.operation.effect), linked),
        Call::Virtual | Call::Special | Call::Interface => call_selected(alloc, at, linked),
    }
}
