//! Where the resolutions of a method fail.

ghost use Rattle.std.specs.Prelude.{◌≡◌, ◌++◌, IfOk, OnOk};
ghost use Rattle.std.specs.Option.{option_copied};
ghost use Rattle.wf_body.specs.Methods.{act_at, fails, failing_at, failing_of};

use std::alloc::{AllocError, Global};
use wf_base::Items;
use wf_blocks::{Body, Step};
use wf_rows::{Action, link_error};

/// What the instruction at a place does.
pub fn act_at(acts: &[Option<Action>], place: usize) -> Option<&Action>
    ensures { option_copied result ≡ act_at acts.now place }
{
    acts.get(place)?.as_ref()
}

fn fails(act: Option<&Action>) -> bool
    ensures { result ≡ fails (option_copied act.entry) }
{
    match act {
        Some(act) => link_error(act).is_some(),
        None => false,
    }
}

/// Adds the place in bytes of a step, if its resolution fails.
fn push_failing(
    acts: &[Option<Action>],
    place: usize,
    step: &Step,
    failing: &mut Vec<u16>,
) -> Result<(), AllocError>
    ensures { OnOk result (failing.new.items ≡ failing.old.items ++ failing_at acts.now place step.now) }
{
    if fails(act_at(acts, place)) {
        failing.push(step.pc)?;
    }
    Ok(())
}

/// The places in bytes whose resolution fails.
pub fn failing_of(
    alloc: Global,
    body: &Body,
    acts: &[Option<Action>],
) -> Result<Items<u16>, AllocError>
    ensures { IfOk result (λ failing. failing ≡ failing_of body.now acts.now) }
{
    let mut failing = Vec::new(alloc);
    for (place, step) in body.steps.as_slice().iter().enumerate() {
        push_failing(acts, place, step, &mut failing)?;
    }
    Ok(Items::from_vec(failing))
}
