//! The effects of a method.

ghost use Rattle.std.specs.Prelude.{◌≡◌, [], IfOk};
ghost use Rattle.wf_binding.specs.First.{IsFirst};
ghost use Rattle.wf_binding.specs.Named.{argument_kinds};
ghost use Rattle.wf_binding.specs.Validity.{Somewhere, IsBadEffect, word_of, return_fits, effect_word};

use crate::first::{BadLine, at_line, earlier_of};
use crate::named::{can_be_made, field_kind, field_of, is_type};
use crate::values::{is_argument, value_fits, value_there};
use std::alloc::{AllocError, Global};
use wf_base::Kind;
use wf_classes::Classes;
use wf_data::is_static;
use wf_descriptor::FieldDesc;
use wf_inputs::{Effect, EffectLine, Value};
use wf_names::InputWhy;

/// What a method takes and gives.
#[derive(Clone, Copy)]
pub struct Shape<'a> {
    /// The kinds of its arguments, the receiver first.
    pub args: &'a [Kind],
    /// None where it gives nothing.
    pub ret: &'a Option<FieldDesc>,
}

/// What is wrong: something isn't there, or is of the wrong kind.
pub fn word_of(there: bool, right: bool) -> Option<InputWhy>
    ensures { result ≡ word_of there right }
{
    if !there {
        return Some(InputWhy::Absent);
    }
    if right { None } else { Some(InputWhy::Kind) }
}

/// The kind of the receiver, where there is one.
fn receiver_kinds(alloc: Global, flags: u16) -> Result<Vec<Kind>, AllocError>
    ensures { IfOk result (λ kinds. kinds.items ≡ argument_kinds flags []) }
{
    let mut kinds = Vec::new(alloc);
    if !is_static(flags) {
        kinds.push(Kind::Ref)?;
    }
    Ok(kinds)
}

/// The kinds of the arguments of a method with these flags and parameters.
pub fn argument_kinds(
    alloc: Global,
    flags: u16,
    params: &[FieldDesc],
) -> Result<Vec<Kind>, AllocError>
    ensures { IfOk result (λ kinds. kinds.items ≡ argument_kinds flags params.now) }
{
    let mut kinds = receiver_kinds(alloc, flags)?;
    for param in params {
        kinds.push(param.kind)?;
    }
    Ok(kinds)
}

fn return_fits(classes: &Classes, shape: Shape<'_>, value: &Value) -> bool
    ensures { result ≡ return_fits classes.now shape.entry.args.now shape.entry.ret.now value.now }
{
    match shape.ret {
        Some(ret) => value_fits(classes, shape.args, ret.kind, value),
        None => false,
    }
}

fn effect_word(classes: &Classes, shape: Shape<'_>, effect: &Effect) -> Option<InputWhy>
    ensures { result ≡ effect_word classes.now shape.entry.args.now shape.entry.ret.now effect.now }
{
    match effect {
        Effect::ReturnsVoid => word_of(true, shape.ret.is_none()),
        Effect::Returns(value) => word_of(
            value_there(classes, value),
            return_fits(classes, shape, value),
        ),
        Effect::Makes(name) => word_of(
            is_type(classes, name.as_slice()),
            can_be_made(classes, name.as_slice()),
        ),
        Effect::Writes(field, value) => word_of(
            field_of(classes, field).is_some() && value_there(classes, value),
            value_fits(classes, shape.args, field_kind(field), value),
        ),
        Effect::Copies(from, to) => word_of(
            true,
            is_argument(shape.args, *from, Kind::Ref) && is_argument(shape.args, *to, Kind::Ref),
        ),
    }
}

/// The first bad effect.
pub fn first_bad_effect(
    classes: &Classes,
    shape: Shape<'_>,
    effects: &[EffectLine],
) -> Option<BadLine>
    ensures { IsFirst (Somewhere (IsBadEffect classes.now shape.entry.args.now shape.entry.ret.now effects.now)) result }
{
    let mut found = None;
    for effect in effects {
        let word = effect_word(classes, shape, &effect.effect);
        found = earlier_of(found, at_line(effect.line, word));
    }
    found
}
