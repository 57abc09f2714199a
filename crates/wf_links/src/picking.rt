//! Which types select a method.

ghost use Rattle.std.specs.Prelude.{◌≡◌, ◌<◌, ◌≤◌, ◌↔◌, min, length, IfOk, OnOk, IsTrue};
ghost use Rattle.wf_classes.specs.Members.{method_keys, member_count};
ghost use Rattle.wf_subtype.specs.References.{target_count};
ghost use Rattle.wf_links.specs.Candidates.{Receives, SelectsBy, SelectsOf, IsSelectedBy, IsThere, AreChosen, NoneSelect, with_choice};

use crate::callee::{Callee, Selection, selected_method};
use std::alloc::{AllocError, Global};
use wf_base::{MethodId, TargetId, TypeId};
use wf_select::{Invoke, select_of_type};
use wf_subtype::Types;

/// A type and the method that it selects.
#[derive(Clone, Copy, Debug)]
pub struct Chosen {
    pub t: TypeId,
    pub method: MethodId,
}

/// Whether a type is among the receivers.
fn is_receiver(types: &Types, callee: Callee, t: TypeId) -> bool
    requires some { 0 < t.0 }
    requires there { t.0 ≤ length types.now.names }
    requires target_in { callee.receivers < target_count (length types.now.classes) types.now.deepest }
    ensures { IsTrue result ↔ Receives types.now callee t.0 }
{
    types.is_subtype(t, TargetId(callee.receivers))
}

/// The method that a receiver of a type selects, where one is called so.
fn selected_for(types: &Types, t: TypeId, m: MethodId, how: Invoke) -> Option<MethodId>
    requires some { 0 < t.0 }
    requires there { t.0 ≤ length types.now.names }
    requires method_in { m.0 < member_count (method_keys types.now.classes) }
    ensures { SelectsBy types.now t.0 m.0 how result }
{
    selected_method(select_of_type(types, t, m, how))
}

/// The method that a receiver of a type selects.
fn selected_of(types: &Types, callee: Callee, t: TypeId) -> Option<MethodId>
    requires some { 0 < t.0 }
    requires there { t.0 ≤ length types.now.names }
    requires callee_in { IsThere types.now callee }
    ensures { SelectsOf types.now callee t.0 result }
{
    let m = MethodId(callee.method);
    match callee.by {
        Selection::Virtual => selected_for(types, t, m, Invoke::Virtual),
        Selection::Interface => selected_for(types, t, m, Invoke::Interface),
        Selection::Known => Some(m),
    }
}

/// The method that a type selects: none where it isn't a receiver.
fn selected_by(types: &Types, callee: Callee, t: TypeId) -> Option<MethodId>
    requires some { 0 < t.0 }
    requires there { t.0 ≤ length types.now.names }
    requires callee_in { IsThere types.now callee }
    ensures { IsSelectedBy types.now callee t.0 result }
{
    if is_receiver(types, callee, t) {
        selected_of(types, callee, t)
    } else {
        None
    }
}

/// Adds a type, where it selects a method.
fn push_choice(
    found: &mut Vec<Chosen>,
    t: TypeId,
    method: Option<MethodId>,
) -> Result<(), AllocError>
    ensures { OnOk result (found.new.items ≡ with_choice found.old.items t method) }
{
    match method {
        Some(method) => found.push(Chosen { t, method })?,
        None => {}
    }
    Ok(())
}

/// Adds the types behind a number, up to another, that select a method. It asks each once whether it is a receiver, which is
/// one look at a bit, and each receiver once what it selects.
#[tactic(auto, using(crate::proofs::Choosing::chosen_step))]
fn push_choices(
    found: &mut Vec<Chosen>,
    types: &Types,
    callee: Callee,
    from: u32,
    to: u32,
) -> Result<(), AllocError>
    requires before { AreChosen types.now callee from found.old.items }
    requires order { from ≤ to }
    requires there { to ≤ length types.now.names }
    requires callee_in { IsThere types.now callee }
    ensures { OnOk result (AreChosen types.now callee to found.new.items) }
{
    for n in from..to {
        let t = TypeId(n + 1);
        push_choice(found, t, selected_by(types, callee, t))?;
    }
    Ok(())
}

/// The same, where these types are those of a word of the row of the receivers: most words are 0.
fn push_word(
    found: &mut Vec<Chosen>,
    types: &Types,
    callee: Callee,
    word: u64,
    from: u32,
    to: u32,
) -> Result<(), AllocError>
    requires before { AreChosen types.now callee from found.old.items }
    requires order { from ≤ to }
    requires there { to ≤ length types.now.names }
    requires callee_in { IsThere types.now callee }
    requires none { word ≡ 0 → NoneSelect types.now callee from to }
    ensures { OnOk result (AreChosen types.now callee to found.new.items) }
{
    if word == 0 {
        return Ok(());
    }
    push_choices(found, types, callee, from, to)
}

/// The last type of a word, by its number in the row and how many types there are.
fn last_of(end: u64, types: u32) -> u32
    ensures { result ≡ min end types }
{
    if end < u64::from(types) {
        end as u32
    } else {
        types
    }
}

/// The types that select a method, in their order.
#[tactic(auto, using(crate::proofs::Choosing::none_chosen))]
pub fn choices(alloc: Global, types: &Types, callee: Callee) -> Result<Vec<Chosen>, AllocError>
    requires { IsThere types.now callee }
    ensures { IfOk result (λ list. AreChosen types.now callee (length types.now.names) list.items) }
{
    let mut found = Vec::new(alloc);
    let mut done = 0;

    // Type t is bit t + 1 of the row.
    let mut end = 62;
    for word in types.mask(TargetId(callee.receivers)) {
        let last = last_of(end, types.len());
        push_word(&mut found, types, callee, *word, done, last)?;
        done = last;
        end += 64;
    }
    Ok(found)
}
