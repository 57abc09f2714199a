//! The fields of a program with their nodes.

ghost use Rattle.std.specs.Prelude.{◌≡◌, ◌+◌, ◌^◌, ◌<◌, ◌≤◌, slice_index_or, IfOk};
ghost use Rattle.wf_classes.specs.Members.{field_keys, member_count};
ghost use Rattle.wf_nodes.specs.Numbering.{field_count};
ghost use Rattle.wf_nodes.specs.Sharing.{IsFollowed};
ghost use Rattle.wf_nodes.specs.Tables.{no_field, field_begins, count_at_field, ArePlaced, AreFields, IsFieldWith};

use std::alloc::{AllocError, Global};
use wf_base::FieldId;
use wf_classes::declared_field;
use wf_data::FieldInfo;
use wf_descriptor::{is_field_descriptor, kind_of, tests_are_the_grammar};
use wf_operation::is_followed;
use wf_subtype::Types;

/// Whether a field has nodes, and the number at which they begin.
#[derive(Clone, Copy)]
pub struct FieldPlace {
    pub first: u64,
    pub followed: bool,
}

/// The fields of a program.
#[derive(Drop)]
pub struct FieldPlaces {
    pub places: Vec<FieldPlace>,
    /// The number behind those of their nodes.
    pub next: u64,
}

const NO_FIELD: FieldPlace = FieldPlace {
    first: 0,
    followed: false,
};

/// How many nodes a field has.
fn field_count(followed: bool) -> u64
    ensures gives { result ≡ field_count followed }
    ensures few { result ≤ 2 }
{
    if followed { 2 } else { 0 }
}

/// Whether values of a field are followed. What is no descriptor is of no kind.
fn is_followed_field(info: &FieldInfo) -> bool
    ensures { IsFollowed info.now result }
{
    tests_are_the_grammar();
    let desc = info.desc.as_slice();
    if !is_field_descriptor(desc) {
        return false;
    }
    match desc.first() {
        Some(first) => is_followed(kind_of(*first)),
        None => false,
    }
}

/// Whether the field with a number has nodes.
fn followed_at(types: &Types, f: FieldId) -> bool
    requires { f.0 < member_count (field_keys types.now.classes) }
    ensures { IsFieldWith types.now f.0 result }
{
    is_followed_field(declared_field(types.classes(), f).info)
}

/// The fields of a program, whose nodes have the numbers from `first` on.
pub fn field_places(alloc: Global, types: &Types, first: u64) -> Result<FieldPlaces, AllocError>
    requires { first ≤ 2 ^ 50 }
    ensures are { IfOk result (λ f. AreFields types.now (member_count (field_keys types.now.classes)) f.places.items) }
    ensures placed { IfOk result (λ f. ArePlaced field_begins count_at_field first f.places.items f.next) }
    ensures few { IfOk result (λ f. f.next ≤ 2 ^ 51) }
{
    let mut places = Vec::new(alloc);
    let mut next = first;
    for f in 0..types.classes().fields() {
        let followed = followed_at(types, FieldId(f));
        places.push(FieldPlace {
            first: next,
            followed,
        })?;
        next += field_count(followed);
    }
    Ok(FieldPlaces { places, next })
}

/// The field with a number, or one without nodes.
pub fn field_in(places: &[FieldPlace], f: FieldId) -> FieldPlace
    ensures { result ≡ slice_index_or places.now f.0 no_field }
{
    places.get(f.0 as usize).copied().unwrap_or(NO_FIELD)
}
