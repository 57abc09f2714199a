ghost use Rattle.std.specs.Prelude.{◌≡◌, ℕ, ◌+◌, ◌<◌, ◌≤◌, ◌^◌, ◌++◌, List, [], length, map, take, drop, vec_len, IfOk, IfSome, OnOk, slice_index, slice_index_or, slice_get};
ghost use Rattle.wf_grammar.specs.ClassFile.{Key};
ghost use Rattle.wf_classes.specs.Members.{key_cmp, method_key, field_key, method_keys, field_keys, HaveKeysOfTheirOwn, member_count, rank_of};
ghost use Rattle.wf_classes.specs.Links.{AreMembers, AreClassPlaces};
ghost use Rattle.wf_classes.specs.KeyedLists.{IsKeyedList, place_of};

use crate::members::{Keyed, MemberPlace, keyed_fields, keyed_methods};
use std::alloc::{AllocError, Global};
use std::cmp::Ordering;
use wf_base::ClassId;
use wf_data::{ClassInfo, FieldInfo, MethodInfo};

/// The members of all classes in the order of their numbers.
#[derive(Drop)]
pub struct Members {
    /// The number of the first member of each class.
    pub first: Vec<u32>,
    pub places: Vec<MemberPlace>,
}

/// Appends the places of the members of a class.
fn push_places(
    places: &mut Vec<MemberPlace>,
    class: u32,
    keyed: &[Keyed<'_>],
) -> Result<(), AllocError>
    ensures { OnOk result (places.new.items ≡ places.old.items ++ map (place_of class) keyed.now) }
{
    for member in keyed {
        places.push(MemberPlace {
            class: ClassId(class),
            index: member.index,
        })?;
    }
    Ok(())
}

/// Appends the members of the next class.
fn push_class(members: &mut Members, class: u32, keyed: &[Keyed<'_>]) -> Result<(), AllocError>
    requires few { vec_len members.old.places < 2 ^ 32 }
    ensures { (keys : List (List Key)) → HaveKeysOfTheirOwn keys → class < length keys → AreMembers keys class members.old.first.items members.old.places.items → IsKeyedList (slice_index_or keys class []) keyed.now →
        OnOk result (AreMembers keys (class + 1) members.new.first.items members.new.places.items) }
{
    members.first.push(members.places.len() as u32)?;
    push_places(&mut members.places, class, keyed)?;
    Ok(())
}

/// The methods of all classes.
pub fn methods_of(alloc: Global, list: &[ClassInfo]) -> Result<Members, AllocError>
    requires apart { HaveKeysOfTheirOwn (method_keys list.now) }
    requires few { length list.now ≤ 65536 }
    requires members { member_count (method_keys list.now) ≤ 536870912 }
    ensures { IfOk result (λ members. AreMembers (method_keys list.now) (length list.now) members.first.items members.places.items) }
{
    let mut members = Members {
        first: Vec::new(alloc),
        places: Vec::new(alloc),
    };
    for (c, class) in list.iter().enumerate() {
        let keyed = keyed_methods(alloc, class.methods.as_slice())?;
        push_class(&mut members, c as u32, keyed.as_slice())?;
    }
    Ok(members)
}

/// The fields of all classes.
pub fn fields_of(alloc: Global, list: &[ClassInfo]) -> Result<Members, AllocError>
    requires apart { HaveKeysOfTheirOwn (field_keys list.now) }
    requires few { length list.now ≤ 65536 }
    requires members { member_count (field_keys list.now) ≤ 536870912 }
    ensures { IfOk result (λ members. AreMembers (field_keys list.now) (length list.now) members.first.items members.places.items) }
{
    let mut members = Members {
        first: Vec::new(alloc),
        places: Vec::new(alloc),
    };
    for (c, class) in list.iter().enumerate() {
        let keyed = keyed_fields(alloc, class.fields.as_slice())?;
        push_class(&mut members, c as u32, keyed.as_slice())?;
    }
    Ok(members)
}

/// The places of the members of one class.
pub fn class_places(members: &Members, class: usize, count: usize) -> &[MemberPlace]
    requires class_in { class < vec_len members.now.first }
    requires room { slice_index members.now.first.items class + count ≤ vec_len members.now.places }
    ensures { result.now ≡ take count (drop (slice_index members.now.first.items class) members.now.places.items) }
{
    let rest = &members.places[members.first[class] as usize..];
    &rest[..count]
}

/// The key of a method against another. One that isn't there has the empty key.
fn method_compared(methods: &[MethodInfo], index: u32, name: &[u8], desc: &[u8]) -> Ordering
    ensures { result ≡ key_cmp (slice_index_or (map method_key methods.now) index ([], [])) (name.now, desc.now) }
{
    let (own_name, own_desc) = match methods.get(index as usize) {
        Some(method) => (method.name.as_slice(), method.desc.as_slice()),
        None => (b"".as_slice(), b"".as_slice()),
    };
    own_name.cmp(&name).then(own_desc.cmp(&desc))
}

/// The key of a field against another. One that isn't there has the empty key.
fn field_compared(fields: &[FieldInfo], index: u32, name: &[u8], desc: &[u8]) -> Ordering
    ensures { result ≡ key_cmp (slice_index_or (map field_key fields.now) index ([], [])) (name.now, desc.now) }
{
    let (own_name, own_desc) = match fields.get(index as usize) {
        Some(field) => (field.name.as_slice(), field.desc.as_slice()),
        None => (b"".as_slice(), b"".as_slice()),
    };
    own_name.cmp(&name).then(own_desc.cmp(&desc))
}

/// Where the method of a key stands among those of its class in the order of their keys.
pub fn method_rank(
    places: &[MemberPlace],
    methods: &[MethodInfo],
    name: &[u8],
    desc: &[u8],
) -> Option<u32>
    requires few { length places.now < 2 ^ 32 }
    ensures within { IfSome result (λ rank. rank < length places.now) }
    ensures rank { (c : ℕ) → AreClassPlaces (map method_key methods.now) c places.now → result ≡ rank_of (map method_key methods.now) (name.now, desc.now) }
{
    match places.binary_search_by(|place| method_compared(methods, place.index, name, desc)) {
        Ok(rank) => Some(rank as u32),
        Err(_) => None,
    }
}

/// The same of the fields of a class.
pub fn field_rank(
    places: &[MemberPlace],
    fields: &[FieldInfo],
    name: &[u8],
    desc: &[u8],
) -> Option<u32>
    requires few { length places.now < 2 ^ 32 }
    ensures within { IfSome result (λ rank. rank < length places.now) }
    ensures rank { (c : ℕ) → AreClassPlaces (map field_key fields.now) c places.now → result ≡ rank_of (map field_key fields.now) (name.now, desc.now) }
{
    match places.binary_search_by(|place| field_compared(fields, place.index, name, desc)) {
        Ok(rank) => Some(rank as u32),
        Err(_) => None,
    }
}
