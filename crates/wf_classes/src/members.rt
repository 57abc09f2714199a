ghost use Rattle.std.specs.Prelude.{◌≡◌, ℕ, ◌+◌, ◌<◌, ◌≤◌, ◌^◌, List, length, map, IfOk, OnOk, slice_get, slice_index_or, Some, IsPermutation};
ghost use Rattle.std.specs.List.Sorted.{IsStrictlySortedBy};
ghost use Rattle.wf_classes.specs.Members.{key_cmp, method_key, field_key};
ghost use Rattle.wf_classes.specs.KeyedLists.{IsKeyedList};

use std::alloc::{AllocError, Global};
use wf_base::ClassId;
use wf_data::{FieldInfo, MethodInfo};

/// Where a method or a field is declared: the class, and its place in the class's list.
#[derive(Clone, Copy, Debug, PartialEq, Eq)]
pub struct MemberPlace {
    pub class: ClassId,
    pub index: u32,
}

/// A member by its name and descriptor, with its place in the list of its class.
#[derive(Clone, Copy, Debug, PartialEq, Eq, PartialOrd, Ord)]
pub struct Keyed<'a> {
    pub name: &'a [u8],
    pub desc: &'a [u8],
    pub index: u32,
}

/// The methods of a class in the order of their names and descriptors.
pub fn keyed_methods(alloc: Global, methods: &[MethodInfo]) -> Result<Vec<Keyed<'_>>, AllocError>
    requires { length methods.now < 2 ^ 32 }
    ensures { IfOk result (λ sorted. IsKeyedList (map method_key methods.now) sorted.items) }
{
    let mut keyed = Vec::new(alloc);
    for (i, method) in methods.iter().enumerate() {
        keyed.push(Keyed {
            name: method.name.as_slice(),
            desc: method.desc.as_slice(),
            index: i as u32,
        })?;
    }
    keyed.sort_unstable();
    Ok(keyed)
}

/// The fields of a class in the order of their names and descriptors.
pub fn keyed_fields(alloc: Global, fields: &[FieldInfo]) -> Result<Vec<Keyed<'_>>, AllocError>
    requires { length fields.now < 2 ^ 32 }
    ensures { IfOk result (λ sorted. IsKeyedList (map field_key fields.now) sorted.items) }
{
    let mut keyed = Vec::new(alloc);
    for (i, field) in fields.iter().enumerate() {
        keyed.push(Keyed {
            name: field.name.as_slice(),
            desc: field.desc.as_slice(),
            index: i as u32,
        })?;
    }
    keyed.sort_unstable();
    Ok(keyed)
}
