//! The types and targets that names mean.

ghost use Rattle.std.specs.Prelude.{◌≡◌, ◌<◌, [], drop, length, IfOk, IfSome};
ghost use Rattle.std.specs.Option.{option_copied};
ghost use Rattle.wf_actions.specs.Named.{type_named, type_of_class, with_components, IsTargetIfNamed};

use std::alloc::{AllocError, Global};
use wf_base::{ClassId, Items, TargetId, TypeId};
use wf_subtype::Types;

/// The type of a name.
pub fn type_named(types: &Types, name: &[u8]) -> Option<TypeId>
    ensures { result ≡ type_named types.now name.now }
{
    types.find(name)
}

/// A class as a type.
pub fn type_of_class(types: &Types, c: ClassId) -> Option<TypeId>
    requires { c.0 < length types.now.classes }
    ensures { result ≡ type_of_class types.now c }
{
    let class = &types.classes().list().as_slice()[c.0 as usize];
    type_named(types, class.name.as_slice())
}

/// What stands behind the first byte of a name.
fn behind(name: &[u8]) -> &[u8]
    ensures { result.now ≡ drop 1 name.now }
{
    match name.split_first() {
        Some((_, rest)) => rest,
        None => name,
    }
}

/// The types of the components of an array of this name, so many.
pub fn components(
    alloc: Global,
    types: &Types,
    name: &[u8],
    count: u16,
) -> Result<Option<Items<TypeId>>, AllocError>
    ensures { IfOk result (λ found. found ≡ with_components types.now [] count name.now) }
{
    let mut found = Vec::new(alloc);
    let mut left = name;
    for _ in 0..count {
        left = behind(left);
        match type_named(types, left) {
            Some(t) => found.push(t)?,
            None => return Ok(None),
        }
    }
    Ok(Some(Items::from_vec(found)))
}

/// The target of a name, if one is given.
pub fn target_if_named(types: &Types, name: Option<&[u8]>) -> Option<TargetId>
    ensures { IsTargetIfNamed types.now (option_copied name.entry) result }
{
    types.target(name?)
}
