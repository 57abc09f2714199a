//! The array types of a program whose components are references.

ghost use Rattle.std.specs.Prelude.{◌≡◌, ◌+◌, ◌^◌, ◌<◌, ◌≤◌, ℕ, None, length, slice_index_or, IfOk, OnOk};
ghost use Rattle.wf_nodes.specs.Sharing.{AreArrays};
ghost use Rattle.wf_nodes.specs.Tables.{IsArrayAt, ArePlacesOfArrays, Goes};

use std::alloc::{AllocError, Global};
use wf_base::TypeId;
use wf_rows::ArrayType;
use wf_subtype::Types;

/// The array types, in the order of their numbers.
#[derive(Drop)]
pub struct Arrays {
    pub list: Vec<ArrayType>,
    /// The place of each type in the list, null and other types too.
    pub places: Vec<Option<u32>>,
}

/// The array of references that a type is, if it is one.
fn array_at(types: &Types, t: TypeId) -> Option<ArrayType>
    requires some { 0 < t.0 }
    requires there { t.0 ≤ length types.now.names }
    ensures { (n : ℕ) → t.0 ≡ n + 1 → IsArrayAt types.now n result }
{
    let _ = types.reference(t);
    match types.component(t) {
        Some(component) => Some(ArrayType {
            array: t,
            component,
        }),
        None => None,
    }
}

/// Adds the next type.
fn push_type(arrays: &mut Arrays, found: Option<ArrayType>) -> Result<(), AllocError>
    requires { length arrays.old.list.items < 2 ^ 32 }
    ensures { OnOk result (Goes arrays.old.list.items arrays.old.places.items found arrays.new.list.items arrays.new.places.items) }
{
    match found {
        Some(array) => {
            arrays.places.push(Some(arrays.list.len() as u32))?;
            arrays.list.push(array)?;
        }
        None => arrays.places.push(None)?,
    }
    Ok(())
}

/// All of them.
pub fn arrays_of(alloc: Global, types: &Types) -> Result<Arrays, AllocError>
    ensures are { IfOk result (λ arrays. AreArrays types.now (length types.now.names) arrays.list.items) }
    ensures placed { IfOk result (λ arrays. ArePlacesOfArrays arrays.list.items arrays.places.items) }
    ensures few { IfOk result (λ arrays. length arrays.list.items < 2 ^ 32) }
{
    let mut arrays = Arrays {
        list: Vec::new(alloc),
        places: vec![in alloc; None]?,
    };
    for n in 0..types.len() {
        push_type(&mut arrays, array_at(types, TypeId(n + 1)))?;
    }
    Ok(arrays)
}

/// The place of a type among the array types, where it is one.
pub fn place_in(places: &[Option<u32>], t: TypeId) -> Option<u32>
    ensures { result ≡ slice_index_or places.now t.0 None }
{
    places.get(t.0 as usize).copied().unwrap_or(None)
}
