//! The instructions that make objects and arrays.

ghost use Rattle.std.specs.Prelude.{◌≡◌, ◌<◌, length, IfOk};
ghost use Rattle.std.specs.Option.{option_copied};
ghost use Rattle.wf_linking.specs.Linking.{IsAmongClasses};
ghost use Rattle.wf_actions.specs.Actions.{new_object, makes_array, new_primitives, new_references, many_arrays, new_many};

use crate::named::{components, type_named, type_of_class};
use std::alloc::{AllocError, Global};
use wf_base::{ClassId, TypeId};
use wf_data::Instr;
use wf_linking::Linked;
use wf_names::LinkError;
use wf_operation::place_of;
use wf_rows::{Action, Making, ManyArray, NewObject};
use wf_subtype::{Types, array_name, letter_of};

/// `new`.
pub fn new_object(types: &Types, linked: Result<Linked, LinkError>) -> Option<Action>
    requires { IfOk linked (IsAmongClasses types.now.classes) }
    ensures { result ≡ new_object types.now linked }
{
    match linked {
        Err(error) => Some(Action::Makes(Making::Object(Err(error)))),
        Ok(Linked::Object(class)) => {
            let made = type_of_class(types, class)?;
            Some(Action::Makes(Making::Object(Ok(NewObject { class, made }))))
        }
        Ok(Linked::Type(_) | Linked::Field(_) | Linked::Method(_)) => None,
    }
}

fn makes_array(t: TypeId) -> Action
    ensures { result ≡ makes_array t }
{
    Action::Makes(Making::Array(Ok(t)))
}

/// `newarray`.
pub fn new_primitives(types: &Types, instr: &Instr) -> Option<Action>
    ensures { result ≡ new_primitives types.now instr.now }
{
    let code = place_of(instr.a)?;
    let name = [b'[', letter_of(code)];
    let t = type_named(types, name.as_slice())?;
    Some(makes_array(t))
}

/// `anewarray` of a class or an array of this name.
pub fn new_references(
    alloc: Global,
    types: &Types,
    name: Option<&[u8]>,
    linked: Result<Linked, LinkError>,
) -> Result<Option<Action>, AllocError>
    ensures { IfOk result (λ action. action ≡ new_references types.now (option_copied name.entry) linked) }
{
    match (linked, name) {
        (Err(error), _) => Ok(Some(Action::Makes(Making::Array(Err(error))))),
        (Ok(Linked::Type(_)), Some(name)) => {
            let array = array_name(alloc, name)?;
            match type_named(types, array.as_slice()) {
                Some(t) => Ok(Some(makes_array(t))),
                None => Ok(None),
            }
        }
        _ => Ok(None),
    }
}

/// Arrays of a type of this name and of its component types, for so many lengths.
fn many_arrays(
    alloc: Global,
    types: &Types,
    name: &[u8],
    lengths: u16,
) -> Result<Option<Action>, AllocError>
    ensures { IfOk result (λ action. action ≡ many_arrays types.now name.now lengths) }
{
    if lengths == 0 {
        return Ok(None);
    }
    let Some(array) = type_named(types, name) else {
        return Ok(None);
    };
    match components(alloc, types, name, lengths - 1)? {
        Some(components) => Ok(Some(Action::Makes(Making::ManyArray(Ok(ManyArray {
            array,
            components,
        }))))),
        None => Ok(None),
    }
}

/// `multianewarray` of an array of this name.
pub fn new_many(
    alloc: Global,
    types: &Types,
    name: Option<&[u8]>,
    lengths: Option<u16>,
    linked: Result<Linked, LinkError>,
) -> Result<Option<Action>, AllocError>
    ensures { IfOk result (λ action. action ≡ new_many types.now (option_copied name.entry) lengths linked) }
{
    match (linked, name, lengths) {
        (Err(error), _, _) => Ok(Some(Action::Makes(Making::ManyArray(Err(error))))),
        (Ok(Linked::Type(_)), Some(name), Some(lengths)) => {
            many_arrays(alloc, types, name, lengths)
        }
        _ => Ok(None),
    }
}
