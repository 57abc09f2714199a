//! The member that a name means, or the one error.

ghost use Rattle.std.specs.Prelude.{◌≡◌, ◌<◌, ◌≤◌, ℕ, length, drop, true, false, Ok, Some, IfOk, IfSome, option_map};
ghost use Rattle.wf_classes.specs.Members.{field_keys, method_keys, member_count};
ghost use Rattle.wf_classes.specs.World.{number, number_in, kind_at};
ghost use Rattle.wf_resolve.specs.Resolution.{is_array_name, dimensions, element_of, has_element, is_loadable_array, class_with, Field, Method, InterfaceMethod};

use crate::fields::field_of;
use crate::methods::{method_of_class, method_of_interface};
use wf_base::{ClassId, FieldId, MethodId};
use wf_classes::Classes;
use wf_data::is_interface;
use wf_descriptor::is_field_descriptor;
use wf_names::LinkError;

/// Whether a name is that of an array.
pub fn is_array_name(name: &[u8]) -> bool
    ensures { result ≡ is_array_name name.now }
{
    match name {
        [first, ..] => *first == b'[',
        [] => false,
    }
}

/// How many `[` a name begins with.
fn dimensions(name: &[u8]) -> usize
    ensures number { result ≡ dimensions name.now }
    ensures within { result ≤ length name.now }
{
    name.iter().take_while(|byte| **byte == b'[').count()
}

/// The type of an array's elements, without any `[`.
fn element_of(name: &[u8]) -> &[u8]
    ensures { result.now ≡ element_of name.now }
{
    &name[dimensions(name)..]
}

fn has_element(classes: &Classes, element: &[u8]) -> bool
    ensures { result ≡ has_element classes.now element.now }
{
    if element.len() < 2 || element[0] != b'L' {
        return true;
    }
    classes.find(&element[1..element.len() - 1]).is_some()
}

/// Whether a name is that of a loadable array.
pub fn is_loadable_array(classes: &Classes, name: &[u8]) -> bool
    ensures { result ≡ is_loadable_array classes.now name.now }
{
    is_array_name(name) && is_field_descriptor(name) && has_element(classes, element_of(name))
}

/// The class whose members a loadable class or array has.
pub fn class_with(classes: &Classes, name: &[u8]) -> Option<ClassId>
    ensures number { number_in result ≡ class_with classes.now name.now }
    ensures there { IfSome result (λ c. c.0 < length classes.now) }
{
    if !is_array_name(name) {
        return classes.find(name);
    }
    if is_loadable_array(classes, name) {
        classes.find(b"java/lang/Object")
    } else {
        None
    }
}

/// Whether a class is an interface.
pub fn is_interface_at(classes: &Classes, c: ClassId) -> bool
    requires { c.0 < length classes.now }
    ensures { kind_at classes.now c.0 ≡ Some result }
{
    is_interface(classes.list().as_slice()[c.0 as usize].flags)
}

/// The field that a class, a name and a descriptor mean.
pub fn field(
    classes: &Classes,
    class: &[u8],
    name: &[u8],
    desc: &[u8],
) -> Result<FieldId, LinkError>
    ensures is { Field classes.now class.now (name.now, desc.now) result }
    ensures within { IfOk result (λ f. f.0 < member_count (field_keys classes.now)) }
{
    match class_with(classes, class) {
        Some(c) => match field_of(classes, c, name, desc) {
            Some(field) => Ok(field.id),
            None => Err(LinkError::NoSuchField),
        },
        None => Err(LinkError::NoClassDefFound),
    }
}

/// The method of a class that they mean.
pub fn method(
    classes: &Classes,
    class: &[u8],
    name: &[u8],
    desc: &[u8],
) -> Result<MethodId, LinkError>
    ensures is { Method classes.now class.now (name.now, desc.now) result }
    ensures within { IfOk result (λ m. m.0 < member_count (method_keys classes.now)) }
{
    let c = match class_with(classes, class) {
        Some(c) => c,
        None => return Err(LinkError::NoClassDefFound),
    };
    if is_interface_at(classes, c) {
        return Err(LinkError::IncompatibleClassChange);
    }
    match method_of_class(classes, c, name, desc) {
        Some(method) => Ok(method.id),
        None => Err(LinkError::NoSuchMethod),
    }
}

/// The method of an interface that they mean.
pub fn interface_method(
    classes: &Classes,
    class: &[u8],
    name: &[u8],
    desc: &[u8],
) -> Result<MethodId, LinkError>
    ensures is { InterfaceMethod classes.now class.now (name.now, desc.now) result }
    ensures within { IfOk result (λ m. m.0 < member_count (method_keys classes.now)) }
{
    let c = match class_with(classes, class) {
        Some(c) => c,
        None => return Err(LinkError::NoClassDefFound),
    };
    if !is_interface_at(classes, c) {
        return Err(LinkError::IncompatibleClassChange);
    }
    match method_of_interface(classes, c, name, desc) {
        Some(method) => Ok(method.id),
        None => Err(LinkError::NoSuchMethod),
    }
}
