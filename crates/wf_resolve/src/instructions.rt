//! What an instruction means by what it names.

ghost use Rattle.std.specs.Prelude.{◌≡◌, ◌<◌, ◌↔◌, length, IsTrue, IfOk, codes};
ghost use Rattle.wf_classes.specs.Members.{field_keys, method_keys, member_count};
ghost use Rattle.wf_classes.specs.World.{number, class_of};
ghost use Rattle.wf_resolve.specs.Instructions.{is_plain_at, is_plain_class, wants_static, MethodBy, MayCall, New, FieldFor, MethodFor, text_links};

use crate::resolve::{class_with, field, interface_method, is_array_name, method};
use wf_base::{ClassId, FieldId, MethodId};
use wf_classes::{Classes, declared_field, declared_method};
use wf_data::{is_abstract, is_interface, is_static};
use wf_names::{LinkError, is_constructor_name};

/// How a method is called.
#[derive(Clone, Copy, Debug, PartialEq, Eq)]
pub enum Calling {
    /// By invokespecial.
    Special,
    /// By invokestatic.
    Static,
    /// By invokevirtual or invokeinterface.
    Object,
}

/// Whether a class can have objects.
pub fn is_plain_at(classes: &Classes, c: ClassId) -> bool
    requires { c.0 < length classes.now }
    ensures { result ≡ is_plain_at classes.now c.0 }
{
    let flags = classes.list().as_slice()[c.0 as usize].flags;
    !is_interface(flags) && !is_abstract(flags)
}

/// The class of which new makes an object.
pub fn new_class(classes: &Classes, name: &[u8]) -> Result<ClassId, LinkError>
    ensures is { New classes.now name.now result }
    ensures within { IfOk result (λ c. c.0 < length classes.now) }
{
    let c = match class_with(classes, name) {
        Some(c) => c,
        None => return Err(LinkError::NoClassDefFound),
    };
    if is_array_name(name) {
        return Err(LinkError::IncompatibleClassChange);
    }
    if !is_plain_at(classes, c) {
        return Err(LinkError::Instantiation);
    }
    Ok(c)
}

fn are_same(a: bool, b: bool) -> bool
    ensures { IsTrue result ↔ (a ≡ b) }
{
    if a { b } else { !b }
}

/// The field that an instruction on fields of objects, or of classes, names.
pub fn field_for(
    classes: &Classes,
    of_class: bool,
    class: &[u8],
    name: &[u8],
    desc: &[u8],
) -> Result<FieldId, LinkError>
    ensures is { FieldFor classes.now of_class class.now (name.now, desc.now) result }
    ensures within { IfOk result (λ f. f.0 < member_count (field_keys classes.now)) }
{
    let f = match field(classes, class, name, desc) {
        Ok(f) => f,
        Err(error) => return Err(error),
    };
    if are_same(is_static(declared_field(classes, f).info.flags), of_class) {
        Ok(f)
    } else {
        Err(LinkError::IncompatibleClassChange)
    }
}

fn wants_static(call: Calling) -> bool
    ensures { result ≡ wants_static call }
{
    match call {
        Calling::Static => true,
        Calling::Special | Calling::Object => false,
    }
}

fn may_call(classes: &Classes, call: Calling, class: &[u8], name: &[u8], d: ClassId) -> bool
    ensures { IsTrue result ↔ MayCall classes.now call class.now name.now (number d) }
{
    if !is_constructor_name(name) {
        return true;
    }
    match call {
        Calling::Special => match classes.find(class) {
            Some(c) => c.0 == d.0,
            None => false,
        },
        Calling::Static | Calling::Object => false,
    }
}

fn method_by(
    classes: &Classes,
    of_interface: bool,
    class: &[u8],
    name: &[u8],
    desc: &[u8],
) -> Result<MethodId, LinkError>
    ensures is { MethodBy classes.now of_interface class.now (name.now, desc.now) result }
    ensures within { IfOk result (λ m. m.0 < member_count (method_keys classes.now)) }
{
    if of_interface {
        interface_method(classes, class, name, desc)
    } else {
        method(classes, class, name, desc)
    }
}

/// The method that is called so by the name of a method of a class, or of an interface.
pub fn method_for(
    classes: &Classes,
    call: Calling,
    of_interface: bool,
    class: &[u8],
    name: &[u8],
    desc: &[u8],
) -> Result<MethodId, LinkError>
    ensures is { MethodFor classes.now call of_interface class.now (name.now, desc.now) result }
    ensures within { IfOk result (λ m. m.0 < member_count (method_keys classes.now)) }
{
    let m = match method_by(classes, of_interface, class, name, desc) {
        Ok(m) => m,
        Err(error) => return Err(error),
    };
    let declared = declared_method(classes, m);
    if !may_call(classes, call, class, name, declared.class) {
        return Err(LinkError::NoSuchMethod);
    }
    if are_same(is_static(declared.info.flags), wants_static(call)) {
        Ok(m)
    } else {
        Err(LinkError::IncompatibleClassChange)
    }
}

/// Whether the class of a name is loadable and can have objects.
pub fn is_plain_class(classes: &Classes, name: &[u8]) -> bool
    ensures { result ≡ is_plain_class classes.now name.now }
{
    match classes.find(name) {
        Some(c) => is_plain_at(classes, c),
        None => false,
    }
}

/// Whether an ldc of a string has its class.
pub fn text_links(classes: &Classes) -> bool
    ensures { result ≡ text_links classes.now }
{
    is_plain_class(classes, b"java/lang/String")
}
