//! What a class itself declares.

ghost use Rattle.std.specs.Prelude.{◌≡◌, ◌<◌, length, IfSome, option_map};
ghost use Rattle.wf_classes.specs.Members.{method_keys, field_keys, member_count, method_number, field_number};
ghost use Rattle.wf_classes.specs.Own.{IsMethod, IsField, method_flags, field_flags};

use crate::classes::Classes;
use wf_base::{ClassId, FieldId, MethodId};
use wf_data::{FieldInfo, MethodInfo};

/// A method as the class declares it.
#[derive(Clone, Copy)]
pub struct DeclaredMethod<'a> {
    pub class: ClassId,
    pub info: &'a MethodInfo,
}

/// A field as the class declares it.
#[derive(Clone, Copy)]
pub struct DeclaredField<'a> {
    pub class: ClassId,
    pub info: &'a FieldInfo,
}

/// A method of a class, with its access flags.
#[derive(Clone, Copy, Debug)]
pub struct OwnMethod {
    pub class: ClassId,
    pub id: MethodId,
    pub flags: u16,
}

/// A field of a class, with its access flags.
#[derive(Clone, Copy, Debug)]
pub struct OwnField {
    pub class: ClassId,
    pub id: FieldId,
    pub flags: u16,
}

/// The method with a number.
pub fn declared_method(classes: &Classes, m: MethodId) -> DeclaredMethod<'_>
    requires { m.0 < member_count (method_keys classes.now) }
    ensures class { result.class.0 < length classes.now }
    ensures is { IsMethod classes.now m.0 result.class.0 result.info.now }
{
    let place = classes.method_place(m);
    let class = &classes.list().as_slice()[place.class.0 as usize];
    DeclaredMethod {
        class: place.class,
        info: &class.methods.as_slice()[place.index as usize],
    }
}

/// The field with a number.
pub fn declared_field(classes: &Classes, f: FieldId) -> DeclaredField<'_>
    requires { f.0 < member_count (field_keys classes.now) }
    ensures class { result.class.0 < length classes.now }
    ensures is { IsField classes.now f.0 result.class.0 result.info.now }
{
    let place = classes.field_place(f);
    let class = &classes.list().as_slice()[place.class.0 as usize];
    DeclaredField {
        class: place.class,
        info: &class.fields.as_slice()[place.index as usize],
    }
}

/// The method of a name and a descriptor that a class itself declares.
pub fn own_method(classes: &Classes, c: ClassId, name: &[u8], desc: &[u8]) -> Option<OwnMethod>
    requires { c.0 < length classes.now }
    ensures class { IfSome result (λ m. m.class ≡ c) }
    ensures within { IfSome result (λ m. m.id.0 < member_count (method_keys classes.now)) }
    ensures number { option_map (λ m. m.id.0) result ≡ method_number classes.now c.0 name.now desc.now }
    ensures flags { option_map (λ m. m.flags) result ≡ method_flags classes.now (name.now, desc.now) c.0 }
{
    match classes.find_method(c, name, desc) {
        Some(id) => Some(OwnMethod {
            class: c,
            id,
            flags: declared_method(classes, id).info.flags,
        }),
        None => None,
    }
}

/// The field of a name and a descriptor that a class itself declares.
pub fn own_field(classes: &Classes, c: ClassId, name: &[u8], desc: &[u8]) -> Option<OwnField>
    requires { c.0 < length classes.now }
    ensures class { IfSome result (λ f. f.class ≡ c) }
    ensures within { IfSome result (λ f. f.id.0 < member_count (field_keys classes.now)) }
    ensures number { option_map (λ f. f.id.0) result ≡ field_number classes.now c.0 name.now desc.now }
    ensures flags { option_map (λ f. f.flags) result ≡ field_flags classes.now (name.now, desc.now) c.0 }
{
    match classes.find_field(c, name, desc) {
        Some(id) => Some(OwnField {
            class: c,
            id,
            flags: declared_field(classes, id).info.flags,
        }),
        None => None,
    }
}
