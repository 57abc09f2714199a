//! What lines name, looked up in closed classes.

ghost use Rattle.std.specs.Prelude.{◌≡◌, ◌≤◌, ◌<◌, length, option_map, IfSome};
ghost use Rattle.wf_classes.specs.Members.{member_count, method_keys, field_keys};
ghost use Rattle.wf_data.specs.declared.class_info.ClassInfo.{ClassInfo};
ghost use Rattle.wf_descriptor.specs.Descriptors.{is_letter};
ghost use Rattle.wf_binding.specs.Named.{method_of, field_of, flags_of_method, flags_of_field, field_kind, class_named, is_class, is_ended_class, is_innermost, is_component, is_array, is_type, is_makeable, can_be_made};

use wf_base::Kind;
use wf_classes::{Classes, OwnField, OwnMethod, own_field, own_method};
use wf_data::{ClassInfo, is_abstract, is_interface};
use wf_descriptor::kind_of;
use wf_names::MemberName;

/// The method of a name, as its class declares it.
pub fn method_of(classes: &Classes, method: &MemberName) -> Option<OwnMethod>
    ensures within { IfSome result (λ m. m.id.0 < member_count (method_keys classes.now)) }
    ensures number { option_map (λ m. m.id.0) result ≡ method_of classes.now method.now }
    ensures flags { option_map (λ m. m.flags) result ≡ flags_of_method classes.now method.now }
{
    match classes.find(method.class.as_slice()) {
        Some(c) => own_method(classes, c, method.name.as_slice(), method.desc.as_slice()),
        None => None,
    }
}

/// The field of a name, as its class declares it.
pub fn field_of(classes: &Classes, field: &MemberName) -> Option<OwnField>
    ensures within { IfSome result (λ f. f.id.0 < member_count (field_keys classes.now)) }
    ensures number { option_map (λ f. f.id.0) result ≡ field_of classes.now field.now }
    ensures flags { option_map (λ f. f.flags) result ≡ flags_of_field classes.now field.now }
{
    match classes.find(field.class.as_slice()) {
        Some(c) => own_field(classes, c, field.name.as_slice(), field.desc.as_slice()),
        None => None,
    }
}

/// The kind of what a field holds.
pub fn field_kind(field: &MemberName) -> Kind
    ensures { result ≡ field_kind field.now }
{
    match field.desc.as_slice().first() {
        Some(b) => kind_of(*b),
        None => kind_of(0),
    }
}

/// The class of a name.
pub fn class_named<'a>(classes: &'a Classes, name: &[u8]) -> Option<&'a ClassInfo>
    ensures { option_map (λ k. k.now) result ≡ class_named classes.now name.now }
{
    match classes.find(name) {
        Some(c) => Some(&classes.list().as_slice()[c.0 as usize]),
        None => None,
    }
}

fn is_class(classes: &Classes, name: &[u8]) -> bool
    ensures { result ≡ is_class classes.now name.now }
{
    classes.find(name).is_some()
}

fn is_ended_class(classes: &Classes, text: &[u8]) -> bool
    ensures { result ≡ is_ended_class classes.now text.now }
{
    if text.is_empty() {
        return false;
    }
    let last = text.len() - 1;
    text[last] == b';' && is_class(classes, &text[..last])
}

fn is_letter(b: u8) -> bool
    ensures { result ≡ is_letter b }
{
    matches!(b, b'B' | b'C' | b'D' | b'F' | b'I' | b'J' | b'S' | b'Z')
}

fn is_innermost(classes: &Classes, text: &[u8]) -> bool
    ensures { result ≡ is_innermost classes.now text.now }
{
    match text.split_first() {
        Some((b'L', name)) => is_ended_class(classes, name),
        Some((b, rest)) => is_letter(*b) && rest.is_empty(),
        None => false,
    }
}

fn is_component(classes: &Classes, text: &[u8]) -> bool
    ensures { result ≡ is_component classes.now 255 text.now }
{
    for (i, b) in text.iter().enumerate() {
        if *b != b'[' {
            return is_innermost(classes, &text[i..]);
        }
        if i == 255 {
            return false;
        }
    }
    false
}

fn is_array(classes: &Classes, name: &[u8]) -> bool
    ensures { result ≡ is_array classes.now name.now }
{
    match name.first() {
        Some(b) => *b == b'[' && is_component(classes, name),
        None => false,
    }
}

/// Whether a class or an array type of this name is there.
pub fn is_type(classes: &Classes, name: &[u8]) -> bool
    ensures { result ≡ is_type classes.now name.now }
{
    is_class(classes, name) || is_array(classes, name)
}

fn is_makeable(class: &ClassInfo) -> bool
    ensures { result ≡ is_makeable class.now }
{
    !is_interface(class.flags) && !is_abstract(class.flags)
}

/// Whether objects of a type that is there can be made.
pub fn can_be_made(classes: &Classes, name: &[u8]) -> bool
    ensures { result ≡ can_be_made classes.now name.now }
{
    match class_named(classes, name) {
        Some(class) => is_makeable(class),
        None => true,
    }
}
