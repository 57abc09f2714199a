//! The names that a report may have.

ghost use Rattle.std.specs.Prelude.{◌≡◌, ◌&&◌};
ghost use Rattle.wf_descriptor.specs.Descriptors.{is_field_descriptor, is_method_descriptor};
ghost use Rattle.wf_names.specs.Names.{is_field_name, is_method_name};
ghost use Rattle.wf_report.specs.Worlds.{is_array, is_type_name, is_method, is_field, is_place};

use wf_base::Text;
use wf_descriptor::{is_field_descriptor, is_method_descriptor};
use wf_names::{MemberName, Unresolved, is_class_name, is_field_name, is_method_name};

fn is_array(name: &[u8]) -> bool
    ensures { result ≡ is_array name.now }
{
    match name {
        [first, ..] => *first == b'[',
        [] => false,
    }
}

fn is_array_name(name: &[u8]) -> bool
    ensures { result ≡ (is_array name.now && is_field_descriptor name.now) }
{
    is_array(name) && is_field_descriptor(name)
}

pub fn is_type_name(name: &Text) -> bool
    ensures { result ≡ is_type_name name.now }
{
    is_class_name(name.as_slice()) || is_array_name(name.as_slice())
}

fn has_method_name(member: &MemberName) -> bool
    ensures { result ≡ (is_method_name member.now.name && is_method_descriptor 255 member.now.desc) }
{
    is_method_name(member.name.as_slice()) && is_method_descriptor(member.desc.as_slice(), 255)
}

pub fn is_method(member: &MemberName) -> bool
    ensures { result ≡ is_method member.now }
{
    is_class_name(member.class.as_slice()) && has_method_name(member)
}

fn has_field_name(member: &MemberName) -> bool
    ensures { result ≡ (is_field_name member.now.name && is_field_descriptor member.now.desc) }
{
    is_field_name(member.name.as_slice()) && is_field_descriptor(member.desc.as_slice())
}

pub fn is_field(member: &MemberName) -> bool
    ensures { result ≡ is_field member.now }
{
    is_class_name(member.class.as_slice()) && has_field_name(member)
}

pub fn is_place(place: &Unresolved) -> bool
    ensures { result ≡ is_place place.now }
{
    is_method(&place.method)
}
