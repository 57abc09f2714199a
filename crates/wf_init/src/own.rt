//! The method that initializes a class (JVMS 2.9, 5.5).

ghost use Rattle.std.specs.Prelude.{◌≡◌, ◌<◌, length, option_map, IfSome};
ghost use Rattle.wf_classes.specs.Members.{method_keys, member_count};
ghost use Rattle.wf_init.specs.Initializers.{initializer_of};

use wf_base::{ClassId, MethodId};
use wf_classes::{Classes, own_method};
use wf_data::is_static;

/// The initializer of a class: its own static method `<clinit> ()V`. One that isn't static is none, whatever the version of the
/// class file.
pub fn initializer(classes: &Classes, c: ClassId) -> Option<MethodId>
    requires { c.0 < length classes.now }
    ensures number { option_map (λ m. m.0) result ≡ initializer_of classes.now c.0 }
    ensures within { IfSome result (λ m. m.0 < member_count (method_keys classes.now)) }
{
    match own_method(classes, c, b"<clinit>", b"()V") {
        Some(m) if is_static(m.flags) => Some(m.id),
        _ => None,
    }
}
