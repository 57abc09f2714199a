//! Answers as words, so that a table of a test can say them: the name of a class, or what is the matter.

use wf_base::{ClassId, MethodId};
use wf_classes::{Classes, declared_method};
use wf_select::Selected;

pub const ABSTRACT: &[u8] = b"abstract";

pub const INCOMPATIBLE: &[u8] = b"incompatible";

/// Of a class, a method or a place that isn't there.
pub const MISSING: &[u8] = b"missing";

/// The name of a class.
pub fn class_name(classes: &Classes, c: ClassId) -> &[u8] {
    match classes.list().as_slice().get(c.0 as usize) {
        Some(class) => class.name.as_slice(),
        None => MISSING,
    }
}

/// The name of the class that declares a method.
pub fn of_method(classes: &Classes, m: MethodId) -> &[u8] {
    if m.0 < classes.methods() {
        class_name(classes, declared_method(classes, m).class)
    } else {
        MISSING
    }
}

/// The name of the class whose method runs.
pub fn ran(classes: &Classes, selected: Selected) -> &[u8] {
    match selected {
        Selected::AbstractMethod => ABSTRACT,
        Selected::Incompatible => INCOMPATIBLE,
        Selected::Method(m) => of_method(classes, m),
    }
}
