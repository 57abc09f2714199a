//! What is returned or written, against the kind of its place.

ghost use Rattle.std.specs.Prelude.{◌≡◌};
ghost use Rattle.wf_binding.specs.Validity.{is_int, is_long, is_ref, is_followed, is_same, is_argument, value_fits, value_there};

use crate::named::{can_be_made, is_type};
use wf_base::Kind;
use wf_classes::Classes;
use wf_inputs::Value;

fn is_int(kind: Kind) -> bool
    ensures { result ≡ is_int kind }
{
    matches!(kind, Kind::Int)
}

fn is_long(kind: Kind) -> bool
    ensures { result ≡ is_long kind }
{
    matches!(kind, Kind::Long)
}

fn is_ref(kind: Kind) -> bool
    ensures { result ≡ is_ref kind }
{
    matches!(kind, Kind::Ref)
}

/// Floats and doubles are not followed.
pub fn is_followed(kind: Kind) -> bool
    ensures { result ≡ is_followed kind }
{
    match kind {
        Kind::Int | Kind::Long | Kind::Ref => true,
        Kind::Float | Kind::Double => false,
    }
}

fn is_same(kind: Kind, other: Kind) -> bool
    ensures { result ≡ is_same kind other }
{
    match kind {
        Kind::Int => is_int(other),
        Kind::Long => is_long(other),
        Kind::Ref => is_ref(other),
        Kind::Float | Kind::Double => false,
    }
}

/// Whether there is such an argument, and of this kind.
pub fn is_argument(args: &[Kind], n: u8, kind: Kind) -> bool
    ensures { result ≡ is_argument args.now n kind }
{
    match args.get(n as usize) {
        Some(other) => is_same(kind, *other),
        None => false,
    }
}

/// Whether a place of this kind may get the value.
pub fn value_fits(classes: &Classes, args: &[Kind], kind: Kind, value: &Value) -> bool
    ensures { result ≡ value_fits classes.now args.now kind value.now }
{
    match value {
        Value::Null | Value::OneOf(_) => is_ref(kind),
        Value::Any => is_followed(kind),
        Value::Int(_) => is_int(kind),
        Value::New(name) => is_ref(kind) && can_be_made(classes, name.as_slice()),
        Value::Arg(n) => is_argument(args, *n, kind),
    }
}

/// Whether the type that a value names is there.
pub fn value_there(classes: &Classes, value: &Value) -> bool
    ensures { result ≡ value_there classes.now value.now }
{
    match value {
        Value::New(name) | Value::OneOf(name) => is_type(classes, name.as_slice()),
        Value::Null | Value::Any | Value::Int(_) | Value::Arg(_) => true,
    }
}
