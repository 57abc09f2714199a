//! The four instructions on fields.

ghost use Rattle.std.specs.Prelude.{◌≡◌};
ghost use Rattle.wf_actions.specs.Actions.{static_field, get_static, put_static, get, put};

use wf_base::Kind;
use wf_linking::{Linked, LinkedField};
use wf_names::LinkError;
use wf_rows::{Action, FieldUse, StaticField};

fn static_field(f: LinkedField) -> StaticField
    ensures { result ≡ static_field f }
{
    StaticField {
        class: f.class,
        field: f.field,
    }
}

pub fn get_static(linked: Result<Linked, LinkError>) -> Option<Action>
    ensures { result ≡ get_static linked }
{
    match linked {
        Err(error) => Some(Action::Field(FieldUse::GetStatic(Err(error)))),
        Ok(Linked::Field(f)) => Some(Action::Field(FieldUse::GetStatic(Ok(static_field(f))))),
        Ok(Linked::Object(_) | Linked::Type(_) | Linked::Method(_)) => None,
    }
}

pub fn put_static(linked: Result<Linked, LinkError>, kind: Kind) -> Option<Action>
    ensures { result ≡ put_static linked kind }
{
    match linked {
        Err(error) => Some(Action::Field(FieldUse::PutStatic(Err(error), kind))),
        Ok(Linked::Field(f)) => Some(Action::Field(FieldUse::PutStatic(Ok(static_field(f)), kind))),
        Ok(Linked::Object(_) | Linked::Type(_) | Linked::Method(_)) => None,
    }
}

pub fn get(linked: Result<Linked, LinkError>) -> Option<Action>
    ensures { result ≡ get linked }
{
    match linked {
        Err(error) => Some(Action::Field(FieldUse::Get(Err(error)))),
        Ok(Linked::Field(f)) => Some(Action::Field(FieldUse::Get(Ok(f.field)))),
        Ok(Linked::Object(_) | Linked::Type(_) | Linked::Method(_)) => None,
    }
}

pub fn put(linked: Result<Linked, LinkError>, kind: Kind) -> Option<Action>
    ensures { result ≡ put linked kind }
{
    match linked {
        Err(error) => Some(Action::Field(FieldUse::Put(Err(error), kind))),
        Ok(Linked::Field(f)) => Some(Action::Field(FieldUse::Put(Ok(f.field), kind))),
        Ok(Linked::Object(_) | Linked::Type(_) | Linked::Method(_)) => None,
    }
}
