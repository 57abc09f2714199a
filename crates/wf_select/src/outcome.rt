ghost use Rattle.std.specs.Prelude.{◌≡◌, ◌<◌, length, IfSome, option_map};
ghost use Rattle.wf_classes.specs.World.{number};
ghost use Rattle.wf_resolve.specs.Upward.{IsOwn};
ghost use Rattle.wf_select.specs.Selection.{Taken};

use wf_base::{ClassId, MethodId};
use wf_classes::{Classes, OwnMethod, own_method};
use wf_data::is_abstract;
use wf_resolve::{Defaults, from_interfaces};

/// How a method of an object is called.
#[derive(Clone, Copy, Debug, PartialEq, Eq)]
pub enum Invoke {
    Virtual,
    Interface,
}

/// What runs where a method is called.
#[derive(Clone, Copy, Debug, PartialEq, Eq)]
pub enum Selected {
    Method(MethodId),
    /// An abstract method, or none.
    AbstractMethod,
    /// More than one maximally specific method that isn't abstract.
    Incompatible,
}

/// The only maximally specific method that isn't abstract of the superinterfaces of a class.
fn taken_default(classes: &Classes, c: ClassId, name: &[u8], desc: &[u8]) -> Selected
    requires { c.0 < length classes.now }
    ensures { Taken classes.now (name.now, desc.now) c.0 None result }
{
    match from_interfaces(classes, c, name, desc).defaults {
        Defaults::Nothing => Selected::AbstractMethod,
        Defaults::Many => Selected::Incompatible,
        Defaults::One(i) => match own_method(classes, i, name, desc) {
            Some(method) => Selected::Method(method.id),
            None => Selected::AbstractMethod,
        },
    }
}

/// What is taken for a class where a search among classes ended so.
pub fn taken(
    classes: &Classes,
    c: ClassId,
    name: &[u8],
    desc: &[u8],
    found: Option<OwnMethod>,
) -> Selected
    requires c_in { c.0 < length classes.now }
    requires own { IfSome found (λ m. IsOwn classes.now (name.now, desc.now) m) }
    ensures { Taken classes.now (name.now, desc.now) c.0 (option_map (λ m. number m.class) found) result }
{
    match found {
        Some(method) => {
            if is_abstract(method.flags) {
                Selected::AbstractMethod
            } else {
                Selected::Method(method.id)
            }
        }
        None => taken_default(classes, c, name, desc),
    }
}
