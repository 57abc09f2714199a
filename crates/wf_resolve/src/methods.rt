//! The method that a name means in a class, and in an interface.

ghost use Rattle.std.specs.Prelude.{◌≡◌, ◌<◌, ℕ, length, IfSome, IfNone, option_map};
ghost use Rattle.wf_classes.specs.World.{number};
ghost use Rattle.wf_resolve.specs.Inherited.{FromInterfaces, least_unless_one};
ghost use Rattle.wf_resolve.specs.Methods.{MethodOfClass, MethodOfInterface, IsOfObject};
ghost use Rattle.wf_resolve.specs.Upward.{IsOwn};

use crate::superinterfaces::{Defaults, Inherited, from_interfaces};
use crate::upward::{Wanted, first_up, offered};
use wf_base::ClassId;
use wf_classes::{Classes, OwnMethod};
use wf_data::{is_public, is_static};

/// The interface whose method is taken.
fn least_unless_one(found: Inherited) -> Option<ClassId>
    ensures { result ≡ least_unless_one found.defaults found.least }
{
    match found.defaults {
        Defaults::One(i) => Some(i),
        Defaults::Nothing | Defaults::Many => found.least,
    }
}

/// The method of a superinterface that a name and a descriptor mean where no class declares one.
fn of_superinterfaces(classes: &Classes, c: ClassId, name: &[u8], desc: &[u8]) -> Option<OwnMethod>
    requires { c.0 < length classes.now }
    ensures class { FromInterfaces classes.now (name.now, desc.now) c.0 (option_map (λ m. number m.class) result) }
    ensures own { IfSome result (λ m. IsOwn classes.now (name.now, desc.now) m) }
{
    match least_unless_one(from_interfaces(classes, c, name, desc)) {
        Some(i) => offered(classes, i, name, desc, Wanted::Any),
        None => None,
    }
}

/// The method that a name and a descriptor mean in a class.
pub fn method_of_class(classes: &Classes, c: ClassId, name: &[u8], desc: &[u8]) -> Option<OwnMethod>
    requires { c.0 < length classes.now }
    ensures class { MethodOfClass classes.now (name.now, desc.now) c.0 (option_map (λ m. number m.class) result) }
    ensures own { IfSome result (λ m. IsOwn classes.now (name.now, desc.now) m) }
{
    match first_up(classes, c, name, desc, Wanted::Any) {
        Some(method) => Some(method),
        None => of_superinterfaces(classes, c, name, desc),
    }
}

/// The public instance method of a name and a descriptor that `java/lang/Object` declares.
pub fn method_of_object(classes: &Classes, name: &[u8], desc: &[u8]) -> Option<OwnMethod>
    ensures some { IfSome result (λ m. IsOfObject classes.now (name.now, desc.now) (number m.class)) }
    ensures own { IfSome result (λ m. IsOwn classes.now (name.now, desc.now) m) }
    ensures none { IfNone result ((o : ℕ) → IsOfObject classes.now (name.now, desc.now) o → ⊥) }
{
    let object = classes.find(b"java/lang/Object")?;
    let method = offered(classes, object, name, desc, Wanted::OfInstance)?;
    if is_public(method.flags) {
        Some(method)
    } else {
        None
    }
}

/// The method that a name and a descriptor mean in an interface.
pub fn method_of_interface(
    classes: &Classes,
    c: ClassId,
    name: &[u8],
    desc: &[u8],
) -> Option<OwnMethod>
    requires { c.0 < length classes.now }
    ensures class { MethodOfInterface classes.now (name.now, desc.now) c.0 (option_map (λ m. number m.class) result) }
    ensures own { IfSome result (λ m. IsOwn classes.now (name.now, desc.now) m) }
{
    match offered(classes, c, name, desc, Wanted::Any) {
        Some(method) => return Some(method),
        None => {}
    }
    match method_of_object(classes, name, desc) {
        Some(method) => return Some(method),
        None => {}
    }
    of_superinterfaces(classes, c, name, desc)
}
