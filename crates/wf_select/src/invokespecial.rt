//! What invokespecial runs.

ghost use Rattle.std.specs.Prelude.{◌≡◌, ◌<◌, ◌↔◌, length, IsTrue, IfSome, option_map};
ghost use Rattle.wf_classes.specs.Members.{method_keys, member_count};
ghost use Rattle.wf_classes.specs.World.{number};
ghost use Rattle.wf_resolve.specs.Upward.{IsOwn};
ghost use Rattle.wf_select.specs.Overriding.{IsSuperclass};
ghost use Rattle.wf_select.specs.Selection.{StartsAt, FirstSpecial, Special};

use crate::outcome::{Selected, taken};
use crate::package::are_one;
use wf_base::{ClassId, MethodId};
use wf_classes::{Classes, OwnMethod, declared_method};
use wf_names::is_constructor_name;
use wf_resolve::{Wanted, first_up, is_interface_at, method_of_object, offered, superclass_below};

/// Whether a class is a superclass of another, direct or further up.
fn is_superclass(classes: &Classes, c: ClassId, d: ClassId) -> bool
    requires { c.0 < length classes.now }
    ensures { IsTrue result ↔ IsSuperclass classes.now c.0 d.0 }
{
    let ranks = classes.heights();
    let mut at = c;
    'upward: loop {
        match superclass_below(classes, &ranks, at) {
            Some(s) => {
                if are_one(s, d) {
                    return true;
                }
                at = s;
            }
            None => return false,
        }
    }
}

/// Where invokespecial starts.
fn start(classes: &Classes, name: &[u8], current: ClassId, named: ClassId) -> ClassId
    requires current_in { current.0 < length classes.now }
    requires named_in { named.0 < length classes.now }
    ensures start { StartsAt classes.now name.now current.0 named.0 result.0 }
    ensures there { result.0 < length classes.now }
{
    if is_constructor_name(name) {
        return named;
    }
    if is_interface_at(classes, named) {
        return named;
    }
    if !is_superclass(classes, current, named) {
        return named;
    }
    let ranks = classes.heights();
    match superclass_below(classes, &ranks, current) {
        Some(s) => s,
        None => named,
    }
}

/// The first method that invokespecial finds from a class on.
fn first_special(classes: &Classes, c: ClassId, name: &[u8], desc: &[u8]) -> Option<OwnMethod>
    requires { c.0 < length classes.now }
    ensures first { FirstSpecial classes.now (name.now, desc.now) c.0 (option_map (λ m. number m.class) result) }
    ensures own { IfSome result (λ m. IsOwn classes.now (name.now, desc.now) m) }
{
    if !is_interface_at(classes, c) {
        return first_up(classes, c, name, desc, Wanted::OfInstance);
    }
    match offered(classes, c, name, desc, Wanted::OfInstance) {
        Some(method) => Some(method),
        None => method_of_object(classes, name, desc),
    }
}

/// What runs where a method is called by invokespecial, in a method of the class `current`, by the name of the class
/// `named`: `java/lang/Object` where that is an array.
pub fn special(classes: &Classes, current: ClassId, named: ClassId, resolved: MethodId) -> Selected
    requires current_in { current.0 < length classes.now }
    requires named_in { named.0 < length classes.now }
    requires resolved_in { resolved.0 < member_count (method_keys classes.now) }
    ensures { Special classes.now current.0 named.0 resolved.0 result }
{
    let info = declared_method(classes, resolved).info;
    let name = info.name.as_slice();
    let desc = info.desc.as_slice();
    let c = start(classes, name, current, named);
    let found = first_special(classes, c, name, desc);
    taken(classes, c, name, desc, found)
}
