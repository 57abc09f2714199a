//! What invokevirtual and invokeinterface run.

ghost use Rattle.std.specs.Prelude.{◌≡◌, ◌<◌, length, IfSome, option_map};
ghost use Rattle.wf_classes.specs.Members.{method_keys, member_count, method_key};
ghost use Rattle.wf_classes.specs.Own.{IsMethod};
ghost use Rattle.wf_classes.specs.World.{number};
ghost use Rattle.wf_resolve.specs.Upward.{IsOwn};
ghost use Rattle.wf_select.specs.Selection.{FirstBy, Selects};

use crate::outcome::{Invoke, Selected, taken};
use crate::overriding::first_overriding;
use wf_base::{ClassId, MethodId};
use wf_classes::{Classes, DeclaredMethod, OwnMethod, declared_method};
use wf_resolve::{Wanted, first_up};

/// The first method, going up from the receiver's class, that runs where one is called so.
fn first_by(
    classes: &Classes,
    t: ClassId,
    resolved: MethodId,
    declared: &DeclaredMethod<'_>,
    by: Invoke,
) -> Option<OwnMethod>
    requires t_in { t.0 < length classes.now }
    requires resolved_in { resolved.0 < member_count (method_keys classes.now) }
    requires class_in { declared.now.class.0 < length classes.now }
    requires is { IsMethod classes.now resolved.0 declared.now.class.0 declared.now.info.now }
    ensures first { FirstBy classes.now (method_key declared.now.info.now) declared.now.class.0 by t.0 (option_map (λ m. number m.class) result) }
    ensures own { IfSome result (λ m. IsOwn classes.now (method_key declared.now.info.now) m) }
{
    let name = declared.info.name.as_slice();
    let desc = declared.info.desc.as_slice();
    match by {
        Invoke::Interface => first_up(classes, t, name, desc, Wanted::OfInstance),
        Invoke::Virtual => {
            let a = OwnMethod {
                class: declared.class,
                id: resolved,
                flags: declared.info.flags,
            };
            first_overriding(classes, t, a, name, desc)
        }
    }
}

/// What runs where a method is called for an object of a class, or of an array, whose class is `java/lang/Object`. This
/// takes no memory, and goes upwards once.
pub fn select(classes: &Classes, t: ClassId, resolved: MethodId, by: Invoke) -> Selected
    requires t_in { t.0 < length classes.now }
    requires resolved_in { resolved.0 < member_count (method_keys classes.now) }
    ensures { Selects classes.now t.0 resolved.0 by result }
{
    let declared = declared_method(classes, resolved);
    let found = first_by(classes, t, resolved, &declared, by);
    taken(
        classes,
        t,
        declared.info.name.as_slice(),
        declared.info.desc.as_slice(),
        found,
    )
}
