//! What invokevirtual and invokeinterface run for an object of a type.

ghost use Rattle.std.specs.Prelude.{◌<◌, ◌≤◌, length};
ghost use Rattle.wf_classes.specs.Members.{method_keys, member_count};
ghost use Rattle.wf_select.specs.OfTypes.{SelectsOfType};

use crate::outcome::{Invoke, Selected};
use crate::receiver::select;
use wf_base::{MethodId, TypeId};
use wf_subtype::Types;

/// What runs where a method is called for an object of a type other than null: as for its class, and for an array as for
/// `java/lang/Object`. It isn't asked whether the type is under the class that declares the method: a caller asks that
/// first.
pub fn select_of_type(types: &Types, t: TypeId, resolved: MethodId, by: Invoke) -> Selected
    requires some { 0 < t.0 }
    requires there { t.0 ≤ length types.now.names }
    requires resolved_in { resolved.0 < member_count (method_keys types.now.classes) }
    ensures { SelectsOfType types.now t.0 resolved.0 by result }
{
    select(types.classes(), types.class_of(t), resolved, by)
}
