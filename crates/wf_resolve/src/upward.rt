//! Going up from a class by superclasses.

ghost use Rattle.std.specs.Prelude.{◌≡◌, ◌<◌, length, Some, false, IfSome, IfNone, option_map, slice_index};
ghost use Rattle.wf_classes.specs.World.{AreHeights, kind_at, number, number_in, superclass_of};
ghost use Rattle.wf_resolve.specs.Upward.{FirstUp, Offers, IsOwn, is_wanted};

use wf_base::ClassId;
use wf_classes::{ClassHeights, Classes, OwnMethod, own_method};
use wf_data::{is_private, is_static};

/// Which methods are sought.
#[derive(Clone, Copy, Debug, PartialEq, Eq)]
pub enum Wanted {
    Any,
    OfInstance,
    /// Instance methods that aren't private.
    Overriding,
}

fn is_wanted(wanted: Wanted, flags: u16) -> bool
    ensures { result ≡ is_wanted wanted flags }
{
    match wanted {
        Wanted::Any => true,
        Wanted::OfInstance => !is_static(flags),
        Wanted::Overriding => !is_static(flags) && !is_private(flags),
    }
}

/// The method of a name and a descriptor that a class itself declares, where it is sought.
pub fn offered(
    classes: &Classes,
    c: ClassId,
    name: &[u8],
    desc: &[u8],
    wanted: Wanted,
) -> Option<OwnMethod>
    requires { c.0 < length classes.now }
    ensures class { IfSome result (λ m. m.class ≡ c) }
    ensures own { IfSome result (λ m. IsOwn classes.now (name.now, desc.now) m) }
    ensures some { IfSome result (λ m. Offers classes.now (name.now, desc.now) wanted c.0) }
    ensures none { IfNone result (Offers classes.now (name.now, desc.now) wanted c.0 → ⊥) }
{
    let method = own_method(classes, c, name, desc)?;
    if is_wanted(wanted, method.flags) {
        Some(method)
    } else {
        None
    }
}

/// The superclass of a class. It stands lower.
pub fn superclass_below(classes: &Classes, ranks: &ClassHeights<'_>, c: ClassId) -> Option<ClassId>
    requires c_in { c.0 < length classes.now }
    requires ranked { AreHeights classes.now ranks.now.order.now ranks.now.heights.now }
    ensures number { number_in result ≡ superclass_of classes.now c.0 }
    ensures there { IfSome result (λ s. s.0 < length classes.now) }
    ensures class { IfSome result (λ s. kind_at classes.now s.0 ≡ Some false) }
    ensures lower { IfSome result (λ s. slice_index ranks.now.heights.now s.0 < slice_index ranks.now.heights.now c.0) }
{
    classes.superclass(c)
}

/// The first method of a name and a descriptor that is sought, going up from a class.
pub fn first_up(
    classes: &Classes,
    c: ClassId,
    name: &[u8],
    desc: &[u8],
    wanted: Wanted,
) -> Option<OwnMethod>
    requires { c.0 < length classes.now }
    ensures first { FirstUp classes.now (Offers classes.now (name.now, desc.now) wanted) c.0 (option_map (λ m. number m.class) result) }
    ensures own { IfSome result (λ m. IsOwn classes.now (name.now, desc.now) m) }
    ensures there { IfSome result (λ m. number m.class < length classes.now) }
{
    let ranks = classes.heights();
    let mut d = c;
    'upward: loop {
        match offered(classes, d, name, desc, wanted) {
            Some(method) => return Some(method),
            None => {}
        }
        match superclass_below(classes, &ranks, d) {
            Some(s) => d = s,
            None => return None,
        }
    }
}
