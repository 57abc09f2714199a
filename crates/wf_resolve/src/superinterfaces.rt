//! Methods that a class has from its superinterfaces.

ghost use Rattle.std.specs.Prelude.{◌≡◌, ◌<◌, ◌/◌, ◌||◌, ℕ, length, Some, true, is_some, IfSome, IfNone, slice_index};
ghost use Rattle.std.specs.Bool.{OnTrue, OnFalse};
ghost use Rattle.wf_classes.specs.Above.{IsAbove, Adds, IsHeightOfDirect};
ghost use Rattle.wf_classes.specs.World.{number, kind_at, AreHeights};
ghost use Rattle.wf_classes.specs.Own.{method_flags};
ghost use Rattle.wf_resolve.specs.Inherited.{IsOffer, AreDefaults, IsLeast, IsDefault, with_offer, with_offered};

use wf_base::ClassId;
use wf_classes::heights::has;
use wf_classes::{Classes, add_direct, own_method};
use wf_data::{is_abstract, is_interface, is_private, is_static};

/// The maximally specific methods that aren't abstract.
#[derive(Clone, Copy, Debug, PartialEq, Eq)]
pub enum Defaults {
    Nothing,
    One(ClassId),
    Many,
}

/// What a class has from its superinterfaces.
#[derive(Clone, Copy, Debug)]
pub struct Inherited {
    pub defaults: Defaults,
    /// The class of the least number that declares one.
    pub least: Option<ClassId>,
}

/// The flags of the method that a class has from one of those above it, where that is a superinterface that offers
/// one.
fn offer(classes: &Classes, c: ClassId, i: ClassId, name: &[u8], desc: &[u8]) -> Option<u16>
    requires c_in { c.0 < length classes.now }
    requires i_in { i.0 < length classes.now }
    requires above { IsAbove classes.now c.0 i.0 }
    ensures some { IfSome result (λ flags. IsOffer classes.now (name.now, desc.now) c.0 i.0) }
    ensures flags { IfSome result (λ flags. method_flags classes.now (name.now, desc.now) i.0 ≡ Some flags) }
    ensures none { IfNone result (IsOffer classes.now (name.now, desc.now) c.0 i.0 → ⊥) }
{
    if i == c || !is_interface(classes.list().as_slice()[i.0 as usize].flags) {
        return None;
    }
    let method = own_method(classes, i, name, desc)?;
    if is_private(method.flags) || is_static(method.flags) {
        None
    } else {
        Some(method.flags)
    }
}

/// With the offer of one more interface.
fn with_offer(found: Inherited, i: ClassId, is_default: bool) -> Inherited
    ensures { result ≡ with_offer found i is_default }
{
    let defaults = match (is_default, found.defaults) {
        (false, defaults) => defaults,
        (true, Defaults::Nothing) => Defaults::One(i),
        (true, _) => Defaults::Many,
    };
    let least = match found.least {
        Some(least) if least.0 < i.0 => least,
        _ => i,
    };
    Inherited {
        defaults,
        least: Some(least),
    }
}

/// With what one more interface offers, if it does.
fn with_offered(found: Inherited, i: ClassId, offered: Option<u16>, is_hidden: bool) -> Inherited
    ensures { result ≡ with_offered found i offered is_hidden }
{
    match offered {
        Some(flags) => with_offer(found, i, !is_hidden && !is_abstract(flags)),
        None => found,
    }
}

/// Whether what stands above an interface is hidden.
fn covers(offered: Option<u16>, is_hidden: bool) -> bool
    ensures { result ≡ (is_some offered || is_hidden) }
{
    offered.is_some() || is_hidden
}

/// Hides what is directly above an interface that offers a method or is hidden.
fn hide(hidden: &mut [u64], classes: &Classes, heights: &[u32], i: ClassId, covers: bool)
    requires inside { i.0 < length classes.now }
    requires count { length heights.now ≡ length classes.now }
    requires room { (d : ℕ) → d < length heights.now → slice_index heights.now d / 64 < length hidden.old }
    ensures added { OnTrue covers (Adds hidden.old hidden.new (IsHeightOfDirect classes.now heights.now i.0)) }
    ensures same { OnFalse covers (hidden.new ≡ hidden.old) }
{
    if covers {
        add_direct(hidden, classes, heights, i);
    }
}

/// What a class has from its superinterfaces under a name and a descriptor. Interfaces are visited behind those that
/// they are above; below one that offers a method each is hidden.
pub fn from_interfaces(classes: &Classes, c: ClassId, name: &[u8], desc: &[u8]) -> Inherited
    requires { c.0 < length classes.now }
    ensures defaults { AreDefaults (IsDefault classes.now (name.now, desc.now) c.0) result.defaults }
    ensures least { IsLeast (IsOffer classes.now (name.now, desc.now) c.0) result.least }
{
    let above = classes.above(c);
    let ranks = above.heights();
    let mut hidden = [0; 1024];
    let mut found = Inherited {
        defaults: Defaults::Nothing,
        least: None,
    };
    let mut bound = classes.list().len() as u32;
    'sweep: while let Some(i) = above.highest_below(bound) {
        bound = ranks.heights[i.0 as usize];
        let is_hidden = has(&hidden, bound);
        let offered = offer(classes, c, i, name, desc);
        found = with_offered(found, i, offered, is_hidden);
        hide(
            &mut hidden,
            classes,
            ranks.heights,
            i,
            covers(offered, is_hidden),
        );
    }
    found
}
