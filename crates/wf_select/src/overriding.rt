//! The first method that overrides another.

ghost use Rattle.std.specs.Prelude.{◌≡◌, ◌<◌, ◌/◌, ℕ, true, false, length, IfSome, option_map, slice_index};
ghost use Rattle.wf_classes.specs.World.{AreHeights, number};
ghost use Rattle.wf_data.specs.Flags.{is_private, is_static};
ghost use Rattle.wf_resolve.specs.Upward.{FirstUp, IsOwn};
ghost use Rattle.wf_select.specs.Overriding.{Overrides, is_open, is_of_package};
ghost use Rattle.wf_select.specs.Walking.{StandsAs, known, with_passed, NextMarked};

use crate::package::{are_one, same_package};
use wf_base::ClassId;
use wf_classes::heights::has;
use wf_classes::{ClassHeights, Classes, OwnMethod};
use wf_data::{is_private, is_protected, is_public, is_static};
use wf_resolve::{Sought, Wanted, offered, reaching, superclass_below};

fn is_open(flags: u16) -> bool
    ensures { result ≡ is_open flags }
{
    is_public(flags) || is_protected(flags)
}

/// The same, of a public or protected one: the first candidate, where it is a subtype.
fn first_of_open(
    classes: &Classes,
    t: ClassId,
    a: OwnMethod,
    name: &[u8],
    desc: &[u8],
) -> Option<OwnMethod>
    requires t_in { t.0 < length classes.now }
    requires a_in { number a.class < length classes.now }
    requires own { IsOwn classes.now (name.now, desc.now) a }
    requires of_instance { is_static a.flags ≡ false }
    requires opens { is_open a.flags ≡ true }
    ensures first { FirstUp classes.now (λ d. Overrides classes.now (name.now, desc.now) d (number a.class)) t.0 (option_map (λ m. number m.class) result) }
    ensures own { IfSome result (λ m. IsOwn classes.now (name.now, desc.now) m) }
{
    let ranks = classes.heights();
    let mut d = t;
    'upward: loop {
        if are_one(d, a.class) {
            return Some(a);
        }
        match offered(classes, d, name, desc, Wanted::Overriding) {
            Some(method) => {
                return if classes.above(d).holds(a.class) {
                    Some(method)
                } else {
                    None
                };
            }
            None => {}
        }
        match superclass_below(classes, &ranks, d) {
            Some(s) => d = s,
            None => return None,
        }
    }
}

/// The same, of a private one, which only itself overrides.
fn first_of_private(
    classes: &Classes,
    t: ClassId,
    a: OwnMethod,
    name: &[u8],
    desc: &[u8],
) -> Option<OwnMethod>
    requires t_in { t.0 < length classes.now }
    requires own { IsOwn classes.now (name.now, desc.now) a }
    requires of_instance { is_static a.flags ≡ false }
    requires closed { is_open a.flags ≡ false }
    requires of_class { is_private a.flags ≡ true }
    ensures first { FirstUp classes.now (λ d. Overrides classes.now (name.now, desc.now) d (number a.class)) t.0 (option_map (λ m. number m.class) result) }
    ensures own { IfSome result (λ m. IsOwn classes.now (name.now, desc.now) m) }
{
    let ranks = classes.heights();
    let mut d = t;
    'upward: loop {
        if are_one(d, a.class) {
            return Some(a);
        }
        match superclass_below(classes, &ranks, d) {
            Some(s) => d = s,
            None => return None,
        }
    }
}

/// What stands in a class, for a method that has package access.
#[derive(Clone, Copy)]
enum Standing {
    /// The method itself.
    Itself,
    /// A public or protected one of its package, which carries its package's leave further down.
    Opener(OwnMethod),
    /// Another candidate of its package.
    Near(OwnMethod),
    /// A candidate of another package.
    Far(OwnMethod),
    Nothing,
}

/// The lowest candidate that was passed, and the lowest of the package.
#[derive(Clone, Copy)]
struct Passed {
    any: Option<OwnMethod>,
    near: Option<OwnMethod>,
}

fn look_at(classes: &Classes, d: ClassId, a: ClassId, name: &[u8], desc: &[u8]) -> Standing
    requires d_in { d.0 < length classes.now }
    requires a_in { a.0 < length classes.now }
    ensures { StandsAs classes.now (name.now, desc.now) a.0 d.0 result }
{
    if are_one(d, a) {
        return Standing::Itself;
    }
    match offered(classes, d, name, desc, Wanted::Overriding) {
        None => Standing::Nothing,
        Some(method) => {
            if !same_package(classes, d, a) {
                Standing::Far(method)
            } else if is_open(method.flags) {
                Standing::Opener(method)
            } else {
                Standing::Near(method)
            }
        }
    }
}

/// What overrides it, where that is known.
fn known(at: Standing, passed: Passed, a: OwnMethod) -> Option<OwnMethod>
    ensures { result ≡ known at passed a }
{
    match at {
        Standing::Itself => Some(passed.near.unwrap_or(a)),
        Standing::Opener(method) => Some(passed.any.unwrap_or(method)),
        Standing::Near(_) | Standing::Far(_) | Standing::Nothing => None,
    }
}

/// With one class more passed.
fn with_passed(at: Standing, passed: Passed) -> Passed
    ensures { result ≡ with_passed at passed }
{
    match at {
        Standing::Near(method) => Passed {
            any: Some(passed.any.unwrap_or(method)),
            near: Some(passed.near.unwrap_or(method)),
        },
        Standing::Far(method) => Passed {
            any: Some(passed.any.unwrap_or(method)),
            near: passed.near,
        },
        Standing::Itself | Standing::Opener(_) | Standing::Nothing => passed,
    }
}

/// The superclass of a class, where that is marked.
fn next_marked(
    classes: &Classes,
    ranks: &ClassHeights<'_>,
    bits: &[u64],
    d: ClassId,
) -> Option<ClassId>
    requires d_in { d.0 < length classes.now }
    requires ranked { AreHeights classes.now ranks.now.order.now ranks.now.heights.now }
    requires room { (c : ℕ) → c < length classes.now → slice_index ranks.now.heights.now c / 64 < length bits.now }
    ensures { NextMarked classes.now ranks.now.heights.now bits.now d.0 result }
{
    match superclass_below(classes, ranks, d) {
        Some(s) => {
            if has(bits, ranks.heights[s.0 as usize]) {
                Some(s)
            } else {
                None
            }
        }
        None => None,
    }
}

/// The same, of one that has package access.
fn first_of_package(
    classes: &Classes,
    t: ClassId,
    a: OwnMethod,
    name: &[u8],
    desc: &[u8],
) -> Option<OwnMethod>
    requires t_in { t.0 < length classes.now }
    requires a_in { number a.class < length classes.now }
    requires own { IsOwn classes.now (name.now, desc.now) a }
    requires of_instance { is_static a.flags ≡ false }
    requires of_package { is_of_package a.flags ≡ true }
    ensures first { FirstUp classes.now (λ d. Overrides classes.now (name.now, desc.now) d (number a.class)) t.0 (option_map (λ m. number m.class) result) }
    ensures own { IfSome result (λ m. IsOwn classes.now (name.now, desc.now) m) }
{
    let count = classes.list().len();
    prove!(count <= 65536);
    let ranks = classes.heights();
    let bits = reaching(classes, ranks, t, &Sought::Class(a.class));
    if !has(&bits, ranks.heights[t.0 as usize]) {
        return None;
    }
    let mut d = t;
    let mut passed = Passed {
        any: None,
        near: None,
    };
    'upward: loop {
        let at = look_at(classes, d, a.class, name, desc);
        match known(at, passed, a) {
            Some(method) => return Some(method),
            None => {}
        }
        passed = with_passed(at, passed);
        match next_marked(classes, &ranks, &bits, d) {
            Some(s) => d = s,
            None => return passed.near,
        }
    }
}

/// The first method, going up from a class, that overrides a method.
pub fn first_overriding(
    classes: &Classes,
    t: ClassId,
    a: OwnMethod,
    name: &[u8],
    desc: &[u8],
) -> Option<OwnMethod>
    requires t_in { t.0 < length classes.now }
    requires a_in { number a.class < length classes.now }
    requires own { IsOwn classes.now (name.now, desc.now) a }
    ensures first { FirstUp classes.now (λ d. Overrides classes.now (name.now, desc.now) d (number a.class)) t.0 (option_map (λ m. number m.class) result) }
    ensures own { IfSome result (λ m. IsOwn classes.now (name.now, desc.now) m) }
{
    if is_static(a.flags) {
        let _ranks = classes.heights();
        return None;
    }
    if is_open(a.flags) {
        return first_of_open(classes, t, a, name, desc);
    }
    if is_private(a.flags) {
        return first_of_private(classes, t, a, name, desc);
    }
    first_of_package(classes, t, a, name, desc)
}
