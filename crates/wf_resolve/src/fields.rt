//! The field that a name means in a class.

ghost use Rattle.std.specs.Prelude.{◌≡◌, ◌<◌, ◌≤◌, ◌↔◌, ◌/◌, ℕ, length, map, Some, None, IsTrue, IfSome, IfNone, option_map, slice_get, slice_index};
ghost use Rattle.std.specs.Bool.{OnTrue, OnFalse};
ghost use Rattle.wf_base.specs.declared.ids.ClassId.{ClassId};
ghost use Rattle.wf_classes.specs.Above.{IsAbove, IsDirectlyAbove, Has, Adds};
ghost use Rattle.wf_classes.specs.Members.{field_keys, member_count, field_number};
ghost use Rattle.wf_classes.specs.World.{number, number_in, AreHeights, superclass_of, superinterfaces_of};
ghost use Rattle.wf_resolve.specs.Fields.{FieldOf, places_behind};
ghost use Rattle.wf_resolve.specs.Reaching.{IsSought, IsReaching, AreReaching, FirstMarkedOf};

use wf_base::{ClassId, FieldId};
use wf_classes::heights::{add, has};
use wf_classes::{Above, ClassHeights, Classes};

/// What is looked for among the classes above one.
#[derive(Clone, Copy)]
pub enum Sought<'a> {
    Class(ClassId),
    FieldOf { name: &'a [u8], desc: &'a [u8] },
}

/// A field with the class that declares it.
#[derive(Clone, Copy, Debug)]
pub struct FoundField {
    pub class: ClassId,
    pub id: FieldId,
}

fn is_sought(classes: &Classes, sought: &Sought<'_>, c: ClassId) -> bool
    requires { c.0 < length classes.now }
    ensures { IsTrue result ↔ IsSought classes.now sought.now c.0 }
{
    match sought {
        Sought::Class(class) => *class == c,
        Sought::FieldOf { name, desc } => classes.find_field(c, name, desc).is_some(),
    }
}

/// The first of some classes that is marked.
fn first_marked(bits: &[u64], heights: &[u32], ids: &[ClassId]) -> Option<ClassId>
    requires inside { (i : ℕ) (c : ClassId) → slice_get ids.now i ≡ Some c → c.0 < length heights.now }
    requires room { (c : ℕ) → c < length heights.now → slice_index heights.now c / 64 < length bits.now }
    ensures { FirstMarkedOf bits.now heights.now (map number ids.now) result }
{
    for c in ids {
        if has(bits, heights[c.0 as usize]) {
            return Some(*c);
        }
    }
    None
}

/// The first place behind a class that is marked: of its superinterfaces, else its superclass.
fn first_behind(bits: &[u64], classes: &Classes, heights: &[u32], c: ClassId) -> Option<ClassId>
    requires c_in { c.0 < length classes.now }
    requires count { length heights.now ≡ length classes.now }
    requires room { (d : ℕ) → d < length heights.now → slice_index heights.now d / 64 < length bits.now }
    ensures { FirstMarkedOf bits.now heights.now (places_behind classes.now c.0) result }
{
    match first_marked(bits, heights, classes.superinterfaces(c)) {
        Some(s) => Some(s),
        None => {
            let s = classes.superclass(c)?;
            if has(bits, heights[s.0 as usize]) {
                Some(s)
            } else {
                None
            }
        }
    }
}

/// Whether a class is above another, and is what is sought or has that above it. What is directly above it is marked
/// where that is so of it.
fn is_reaching(
    bits: &[u64],
    classes: &Classes,
    above: &Above<'_>,
    heights: &[u32],
    d: ClassId,
    sought: &Sought<'_>,
) -> bool
    requires d_in { d.0 < length classes.now }
    requires same { above.now.classes ≡ classes.now }
    requires count { length heights.now ≡ length classes.now }
    requires room { (s : ℕ) → s < length heights.now → slice_index heights.now s / 64 < length bits.now }
    requires marked { (s : ℕ) → IsDirectlyAbove classes.now d.0 s → Has bits.now (slice_index heights.now s) ↔ IsReaching classes.now (IsSought classes.now sought.now) above.now.class s }
    ensures { IsTrue result ↔ IsReaching classes.now (IsSought classes.now sought.now) above.now.class d.0 }
{
    if !above.holds(d) {
        return false;
    }
    if is_sought(classes, sought, d) {
        return true;
    }
    first_behind(bits, classes, heights, d).is_some()
}

/// Adds a height where it is to be added.
fn add_if(bits: &mut [u64], h: u32, is_added: bool)
    requires { h / 64 < length bits.old }
    ensures added { OnTrue is_added (Adds bits.old bits.new (λ g. g ≡ h)) }
    ensures same { OnFalse is_added (bits.new ≡ bits.old) }
{
    if is_added {
        add(bits, h);
    }
}

/// The heights of the classes above a class that are what is sought, or have that above them. Each class comes behind
/// those above it.
pub fn reaching(
    classes: &Classes,
    ranks: ClassHeights<'_>,
    c: ClassId,
    sought: &Sought<'_>,
) -> [u64; 1024]
    requires inside { c.0 < length classes.now }
    requires few { length classes.now ≤ 65536 }
    requires ranked { AreHeights classes.now ranks.order.now ranks.heights.now }
    ensures { AreReaching classes.now ranks.entry.heights.now (IsSought classes.now sought.now) c.0 result }
{
    let above = classes.above(c);
    let mut bits = [0; 1024];
    for h in 0..ranks.heights[c.0 as usize] + 1 {
        let d = ClassId(ranks.order[h as usize]);
        let is_added = is_reaching(&bits, classes, &above, ranks.heights, d, sought);
        add_if(&mut bits, h, is_added);
    }
    bits
}

/// The field that a name and a descriptor mean in a class, by the classes from which the search finds one.
fn field_above(classes: &Classes, c: ClassId, name: &[u8], desc: &[u8]) -> Option<FoundField>
    requires { c.0 < length classes.now }
    ensures class { FieldOf classes.now (name.now, desc.now) c.0 (option_map (λ f. number f.class) result) }
    ensures number { IfSome result (λ f. field_number classes.now (number f.class) name.now desc.now ≡ Some f.id.0) }
    ensures within { IfSome result (λ f. f.id.0 < member_count (field_keys classes.now)) }
{
    let count = classes.list().len();
    prove!(count <= 65536);
    let ranks = classes.heights();
    let bits = reaching(classes, ranks, c, &Sought::FieldOf { name, desc });
    let mut d = c;
    'upward: loop {
        match classes.find_field(d, name, desc) {
            Some(id) => return Some(FoundField { class: d, id }),
            None => {}
        }
        match first_behind(&bits, classes, ranks.heights, d) {
            Some(s) => d = s,
            None => return None,
        }
    }
}

/// The field that a name and a descriptor mean in a class.
pub fn field_of(classes: &Classes, c: ClassId, name: &[u8], desc: &[u8]) -> Option<FoundField>
    requires { c.0 < length classes.now }
    ensures class { FieldOf classes.now (name.now, desc.now) c.0 (option_map (λ f. number f.class) result) }
    ensures number { IfSome result (λ f. field_number classes.now (number f.class) name.now desc.now ≡ Some f.id.0) }
    ensures within { IfSome result (λ f. f.id.0 < member_count (field_keys classes.now)) }
{
    match classes.find_field(c, name, desc) {
        Some(id) => Some(FoundField { class: c, id }),
        None => field_above(classes, c, name, desc),
    }
}
