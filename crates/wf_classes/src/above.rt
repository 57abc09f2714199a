ghost use Rattle.std.specs.Prelude.{◌≡◌, ℕ, ◌+◌, ◌*◌, ◌/◌, ◌<◌, ◌≤◌, ◌↔◌, IsTrue, length, slice_index};
ghost use Rattle.wf_data.specs.declared.class_info.ClassInfo.{ClassInfo};
ghost use Rattle.wf_classes.specs.World.{AreHeights, number_in};
ghost use Rattle.wf_classes.specs.Above.{IsAbove, IsDirectlyAbove, IsHighestBelow, Adds, IsHeightOfDirect, MarksAbove};

use crate::classes::{ClassHeights, Classes};
use crate::heights::{add, add_all, has, last_below};
use std::marker::Model;
use wf_base::ClassId;
use wf_data::ClassInfo;

/// The classes above a class: itself, its superclass and superinterfaces, and what is above these. A contract
/// sees the class, all classes, and their heights.
#[derive(Drop)]
pub struct Above<'a> {
    list: &'a [ClassInfo],
    class: ClassId,
    order: &'a [u32],
    heights: &'a [u32],
    /// Bit h is set where the class of height h is above.
    bits: [u64; 1024],
}

impl<'a> Model for Above<'a> {
    ghost use Rattle.wf_classes.specs.Above.{ClassesAbove, IsAboveKept};

    ghost Value = { ClassesAbove };

    ghost view = { λ a. record { classes = a.list.now; class = a.class.0; order = a.order.now; heights = a.heights.now } };

    ghost invariant = { λ a. IsAboveKept a.list.now a.order.now a.heights.now a.class.0 a.bits };
}

/// Adds to a set of heights those of what stands directly above a class.
pub fn add_direct(bits: &mut [u64], classes: &Classes, heights: &[u32], c: ClassId)
    requires inside { c.0 < length classes.now }
    requires count { length heights.now ≡ length classes.now }
    requires room { (d : ℕ) → d < length heights.now → slice_index heights.now d / 64 < length bits.old }
    ensures { Adds bits.old bits.new (IsHeightOfDirect classes.now heights.now c.0) }
{
    if let Some(s) = classes.superclass(c) {
        add(bits, heights[s.0 as usize]);
    }
    add_all(bits, heights, classes.superinterfaces(c));
}

/// The heights of the classes above a class. Heights fall on each way upwards, so each class that is above is
/// marked before the sweep comes to its height.
fn heights_above(classes: &Classes, ranks: ClassHeights, c: ClassId) -> [u64; 1024]
    requires inside { c.0 < length classes.now }
    requires few { length classes.now ≤ 65536 }
    requires ranked { AreHeights classes.now ranks.order.now ranks.heights.now }
    ensures { MarksAbove classes.now ranks.entry.heights.now c.0 result }
{
    let height = ranks.heights[c.0 as usize];
    let mut bits = [0; 1024];
    add(&mut bits, height);
    let mut bound = height + 1;
    while let Some(h) = last_below(&bits, bound) {
        add_direct(
            &mut bits,
            classes,
            ranks.heights,
            ClassId(ranks.order[h as usize]),
        );
        bound = h;
    }
    bits
}

impl Classes {
    /// The classes above a class. This takes no memory, and the time of the classes that are above and of their
    /// lists.
    pub fn above(&self, c: ClassId) -> Above<'_>
        requires { c.0 < length self.now }
        ensures classes { result.classes ≡ self.now }
        ensures class { result.class ≡ c.0 }
    {
        let list = self.list().as_slice();
        let ranks = self.heights();
        let bits = heights_above(self, ranks, c);
        Above {
            list,
            class: c,
            order: ranks.order,
            heights: ranks.heights,
            bits,
        }
    }
}

impl<'a> Above<'a> {
    /// Whether a class is above.
    pub fn holds(&self, d: ClassId) -> bool
        requires { d.0 < length self.now.classes }
        ensures { IsTrue result ↔ IsAbove self.now.classes self.now.class d.0 }
    {
        has(&self.bits, self.heights[d.0 as usize])
    }

    /// The heights of the classes.
    pub fn heights(&self) -> ClassHeights<'a>
        ensures order { result.order.now ≡ self.now.order }
        ensures heights { result.heights.now ≡ self.now.heights }
        ensures ranked { AreHeights self.now.classes self.now.order self.now.heights }
    {
        ClassHeights {
            order: self.order,
            heights: self.heights,
        }
    }

    /// Of the classes above, that of greatest height below a bound: with falling bounds each comes once, and
    /// each behind the classes that it is above.
    pub fn highest_below(&self, bound: u32) -> Option<ClassId>
        requires { bound ≤ length self.now.classes }
        ensures { IsHighestBelow self.now bound result }
    {
        match last_below(&self.bits, bound) {
            Some(h) => Some(ClassId(self.order[h as usize])),
            None => None,
        }
    }
}
