ghost use Rattle.std.specs.Prelude.{◌≡◌, ◌≢◌, ℕ, ◌+◌, ◌<◌, ◌≤◌, List, length, map, false, true, All, IfOk, IfSome, IfNone, Some, None, Err, option_map, slice_get};
ghost use Rattle.wf_data.specs.declared.class_info.ClassInfo.{ClassInfo};
ghost use Rattle.wf_names.specs.Names.{object_name};
ghost use Rattle.wf_classes.specs.World.{HaveNamesOfTheirOwn, HaveSpellings, AreWithinLimits, Loadable, IsClosedWorld, IsClosingOf, AreHeights, class_of, name_at, kind_at, superclass_of, superinterfaces_of, number, number_in};
ghost use Rattle.wf_classes.specs.Members.{HaveKeysOfTheirOwn, IsMemberAt, method_keys, field_keys, member_count, method_number, field_number};

use crate::closing::close;
use crate::fault::CloseFault;
use crate::kept::keep_loadable;
use crate::links::{Link, links_of, places_in};
use crate::members::MemberPlace;
use crate::names::{class_number, sort_by_name};
use crate::table::{Members, class_places, field_rank, fields_of, method_rank, methods_of};
use std::alloc::{AllocError, Global};
use std::marker::Model;
use wf_base::{ClassId, FieldId, Items, MethodId};
use wf_data::ClassInfo;

/// The loadable classes of a run, in the order of the bytes of their names. A contract sees their list.
#[derive(Drop)]
pub struct Classes {
    list: Items<ClassInfo>,
    links: Vec<Link>,
    order: Vec<u32>,
    heights: Vec<u32>,
    methods: Members,
    fields: Members,
}

impl Model for Classes {
    ghost use Rattle.std.specs.Prelude.{List};
    ghost use Rattle.wf_data.specs.declared.class_info.ClassInfo.{ClassInfo};
    ghost use Rattle.wf_classes.specs.Kept.{IsKept};

    ghost Value = { List ClassInfo };

    ghost view = { λ c. c.list };

    ghost invariant = { λ c. IsKept c.list c.links.items c.order.items c.heights.items c.methods.first.items c.methods.places.items c.fields.first.items c.fields.places.items };
}

/// An order of the classes, by their numbers, in which each stands behind its superclass and its
/// superinterfaces, and each class's place in it: its height.
#[derive(Clone, Copy)]
pub struct ClassHeights<'a> {
    pub order: &'a [u32],
    pub heights: &'a [u32],
}

/// What a closed world is kept with.
fn kept(alloc: Global, list: Vec<ClassInfo>) -> Result<Classes, AllocError>
    requires { IsClosedWorld list.items }
    ensures { IfOk result (λ classes. classes ≡ list.items) }
{
    let order = close(alloc, list.as_slice())?.order;
    let heights = places_in(alloc, order.as_slice())?;
    let links = links_of(alloc, list.as_slice())?;
    let methods = methods_of(alloc, list.as_slice())?;
    let fields = fields_of(alloc, list.as_slice())?;
    Ok(Classes {
        list: Items::from_vec(list),
        links,
        order,
        heights,
        methods,
        fields,
    })
}

/// Closes the world: keeps the loadable classes, in the order of their names. A class that isn't loadable is
/// dropped.
pub fn close_world(alloc: Global, files: Items<ClassInfo>) -> Result<Classes, CloseFault>
    requires apart { HaveNamesOfTheirOwn files }
    requires spelled { HaveSpellings files }
    requires limits { AreWithinLimits files }
    ensures closed { IfOk result (λ classes. IsClosingOf files classes) }

    // Only where java/lang/Object isn't loadable.
    ensures no_object { result ≡ Err CloseFault.NoObject → Loadable files object_name → ⊥ }
{
    let mut list = files.into_vec();
    sort_by_name(&mut list);
    let waiting = close(alloc, list.as_slice())?.waiting;
    keep_loadable(&mut list, waiting.as_slice());
    if class_number(list.as_slice(), b"java/lang/Object".as_slice()).is_none() {
        return Err(CloseFault::NoObject);
    }
    Ok(kept(alloc, list)?)
}

impl Classes {
    /// The loadable classes. Class c stands at place c.
    pub fn list(&self) -> &Items<ClassInfo>
        ensures same { result.now ≡ self.now }
        ensures world { IsClosedWorld self.now }
        ensures methods_apart { HaveKeysOfTheirOwn (method_keys self.now) }
        ensures fields_apart { HaveKeysOfTheirOwn (field_keys self.now) }
    {
        &self.list
    }

    pub fn find(&self, name: &[u8]) -> Option<ClassId>
        ensures { number_in result ≡ class_of self.now name.now }
    {
        class_number(self.list.as_slice(), name).map(ClassId)
    }

    /// None of `java/lang/Object` alone.
    pub fn superclass(&self, c: ClassId) -> Option<ClassId>
        requires { c.0 < length self.now }
        ensures number { number_in result ≡ superclass_of self.now c.0 }
        ensures class { IfSome result (λ s. kind_at self.now s.0 ≡ Some false) }
        ensures none { IfNone result (name_at self.now c.0 ≡ Some object_name) }
    {
        self.links[c.0 as usize].superclass
    }

    /// The interfaces in the class's own list, in its order: as many as the list has.
    pub fn superinterfaces(&self, c: ClassId) -> &[ClassId]
        requires { c.0 < length self.now }
        ensures numbers { map number result.now ≡ superinterfaces_of self.now c.0 }
        ensures all { (k : ClassInfo) → slice_get self.now c.0 ≡ Some k → length result.now ≡ length k.interfaces }
        ensures interfaces { All (λ s. kind_at self.now s.0 ≡ Some true) result.now }
    {
        self.links[c.0 as usize].superinterfaces.as_slice()
    }

    /// Heights fall on each way upwards, and no two classes have one height.
    pub fn heights(&self) -> ClassHeights<'_>
        ensures { AreHeights self.now result.order.now result.heights.now }
    {
        ClassHeights {
            order: self.order.as_slice(),
            heights: self.heights.as_slice(),
        }
    }

    /// How many methods there are. Their numbers are below this.
    pub fn methods(&self) -> u32
        ensures { result ≡ member_count (method_keys self.now) }
    {
        self.methods.places.len() as u32
    }

    /// How many fields there are. Their numbers are below this.
    pub fn fields(&self) -> u32
        ensures { result ≡ member_count (field_keys self.now) }
    {
        self.fields.places.len() as u32
    }

    /// The method that a class itself declares under a name and a descriptor.
    pub fn find_method(&self, class: ClassId, name: &[u8], desc: &[u8]) -> Option<MethodId>
        requires { class.0 < length self.now }
        ensures number { option_map (λ m. m.0) result ≡ method_number self.now class.0 name.now desc.now }
        ensures within { IfSome result (λ m. m.0 < member_count (method_keys self.now)) }
    {
        let methods = self.list.as_slice()[class.0 as usize].methods.as_slice();
        let places = class_places(&self.methods, class.0 as usize, methods.len());
        match method_rank(places, methods, name, desc) {
            Some(rank) => Some(MethodId(self.methods.first[class.0 as usize] + rank)),
            None => None,
        }
    }

    /// The field that a class itself declares under a name and a descriptor.
    pub fn find_field(&self, class: ClassId, name: &[u8], desc: &[u8]) -> Option<FieldId>
        requires { class.0 < length self.now }
        ensures number { option_map (λ f. f.0) result ≡ field_number self.now class.0 name.now desc.now }
        ensures within { IfSome result (λ f. f.0 < member_count (field_keys self.now)) }
    {
        let fields = self.list.as_slice()[class.0 as usize].fields.as_slice();
        let places = class_places(&self.fields, class.0 as usize, fields.len());
        match field_rank(places, fields, name, desc) {
            Some(rank) => Some(FieldId(self.fields.first[class.0 as usize] + rank)),
            None => None,
        }
    }

    /// Where a method is declared.
    pub fn method_place(&self, m: MethodId) -> MemberPlace
        requires { m.0 < member_count (method_keys self.now) }
        ensures class { result.class.0 < length self.now }
        ensures place { IsMemberAt (method_keys self.now) m.0 result.class.0 result.index }
    {
        self.methods.places[m.0 as usize]
    }

    /// Where a field is declared.
    pub fn field_place(&self, f: FieldId) -> MemberPlace
        requires { f.0 < member_count (field_keys self.now) }
        ensures class { result.class.0 < length self.now }
        ensures place { IsMemberAt (field_keys self.now) f.0 result.class.0 result.index }
    {
        self.fields.places[f.0 as usize]
    }
}
