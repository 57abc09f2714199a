ghost use Rattle.std.specs.Prelude.{◌≡◌, ℕ, ◌<◌, ◌≤◌, ◌≢◌, ◌++◌, length, map, option_and_then, option_to_list, slice_index, vec_len, IfOk, OnOk};
ghost use Rattle.std.specs.List.{filter_map};
ghost use Rattle.wf_classes.specs.World.{IsAscending, names_of, class_of, number, number_in};
ghost use Rattle.wf_classes.specs.Links.{AreLinks};

use crate::names::class_number;
use std::alloc::{AllocError, Global};
use wf_base::{ClassId, Items, Text};
use wf_data::ClassInfo;

/// What stands directly above a class.
#[derive(Drop)]
pub struct Link {
    pub superclass: Option<ClassId>,
    /// The interfaces in the class's own list, in its order.
    pub superinterfaces: Vec<ClassId>,
}

fn superclass_of(list: &[ClassInfo], class: &ClassInfo) -> Option<ClassId>
    requires ascending { IsAscending (names_of list.now) }
    requires few { length list.now ≤ 65536 }
    ensures { number_in result ≡ option_and_then (class_of list.now) class.now.superclass }
{
    match &class.superclass {
        Some(name) => class_number(list, name.as_slice()).map(ClassId),
        None => None,
    }
}

fn push_number(
    list: &[ClassInfo],
    name: &[u8],
    numbers: &mut Vec<ClassId>,
) -> Result<(), AllocError>
    requires ascending { IsAscending (names_of list.now) }
    requires few { length list.now ≤ 65536 }
    ensures { OnOk result (map number numbers.new.items ≡ map number numbers.old.items ++ option_to_list (class_of list.now name.now)) }
{
    if let Some(c) = class_number(list, name) {
        numbers.push(ClassId(c))?;
    }
    Ok(())
}

fn superinterfaces_of(
    alloc: Global,
    list: &[ClassInfo],
    names: &[Text],
) -> Result<Vec<ClassId>, AllocError>
    requires ascending { IsAscending (names_of list.now) }
    requires few { length list.now ≤ 65536 }
    ensures { IfOk result (λ numbers. map number numbers.items ≡ filter_map (class_of list.now) names.now) }
{
    let mut numbers = Vec::new(alloc);
    for name in names {
        push_number(list, name.as_slice(), &mut numbers)?;
    }
    Ok(numbers)
}

/// What stands above each class.
pub fn links_of(alloc: Global, list: &[ClassInfo]) -> Result<Vec<Link>, AllocError>
    requires ascending { IsAscending (names_of list.now) }
    requires few { length list.now ≤ 65536 }
    ensures { IfOk result (λ links. AreLinks list.now (length list.now) links.items) }
{
    let mut links = Vec::new(alloc);
    for class in list {
        let superclass = superclass_of(list, class);
        let superinterfaces = superinterfaces_of(alloc, list, class.interfaces.as_slice())?;
        links.push(Link {
            superclass,
            superinterfaces,
        })?;
    }
    Ok(links)
}

/// The place of each class in an order of them all.
pub fn places_in(alloc: Global, order: &[u32]) -> Result<Vec<u32>, AllocError>
    requires few { length order.now ≤ 65536 }
    requires inside { (h : ℕ) → h < length order.now → slice_index order.now h < length order.now }
    requires apart { (g h : ℕ) → g < h → h < length order.now → slice_index order.now g ≢ slice_index order.now h }
    ensures count { IfOk result (λ places. vec_len places ≡ length order.now) }
    ensures each { IfOk result (λ places. (h : ℕ) → h < length order.now → slice_index places.items (slice_index order.now h) ≡ h) }
{
    let mut places = vec![in alloc; 0u32; order.len()]?;
    set_places(places.as_mut_slice(), order);
    Ok(places)
}

fn set_places(places: &mut [u32], order: &[u32])
    requires few { length order.now ≤ 65536 }
    requires inside { (h : ℕ) → h < length order.now → slice_index order.now h < length places.old }
    requires apart { (g h : ℕ) → g < h → h < length order.now → slice_index order.now g ≢ slice_index order.now h }
    ensures { (h : ℕ) → h < length order.now → slice_index places.new (slice_index order.now h) ≡ h }
{
    for (h, c) in order.iter().enumerate() {
        places[*c as usize] = h as u32;
    }
}
