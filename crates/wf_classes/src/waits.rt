ghost use Rattle.std.specs.Prelude.{◌≡◌, ℕ, ◌<◌, ◌≤◌, ◌++◌, length, OnOk, IfOk};
ghost use Rattle.wf_classes.specs.World.{IsAscending, names_of, class_of};
ghost use Rattle.wf_classes.specs.Closing.{is_of_kind, class_of_kind, wait_for, waits_at, is_root, wanted, AreWaits};

use crate::names::class_number;
use std::alloc::{AllocError, Global};
use wf_data::{ClassInfo, is_interface};
use wf_names::is_object_name;

/// A class waits for another: the one at `below` is loadable only when the one at `above` is.
#[derive(Clone, Copy, Debug)]
pub struct Wait {
    pub above: u32,
    pub below: u32,
}

/// What classes wait for.
#[derive(Drop)]
pub struct Waits {
    /// How many names each class waits for, by its place.
    pub waiting: Vec<usize>,
    /// The classes that are waited for and those that wait, sorted by the former.
    pub waits: Vec<Wait>,
}

fn is_of_kind(interface: bool, class: &ClassInfo) -> bool
    ensures { result ≡ is_of_kind interface class.now }
{
    if interface {
        is_interface(class.flags)
    } else {
        !is_interface(class.flags)
    }
}

/// The class of a name, where it is an interface, or a class, as is asked.
fn number_of_kind(files: &[ClassInfo], interface: bool, name: &[u8]) -> Option<u32>
    requires ascending { IsAscending (names_of files.now) }
    requires few { length files.now ≤ 65536 }
    ensures { result ≡ class_of_kind files.now interface name.now }
{
    let c = class_number(files, name)?;
    if is_of_kind(interface, &files[c as usize]) {
        Some(c)
    } else {
        None
    }
}

fn push_wait(
    files: &[ClassInfo],
    below: u32,
    interface: bool,
    name: &[u8],
    waits: &mut Vec<Wait>,
) -> Result<(), AllocError>
    requires ascending { IsAscending (names_of files.now) }
    requires few { length files.now ≤ 65536 }
    ensures { OnOk result (waits.new.items ≡ waits.old.items ++ wait_for files.now below interface name.now) }
{
    if let Some(above) = number_of_kind(files, interface, name) {
        waits.push(Wait { above, below })?;
    }
    Ok(())
}

fn push_waits(
    files: &[ClassInfo],
    below: u32,
    class: &ClassInfo,
    waits: &mut Vec<Wait>,
) -> Result<(), AllocError>
    requires ascending { IsAscending (names_of files.now) }
    requires few { length files.now ≤ 65536 }
    ensures { OnOk result (waits.new.items ≡ waits.old.items ++ waits_at files.now below class.now) }
{
    if let Some(superclass) = &class.superclass {
        push_wait(files, below, false, superclass.as_slice(), waits)?;
    }
    for interface in class.interfaces.as_slice() {
        push_wait(files, below, true, interface.as_slice(), waits)?;
    }
    Ok(())
}

fn is_root(class: &ClassInfo) -> bool
    ensures { result ≡ is_root class.now }
{
    class.superclass.is_none()
        && is_object_name(class.name.as_slice())
        && !is_interface(class.flags)
        && class.interfaces.is_empty()
}

fn wanted(class: &ClassInfo) -> usize
    ensures { result ≡ wanted class.now }
{
    if is_root(class) {
        0
    } else {
        class.interfaces.as_slice().len() + 1
    }
}

/// What each of the classes waits for.
pub fn waits_of(alloc: Global, files: &[ClassInfo]) -> Result<Waits, AllocError>
    requires ascending { IsAscending (names_of files.now) }
    requires few { length files.now ≤ 65536 }
    ensures { IfOk result (λ all. AreWaits files.now all.waiting.items all.waits.items) }
{
    let mut waiting = Vec::new(alloc);
    let mut waits = Vec::new(alloc);
    for (below, class) in files.iter().enumerate() {
        waiting.push(wanted(class))?;
        push_waits(files, below as u32, class, &mut waits)?;
    }
    waits.sort_unstable_by_key(|wait| wait.above);
    Ok(Waits { waiting, waits })
}
