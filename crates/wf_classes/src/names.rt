ghost use Rattle.std.specs.Prelude.{◌≡◌, ℕ, ◌<◌, ◌≤◌, length, IsPermutation};
ghost use Rattle.std.specs.Cmp.Lexicographic.{slice_cmp};
ghost use Rattle.std.specs.Ordering.{nat_cmp};
ghost use Rattle.wf_classes.specs.World.{IsAscending, HaveNamesOfTheirOwn, names_of, class_of};

use std::cmp::Ordering;
use wf_data::ClassInfo;

/// Sorts classes by the bytes of their names.
pub fn sort_by_name(files: &mut Vec<ClassInfo>)
    ensures permutation { IsPermutation files.old.items files.new.items }
    ensures ascending { HaveNamesOfTheirOwn files.old.items → IsAscending (names_of files.new.items) }
{
    files.sort_unstable_by(|a, b| a.name.cmp(&b.name));
}

/// A class's name against another name.
fn compared(class: &ClassInfo, name: &[u8]) -> Ordering
    ensures { result ≡ slice_cmp nat_cmp class.now.name name.now }
{
    class.name.as_slice().cmp(&name)
}

/// The place of the class of a name, by binary search.
pub fn class_number(list: &[ClassInfo], name: &[u8]) -> Option<u32>
    requires ascending { IsAscending (names_of list.now) }
    requires few { length list.now ≤ 65536 }
    ensures { result ≡ class_of list.now name.now }
{
    match list.binary_search_by(|class| compared(class, name)) {
        Ok(c) => Some(c as u32),
        Err(_) => None,
    }
}
