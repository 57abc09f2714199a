//! The packages of classes.

ghost use Rattle.std.specs.Prelude.{◌≡◌, ◌≤◌, ◌<◌, ◌↔◌, IsTrue, length};
ghost use Rattle.wf_classes.specs.World.{number};
ghost use Rattle.wf_select.specs.Packages.{last_slash, package_of, same_package};

use wf_base::ClassId;
use wf_classes::Classes;

/// Whether two numbers are of one class.
pub fn are_one(c: ClassId, d: ClassId) -> bool
    ensures { IsTrue result ↔ (number c ≡ number d) }
{
    c.0 == d.0
}

/// Where the last `/` stands, or 0.
fn last_slash(name: &[u8]) -> usize
    ensures place { result ≡ last_slash 0 0 name.now }
    ensures within { result ≤ length name.now }
{
    let mut last = 0;
    for (at, byte) in name.iter().enumerate() {
        last = if *byte == b'/' { at } else { last };
    }
    last
}

/// The package of a class of this name.
fn package_of(name: &[u8]) -> &[u8]
    ensures { result.now ≡ package_of name.now }
{
    &name[..last_slash(name)]
}

/// Whether two classes are of one package.
pub fn same_package(classes: &Classes, c: ClassId, d: ClassId) -> bool
    requires c_in { c.0 < length classes.now }
    requires d_in { d.0 < length classes.now }
    ensures { result ≡ same_package classes.now c.0 d.0 }
{
    let list = classes.list().as_slice();
    let of_c = package_of(list[c.0 as usize].name.as_slice());
    let of_d = package_of(list[d.0 as usize].name.as_slice());
    of_c == of_d
}
