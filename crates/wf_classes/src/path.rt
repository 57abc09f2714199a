ghost use Rattle.std.specs.Prelude.{◌≡◌, ◌++◌, ◌↔◌, codes, IsTrue};

use wf_data::ClassInfo;

/// Whether a class stands at the path of its name: `below` is the path below the directory of classes, as
/// `java/lang/Object.class`.
pub fn matches_path(class: &ClassInfo, below: &[u8]) -> bool
    ensures { IsTrue result ↔ (below.now ≡ class.now.name ++ codes ".class") }
{
    match below.strip_suffix(b".class".as_slice()) {
        Some(name) => name == class.name.as_slice(),
        None => false,
    }
}
