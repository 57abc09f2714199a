ghost use Rattle.std.specs.Prelude.{◌≡◌, IfOk};
ghost use Rattle.wf_names.specs.Members.{named_by};

use std::alloc::{AllocError, Global};
use wf_base::Text;

/// A field or method by its name: the class that declares it, its own name and its descriptor. Names are
/// ordered by the class, then by the name, then by the descriptor, each by its bytes.
#[derive(Debug, Drop, PartialEq, Eq, PartialOrd, Ord, Hash)]
pub struct MemberName {
    pub class: Text,
    pub name: Text,
    pub desc: Text,
}

impl MemberName {
    /// An equal name.
    pub fn copy(&self, alloc: Global) -> Result<MemberName, AllocError>
        ensures { IfOk result (λ name. name ≡ self.now) }
    {
        Ok(MemberName {
            class: Text::from_slice(alloc, self.class.as_slice())?,
            name: Text::from_slice(alloc, self.name.as_slice())?,
            desc: Text::from_slice(alloc, self.desc.as_slice())?,
        })
    }
}

/// The same, where the three names are borrowed.
#[derive(Clone, Copy, Debug, PartialEq, Eq, Hash)]
pub struct MemberRef<'a> {
    pub class: &'a [u8],
    pub name: &'a [u8],
    pub desc: &'a [u8],
}

impl<'a> MemberRef<'a> {
    /// A name of its own.
    pub fn to_name(self, alloc: Global) -> Result<MemberName, AllocError>
        ensures { IfOk result (λ name. name ≡ named_by self.entry) }
    {
        Ok(MemberName {
            class: Text::from_slice(alloc, self.class)?,
            name: Text::from_slice(alloc, self.name)?,
            desc: Text::from_slice(alloc, self.desc)?,
        })
    }
}
