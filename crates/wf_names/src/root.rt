ghost use Rattle.std.specs.Prelude.{◌≡◌, IfOk};

use crate::member::MemberName;
use std::alloc::{AllocError, Global};
use wf_base::Text;

/// Where executions of the program may begin (own rule).
#[derive(Debug, Drop, PartialEq, Eq, Hash)]
pub enum Root {
    /// A static method, called with any arguments.
    StaticCall(MemberName),
    /// Objects of this type are there, and its class is initialized.
    Inst(Text),
    /// An object of this class is made by its constructor without parameters.
    Make(Text),
}

impl Root {
    /// An equal root.
    pub fn copy(&self, alloc: Global) -> Result<Root, AllocError>
        ensures { IfOk result (λ root. root ≡ self.now) }
    {
        match self {
            Root::StaticCall(method) => Ok(Root::StaticCall(method.copy(alloc)?)),
            Root::Inst(name) => Ok(Root::Inst(Text::from_slice(alloc, name.as_slice())?)),
            Root::Make(name) => Ok(Root::Make(Text::from_slice(alloc, name.as_slice())?)),
        }
    }
}
