ghost use Rattle.std.specs.Prelude.{◌≡◌, ◌<◌, length, IfOk, IsOk, IsTrue};
ghost use Rattle.wf_system.specs.Bodies.{AreReaders};

use crate::inequality::Inequality;
use crate::shape::Shape;
use crate::side::Side;
use std::alloc::{AllocError, Global};
use wf_base::{Items, NodeId};

/// The inequalities that read a node: lent where they are kept, or made for the caller.
#[derive(Debug, Drop)]
pub enum Readers<'a> {
    Kept(&'a [Inequality<NodeId>]),
    Own(Items<Inequality<NodeId>>),
}

impl Readers<'_> {
    ghost use Rattle.wf_system.specs.ReadersList.{readers_list};

    /// The inequalities.
    pub fn as_slice(&self) -> &[Inequality<NodeId>]
        ensures { result.now ≡ readers_list self.now }
    {
        match self {
            Readers::Kept(list) => list,
            Readers::Own(list) => list.as_slice(),
        }
    }
}

/// A bit that is set in a word before all else.
#[derive(Clone, Copy, Debug, PartialEq, Eq)]
pub struct Seed {
    pub word: u32,
    pub bits: u64,
}

/// The bodies of a program, which mean a system.
pub trait Bodies {
    ghost use Rattle.std.specs.Prelude.{Bool};
    ghost use Rattle.wf_system.specs.Bodies.{System};
    ghost use Rattle.wf_system.specs.ReadersList.{readers_list};

    /// The system.
    ghost system: { Self → System };

    /// Whether all bodies are built.
    ghost all_built: { Self → Bool };

    /// The kinds of the nodes and their words.
    fn shape(&self) -> &Shape
        ensures { result.now ≡ (system self.now).nodes };

    /// The threshold above which references are saturated.
    fn threshold(&self) -> u32
        ensures { result ≡ (system self.now).most };

    /// What inequalities look up.
    fn side(&self) -> &Side
        ensures { result.now ≡ (system self.now).side };

    /// The inequalities that read a node. Where all bodies are built it takes no memory.
    fn readers(&self, alloc: Global, node: NodeId) -> Result<Readers<'_>, AllocError>
        requires { node.0 < length (system self.now).nodes }
        ensures readers { IfOk result (λ r. AreReaders (system self.now) node (readers_list r)) }
        ensures built { IsTrue (all_built self.now) → IsOk result };
}
