ghost use Rattle.std.specs.Prelude.{◌≡◌, ◌*◌, ◌<◌, ◌↔◌, length, IsTrue};
ghost use Rattle.wf_system.specs.Shapes.{IsLaidOut, shape_at, all_words};

use crate::node_shape::NodeShape;
use std::marker::Model;
use wf_base::{Items, NodeId};

/// The kinds of all nodes and where their words stand. A contract sees it as the list of the nodes.
#[derive(Debug, Drop)]
pub struct Shape {
    nodes: Items<NodeShape>,
}

impl Model for Shape {
    ghost use Rattle.std.specs.Prelude.{List};
    ghost use Rattle.wf_system.specs.declared.node_shape.NodeShape.{NodeShape};
    ghost use Rattle.wf_system.specs.Shapes.{IsLaidOut};

    ghost Value = { List NodeShape };

    ghost view = { λ s. s.nodes };

    ghost invariant = { λ s. IsLaidOut s.nodes };
}

impl Shape {
    /// The shape of nodes whose words follow each other from word 0.
    pub fn new(nodes: Items<NodeShape>) -> Shape
        requires { IsLaidOut nodes }
        ensures { result ≡ nodes }
    {
        Shape { nodes }
    }

    /// How many nodes there are.
    pub fn nodes(&self) -> u32
        ensures count { result ≡ length self.now }
        ensures laid { IsLaidOut self.now }
    {
        self.nodes.len() as u32
    }

    /// How many words all nodes have.
    pub fn words(&self) -> u32
        ensures { result ≡ all_words self.now }
    {
        match self.nodes.as_slice() {
            [] => 0,
            [.., last] => last.first_word + last.words,
        }
    }

    /// How many bits all nodes have.
    pub fn bits(&self) -> u64
        ensures { result ≡ 64 * all_words self.now }
    {
        64 * self.words() as u64
    }

    /// A node's kind and words.
    pub fn node(&self, n: NodeId) -> NodeShape
        requires { n.0 < length self.now }
        ensures { result ≡ shape_at self.now n.0 }
    {
        self.nodes.as_slice()[n.0 as usize]
    }
}

/// Whether nodes can be the nodes of a shape: each has a word, and their words follow each other from word
/// 0 and are fewer than 2^32.
pub fn are_laid_out(nodes: &[NodeShape]) -> bool
    ensures { IsTrue result ↔ IsLaidOut nodes.now }
{
    let mut next = 0u64;
    for node in nodes {
        if node.words == 0 || node.first_word as u64 != next {
            return false;
        }
        next += node.words as u64;
        if next >= 0x1_0000_0000 {
            return false;
        }
    }
    true
}
