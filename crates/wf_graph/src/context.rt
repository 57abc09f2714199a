//! What the rows of a body look up in the program.

ghost use Rattle.std.specs.Prelude.{◌≡◌, ◌+◌, ◌<◌, ◌≤◌, ◌^◌, length, option_map};
ghost use Rattle.wf_nodes.specs.Numbering.{shared_count};
ghost use Rattle.wf_graph.specs.Numbering.{number_in};
ghost use Rattle.wf_graph.specs.MethodSystem.{node_id, node_number};

use wf_base::{NodeId, TypeId};
use wf_nodes::{SharedNodes, Thrown, shared_nodes_have_numbers_of_their_own};
use wf_own::{OwnNodes, own_nodes_have_numbers_of_their_own};
use wf_rows::{ArrayType, Context, Node, Own, Throwable};

/// The numbers of the nodes that the rows of a body name, where its own begin at `first`, and what else they look up.
#[derive(Drop)]
pub struct BodyContext<'a> {
    pub shared: &'a SharedNodes,
    pub thrown: &'a Thrown,
    pub own: &'a OwnNodes,
    pub first: u64,
    ghost behind: { shared_count shared.now ≤ first },
    ghost few: { first + length own.now ≤ 2 ^ 32 },
}

impl BodyContext<'_> {
    /// The number of a node, before it is known that four bytes hold it.
    fn place(&self, node: Node<Own>) -> Option<u64>
        ensures { result ≡ number_in self.now.shared.now self.now.first self.now.own.now node }
    {
        match node {
            Node::In(own) => self.own.number(self.first, own),
            other => self.shared.number(other),
        }
    }
}

/// The number of four bytes.
fn small(number: Option<u64>) -> Option<NodeId>
    requires { (n : Rattle.std.specs.Prelude.ℕ) → number ≡ Rattle.std.specs.Prelude.Some n → n < 2 ^ 32 }
    ensures { result ≡ option_map node_id number }
{
    Some(NodeId(number? as u32))
}

impl<'a> Context for BodyContext<'a> {
    ghost use Rattle.wf_nodes.specs.Thrown.{type_in};
    ghost use Rattle.wf_graph.specs.MethodSystem.{node_number};

    ghost number = { λ c. node_number c.shared.now c.first c.own.now };

    ghost thrown = { λ c. type_in c.thrown.now };

    ghost arrays = { λ c. c.shared.now.arrays };

    fn number(&self, node: Node<Own>) -> Option<NodeId> {
        shared_nodes_have_numbers_of_their_own();
        own_nodes_have_numbers_of_their_own();
        small(self.place(node))
    }

    fn thrown(&self, error: Throwable) -> Option<TypeId> {
        self.thrown.of(error)
    }

    fn arrays(&self) -> &[ArrayType] {
        self.shared.arrays()
    }
}
