//! What holds of numbers and of the system of a method, as the contracts of functions that do nothing.

ghost use Rattle.std.specs.Prelude.{◌≡◌, ◌≤◌, ◌↔◌, ℕ, List, Contains, Some};
ghost use Rattle.wf_base.specs.declared.ids.NodeId.{NodeId};
ghost use Rattle.wf_system.specs.Numbers.{NumberedRow};
ghost use Rattle.wf_system.specs.declared.inequality.Inequality.{Inequality};
ghost use Rattle.wf_rows.specs.declared.node.Node.{Node};
ghost use Rattle.wf_rows.specs.declared.node.Own.{Own};
ghost use Rattle.wf_rows.specs.Nodes.{Shared, IsThere};
ghost use Rattle.wf_nodes.specs.Numbering.{shared_count, AreWhole};
ghost use Rattle.wf_nodes.specs.Sharing.{thrown_type};
ghost use Rattle.wf_body.specs.Parts.{Parts};
ghost use Rattle.wf_body.specs.Sources.{MethodSource};
ghost use Rattle.wf_graph.specs.Bodies.{Body, HasBody};
ghost use Rattle.wf_graph.specs.BodyNodes.{body_nodes};
ghost use Rattle.wf_graph.specs.BodyRows.{body_rows};
ghost use Rattle.wf_graph.specs.Numbering.{body_count, number_in};
ghost use Rattle.wf_graph.specs.MethodSystem.{IsSystemOf, node_number};

use wf_nodes::shared_nodes_have_numbers_of_their_own;
use wf_own::own_nodes_have_numbers_of_their_own;
use wf_rows::numbered_rows_are_named_rows;

/// No two nodes have one number, where those of a body stand behind those that bodies share.
pub fn nodes_have_numbers_of_their_own()
    ensures { (s : Shared) (first n : ℕ) (owns : List Own) (a b : Node Own) → shared_count s ≤ first → number_in s first owns a ≡ Some n → number_in s first owns b ≡ Some n → a ≡ b }
{
    shared_nodes_have_numbers_of_their_own();
    own_nodes_have_numbers_of_their_own();
}

/// A node that is there has a number.
pub fn nodes_that_are_there_have_numbers()
    ensures { (s : Shared) (first : ℕ) (owns : List Own) (node : Node Own) → AreWhole s → IsThere s owns node → (n : ℕ) × (number_in s first owns node ≡ Some n) }
{
    shared_nodes_have_numbers_of_their_own();
    own_nodes_have_numbers_of_their_own();
}

/// The inequalities of a method are the rows of its body whose nodes all have numbers, by these.
pub fn systems_have_the_rows_of_bodies()
    ensures { (p : Parts) (shared : Shared) (s : MethodSource) (first_keys first own : ℕ) (list : List (Inequality NodeId)) → IsSystemOf p shared s first_keys first own list →
        (b : Body) × HasBody p s b × (own ≡ body_count b) × ((r : Inequality NodeId) → Contains list r ↔ NumberedRow (node_number shared first (body_nodes b)) (λ q. Contains (body_rows shared.arrays (thrown_type p.types) b) q) r) }
{
    numbered_rows_are_named_rows();
}
