//! What holds of the numbers of the nodes that bodies share, as the contract of a function that does nothing.

ghost use Rattle.std.specs.Prelude.{◌≡◌, ◌<◌, ℕ, [], Some};
ghost use Rattle.wf_subtype.specs.Subtypes.{AllTypes};
ghost use Rattle.wf_rows.specs.declared.node.Node.{Node};
ghost use Rattle.wf_rows.specs.declared.node.Own.{Own};
ghost use Rattle.wf_rows.specs.Nodes.{Shared, IsThere};
ghost use Rattle.wf_nodes.specs.Numbering.{shared_number, shared_count, AreWhole};
ghost use Rattle.wf_nodes.specs.Sharing.{IsShared};

/// The nodes that bodies share have the first numbers, and no two of them have one number. One that is there has a number,
/// and a method whose entry has no node has none at all.
pub fn shared_nodes_have_numbers_of_their_own()
    ensures below { (s : Shared) (node : Node Own) (n : ℕ) → shared_number s node ≡ Some n → n < shared_count s }
    ensures apart { (s : Shared) (a b : Node Own) (n : ℕ) → shared_number s a ≡ Some n → shared_number s b ≡ Some n → a ≡ b }
    ensures there { (s : Shared) (node : Node Own) → AreWhole s → IsThere s [] node → (n : ℕ) × (shared_number s node ≡ Some n) }
    ensures whole { (types : AllTypes) (copies : ℕ) (s : Shared) → IsShared types copies s → AreWhole s }
{}
