//! What holds of the numbers of own nodes, as the contract of a function that does nothing.

ghost use Rattle.std.specs.Prelude.{◌≡◌, ℕ, ◌+◌, ◌<◌, ◌≤◌, List, length, Contains, Some};
ghost use Rattle.wf_rows.specs.declared.node.Own.{Own};
ghost use Rattle.wf_own.specs.OwnNumbers.{own_number};

/// The numbers of a body's nodes stand together, two nodes have two numbers, and each node that is there has one.
pub fn own_nodes_have_numbers_of_their_own()
    ensures within { (first n : ℕ) (owns : List Own) (own : Own) → own_number first owns own ≡ Some n → (first ≤ n) × (n < first + length owns) }
    ensures apart { (first n : ℕ) (owns : List Own) (a b : Own) → own_number first owns a ≡ Some n → own_number first owns b ≡ Some n → a ≡ b }
    ensures there { (first : ℕ) (owns : List Own) (own : Own) → Contains owns own → (n : ℕ) × (own_number first owns own ≡ Some n) }
{}
