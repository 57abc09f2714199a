//! What holds on all paths of a method whose instructions fit together.

ghost use Rattle.std.specs.Prelude.{◌≡◌, ℕ, ◌<◌, true, List, length, Contains};
ghost use Rattle.wf_blocks.specs.Graphs.{Edge, Graph, Path, BadPaths, Reached, HasKind, kind_at, moved_from, source_in};
ghost use Rattle.wf_operation.specs.Slots.{allows};
ghost use Rattle.wf_operation.specs.declared.slot.SlotKind.{SlotKind};
ghost use Rattle.wf_operation.specs.declared.slot.Wanted.TheVariants.{Only};

/// All paths to a place leave stacks of one depth.
pub fn depths_agree()
    ensures { (g : Graph) (place : ℕ) (one other : List SlotKind) → (BadPaths g → ⊥) → Path g place one → Path g place other → length one ≡ length other }
{}

/// A slot that an instruction reads has the kind that is wanted, on each path.
pub fn wants_are_met()
    ensures met { (g : Graph) (place i : ℕ) (slots : List SlotKind) → (BadPaths g → ⊥) → Path g place slots → i < length slots → allows (g.wants place (length slots) i) (kind_at slots i) ≡ true }
    ensures only { (g : Graph) (place i : ℕ) (slots : List SlotKind) (k : SlotKind) → (BadPaths g → ⊥) → Path g place slots → i < length slots → g.wants place (length slots) i ≡ Only k → kind_at slots i ≡ k }
{}

/// Each way of a place that a path reaches leads to one that a path reaches.
pub fn ways_lead_on()
    ensures { (g : Graph) (place : ℕ) (slots : List SlotKind) (e : Edge) → Path g place slots → Contains (g.edges place (length slots)) e → Reached g e.to }
{}

/// A slot of one kind at a place has that kind along each way into it, those into handlers too.
pub fn joined_kinds_came()
    ensures { (g : Graph) (place i : ℕ) (slots : List SlotKind) (e : Edge) (k : SlotKind) → Path g place slots → Contains (g.edges place (length slots)) e → HasKind g e.to i k → moved_from slots (source_in e i) ≡ k }
{}
