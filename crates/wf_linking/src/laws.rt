//! What holds of the answers, as the contract of a function that does nothing.

ghost use Rattle.std.specs.Prelude.{◌≡◌, List, Option, Result};
ghost use Rattle.wf_data.specs.declared.class_info.ClassInfo.{ClassInfo};
ghost use Rattle.wf_data.specs.declared.class_info.PoolEntry.{PoolEntry};
ghost use Rattle.wf_data.specs.declared.instr.Instr.{Instr};
ghost use Rattle.wf_names.specs.declared.world.LinkError.{LinkError};
ghost use Rattle.wf_linking.specs.Linking.{Links, Resolves};
ghost use Rattle.wf_linking.specs.Symbolic.{Symbolic};
ghost use Rattle.wf_linking.specs.declared.linked.Linked.{Linked};

/// A symbolic reference resolves to at most one answer, or has at most one error, and so has an instruction. That it has
/// one is what `link` and `resolve` show.
pub fn references_resolve_to_one()
    ensures reference { (classes : List ClassInfo) (s : Symbolic) (a b : Result Linked LinkError) → Links classes s a → Links classes s b → a ≡ b }
    ensures instruction { (classes : List ClassInfo) (pool : List PoolEntry) (i : Instr) (a b : Option (Result Linked LinkError)) → Resolves classes pool i a → Resolves classes pool i b → a ≡ b }
{}
