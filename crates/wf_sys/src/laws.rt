ghost use Rattle.std.specs.Prelude.{◌≡◌, ◌↔◌, ℕ, false, List, Contains, IsTrue};
ghost use Rattle.wf_data.specs.declared.class_info.ClassInfo.{ClassInfo};
ghost use Rattle.wf_names.specs.declared.member.MemberName.{MemberName};
ghost use Rattle.wf_sys.specs.declared.flow.Flow.{Flow};
ghost use Rattle.wf_sys.specs.declared.inequality.Guard.{Guard};
ghost use Rattle.wf_sys.specs.declared.inequality.Inequality.{Inequality};
ghost use Rattle.wf_sys.specs.declared.inequality.ValueOp.{ValueOp};
ghost use Rattle.wf_sys.specs.Values.{◌⊑◌, is_below, join, is_empty, IsNonEmpty};
ghost use Rattle.wf_sys.specs.System.{GuardHolds, value_in, IsBelow, Least};
ghost use Rattle.wf_sys.specs.Assignments.{IsSeedOf};
ghost use Rattle.wf_sys.specs.Nodes.{Node};
ghost use Rattle.wf_sys.specs.Program.{Row, Seed};
ghost use Rattle.wf_sys.specs.WorldOf.{IsWorldOf};
ghost use Rattle.wf_names.specs.declared.world.World.{World};

/// Values are partially ordered.
pub fn values_are_ordered()
    ensures reflexive { (a : Flow) → a ⊑ a }
    ensures transitive { (a b c : Flow) → a ⊑ b → b ⊑ c → a ⊑ c }
    ensures antisymmetric { (a b : Flow) → a ⊑ b → b ⊑ a → a ≡ b }
{}

/// What the tests on values decide.
pub fn tests_decide()
    ensures below { (a b : Flow) → IsTrue (is_below a b) ↔ (a ⊑ b) }
    ensures empty { (a : Flow) → (is_empty a ≡ false) ↔ IsNonEmpty a }
{}

/// The join of two values is their least upper bound.
pub fn join_is_least()
    ensures left { (a b : Flow) → a ⊑ join a b }
    ensures right { (a b : Flow) → b ⊑ join a b }
    ensures least { (a b c : Flow) → a ⊑ c → b ⊑ c → join a b ⊑ c }
{}

/// Where each node's value rises, guards still hold and what is joined rises, over numbered nodes and over
/// named ones.
pub fn systems_are_monotone()
    ensures guards { (guard : Guard ℕ) (x y : ℕ → Flow) → IsBelow x y → GuardHolds guard x → GuardHolds guard y }
    ensures values { (value : ValueOp ℕ) (x y : ℕ → Flow) → IsBelow x y → value_in value x ⊑ value_in value y }
    ensures named_guards { (guard : Guard Node) (x y : Node → Flow) → IsBelow x y → GuardHolds guard x → GuardHolds guard y }
    ensures named_values { (value : ValueOp Node) (x y : Node → Flow) → IsBelow x y → value_in value x ⊑ value_in value y }
{}

/// A system has at most one least solution above its seeds, be it that of a program and a root, or one
/// over numbered nodes.
pub fn least_is_one()
    ensures numbered { (system : List (Inequality ℕ)) (seeds : List Flow) (x y : ℕ → Flow) →
        Least (Contains system) (IsSeedOf seeds) x → Least (Contains system) (IsSeedOf seeds) y → (n : ℕ) → x n ≡ y n }
    ensures program { (program : List ClassInfo) (root : MemberName) (x y : Node → Flow) →
        Least (Row program) (Seed root) x → Least (Row program) (Seed root) y → (n : Node) → x n ≡ y n }
{}

/// The world that is read off a least solution is that of every other.
pub fn world_is_one()
    ensures { (program : List ClassInfo) (root : MemberName) (x y : Node → Flow) (world : World) →
        Least (Row program) (Seed root) x → Least (Row program) (Seed root) y →
        IsWorldOf program x world → IsWorldOf program y world }
{}
