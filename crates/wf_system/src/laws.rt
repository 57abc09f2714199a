//! What holds of all systems, whatever names their nodes have, as the contracts of functions that do nothing.

ghost use Rattle.std.specs.Prelude.{◌≡◌, ◌<◌, ℕ, ℤ, Bool, true, false, List, Contains, IsTrue, None};
ghost use Rattle.wf_lattice.specs.declared.kind.NodeKind.{NodeKind};
ghost use Rattle.wf_lattice.specs.Ints.{int_value};
ghost use Rattle.wf_system.specs.declared.inequality.Guard.{Guard};
ghost use Rattle.wf_system.specs.declared.inequality.ValueOp.{ValueOp};
ghost use Rattle.wf_system.specs.declared.inequality.Inequality.{Inequality};
ghost use Rattle.wf_system.specs.System.{Tables, AtLeast, IsBelow, guard_holds, given, IsMet, Least, meaning_has};
ghost use Rattle.wf_system.specs.Fits.{HasKind, AreShaped, GuardFits, ValueFits, Fits};
ghost use Rattle.wf_lattice.specs.Words.{nothing};
ghost use Rattle.wf_system.specs.Numbers.{Numbering, SameTables, AreNumbered, NamedRow, by_name, by_number};
ghost use Rattle.wf_system.specs.Members.{Member, Holds, IsMetByMembers};

/// Where each value rises, guards still hold, and what is joined rises.
pub fn guards_and_values_grow<N>()
    ensures guards { (t : Tables N) (x y : N → ℕ → ℕ) (guard : Guard N) → AreShaped t → IsBelow t x y → GuardFits t guard →
        IsTrue (guard_holds t guard x) → IsTrue (guard_holds t guard y) }
    ensures values { (t : Tables N) (x y : N → ℕ → ℕ) (value : ValueOp N) (to : N) → AreShaped t → IsBelow t x y → ValueFits t value to →
        AtLeast t to (given t value x to) (given t value y to) }
{}

/// A row that is met in words is met in members: where the guard holds, the target has each type, null, int
/// and candidate that the value gives.
pub fn rows_are_met_by_members<N>()
    ensures { (t : Tables N) (q : Inequality N) (x : N → ℕ → ℕ) → AreShaped t → Fits t q → IsMet t q x → IsMetByMembers t q x }
{}

/// Two least solutions are at most each other.
pub fn least_is_one<N>()
    ensures { (t : Tables N) (rows : List (Inequality N)) (seeds x y : N → ℕ → ℕ) →
        Least t (Contains rows) seeds x → Least t (Contains rows) seeds y → IsBelow t x y }
{}

/// What assignments that are at most each other agree on: guards, the meanings of references, ints, and the
/// members of each node.
pub fn alike_assignments_agree<N>()
    ensures guards { (t : Tables N) (x y : N → ℕ → ℕ) (guard : Guard N) → AreShaped t → GuardFits t guard →
        IsBelow t x y → IsBelow t y x → guard_holds t guard x ≡ guard_holds t guard y }
    ensures meanings { (t : Tables N) (x y : N → ℕ → ℕ) (n : N) (c : ℕ) → AreShaped t → HasKind t n NodeKind.Refs →
        IsBelow t x y → IsBelow t y x → meaning_has t x n c ≡ meaning_has t y n c }
    ensures ints { (t : Tables N) (x y : N → ℕ → ℕ) (n : N) → AreShaped t → HasKind t n NodeKind.Int →
        IsBelow t x y → IsBelow t y x → int_value (x n 0) ≡ int_value (y n 0) }
    ensures members { (t : Tables N) (x y : N → ℕ → ℕ) (n : N) (m : Member) →
        IsBelow t x y → Holds t x n m → Holds t y n m }
{}

/// A least solution by numbers is one by names, for any numbering of the nodes that are there and tables
/// that say the same of both, where the seeds are of nodes that are there.
pub fn numbers_stand_for_names<N, K>()
    ensures { (b : Numbering N K) (t : Tables N) (u : Tables K) (named : List (Inequality N)) (numbered : List (Inequality K)) (seeds : N → ℕ → ℕ) (x : K → ℕ → ℕ) →
        SameTables b.number t u → AreNumbered b.number named numbered → ((n : N) → b.number n ≡ None → seeds n ≡ nothing) →
        Least u (Contains numbered) (by_number b.name seeds) x → Least t (NamedRow b.number (Contains named)) seeds (by_name b.number x) }
{}
