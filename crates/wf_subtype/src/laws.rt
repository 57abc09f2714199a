//! What holds of subtyping, of names and of the numbers of targets, as the contracts of functions that do nothing.

ghost use Rattle.std.specs.Prelude.{◌≡◌, ◌≤◌, ◌↔◌, ℕ, List, length};
ghost use Rattle.wf_data.specs.declared.class_info.ClassInfo.{ClassInfo};
ghost use Rattle.wf_classes.specs.World.{AreHeights, IsClosedWorld};
ghost use Rattle.wf_subtype.specs.declared.reference.Reference.{Reference};
ghost use Rattle.wf_subtype.specs.References.{Refers, target_number};
ghost use Rattle.wf_subtype.specs.Subtypes.{AllTypes, IsUnder, IsTargetOf, IsSubtype, AreReferences, IsDeepest};
ghost use Rattle.wf_subtype.specs.Rows.{IsThere};
ghost use Rattle.wf_subtype.specs.Laws.{AreClosedAboveArrays, IsUnderReference};

/// Each class or array is under itself; two that are under each other are one; and what one is under is under what
/// that is under, where nothing but themselves and `java/lang/Object` is above `java/lang/Cloneable` and
/// `java/io/Serializable`.
pub fn subtypes_are_ordered()
    ensures reflexive { (classes : List ClassInfo) (r : Reference) → IsUnder classes r.dims r.inner r.dims r.inner }
    ensures transitive { (classes : List ClassInfo) (r s t : Reference) → AreClosedAboveArrays classes →
        IsUnder classes r.dims r.inner s.dims s.inner → IsUnder classes s.dims s.inner t.dims t.inner → IsUnder classes r.dims r.inner t.dims t.inner }
    ensures antisymmetric { (classes : List ClassInfo) (order heights : List ℕ) (r s : Reference) → AreHeights classes order heights → IsThere (length classes) r.inner →
        IsUnder classes r.dims r.inner s.dims s.inner → IsUnder classes s.dims s.inner r.dims r.inner → r ≡ s }
    ensures inside { (classes : List ClassInfo) (r s : Reference) → IsThere (length classes) r.inner →
        IsUnder classes r.dims r.inner s.dims s.inner → IsThere (length classes) s.inner }
{}

/// Where a class or an array has no more dimensions than the deepest type, its number is that of no other, and a type
/// is under the number exactly where it is under the class or the array.
pub fn targets_have_numbers_of_their_own()
    ensures apart { (classes deepest : ℕ) (r s : Reference) → IsThere classes r.inner → IsThere classes s.inner → r.dims ≤ deepest →
        target_number classes deepest r ≡ target_number classes deepest s → r ≡ s }
    ensures subtypes { (types : AllTypes) (t u : ℕ) (s : Reference) → AreReferences types.classes types.names types.references → IsDeepest types.references types.deepest →
        IsThere (length types.classes) s.inner → IsTargetOf types u s → IsSubtype types t u ↔ IsUnderReference types t s }
{}

/// A name is that of one class or array at most.
pub fn names_have_one_reference()
    ensures { (classes : List ClassInfo) (name : List ℕ) (r s : Reference) → IsClosedWorld classes → Refers classes name r → Refers classes name s → r ≡ s }
{}
