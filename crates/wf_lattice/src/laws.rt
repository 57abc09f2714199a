//! What holds of all values and filters, as the contracts of functions that do nothing. Rows of words are
//! functions from a word's place to the word; `most` is the threshold and n the number of words.

ghost use Rattle.std.specs.Prelude.{◌≡◌, ◌↔◌, ◌⊎◌, ◌&&◌, ◌<◌, ◌*◌, ◌^◌, ℕ, ℤ, suc, not, Bool, true, false, List, IsTrue};
ghost use Rattle.wf_base.specs.declared.cmp.Cmp.{Cmp};
ghost use Rattle.wf_base.specs.Comparisons.{compares, negated, exchanged};
ghost use Rattle.wf_lattice.specs.declared.int_word.IntValue.{IntValue};
ghost use Rattle.wf_lattice.specs.declared.kind.NodeKind.{NodeKind};
ghost use Rattle.wf_lattice.specs.declared.view.Nulls.{Nulls};
ghost use Rattle.wf_lattice.specs.Words.{AreWords, IsIn, IsWithin, has_bit, has_type, is_empty, either, one_word};
ghost use Rattle.wf_lattice.specs.Ints.{is_any, int_value, IsSettled, ◌⊑◌, refined_word, not_among_word};
ghost use Rattle.wf_lattice.specs.Order.{is_full, Receives};
ghost use Rattle.wf_lattice.specs.Meaning.{means_null, means, meant_types};
ghost use Rattle.wf_lattice.specs.Filters.{filtered, no_null, only_null, equal_refs, unequal_refs, all_under, some_under, tested_word, null_word};
ghost use Rattle.wf_lattice.specs.Sets.{ref_value, IsAtMost, HoldsSet};

/// Values of each kind are ordered, and what is full stays full.
pub fn values_are_ordered()
    ensures reflexive { (most n : ℕ) (kind : NodeKind) (f : ℕ → ℕ) → Receives most n kind f f }
    ensures transitive { (most n : ℕ) (kind : NodeKind) (f g h : ℕ → ℕ) →
        Receives most n kind f g → Receives most n kind g h → Receives most n kind f h }
    ensures full { (most n : ℕ) (kind : NodeKind) (f v : ℕ → ℕ) →
        IsWithin f v → IsTrue (is_full most n kind f) → IsTrue (is_full most n kind v) }
    ensures there { (most n : ℕ) (kind : NodeKind) (f v : ℕ → ℕ) → 0 < n →
        Receives most n kind f v → is_empty n f ≡ false → is_empty n v ≡ false }
{}

/// The join of two values, which is the OR of their words, is their least upper bound.
pub fn join_is_least()
    ensures left { (most n : ℕ) (kind : NodeKind) (f g : ℕ → ℕ) → Receives most n kind f (either f g) }
    ensures right { (most n : ℕ) (kind : NodeKind) (f g : ℕ → ℕ) → Receives most n kind g (either f g) }
    ensures least { (most n : ℕ) (kind : NodeKind) (f g v : ℕ → ℕ) →
        Receives most n kind f v → Receives most n kind g v → Receives most n kind (either f g) v }
{}

/// The order of rows is the order of what they stand for: of references saturated above the sets of types,
/// of ints any above the constants above empty.
pub fn rows_stand_for_values()
    ensures refs { (most n : ℕ) (f v : ℕ → ℕ) → AreWords f →
        Receives most n NodeKind.Refs f v ↔ IsAtMost (ref_value most n f) (ref_value most n v) }
    ensures ints { (most n a b : ℕ) → a < 2 ^ 64 → b < 2 ^ 64 → IsSettled a → IsSettled b →
        Receives most n NodeKind.Int (one_word a) (one_word b) ↔ (int_value a ⊑ int_value b) }
{}

/// The meaning of a value grows with the value and with the types that are made, and its row of types has
/// exactly the types that the value means.
pub fn meanings_grow()
    ensures types { (most n : ℕ) (v u inst made : ℕ → ℕ) → Receives most n NodeKind.Refs v u → IsWithin inst made →
        IsWithin (meant_types most n v inst) (meant_types most n u made) }
    ensures null { (most n : ℕ) (v u : ℕ → ℕ) → Receives most n NodeKind.Refs v u →
        IsTrue (means_null most n v) → IsTrue (means_null most n u) }
    ensures by_types { (most n : ℕ) (v inst : ℕ → ℕ) (t : ℕ) →
        has_type (meant_types most n v inst) (suc t) ≡ means most n v inst (suc t) }
{}

/// Each filter grows in all its arguments, the types that are made among them.
pub fn filters_grow()
    ensures filtered { (most n : ℕ) (v u inst made mask : ℕ → ℕ) (nulls : Nulls) → Receives most n NodeKind.Refs v u → IsWithin inst made →
        IsWithin (filtered most n v inst mask nulls) (filtered most n u made mask nulls) }
    ensures no_null { (most n : ℕ) (v u inst made : ℕ → ℕ) → Receives most n NodeKind.Refs v u → IsWithin inst made →
        IsWithin (no_null most n v inst) (no_null most n u made) }
    ensures only_null { (most n : ℕ) (v u : ℕ → ℕ) → Receives most n NodeKind.Refs v u →
        IsWithin (only_null most n v) (only_null most n u) }
    ensures equal { (most n : ℕ) (a b c d inst made : ℕ → ℕ) → Receives most n NodeKind.Refs a c → Receives most n NodeKind.Refs b d →
        IsWithin inst made → IsWithin (equal_refs most n a b inst) (equal_refs most n c d made) }
    ensures unequal { (most n : ℕ) (a b c d inst made : ℕ → ℕ) → Receives most n NodeKind.Refs a c → Receives most n NodeKind.Refs b d →
        IsWithin inst made → IsWithin (unequal_refs most n a b inst) (unequal_refs most n c d made) }
    ensures all_under { (most n : ℕ) (inst made mask : ℕ → ℕ) → IsWithin inst made →
        IsWithin (all_under most n inst mask) (all_under most n made mask) }
    ensures some_under { (most n : ℕ) (inst made mask : ℕ → ℕ) → IsWithin inst made →
        IsWithin (some_under most n inst mask) (some_under most n made mask) }
    ensures tested { (most n : ℕ) (v u inst made mask : ℕ → ℕ) → Receives most n NodeKind.Refs v u → IsWithin inst made →
        IsIn (tested_word most n v inst mask) (tested_word most n u made mask) }
    ensures null_tested { (most n : ℕ) (v u : ℕ → ℕ) → Receives most n NodeKind.Refs v u →
        IsIn (null_word most n v) (null_word most n u) }
{}

/// The filters on ints grow in both values.
pub fn int_filters_grow()
    ensures refined { (cmp : Cmp) (a b c d : ℕ) → IsTrue (is_any c) ⊎ IsIn a c → IsTrue (is_any d) ⊎ IsIn b d →
        IsIn (refined_word cmp a b) (refined_word cmp c d) }
    ensures not_among { (keys : List ℤ) (a c : ℕ) → IsTrue (is_any c) ⊎ IsIn a c →
        IsIn (not_among_word keys a) (not_among_word keys c) }
    ensures settled { (cmp : Cmp) (a b : ℕ) → IsSettled (refined_word cmp a b) }
    ensures among_settled { (keys : List ℤ) (a : ℕ) → IsSettled (not_among_word keys a) }
{}

/// What a target takes to be at least what a filter leaves, said by types: it is saturated, or holds each
/// type that is left, and null where it is left.
pub fn filters_by_types()
    ensures kept { (most n : ℕ) (v inst mask u : ℕ → ℕ) → AreWords inst →
        Receives most n NodeKind.Refs (filtered most n v inst mask Nulls.Keep) u
        ↔ HoldsSet most n (λ t. means most n v inst t && has_type mask t) (means_null most n v) u }
    ensures dropped { (most n : ℕ) (v inst mask u : ℕ → ℕ) → AreWords inst →
        Receives most n NodeKind.Refs (filtered most n v inst mask Nulls.Drop) u
        ↔ HoldsSet most n (λ t. means most n v inst t && has_type mask t) false u }
    ensures alone { (most n : ℕ) (v inst mask u : ℕ → ℕ) →
        Receives most n NodeKind.Refs (filtered most n v inst mask Nulls.Only) u
        ↔ HoldsSet most n (λ t. false) (means_null most n v) u }
    ensures no_null { (most n : ℕ) (v inst u : ℕ → ℕ) → AreWords inst →
        Receives most n NodeKind.Refs (no_null most n v inst) u ↔ HoldsSet most n (means most n v inst) false u }
    ensures only_null { (most n : ℕ) (v u : ℕ → ℕ) →
        Receives most n NodeKind.Refs (only_null most n v) u ↔ HoldsSet most n (λ t. false) (means_null most n v) u }
    ensures equal { (most n : ℕ) (a b inst u : ℕ → ℕ) → AreWords inst →
        Receives most n NodeKind.Refs (equal_refs most n a b inst) u
        ↔ HoldsSet most n (λ t. means most n a inst t && means most n b inst t) (means_null most n a && means_null most n b) u }
    ensures unequal { (most n : ℕ) (a b inst u : ℕ → ℕ) → AreWords inst →
        Receives most n NodeKind.Refs (unequal_refs most n a b inst) u
        ↔ HoldsSet most n (λ t. not (is_empty n (meant_types most n b inst) && not (means_null most n b)) && means most n a inst t)
        (means_null most n a && not (is_empty n (meant_types most n b inst))) u }
    ensures all_under { (most n : ℕ) (inst mask u : ℕ → ℕ) → AreWords inst →
        Receives most n NodeKind.Refs (all_under most n inst mask) u
        ↔ HoldsSet most n (λ t. has_type inst t && has_type mask t) false u }
    ensures some_under { (most n : ℕ) (inst mask u : ℕ → ℕ) → AreWords inst →
        Receives most n NodeKind.Refs (some_under most n inst mask) u
        ↔ HoldsSet most n (λ t. has_type inst t && has_type mask t) true u }
{}

/// A row is empty exactly where no bit is set.
pub fn empty_rows_have_no_bit()
    ensures { (n : ℕ) (v : ℕ → ℕ) → AreWords v → (is_empty n v ≡ true) ↔ ((b : ℕ) → b < 64 * n → has_bit v b ≡ false) }
{}

/// The comparison of the fall-through edge, and that of the second operand.
pub fn comparisons_are_turned()
    ensures negated { (cmp : Cmp) (a b : ℤ) → compares (negated cmp) a b ≡ not (compares cmp a b) }
    ensures exchanged { (cmp : Cmp) (a b : ℤ) → compares (exchanged cmp) b a ≡ compares cmp a b }
{}
