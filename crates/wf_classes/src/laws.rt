//! What holds of the classes above classes and of sizes, as the contracts of functions that do nothing.

ghost use Rattle.std.specs.Prelude.{◌≡◌, ◌≢◌, ◌<◌, ℕ, List, length, slice_index};
ghost use Rattle.wf_data.specs.declared.class_info.ClassInfo.{ClassInfo};
ghost use Rattle.wf_classes.specs.World.{AreHeights};
ghost use Rattle.wf_grammar.specs.ClassFile.{Spells};
ghost use Rattle.wf_classes.specs.Above.{IsAbove};
ghost use Rattle.wf_classes.specs.Sizes.{IsWithinBytes};

/// Each class is above itself; what is above a class above is above; two classes that are above each other are
/// one, since heights fall on each way upwards. All of these are among the classes.
pub fn classes_above_are_ordered()
    ensures reflexive { (classes : List ClassInfo) (c : ℕ) → IsAbove classes c c }
    ensures transitive { (classes : List ClassInfo) (c d e : ℕ) → IsAbove classes c d → IsAbove classes d e → IsAbove classes c e }
    ensures antisymmetric { (classes : List ClassInfo) (order heights : List ℕ) (c d : ℕ) → AreHeights classes order heights → c < length classes →
        IsAbove classes c d → IsAbove classes d c → c ≡ d }
    ensures falling { (classes : List ClassInfo) (order heights : List ℕ) (c d : ℕ) → AreHeights classes order heights → c < length classes →
        IsAbove classes c d → c ≢ d → slice_index heights d < slice_index heights c }
    ensures inside { (classes : List ClassInfo) (order heights : List ℕ) (c d : ℕ) → AreHeights classes order heights → c < length classes →
        IsAbove classes c d → d < length classes }
{}

/// A class that is spelled has no more members than bytes, and no more bytes of codes and texts. So files within
/// the limit of bytes give classes within the limits of a run.
#[tactic(auto, using(crate::proofs::Sizes::within_bytes))]
pub fn classes_are_within_their_bytes()
    ensures { (bytes : List ℕ) (k : ClassInfo) → Spells bytes k → IsWithinBytes k (length bytes) }
{}
