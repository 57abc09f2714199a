ghost use Rattle.std.specs.Prelude.{◌≡◌, ℕ, ◌+◌, ◌≤◌, false, List, ◌++◌, length, Ok, Some, None};
ghost use Rattle.wf_data.specs.declared.class_info.ClassInfo.{ClassInfo};
ghost use Rattle.wf_data.specs.declared.class_info.PoolEntry.{PoolEntry};
ghost use Rattle.wf_grammar.specs.ClassFile.{PoolIs, Spells};
ghost use Rattle.wf_bytes.specs.Exactness.{Took};
ghost use Rattle.wf_base.specs.Bytes.{IsBytes};
ghost use Rattle.wf_bytes.specs.Place.{Place, spot};
ghost use Rattle.wf_bytes.specs.Reading.{Fault, is_cut};
ghost use Rattle.wf_grammar.specs.Reading.{FirstFault, pool_at, class_of};
ghost use Rattle.wf_grammar.specs.Writing.{HasSpelling, spelling};

/// The law between the grammar of class files and the function that reads them: what is read as a class
/// spells it, and what spells a class is read as that class.
pub fn class_files_are_read_exactly()
    ensures read { (bytes : List ℕ) (class : ClassInfo) → IsBytes bytes → class_of bytes ≡ Ok class → Spells bytes class }
    ensures spelled { (bytes : List ℕ) (class : ClassInfo) → Spells bytes class → class_of bytes ≡ Ok class }
{}

/// The same law for the constant pool alone, wherever it stands: what is read is spelled by the bytes at the
/// front, and what is spelled there is read, whatever follows.
pub fn pools_are_read_exactly()
    ensures found { (p q : Place) (pool : List PoolEntry) → IsBytes p.left → pool_at p ≡ Ok (pool, q) → Took PoolIs p q pool }
    ensures again { (at : ℕ) (text rest : List ℕ) (pool : List PoolEntry) → PoolIs text pool → pool_at (spot at (text ++ rest)) ≡ Ok (pool, spot (at + length text) rest) }
{}

/// Bytes spell at most one class.
pub fn one_class_a_file()
    ensures { (bytes : List ℕ) (a b : ClassInfo) → Spells bytes a → Spells bytes b → a ≡ b }
{}

/// The law of the first fault: bytes with a fault spell no class, the fault lies within them or at their end,
/// and what lies behind a fault that isn't `Cut` can't change it.
pub fn faults_are_first()
    ensures none { (bytes : List ℕ) (fault : Fault) (class : ClassInfo) → FirstFault bytes fault → Spells bytes class → ⊥ }
    ensures within { (bytes : List ℕ) (fault : Fault) → FirstFault bytes fault → fault.offset ≤ length bytes }
    ensures stays { (bytes more : List ℕ) (fault : Fault) → FirstFault bytes fault → is_cut fault.why ≡ false → FirstFault (bytes ++ more) fault }
{}

/// The law between the grammar of class files and the canonical spelling: it spells the class, and only a class
/// that no bytes spell has none.
pub fn spellings_are_exact()
    ensures spelled { (class : ClassInfo) (bytes : List ℕ) → spelling class ≡ Some bytes → Spells bytes class }
    ensures none { (class : ClassInfo) → spelling class ≡ None → HasSpelling class → ⊥ }
{}
