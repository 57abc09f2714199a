ghost use Rattle.std.specs.Prelude.{◌≡◌, ℕ, ◌<◌, ◌^◌, length, IfOk, Err};
ghost use Rattle.wf_data.specs.declared.class_info.ClassInfo.{ClassInfo};
ghost use Rattle.wf_bytes.specs.declared.fault.Why.{Why};
ghost use Rattle.wf_grammar.specs.ClassFile.{Spells};
ghost use Rattle.wf_bytes.specs.Reading.{bad};
ghost use Rattle.wf_grammar.specs.Reading.{class_of, FirstFault};
ghost use Rattle.wf_constpool.specs.Readers.{GivesValue};

use crate::reader::class_of;
use std::alloc::Global;
use wf_base::Text;
use wf_constpool::ClassFault;
use wf_data::ClassInfo;
use wf_grammar::{class_files_are_read_exactly, faults_are_first};

/// Reads a class file (JVMS 4, majors 45 to 52) from its first byte to its last. What is kept of it is in
/// the class; attributes other than `Code` and `ConstantValue` are passed over. Where the bytes spell no
/// class the answer is the first fault. Where memory runs out it is `NoMemory`. The texts of the class are parts
/// of one copy of the file.
pub fn read_class(alloc: Global, bytes: &[u8]) -> Result<ClassInfo, ClassFault>
    requires { length bytes.now < 2 ^ 32 }
    // What is read is spelled by these bytes.
    ensures class { IfOk result (Spells bytes.now) }
    // A fault is the first one, and then the bytes spell no class.
    ensures fault { (offset : ℕ) (why : Why) → result ≡ Err (ClassFault.Bad offset why) → FirstFault bytes.now (bad offset why) }
    ensures none { (offset : ℕ) (why : Why) (class : ClassInfo) → result ≡ Err (ClassFault.Bad offset why) → Spells bytes.now class → ⊥ }
    // Which of the two it is.
    ensures reading { GivesValue result (class_of bytes.now) }
{
    let file = Text::shared(alloc, bytes)?;
    read_bytes(alloc, bytes, &file)
}

/// The same of a file whose bytes may be shared: then the names, descriptors, constants and codes of the class
/// share them, and nothing of the file is copied. Where the file has its bytes alone, each of these texts is a
/// copy (`Text::into_shared` makes it share them).
pub fn read_class_file(alloc: Global, file: &Text) -> Result<ClassInfo, ClassFault>
    requires { length file.now < 2 ^ 32 }
    ensures class { IfOk result (Spells file.now) }
    ensures fault { (offset : ℕ) (why : Why) → result ≡ Err (ClassFault.Bad offset why) → FirstFault file.now (bad offset why) }
    ensures none { (offset : ℕ) (why : Why) (class : ClassInfo) → result ≡ Err (ClassFault.Bad offset why) → Spells file.now class → ⊥ }
    ensures reading { GivesValue result (class_of file.now) }
{
    read_bytes(alloc, file.as_slice(), file)
}

/// Reads the class of these bytes, which are those of the file.
fn read_bytes(alloc: Global, bytes: &[u8], file: &Text) -> Result<ClassInfo, ClassFault>
    requires small { length bytes.now < 2 ^ 32 }
    requires same { file.now ≡ bytes.now }
    ensures class { IfOk result (Spells bytes.now) }
    ensures fault { (offset : ℕ) (why : Why) → result ≡ Err (ClassFault.Bad offset why) → FirstFault bytes.now (bad offset why) }
    ensures none { (offset : ℕ) (why : Why) (class : ClassInfo) → result ≡ Err (ClassFault.Bad offset why) → Spells bytes.now class → ⊥ }
    ensures reading { GivesValue result (class_of bytes.now) }
{
    class_files_are_read_exactly();
    faults_are_first();
    class_of(alloc, file)
}
