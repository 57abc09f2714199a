ghost use Rattle.std.specs.Prelude.{◌≡◌, IfOk, Err};
ghost use Rattle.wf_grammar.specs.ClassFile.{Spells};
ghost use Rattle.wf_grammar.specs.Writing.{HasSpelling, spelling};
ghost use Rattle.wf_classfile.specs.Writers.{GivesAgain, GivesText};

use crate::fault::SpellFault;
use crate::read::read_class_file;
use crate::writer::put_class;
use std::alloc::Global;
use wf_base::Text;
use wf_constpool::ClassFault;
use wf_data::ClassInfo;
use wf_grammar::{class_files_are_read_exactly, spellings_are_exact};

/// Writes a class in its one canonical spelling: its own pool; `Code` and the `ConstantValue` of a static
/// field, which are the attributes that are kept, and no others; the least place of the pool that serves for
/// the name of each class, member and attribute; and the minor version 0. It is `NotSpellable` exactly where no
/// bytes spell the class.
pub fn write_class(alloc: Global, class: &ClassInfo) -> Result<Text, SpellFault>
    // What is written is the canonical spelling, and it is refused exactly where there is none.
    ensures writing { GivesText result (spelling class.now) }
    ensures spelled { IfOk result (λ text. Spells text class.now) }
    ensures not_spellable { result ≡ Err SpellFault.NotSpellable → HasSpelling class.now → ⊥ }
{
    spellings_are_exact();
    let mut out = Vec::new(alloc);
    put_class(alloc, &mut out, class)?;
    Ok(Text::from_vec(out))
}

/// Writes a class and reads what was written, which gives the same class. It is None where the class file has
/// 2^32 bytes or more, which are too many to be read.
pub fn written_and_read(alloc: Global, class: &ClassInfo) -> Result<Option<ClassInfo>, SpellFault>
    ensures { GivesAgain class.now result }
{
    class_files_are_read_exactly();
    let file = write_class(alloc, class)?.into_shared(alloc)?;
    if u32::try_from(file.as_slice().len()).is_err() {
        return Ok(None);
    }
    match read_class_file(alloc, &file) {
        Ok(again) => Ok(Some(again)),
        Err(ClassFault::NoMemory) => Err(SpellFault::NoMemory),
        Err(ClassFault::Bad { .. }) => unreachable!(),
    }
}
