ghost use Rattle.std.specs.Prelude.{◌^◌, ◌<◌, length};
ghost use Rattle.wf_asm.specs.Assembling.{assembled};
ghost use Rattle.wf_asm.specs.Giving.{Gives};

use crate::build::classes_of;
use crate::fault::AsmFault;
use std::alloc::Global;
use wf_base::Items;
use wf_data::ClassInfo;
use wf_listing::read_listing;

/// The classes that a listing says, in its order (own rule; docs/GUIDE.md, "Listings", has the form). They have version 52,
/// and each code has 32 places for its stack and for its locals. What a listing says isn't judged: of a class that it gives
/// `write_class` may find that no bytes spell it.
///
/// `BadLine` names the least line that isn't of the form, counted from 1, whatever makes it so: its words, its place, or
/// what it names, as a jump to a label that its body doesn't give. The text has fewer than 2^32 bytes, so that its lines can
/// be counted in 32 bits.
pub fn assemble(alloc: Global, text: &[u8]) -> Result<Items<ClassInfo>, AsmFault>
    requires { length text.now < 2 ^ 32 }
    ensures { Gives result (assembled text.now) }
{
    let listing = read_listing(alloc, text)?;
    let made = classes_of(alloc, listing.classes.as_slice());
    let Some(first_bad) = listing.first_bad else {
        return made;
    };
    match made {
        Ok(_) => Err(AsmFault::BadLine { line: first_bad }),
        Err(AsmFault::BadLine { line }) => Err(AsmFault::BadLine {
            line: first_bad.min(line),
        }),
        Err(AsmFault::NoMemory) => Err(AsmFault::NoMemory),
    }
}
