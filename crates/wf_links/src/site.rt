//! The call sites of a method.

ghost use Rattle.std.specs.Prelude.{◌≡◌, IfOk};
ghost use Rattle.wf_subtype.specs.Universe.{HasShortCode};
ghost use Rattle.wf_links.specs.Sites.{is_site, AreInstructionsOf};

use std::alloc::{AllocError, Global};
use wf_base::Items;
use wf_data::{Instr, MethodInfo, Placed};
use wf_opcode::{DecodeFault, decode};
use wf_operation::{Call, Sort, sort_of};

/// Whether an instruction is a call site: the receiver says which method runs.
pub fn is_site(instr: &Instr) -> bool
    ensures { result ≡ is_site instr.now }
{
    matches!(
        sort_of(instr.op),
        Some(Sort::Invoke(Call::Virtual | Call::Special | Call::Interface))
    )
}

/// The instructions of a method.
pub fn instructions_of(alloc: Global, method: &MethodInfo) -> Result<Items<Placed>, AllocError>
    requires { HasShortCode method.now }
    ensures { IfOk result (AreInstructionsOf method.now) }
{
    match &method.code {
        None => Ok(Items::new(alloc)),
        Some(code) => match decode(alloc, code.code.as_slice()) {
            Ok(placed) => Ok(placed),
            Err(DecodeFault::BadCode { .. }) => Ok(Items::new(alloc)),
            Err(DecodeFault::NoMemory) => Err(AllocError),
        },
    }
}
