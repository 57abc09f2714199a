//! Descriptors of methods that are there.

ghost use Rattle.std.specs.Prelude.{◌≡◌, ℕ, Some, IfOk};
ghost use Rattle.wf_descriptor.specs.Descriptors.{SpellsMethod};
ghost use Rattle.wf_binding.specs.Named.{flags_of_method};

use std::alloc::{AllocError, Global};
use wf_classes::Classes;
use wf_descriptor::{DescFault, MethodDesc, read_descriptor};
use wf_names::MemberName;

/// What the descriptor of a method says. One that is there has a descriptor.
pub fn descriptor_of(
    alloc: Global,
    classes: &Classes,
    method: &MemberName,
    flags: u16,
) -> Result<MethodDesc, AllocError>
    requires { flags_of_method classes.now method.now ≡ Some flags }
    ensures { IfOk result (SpellsMethod 255 method.now.desc) }
{
    let _ = classes.list();
    match read_descriptor(alloc, method.desc.as_slice()) {
        Ok(desc) => Ok(desc),
        Err(DescFault::NoMemory) => Err(AllocError),
        Err(DescFault::NotADescriptor { .. }) => unreachable!(),
    }
}
