//! What is wrong with a root.

ghost use Rattle.std.specs.Prelude.{◌≡◌, ◌↔◌, Some, IfOk, IsTrue};
ghost use Rattle.std.specs.List.{list_all};
ghost use Rattle.wf_descriptor.specs.declared.descriptor.FieldDesc.{FieldDesc};
ghost use Rattle.wf_binding.specs.First.{IsWord};
ghost use Rattle.wf_binding.specs.Named.{flags_of_method};
ghost use Rattle.wf_binding.specs.Validity.{CanStart, IsBadStart, IsBadRoot, is_followed, has_constructor, can_be_constructed};

use crate::described::descriptor_of;
use crate::effects::word_of;
use crate::named::{can_be_made, is_type, method_of};
use crate::values::is_followed;
use std::alloc::{AllocError, Global};
use wf_classes::{Classes, own_method};
use wf_data::{is_abstract, is_static};
use wf_descriptor::{FieldDesc, one_descriptor};
use wf_names::{InputWhy, MemberName, Root};

fn are_followed(params: &[FieldDesc]) -> bool
    ensures { result ≡ list_all (λ (p : FieldDesc). is_followed p.kind) params.now }
{
    params.iter().all(|param| is_followed(param.kind))
}

/// Whether a method that is there, with these flags, can be a root.
fn can_start(
    alloc: Global,
    classes: &Classes,
    method: &MemberName,
    flags: u16,
) -> Result<bool, AllocError>
    requires { flags_of_method classes.now method.now ≡ Some flags }
    ensures { IfOk result (λ can. IsTrue can ↔ CanStart flags method.now.desc) }
{
    if !is_static(flags) {
        return Ok(false);
    }
    one_descriptor();
    let desc = descriptor_of(alloc, classes, method, flags)?;
    Ok(are_followed(desc.params.as_slice()))
}

fn start_word(
    alloc: Global,
    classes: &Classes,
    method: &MemberName,
) -> Result<Option<InputWhy>, AllocError>
    ensures { IfOk result (IsWord (IsBadStart classes.now method.now)) }
{
    match method_of(classes, method) {
        Some(own) => {
            if can_start(alloc, classes, method, own.flags)? {
                Ok(None)
            } else {
                Ok(Some(InputWhy::Kind))
            }
        }
        None => Ok(Some(InputWhy::Absent)),
    }
}

fn has_constructor(classes: &Classes, name: &[u8]) -> bool
    ensures { result ≡ has_constructor classes.now name.now }
{
    let Some(c) = classes.find(name) else {
        return false;
    };
    match own_method(classes, c, b"<init>".as_slice(), b"()V".as_slice()) {
        Some(method) => !is_static(method.flags) && !is_abstract(method.flags),
        None => false,
    }
}

fn can_be_constructed(classes: &Classes, name: &[u8]) -> bool
    ensures { result ≡ can_be_constructed classes.now name.now }
{
    has_constructor(classes, name) && can_be_made(classes, name)
}

/// What is wrong with a root.
pub fn root_word(
    alloc: Global,
    classes: &Classes,
    root: &Root,
) -> Result<Option<InputWhy>, AllocError>
    ensures { IfOk result (IsWord (IsBadRoot classes.now root.now)) }
{
    match root {
        Root::StaticCall(method) => start_word(alloc, classes, method),
        Root::Inst(name) => Ok(word_of(
            is_type(classes, name.as_slice()),
            can_be_made(classes, name.as_slice()),
        )),
        Root::Make(name) => Ok(word_of(
            is_type(classes, name.as_slice()),
            can_be_constructed(classes, name.as_slice()),
        )),
    }
}
