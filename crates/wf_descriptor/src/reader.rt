ghost use Rattle.std.specs.Prelude.{◌≡◌, ◌<◌, ◌≤◌, ◌^◌, length, drop, IfOk, IfErr};
ghost use Rattle.wf_descriptor.specs.Descriptors.{name_length, type_length, field_desc, return_desc, SpellsField, SpellsMethod, IsFieldDescriptor, IsMethodDescriptor, IsDescFault};

use crate::descriptor::{DescFault, FieldDesc, MethodDesc};
use crate::machine::{Follow, State, kind_of, stop};
use std::alloc::{AllocError, Global};
use wf_base::{Items, Text};

fn name_length(bytes: &[u8]) -> usize
    ensures gives { result ≡ name_length bytes.now }
    ensures within { result ≤ length bytes.now }
{
    for (i, b) in bytes.iter().enumerate() {
        if *b == b';' {
            return i + 1;
        }
    }
    bytes.len()
}

fn type_length(bytes: &[u8]) -> usize
    ensures gives { result ≡ type_length bytes.now }
    ensures within { result ≤ length bytes.now }
{
    for (i, b) in bytes.iter().enumerate() {
        if *b == b'L' {
            return i + 1 + name_length(&bytes[i + 1..]);
        }
        if *b != b'[' {
            return i + 1;
        }
    }
    bytes.len()
}

fn field_desc(alloc: Global, text: &[u8]) -> Result<FieldDesc, AllocError>
    requires { 0 < length text.now }
    ensures { IfOk result (λ desc. desc ≡ field_desc text.now) }
{
    Ok(FieldDesc {
        kind: kind_of(text[0]),
        text: Text::from_slice(alloc, text)?,
    })
}

fn return_desc(alloc: Global, text: &[u8]) -> Result<Option<FieldDesc>, AllocError>
    requires { 0 < length text.now }
    ensures { IfOk result (λ desc. desc ≡ return_desc text.now) }
{
    if text[0] == b'V' {
        return Ok(None);
    }
    Ok(Some(field_desc(alloc, text)?))
}

fn behind_first(bytes: &[u8]) -> &[u8]
    requires { 0 < length bytes.now }
    ensures { result.now ≡ drop 1 bytes.now }
{
    &bytes[1..]
}

#[tactic(auto, using(crate::proofs::DescriptorValues::read_begin, crate::proofs::DescriptorValues::read_some, crate::proofs::DescriptorValues::type_length_some, crate::proofs::DescriptorValues::read_next, crate::proofs::DescriptorValues::opened))]
fn method_desc(alloc: Global, bytes: &[u8]) -> Result<MethodDesc, AllocError>
    requires { IsMethodDescriptor 255 bytes.now }
    ensures { IfOk result (SpellsMethod 255 bytes.now) }
{
    let mut params = Vec::new(alloc);
    let mut rest = behind_first(bytes);
    while rest[0] != b')' {
        let (text, behind) = rest.split_at(type_length(rest));
        params.push(field_desc(alloc, text)?)?;
        rest = behind;
    }
    let ret = return_desc(alloc, behind_first(rest))?;
    Ok(MethodDesc {
        params: Items::from_vec(params),
        ret,
    })
}

/// The type of a field that the bytes are. A fault takes no memory.
#[tactic(auto, using(crate::proofs::DescriptorLaws::field_fault, crate::proofs::DescriptorLaws::field_passed))]
pub fn read_field_descriptor(alloc: Global, bytes: &[u8]) -> Result<FieldDesc, DescFault>
    requires { length bytes.now < 2 ^ 32 }
    ensures ok { IfOk result (SpellsField bytes.now) }
    ensures fault { IfErr result (IsDescFault IsFieldDescriptor bytes.now) }
{
    if let Some(at) = stop(State::Start(255, Follow::End), bytes) {
        return Err(DescFault::NotADescriptor { at: at as u32 });
    }
    Ok(field_desc(alloc, bytes)?)
}

/// The types of a method that the bytes are. Its parameters take at most 255 slots, without the receiver.
/// A fault takes no memory.
#[tactic(auto, using(crate::proofs::DescriptorLaws::method_fault, crate::proofs::DescriptorLaws::method_passed))]
pub fn read_descriptor(alloc: Global, bytes: &[u8]) -> Result<MethodDesc, DescFault>
    requires { length bytes.now < 2 ^ 32 }
    ensures ok { IfOk result (SpellsMethod 255 bytes.now) }
    ensures fault { IfErr result (IsDescFault (IsMethodDescriptor 255) bytes.now) }
{
    if let Some(at) = stop(State::Open(255), bytes) {
        return Err(DescFault::NotADescriptor { at: at as u32 });
    }
    Ok(method_desc(alloc, bytes)?)
}
