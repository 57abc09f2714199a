//! The slots that a call takes and gives, by the descriptor of its method (JVMS 4.3.3).

ghost use Rattle.std.specs.Prelude.{◌≡◌, ◌++◌, IfOk, OnOk};
ghost use Rattle.wf_operation.specs.Signatures.{receiver, result_slots, start, in_scan, with_param, with_result, step, signature_of};

use crate::pool::is_followed;
use crate::slot::{SlotKind, slots_of};
use crate::sort::Call;
use std::alloc::{AllocError, Global};
use wf_base::{Items, Kind};
use wf_descriptor::kind_of;

/// Where in a descriptor a byte stands.
#[derive(Clone, Copy, Debug, PartialEq, Eq)]
pub enum Scan {
    /// In front of it.
    Start,
    /// In front of a parameter or the `)`.
    Params,
    /// Behind a `[`.
    Array,
    /// In the name of a class.
    Name,
    /// In front of the result.
    Return,
    /// Behind the first byte of the result.
    End,
}

/// What the bytes of a descriptor say, as far as they were read.
#[derive(Debug, Drop)]
pub struct Signature {
    pub scan: Scan,
    /// The slots of the receiver and of the parameters.
    pub takes: Items<SlotKind>,
    pub gives: Option<Kind>,
    /// Whether all these are of kinds that are followed.
    pub followed: bool,
}

/// The slots of a receiver.
pub fn receiver(call: Call) -> &'static [SlotKind]
    ensures { result.now ≡ receiver call }
{
    match call {
        Call::Virtual | Call::Special | Call::Interface => &[SlotKind::Ref],
        Call::Static => &[],
    }
}

/// The slots of a result.
pub fn result_slots(kind: Option<Kind>) -> &'static [SlotKind]
    ensures { result.now ≡ result_slots kind }
{
    match kind {
        Some(kind) => slots_of(kind),
        None => &[],
    }
}

fn start(alloc: Global, call: Call) -> Result<Signature, AllocError>
    ensures { IfOk result (λ s. s ≡ start call) }
{
    let takes = Vec::from_slice(alloc, receiver(call))?;
    Ok(Signature {
        scan: Scan::Start,
        takes: Items::from_vec(takes),
        gives: None,
        followed: true,
    })
}

/// A list with more elements behind it.
fn extended(items: Items<SlotKind>, more: &[SlotKind]) -> Result<Items<SlotKind>, AllocError>
    ensures { IfOk result (λ all. all ≡ items ++ more.now) }
{
    let mut vec = items.into_vec();
    vec.extend_from_slice(more)?;
    Ok(Items::from_vec(vec))
}

impl Signature {
    fn in_scan(self, scan: Scan) -> Signature
        ensures { result ≡ in_scan self scan }
    {
        Signature { scan, ..self }
    }

    fn with_param(self, scan: Scan, kind: Kind) -> Result<Signature, AllocError>
        ensures { IfOk result (λ s. s ≡ with_param self scan kind) }
    {
        let followed = self.followed && is_followed(kind);
        let takes = extended(self.takes, slots_of(kind))?;
        Ok(Signature {
            scan,
            takes,
            gives: self.gives,
            followed,
        })
    }

    fn with_result(self, kind: Kind) -> Signature
        ensures { result ≡ with_result self kind }
    {
        let followed = self.followed && is_followed(kind);
        Signature {
            scan: Scan::End,
            takes: self.takes,
            gives: Some(kind),
            followed,
        }
    }

    fn step(self, b: u8) -> Result<Signature, AllocError>
        ensures { IfOk result (λ s. s ≡ step self b) }
    {
        match (self.scan, b) {
            (Scan::Start, _) => Ok(self.in_scan(Scan::Params)),
            (Scan::Params, b')') => Ok(self.in_scan(Scan::Return)),
            (Scan::Params, b'[') => self.with_param(Scan::Array, Kind::Ref),
            (Scan::Params, b'L') => self.with_param(Scan::Name, Kind::Ref),
            (Scan::Params, _) => self.with_param(Scan::Params, kind_of(b)),
            (Scan::Array, b'[') => Ok(self),
            (Scan::Array, b'L') => Ok(self.in_scan(Scan::Name)),
            (Scan::Array, _) => Ok(self.in_scan(Scan::Params)),
            (Scan::Name, b';') => Ok(self.in_scan(Scan::Params)),
            (Scan::Name, _) => Ok(self),
            (Scan::Return, b'V') => Ok(self.in_scan(Scan::End)),
            (Scan::Return, _) => Ok(self.with_result(kind_of(b))),
            (Scan::End, _) => Ok(self),
        }
    }
}

/// What the bytes say that are the descriptor of a method which is called so.
pub fn signature_of(alloc: Global, call: Call, desc: &[u8]) -> Result<Signature, AllocError>
    ensures { IfOk result (λ s. s ≡ signature_of call desc.now) }
{
    let mut signature = start(alloc, call)?;
    for b in desc {
        signature = signature.step(*b)?;
    }
    Ok(signature)
}
