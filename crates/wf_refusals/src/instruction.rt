//! What the instructions of a body are refused for.

ghost use Rattle.std.specs.Prelude.{◌≡◌, IfOk, option_and_then, slice_get};
ghost use Rattle.wf_opcode.specs.Instructions.{place_of};
ghost use Rattle.wf_operation.specs.PoolSlots.{field_desc_at, method_desc_at};
ghost use Rattle.wf_refusals.specs.Refusals.{float_if, constant_refusal, wide_refusal, field_refusal, method_refusal, pool_refusal, named_refusal, instruction_refusal, first_refusal};

use std::alloc::{AllocError, Global};
use wf_data::{Instr, Placed, PoolEntry, What};
use wf_descriptor::{is_field_descriptor, is_method_descriptor, kind_of};
use wf_opcode::refused_as;
use wf_operation::{Call, Sort, field_desc_at, is_followed, method_desc_at, signature_of, sort_of};

/// What a body is refused for, and at which place.
#[derive(Clone, Copy, Debug, PartialEq, Eq)]
pub struct Refusal {
    pub pc: u16,
    pub what: What,
}

/// A number of two bytes.
fn place_of(number: i32) -> Option<u16>
    ensures { result ≡ place_of number }
{
    u16::try_from(number).ok()
}

fn float_if(test: bool) -> Option<What>
    ensures { result ≡ float_if test }
{
    if test { Some(What::Float) } else { None }
}

fn constant_refusal(entry: &PoolEntry) -> Option<What>
    ensures { result ≡ constant_refusal entry.now }
{
    match entry {
        PoolEntry::Float(_) | PoolEntry::Double(_) => Some(What::Float),
        PoolEntry::Handle(_, _) | PoolEntry::MethodKind(_) => Some(What::MethodHandle),
        _ => None,
    }
}

fn wide_refusal(entry: &PoolEntry) -> Option<What>
    ensures { result ≡ wide_refusal entry.now }
{
    float_if(matches!(entry, PoolEntry::Float(_) | PoolEntry::Double(_)))
}

fn field_refusal(desc: &[u8]) -> Option<What>
    ensures { result ≡ field_refusal desc.now }
{
    if !is_field_descriptor(desc) {
        return None;
    }
    float_if(!is_followed(kind_of(*desc.first()?)))
}

fn method_refusal(alloc: Global, call: Call, desc: &[u8]) -> Result<Option<What>, AllocError>
    ensures { IfOk result (λ what. what ≡ method_refusal call desc.now) }
{
    if !is_method_descriptor(desc, 255) {
        return Ok(None);
    }
    let signature = signature_of(alloc, call, desc)?;
    Ok(float_if(!signature.followed))
}

/// By the descriptor of the method that is called so, where the place names one.
fn call_refusal(
    alloc: Global,
    pool: &[PoolEntry],
    place: u16,
    call: Call,
) -> Result<Option<What>, AllocError>
    ensures { IfOk result (λ what. what ≡ option_and_then (method_refusal call) (method_desc_at pool.now call place)) }
{
    match method_desc_at(pool, call, place) {
        Some(desc) => method_refusal(alloc, call, desc),
        None => Ok(None),
    }
}

fn field_refusal_at(pool: &[PoolEntry], place: u16) -> Option<What>
    ensures { result ≡ option_and_then field_refusal (field_desc_at pool.now place) }
{
    field_refusal(field_desc_at(pool, place)?)
}

fn constant_refusal_at(pool: &[PoolEntry], place: u16) -> Option<What>
    ensures { result ≡ option_and_then constant_refusal (slice_get pool.now place) }
{
    constant_refusal(pool.get(place as usize)?)
}

fn wide_refusal_at(pool: &[PoolEntry], place: u16) -> Option<What>
    ensures { result ≡ option_and_then wide_refusal (slice_get pool.now place) }
{
    wide_refusal(pool.get(place as usize)?)
}

fn pool_refusal(
    alloc: Global,
    pool: &[PoolEntry],
    place: u16,
    sort: Sort,
) -> Result<Option<What>, AllocError>
    ensures { IfOk result (λ what. what ≡ pool_refusal pool.now place sort) }
{
    match sort {
        Sort::PoolConstant => Ok(constant_refusal_at(pool, place)),
        Sort::PoolLong => Ok(wide_refusal_at(pool, place)),
        Sort::GetStatic | Sort::PutStatic | Sort::GetField | Sort::PutField => Ok(field_refusal_at(
            pool, place,
        )),
        Sort::Invoke(call) => call_refusal(alloc, pool, place, call),
        _ => Ok(None),
    }
}

fn named_refusal(
    alloc: Global,
    pool: &[PoolEntry],
    instr: &Instr,
    sort: Sort,
) -> Result<Option<What>, AllocError>
    ensures { IfOk result (λ what. what ≡ named_refusal pool.now instr.now sort) }
{
    match place_of(instr.a) {
        Some(place) => pool_refusal(alloc, pool, place, sort),
        None => Ok(None),
    }
}

/// As what an instruction is refused: by its opcode, or by what it names in the pool.
pub fn instruction_refusal(
    alloc: Global,
    pool: &[PoolEntry],
    instr: &Instr,
) -> Result<Option<What>, AllocError>
    ensures { IfOk result (λ what. what ≡ instruction_refusal pool.now instr.now) }
{
    if let Some(what) = refused_as(instr.op) {
        return Ok(Some(what));
    }
    match sort_of(instr.op) {
        Some(sort) => named_refusal(alloc, pool, instr, sort),
        None => Ok(None),
    }
}

/// The first instruction that is refused.
pub fn first_refusal(
    alloc: Global,
    pool: &[PoolEntry],
    code: &[Placed],
) -> Result<Option<Refusal>, AllocError>
    ensures { IfOk result (λ refusal. refusal ≡ first_refusal pool.now code.now) }
{
    for placed in code {
        if let Some(what) = instruction_refusal(alloc, pool, &placed.instr)? {
            return Ok(Some(Refusal {
                pc: placed.pc,
                what,
            }));
        }
    }
    Ok(None)
}
