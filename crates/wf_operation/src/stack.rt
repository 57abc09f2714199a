//! What instructions take off the stack and put there in its place.

ghost use Rattle.std.specs.Prelude.{◌≡◌, IfOk, option_and_then, option_map, slice_get};
ghost use Rattle.wf_opcode.specs.Instructions.{place_of};
ghost use Rattle.wf_operation.specs.Operations.{stored_slots, behind_ref, value_effect, control_effect, called_effect, giving, taking, taking_behind, long_kind, class_effect, array_effect, many_effect, pool_effect, acting_effect};
ghost use Rattle.wf_operation.specs.PoolSlots.{constant_kind};
ghost use Rattle.wf_operation.specs.declared.effect.Effect.TheVariants.{Acts};

use crate::effect::Effect;
use crate::pool::{constant_kind, dimensions, field_kind_at, method_desc_at};
use crate::signature::{result_slots, signature_of};
use crate::slot::SlotKind::{self, Int, Long, LongRest, Ref, Unused};
use crate::slot::slots_of;
use crate::sort::{Call, Element, Sort, kind_of_element};
use std::alloc::{AllocError, Global};
use wf_base::{Items, Kind};
use wf_constpool::class_at;
use wf_data::{Instr, PoolEntry};
use wf_descriptor::is_method_descriptor;

/// An effect, or none where an operand is wrong, or the want of memory.
type Found = Result<Option<Effect>, AllocError>;

fn acts(alloc: Global, takes: &[SlotKind], gives: &[SlotKind]) -> Found
    ensures { IfOk result (λ e. e ≡ Some (Acts takes.now gives.now)) }
{
    let takes = Vec::from_slice(alloc, takes)?;
    let gives = Vec::from_slice(alloc, gives)?;
    Ok(Some(Effect::Acts {
        takes: Items::from_vec(takes),
        gives: Items::from_vec(gives),
    }))
}

/// A reference, and behind it a value.
fn behind_ref(kind: Kind) -> &'static [SlotKind]
    ensures { result.now ≡ behind_ref kind }
{
    match kind {
        Kind::Int => &[Ref, Int],
        Kind::Ref => &[Ref, Ref],
        Kind::Long => &[Ref, Long, LongRest],
        Kind::Float => &[Ref, Unused],
        Kind::Double => &[Ref, Unused, Unused],
    }
}

/// An array, an index, and behind them an element.
fn stored_slots(element: Element) -> &'static [SlotKind]
    ensures { result.now ≡ stored_slots element }
{
    match kind_of_element(element) {
        Kind::Int => &[Ref, Int, Int],
        Kind::Ref => &[Ref, Int, Ref],
        Kind::Long => &[Ref, Int, Long, LongRest],
        Kind::Float => &[Ref, Int, Unused],
        Kind::Double => &[Ref, Int, Unused, Unused],
    }
}

/// Of constants, array elements, arithmetic and conversions.
fn value_effect(alloc: Global, sort: Sort) -> Found
    ensures { IfOk result (λ e. e ≡ value_effect sort) }
{
    match sort {
        Sort::NullConstant => acts(alloc, &[], &[Ref]),
        Sort::IntConstant => acts(alloc, &[], &[Int]),
        Sort::LongConstant => acts(alloc, &[], &[Long, LongRest]),
        Sort::ArrayLoad(element) => acts(alloc, &[Ref, Int], slots_of(kind_of_element(element))),
        Sort::ArrayStore(element) => acts(alloc, stored_slots(element), &[]),
        Sort::IntArithmetic(_) | Sort::IntShift(_) => acts(alloc, &[Int, Int], &[Int]),
        Sort::LongArithmetic(_) => {
            acts(alloc, &[Long, LongRest, Long, LongRest], &[Long, LongRest])
        }
        Sort::LongShift(_) => acts(alloc, &[Long, LongRest, Int], &[Long, LongRest]),
        Sort::IntNegate | Sort::Narrow(_) => acts(alloc, &[Int], &[Int]),
        Sort::LongNegate => acts(alloc, &[Long, LongRest], &[Long, LongRest]),
        Sort::IntToLong => acts(alloc, &[Int], &[Long, LongRest]),
        Sort::LongToInt => acts(alloc, &[Long, LongRest], &[Int]),
        Sort::CompareLongs => acts(alloc, &[Long, LongRest, Long, LongRest], &[Int]),
        _ => Ok(None),
    }
}

/// Of branches, returns, and objects of which the pool says nothing.
fn control_effect(alloc: Global, sort: Sort) -> Found
    ensures { IfOk result (λ e. e ≡ control_effect sort) }
{
    match sort {
        Sort::Nothing | Sort::Jump | Sort::ReturnNothing => acts(alloc, &[], &[]),
        Sort::CompareToZero(_) | Sort::Switch => acts(alloc, &[Int], &[]),
        Sort::CompareInts(_) => acts(alloc, &[Int, Int], &[]),
        Sort::CompareRefs(_) => acts(alloc, &[Ref, Ref], &[]),
        Sort::CompareToNull(_) | Sort::Throw | Sort::EnterMonitor | Sort::ExitMonitor => {
            acts(alloc, &[Ref], &[])
        }
        Sort::Return(kind) => acts(alloc, slots_of(kind), &[]),
        Sort::NewArray => acts(alloc, &[Int], &[Ref]),
        Sort::ArrayLength => acts(alloc, &[Ref], &[Int]),
        _ => Ok(None),
    }
}

/// Of a call, by the descriptor of its method.
fn called_effect(alloc: Global, call: Call, desc: &[u8]) -> Found
    ensures { IfOk result (λ e. e ≡ called_effect call desc.now) }
{
    if !is_method_descriptor(desc, 255) {
        return Ok(None);
    }
    let signature = signature_of(alloc, call, desc)?;
    if !signature.followed {
        return Ok(None);
    }
    let gives = result_slots(signature.gives);
    acts(alloc, signature.takes.as_slice(), gives)
}

fn giving(alloc: Global, takes: &[SlotKind], kind: Option<Kind>) -> Found
    ensures { IfOk result (λ e. e ≡ option_map (giving takes.now) kind) }
{
    match kind {
        Some(kind) => acts(alloc, takes, slots_of(kind)),
        None => Ok(None),
    }
}

fn taking(alloc: Global, kind: Option<Kind>) -> Found
    ensures { IfOk result (λ e. e ≡ option_map taking kind) }
{
    match kind {
        Some(kind) => acts(alloc, slots_of(kind), &[]),
        None => Ok(None),
    }
}

fn taking_behind(alloc: Global, kind: Option<Kind>) -> Found
    ensures { IfOk result (λ e. e ≡ option_map taking_behind kind) }
{
    match kind {
        Some(kind) => acts(alloc, behind_ref(kind), &[]),
        None => Ok(None),
    }
}

fn class_effect(
    alloc: Global,
    pool: &[PoolEntry],
    place: u16,
    takes: &[SlotKind],
    gives: &[SlotKind],
) -> Found
    ensures { IfOk result (λ e. e ≡ class_effect pool.now place takes.now gives.now) }
{
    match class_at(pool, place) {
        Some(_) => acts(alloc, takes, gives),
        None => Ok(None),
    }
}

fn array_effect(alloc: Global, name: &[u8]) -> Found
    ensures { IfOk result (λ e. e ≡ array_effect name.now) }
{
    if dimensions(name) < 255 {
        acts(alloc, &[Int], &[Ref])
    } else {
        Ok(None)
    }
}

fn many_effect(alloc: Global, lengths: i32, name: &[u8]) -> Found
    ensures { IfOk result (λ e. e ≡ many_effect lengths name.now) }
{
    let Ok(count) = usize::try_from(lengths) else {
        return Ok(None);
    };
    if count == 0 || count > dimensions(name) {
        return Ok(None);
    }
    let takes = vec![in alloc; Int; count]?;
    acts(alloc, takes.as_slice(), &[Ref])
}

fn constant_at(pool: &[PoolEntry], place: u16) -> Option<Kind>
    ensures { result ≡ option_and_then constant_kind (slice_get pool.now place) }
{
    constant_kind(pool.get(place as usize)?)
}

fn long_at(pool: &[PoolEntry], place: u16) -> Option<Kind>
    ensures { result ≡ option_and_then long_kind (slice_get pool.now place) }
{
    match pool.get(place as usize)? {
        PoolEntry::Long(_) => Some(Kind::Long),
        _ => None,
    }
}

/// Of an instruction that needs an entry at a place of the pool.
fn pool_effect(alloc: Global, pool: &[PoolEntry], place: u16, b: i32, sort: Sort) -> Found
    ensures { IfOk result (λ e. e ≡ pool_effect pool.now place b sort) }
{
    match sort {
        Sort::PoolConstant => giving(alloc, &[], constant_at(pool, place)),
        Sort::PoolLong => giving(alloc, &[], long_at(pool, place)),
        Sort::GetStatic => giving(alloc, &[], field_kind_at(pool, place)),
        Sort::PutStatic => taking(alloc, field_kind_at(pool, place)),
        Sort::GetField => giving(alloc, &[Ref], field_kind_at(pool, place)),
        Sort::PutField => taking_behind(alloc, field_kind_at(pool, place)),
        Sort::Invoke(call) => match method_desc_at(pool, call, place) {
            Some(desc) => called_effect(alloc, call, desc),
            None => Ok(None),
        },
        Sort::New => class_effect(alloc, pool, place, &[], &[Ref]),
        Sort::Cast => class_effect(alloc, pool, place, &[Ref], &[Ref]),
        Sort::InstanceOf => class_effect(alloc, pool, place, &[Ref], &[Int]),
        Sort::NewRefArray => match class_at(pool, place) {
            Some(name) => array_effect(alloc, name),
            None => Ok(None),
        },
        Sort::NewManyArray => match class_at(pool, place) {
            Some(name) => many_effect(alloc, b, name),
            None => Ok(None),
        },
        _ => Ok(None),
    }
}

/// A number of two bytes.
pub fn place_of(number: i32) -> Option<u16>
    ensures { result ≡ place_of number }
{
    u16::try_from(number).ok()
}

/// What an instruction does that takes operands off the stack and puts a value in their place.
pub fn acting_effect(alloc: Global, pool: &[PoolEntry], instr: &Instr, sort: Sort) -> Found
    ensures { IfOk result (λ e. e ≡ acting_effect pool.now instr.now sort) }
{
    if let Some(effect) = value_effect(alloc, sort)? {
        return Ok(Some(effect));
    }
    if let Some(effect) = control_effect(alloc, sort)? {
        return Ok(Some(effect));
    }
    match place_of(instr.a) {
        Some(place) => pool_effect(alloc, pool, place, instr.b, sort),
        None => Ok(None),
    }
}
