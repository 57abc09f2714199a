//! The body of a method, from its code, its exception table and its descriptor.

ghost use Rattle.std.specs.Prelude.{◌≡◌, ◌+◌, ◌≤◌, ◌++◌, length, map, replicate, IfOk, IfSome};
ghost use Rattle.wf_blocks.specs.Answers.{IsMade};
ghost use Rattle.wf_blocks.specs.Methods.{pcs_of, target_at, targets_of, step_of, steps_from, end_of, catches_well, catcher_by, catcher_of, all_some, receiver_slots, param_slots, entry_slots, filled, numbers_from, entry_numbers, body_by, body_of};
ghost use Rattle.wf_operation.specs.Nexts.{edge_count};
ghost use Rattle.wf_operation.specs.Slots.{slots_of};
ghost use Rattle.wf_operation.specs.declared.slot.SlotKind.TheVariants.{Unused};

use crate::body::{Body, Catcher, Step};
use crate::places::Places;
use std::alloc::{AllocError, Global};
use wf_base::{Items, Kind};
use wf_constpool::class_at;
use wf_data::{CodeInfo, Handler, Placed, PoolEntry};
use wf_descriptor::{FieldDesc, MethodDesc};
use wf_operation::{Next, SlotKind, edge_count, operation_of, slots_of, target};

fn target_at(places: &Places, place: usize, next: &Next, edge: usize) -> Option<usize>
    requires { place ≤ 65535 }
    ensures { result ≡ target_at places.now place next.now edge }
{
    match target(next, edge) {
        Some(pc) => places.number_of(pc),
        None if place + 1 < places.len() => Some(place + 1),
        None => None,
    }
}

fn edges_of(next: &Next) -> usize
    ensures { result ≡ edge_count next.now }
{
    match next {
        Next::Switches { cases, .. } => cases.as_slice().len() + 1,
        Next::Falls
        | Next::Jumps { .. }
        | Next::Branches { .. }
        | Next::Returns { .. }
        | Next::Throws => edge_count(next),
    }
}

/// Where all edges of an instruction lead, if they lead to instructions.
#[tactic(auto, using(crate::proofs::MethodLemmas::ranged_more, crate::proofs::MethodLemmas::ranged_none))]
fn targets_of(
    alloc: Global,
    places: &Places,
    place: usize,
    next: &Next,
) -> Result<Option<Items<usize>>, AllocError>
    requires { place ≤ 65535 }
    ensures { IfOk result (λ t. t ≡ targets_of places.now place next.now) }
{
    let mut targets = Vec::new(alloc);
    for edge in 0..edges_of(next) {
        match target_at(places, place, next, edge) {
            Some(to) => targets.push(to)?,
            None => return Ok(None),
        }
    }
    Ok(Some(Items::from_vec(targets)))
}

fn step_of(
    alloc: Global,
    pool: &[PoolEntry],
    places: &Places,
    place: usize,
    placed: &Placed,
) -> Result<Step, AllocError>
    requires { place ≤ 65535 }
    ensures { IfOk result (λ s. s ≡ step_of pool.now places.now place placed.now) }
{
    let operation = operation_of(alloc, pool, &placed.instr)?;
    let targets = match &operation {
        Some(operation) => targets_of(alloc, places, place, &operation.next)?,
        None => None,
    };
    Ok(Step {
        pc: placed.pc,
        operation,
        targets,
    })
}

#[tactic(auto, using(crate::proofs::MethodLemmas::steps_more, crate::proofs::MethodLemmas::steps_all))]
fn steps_of(
    alloc: Global,
    pool: &[PoolEntry],
    places: &Places,
    code: &[Placed],
) -> Result<Items<Step>, AllocError>
    requires { length code.now ≤ 65535 }
    ensures { IfOk result (λ s. s ≡ steps_from pool.now places.now 0 code.now) }
{
    let mut steps = Vec::with_capacity(alloc, code.len())?;
    for place in 0..code.len() {
        steps.push(step_of(alloc, pool, places, place, &code[place])?)?;
    }
    Ok(Items::from_vec(steps))
}

fn end_of(places: &Places, size: usize, pc: u16) -> Option<usize>
    ensures { result ≡ end_of places.now size pc }
{
    if pc as usize == size {
        Some(places.len())
    } else {
        places.number_of(pc)
    }
}

fn catches_well(pool: &[PoolEntry], class: u16) -> bool
    ensures { result ≡ catches_well pool.now class }
{
    class == 0 || class_at(pool, class).is_some()
}

fn catcher_by(first: Option<usize>, end: Option<usize>, target: Option<usize>) -> Option<Catcher>
    ensures { result ≡ catcher_by first end target }
{
    Some(Catcher {
        first: first?,
        end: end?,
        target,
    })
}

/// An entry of the exception table by the numbers of places, if it is one.
fn catcher_of(
    pool: &[PoolEntry],
    places: &Places,
    size: usize,
    handler: &Handler,
) -> Option<Catcher>
    ensures { result ≡ catcher_of pool.now places.now size handler.now }
{
    if handler.start < handler.end && catches_well(pool, handler.catch_class) {
        catcher_by(
            places.number_of(handler.start),
            end_of(places, size, handler.end),
            places.number_of(handler.target),
        )
    } else {
        None
    }
}

#[tactic(auto, using(crate::proofs::MethodLemmas::listed_more, crate::proofs::MethodLemmas::listed_none))]
fn catchers_of(
    alloc: Global,
    pool: &[PoolEntry],
    places: &Places,
    size: usize,
    table: &[Handler],
) -> Result<Option<Items<Catcher>>, AllocError>
    ensures { IfOk result (λ c. c ≡ all_some (map (catcher_of pool.now places.now size) table.now)) }
{
    let mut catchers = Vec::with_capacity(alloc, table.len())?;
    for handler in table {
        match catcher_of(pool, places, size, handler) {
            Some(catcher) => catchers.push(catcher)?,
            None => return Ok(None),
        }
    }
    Ok(Some(Items::from_vec(catchers)))
}

fn receiver_slots(is_static: bool) -> &'static [SlotKind]
    ensures { result.now ≡ receiver_slots is_static }
{
    if is_static { &[] } else { &[SlotKind::Ref] }
}

#[tactic(auto, using(crate::proofs::MethodLemmas::params_more))]
fn entry_slots(
    alloc: Global,
    params: &[FieldDesc],
    is_static: bool,
) -> Result<Vec<SlotKind>, AllocError>
    ensures { IfOk result (λ v. v.items ≡ receiver_slots is_static ++ param_slots params.now) }
{
    let mut slots = Vec::from_slice(alloc, receiver_slots(is_static))?;
    for param in params {
        slots.extend_from_slice(slots_of(param.kind))?;
    }
    Ok(slots)
}

/// Adds the number of a parameter, once for each slot that it takes.
fn add_number(numbers: &mut Vec<u16>, kind: Kind, number: u16) -> Result<(), AllocError>
    ensures { IfOk result (λ _. numbers.new.items ≡ numbers.old.items ++ replicate (length (slots_of kind)) number) }
{
    numbers.push(number)?;
    match kind {
        Kind::Int | Kind::Ref | Kind::Float => Ok(()),
        Kind::Long | Kind::Double => {
            numbers.push(number)?;
            Ok(())
        }
    }
}

/// Which parameter each slot holds, where they are numbered from `first` on and these stand in front.
#[tactic(auto, using(crate::proofs::MethodLemmas::numbers_more, crate::proofs::MethodLemmas::numbers_all))]
fn numbers_from(
    front: Vec<u16>,
    first: usize,
    params: &[FieldDesc],
) -> Result<Items<u16>, AllocError>
    requires { first + length params.now ≤ 65536 }
    ensures { IfOk result (λ v. v ≡ front.items ++ numbers_from first params.now) }
{
    let mut numbers = front;
    for i in 0..params.len() {
        add_number(&mut numbers, params[i].kind, (first + i) as u16)?;
    }
    Ok(Items::from_vec(numbers))
}

fn entry_numbers(
    alloc: Global,
    desc: &MethodDesc,
    is_static: bool,
) -> Result<Items<u16>, AllocError>
    requires { length desc.now.params ≤ 65535 }
    ensures { IfOk result (λ v. v ≡ entry_numbers desc.now is_static) }
{
    let mut front = Vec::new(alloc);
    if is_static {
        return numbers_from(front, 0, desc.params.as_slice());
    }
    front.push(0)?;
    numbers_from(front, 1, desc.params.as_slice())
}

/// The slots with unused ones behind them, so many in all.
#[tactic(auto, using(crate::proofs::MethodLemmas::filled_more, crate::proofs::MethodLemmas::filled_all))]
fn padded(slots: Vec<SlotKind>, count: usize) -> Result<Items<SlotKind>, AllocError>
    ensures { IfOk result (λ v. v ≡ filled slots.items Unused count) }
{
    let mut all = slots;
    while all.len() < count {
        all.push(SlotKind::Unused)?;
    }
    Ok(Items::from_vec(all))
}

fn make_body(
    alloc: Global,
    desc: &MethodDesc,
    is_static: bool,
    pool: &[PoolEntry],
    info: &CodeInfo,
    code: &[Placed],
    places: &Places,
) -> Result<Option<Body>, AllocError>
    requires few { length code.now ≤ 65535 }
    requires places { places.now ≡ pcs_of code.now }
    ensures made { IfOk result (λ b. b ≡ body_of desc.now is_static pool.now info.now code.now) }
    ensures small { info.now.max_locals ≤ 65535 × info.now.max_stack ≤ 65535 }
{
    let locals = info.max_locals as usize;
    let max_stack = info.max_stack as usize;
    let slots = entry_slots(alloc, desc.params.as_slice(), is_static)?;
    if slots.len() > locals {
        return Ok(None);
    }
    let table = info.table.as_slice();
    let Some(catchers) = catchers_of(alloc, pool, places, info.code.as_slice().len(), table)? else {
        return Ok(None);
    };
    Ok(Some(Body {
        params: entry_numbers(alloc, desc, is_static)?,
        entry: padded(slots, locals)?,
        max_stack,
        returns: match &desc.ret {
            Some(ret) => Some(ret.kind),
            None => None,
        },
        steps: steps_of(alloc, pool, places, code)?,
        catchers: Items::from_vec(catchers.into_vec()),
    }))
}

/// The body of a method, whose places these are. None where its parameters don't fit into its locals, or where an
/// entry of its exception table is none.
pub fn body_of(
    alloc: Global,
    desc: &MethodDesc,
    is_static: bool,
    pool: &[PoolEntry],
    info: &CodeInfo,
    code: &[Placed],
    places: &Places,
) -> Result<Option<Body>, AllocError>
    requires few { length code.now ≤ 65535 }
    requires places { places.now ≡ pcs_of code.now }
    ensures value { IfOk result (λ b. b ≡ body_of desc.now is_static pool.now info.now code.now) }
    ensures made { IfOk result (λ o. IfSome o (λ b. IsMade b places.now)) }
{
    match make_body(alloc, desc, is_static, pool, info, code, places)? {
        Some(body) => Ok(Some(body)),
        None => Ok(None),
    }
}
