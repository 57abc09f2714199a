//! What an instruction does (JVMS 6.5).

ghost use Rattle.std.specs.Prelude.{◌≡◌, IfOk, option_map};
ghost use Rattle.wf_opcode.specs.Instructions.{place_of};
ghost use Rattle.wf_operation.specs.declared.next.Next.TheVariants.{Branches, Jumps, Switches};
ghost use Rattle.wf_operation.specs.Operations.{effect_of, next_of, operation_of, link_of, gives_value};

use crate::effect::Effect;
use crate::next::{Next, Test};
use crate::sort::{Sort, sort_of};
use crate::stack::{acting_effect, place_of};
use std::alloc::{AllocError, Global};
use wf_base::Items;
use wf_data::{Instr, PoolEntry};

/// What an instruction does, as far as its operands and the pool say.
#[derive(Debug, Drop)]
pub struct Operation {
    pub sort: Sort,
    pub effect: Effect,
    pub next: Next,
}

/// What it means for the places behind an instruction that what it names is resolved, or isn't.
#[derive(Clone, Copy, Debug, PartialEq, Eq)]
pub enum Link {
    /// It goes on where it names nothing or what it names is resolved, and else it throws.
    Plain,
    /// It goes on where the method that it calls returns.
    Calls,
    /// It goes on where what it names is resolved, and for null also where it isn't.
    Tests,
}

fn effect_of(
    alloc: Global,
    pool: &[PoolEntry],
    instr: &Instr,
    sort: Sort,
) -> Result<Option<Effect>, AllocError>
    ensures { IfOk result (λ e. e ≡ effect_of pool.now instr.now sort) }
{
    match sort {
        Sort::Load(kind) => Ok(match place_of(instr.a) {
            Some(local) => Some(Effect::Loads { kind, local }),
            None => None,
        }),
        Sort::Store(kind) => Ok(match place_of(instr.a) {
            Some(local) => Some(Effect::Stores { kind, local }),
            None => None,
        }),
        Sort::Increment => Ok(match place_of(instr.a) {
            Some(local) => Some(Effect::Increments { local }),
            None => None,
        }),
        Sort::Shuffle(shuffle) => Ok(Some(Effect::Shuffles { shuffle })),
        _ => acting_effect(alloc, pool, instr, sort),
    }
}

fn branches(test: Test, instr: &Instr) -> Option<Next>
    ensures { result ≡ option_map (Branches test) (place_of instr.now.a) }
{
    Some(Next::Branches {
        test,
        target: place_of(instr.a)?,
    })
}

fn switches(alloc: Global, instr: &Instr) -> Result<Option<Next>, AllocError>
    ensures { IfOk result (λ n. n ≡ option_map (Switches instr.now.cases) (place_of instr.now.a)) }
{
    let Some(default) = place_of(instr.a) else {
        return Ok(None);
    };
    let cases = Vec::from_slice(alloc, instr.cases.as_slice())?;
    Ok(Some(Next::Switches {
        cases: Items::from_vec(cases),
        default,
    }))
}

fn jumps(instr: &Instr) -> Option<Next>
    ensures { result ≡ option_map Jumps (place_of instr.now.a) }
{
    Some(Next::Jumps {
        target: place_of(instr.a)?,
    })
}

fn next_of(alloc: Global, instr: &Instr, sort: Sort) -> Result<Option<Next>, AllocError>
    ensures { IfOk result (λ n. n ≡ next_of instr.now sort) }
{
    match sort {
        Sort::CompareToZero(cmp) => Ok(branches(Test::ToZero(cmp), instr)),
        Sort::CompareInts(cmp) => Ok(branches(Test::Ints(cmp), instr)),
        Sort::CompareRefs(equality) => Ok(branches(Test::Refs(equality), instr)),
        Sort::CompareToNull(equality) => Ok(branches(Test::ToNull(equality), instr)),
        Sort::Jump => Ok(jumps(instr)),
        Sort::Switch => switches(alloc, instr),
        Sort::Return(kind) => Ok(Some(Next::Returns { kind: Some(kind) })),
        Sort::ReturnNothing => Ok(Some(Next::Returns { kind: None })),
        Sort::Throw => Ok(Some(Next::Throws)),
        _ => Ok(Some(Next::Falls)),
    }
}

/// What an instruction does, or None where an operand is wrong: the pool has an entry of another sort than the
/// instruction needs, a descriptor that is none or has a kind that isn't followed, a class of a wrong number
/// of dimensions, or a local or a place isn't a number of two bytes.
pub fn operation_of(
    alloc: Global,
    pool: &[PoolEntry],
    instr: &Instr,
) -> Result<Option<Operation>, AllocError>
    ensures { IfOk result (λ o. o ≡ operation_of pool.now instr.now) }
{
    let Some(sort) = sort_of(instr.op) else {
        return Ok(None);
    };
    let Some(effect) = effect_of(alloc, pool, instr, sort)? else {
        return Ok(None);
    };
    let Some(next) = next_of(alloc, instr, sort)? else {
        return Ok(None);
    };
    Ok(Some(Operation { sort, effect, next }))
}

/// What a failing resolution means behind an instruction of a sort.
pub fn link_of(sort: Sort) -> Link
    ensures { result ≡ link_of sort }
{
    match sort {
        Sort::Invoke(_) => Link::Calls,
        Sort::Cast | Sort::InstanceOf => Link::Tests,
        _ => Link::Plain,
    }
}

/// Whether an instruction gives a value that wasn't there before.
pub fn gives_value(operation: &Operation) -> bool
    ensures { result ≡ gives_value operation.now }
{
    match &operation.effect {
        Effect::Acts { gives, .. } => !gives.is_empty(),
        Effect::Increments { .. } => true,
        Effect::Loads { .. } | Effect::Stores { .. } | Effect::Shuffles { .. } => false,
    }
}
