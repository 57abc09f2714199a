//! What instructions do that name nothing in the constant pool.

ghost use Rattle.std.specs.Prelude.{◌≡◌};
ghost use Rattle.wf_rows.specs.Actions.{arithmetic_of, load_of, store_of, computation_of, control_action, plain_action};

use crate::action::{Action, ArrayUse, Computation};
use wf_operation::{Arithmetic, Element, Sort};

fn arithmetic_of(op: Arithmetic, any: Computation, quotient: Computation) -> Computation
    ensures { result ≡ arithmetic_of op any quotient }
{
    match op {
        Arithmetic::Divide | Arithmetic::Remainder => quotient,
        Arithmetic::Add
        | Arithmetic::Subtract
        | Arithmetic::Multiply
        | Arithmetic::And
        | Arithmetic::Or
        | Arithmetic::Xor => any,
    }
}

fn load_of(element: Element) -> ArrayUse
    ensures { result ≡ load_of element }
{
    match element {
        Element::Long => ArrayUse::LoadLong,
        Element::Ref => ArrayUse::LoadRef,
        Element::Int | Element::Byte | Element::Char | Element::Short => ArrayUse::LoadInt,
    }
}

fn store_of(element: Element) -> ArrayUse
    ensures { result ≡ store_of element }
{
    match element {
        Element::Ref => ArrayUse::StoreRef,
        Element::Int | Element::Long | Element::Byte | Element::Char | Element::Short => {
            ArrayUse::StoreNumber
        }
    }
}

fn computation_of(sort: Sort, a: i32) -> Option<Computation>
    ensures { result ≡ computation_of sort a }
{
    match sort {
        Sort::NullConstant => Some(Computation::Null),
        Sort::IntConstant => Some(Computation::Int(a)),
        Sort::IntArithmetic(op) => {
            Some(arithmetic_of(op, Computation::AnyInt, Computation::IntQuotient))
        }
        Sort::LongArithmetic(op) => {
            Some(arithmetic_of(op, Computation::AnyLong, Computation::LongQuotient))
        }
        Sort::IntShift(_)
        | Sort::IntNegate
        | Sort::Increment
        | Sort::LongToInt
        | Sort::Narrow(_)
        | Sort::CompareLongs => Some(Computation::AnyInt),
        Sort::LongConstant
        | Sort::PoolLong
        | Sort::LongShift(_)
        | Sort::LongNegate
        | Sort::IntToLong => Some(Computation::AnyLong),
        _ => None,
    }
}

fn control_action(sort: Sort) -> Option<Action>
    ensures { result ≡ control_action sort }
{
    match sort {
        Sort::Nothing
        | Sort::Load(_)
        | Sort::Store(_)
        | Sort::Shuffle(_)
        | Sort::CompareToZero(_)
        | Sort::CompareInts(_)
        | Sort::CompareRefs(_)
        | Sort::CompareToNull(_)
        | Sort::Jump
        | Sort::Switch => Some(Action::Moves),
        Sort::ArrayLoad(element) => Some(Action::Array(load_of(element))),
        Sort::ArrayStore(element) => Some(Action::Array(store_of(element))),
        Sort::ArrayLength => Some(Action::Array(ArrayUse::Length)),
        Sort::Return(kind) => Some(Action::Returns(Some(kind))),
        Sort::ReturnNothing => Some(Action::Returns(None)),
        Sort::Throw => Some(Action::Throws),
        Sort::EnterMonitor | Sort::ExitMonitor => Some(Action::Monitors),
        _ => None,
    }
}

/// What an instruction of this sort does, where it names nothing that has to be resolved. `a` is the number in
/// it.
pub fn plain_action(sort: Sort, a: i32) -> Option<Action>
    ensures { result ≡ plain_action sort a }
{
    match computation_of(sort, a) {
        Some(computation) => Some(Action::Computes(computation)),
        None => control_action(sort),
    }
}
