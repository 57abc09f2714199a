//! Java's arithmetic on ints (JVMS 2.11.3, 2.11.4, 6.5).

ghost use Rattle.std.specs.Prelude.{◌≡◌, IsTrue};
ghost use Rattle.std.specs.Int.{w32};
ghost use Rattle.wf_operation.specs.Sorts.{sort_of};
ghost use Rattle.wf_machine.specs.Arithmetic.{combined, shifted, int_of, is_on_ints, int_op_value};

use wf_operation::{Arithmetic, Shift, Sort, sort_of};

/// What an operation on two ints gives.
#[derive(Clone, Copy, Debug, PartialEq, Eq)]
pub enum OpResult {
    Value(i32),
    /// A quotient or a remainder by 0 has no value.
    DivideByZero,
}

fn combine(operation: Arithmetic, a: i32, b: i32) -> OpResult
    ensures { int_of result ≡ combined w32 operation a b }
{
    match operation {
        Arithmetic::Add => OpResult::Value(a.wrapping_add(b)),
        Arithmetic::Subtract => OpResult::Value(a.wrapping_sub(b)),
        Arithmetic::Multiply => OpResult::Value(a.wrapping_mul(b)),
        Arithmetic::Divide | Arithmetic::Remainder if b == 0 => OpResult::DivideByZero,
        Arithmetic::Divide => OpResult::Value(a.wrapping_div(b)),
        Arithmetic::Remainder => OpResult::Value(a.wrapping_rem(b)),
        Arithmetic::And => OpResult::Value(a & b),
        Arithmetic::Or => OpResult::Value(a | b),
        Arithmetic::Xor => OpResult::Value(a ^ b),
    }
}

fn shift(shift: Shift, a: i32, b: i32) -> i32
    ensures { result ≡ shifted w32 shift a b }
{
    let distance = b.cast_unsigned() % 32;
    match shift {
        Shift::Left => a << distance,
        Shift::Right => a >> distance,
        Shift::RightUnsigned => (a.cast_unsigned() >> distance).cast_signed(),
    }
}

/// What the instruction with the opcode gives for `a` below `b` on the stack: `iadd` to `irem`, `ineg`, the shifts, and `iand` to `ixor`
/// (JVMS 6.5). A negation doesn't look at `b`.
pub fn int_op(op: u8, a: i32, b: i32) -> OpResult
    requires { IsTrue (is_on_ints (sort_of op)) }
    ensures { int_of result ≡ int_op_value (sort_of op) a b }
{
    match sort_of(op) {
        Some(Sort::IntArithmetic(operation)) => combine(operation, a, b),
        Some(Sort::IntShift(by)) => OpResult::Value(shift(by, a, b)),
        Some(Sort::IntNegate) => OpResult::Value(a.wrapping_neg()),
        _ => unreachable!(),
    }
}
