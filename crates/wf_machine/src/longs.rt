//! Java's arithmetic on longs (JVMS 2.11.3, 2.11.4, 6.5).

ghost use Rattle.std.specs.Prelude.{◌≡◌, IsTrue};
ghost use Rattle.std.specs.Int.{w64};
ghost use Rattle.wf_operation.specs.Sorts.{sort_of};
ghost use Rattle.wf_machine.specs.Arithmetic.{combined, shifted, long_of, is_on_longs, long_op_value};

use wf_operation::{Arithmetic, Shift, Sort, sort_of};

/// What an operation on two longs gives.
#[derive(Clone, Copy, Debug, PartialEq, Eq)]
pub enum LongResult {
    Value(i64),
    /// A quotient or a remainder by 0 has no value.
    DivideByZero,
}

fn combine(operation: Arithmetic, a: i64, b: i64) -> LongResult
    ensures { long_of result ≡ combined w64 operation a b }
{
    match operation {
        Arithmetic::Add => LongResult::Value(a.wrapping_add(b)),
        Arithmetic::Subtract => LongResult::Value(a.wrapping_sub(b)),
        Arithmetic::Multiply => LongResult::Value(a.wrapping_mul(b)),
        Arithmetic::Divide | Arithmetic::Remainder if b == 0 => LongResult::DivideByZero,
        Arithmetic::Divide => LongResult::Value(a.wrapping_div(b)),
        Arithmetic::Remainder => LongResult::Value(a.wrapping_rem(b)),
        Arithmetic::And => LongResult::Value(a & b),
        Arithmetic::Or => LongResult::Value(a | b),
        Arithmetic::Xor => LongResult::Value(a ^ b),
    }
}

fn shift(shift: Shift, a: i64, b: i64) -> i64
    ensures { result ≡ shifted w64 shift a b }
{
    let distance = b.cast_unsigned() % 64;
    match shift {
        Shift::Left => a << distance,
        Shift::Right => a >> distance,
        Shift::RightUnsigned => (a.cast_unsigned() >> distance).cast_signed(),
    }
}

/// What the instruction with the opcode gives for `a` below `b` on the stack: `ladd` to `lrem`, `lneg`, the shifts, and `land` to `lxor`
/// (JVMS 6.5). A negation doesn't look at `b`. Of the distance of a shift, which is an int there, the low six
/// bits count, so it may be widened.
pub fn long_op(op: u8, a: i64, b: i64) -> LongResult
    requires { IsTrue (is_on_longs (sort_of op)) }
    ensures { long_of result ≡ long_op_value (sort_of op) a b }
{
    match sort_of(op) {
        Some(Sort::LongArithmetic(operation)) => combine(operation, a, b),
        Some(Sort::LongShift(by)) => LongResult::Value(shift(by, a, b)),
        Some(Sort::LongNegate) => LongResult::Value(a.wrapping_neg()),
        _ => unreachable!(),
    }
}
