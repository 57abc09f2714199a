//! Arithmetic, against what a Java program prints for the same operators. The shifts of longs there take the distance as
//! an int.

use crate::{LongResult, OpResult, int_op, long_op};
use wf_operation::{Sort, sort_of};

/// An opcode, two ints, and what it gives.
const INTS: &[(u8, i32, i32, Option<i32>)] = &[
    (0x60, 2147483647, 1, Some(-2147483648)),
    (0x60, 65536, -7, Some(65529)),
    (0x64, -2147483648, 1, Some(2147483647)),
    (0x64, 3, 10, Some(-7)),
    (0x68, 65536, 65536, Some(0)),
    (0x68, -7, 3, Some(-21)),
    (0x68, 123456789, 987654321, Some(-67153019)),
    (0x6C, 1, 0, None),
    (0x6C, -2147483648, -1, Some(-2147483648)),
    (0x6C, 7, -2, Some(-3)),
    (0x6C, -7, 2, Some(-3)),
    (0x6C, -7, -2, Some(3)),
    (0x70, 1, 0, None),
    (0x70, -2147483648, -1, Some(0)),
    (0x70, 7, -2, Some(1)),
    (0x70, -7, 2, Some(-1)),
    (0x70, -7, -2, Some(-1)),
    (0x74, 5, 9, Some(-5)),
    (0x74, -2147483648, 0, Some(-2147483648)),
    (0x78, 1, 33, Some(2)),
    (0x78, 3, 31, Some(-2147483648)),
    (0x78, 1, -1, Some(-2147483648)),
    (0x7A, -256, 33, Some(-128)),
    (0x7A, -1, 31, Some(-1)),
    (0x7A, -2147483648, 4, Some(-134217728)),
    (0x7C, -256, 33, Some(2147483520)),
    (0x7C, -1, 28, Some(15)),
    (0x7C, -1, 32, Some(-1)),
    (0x7C, -2147483648, -1, Some(1)),
    (0x7E, -256, 4095, Some(3840)),
    (0x80, -256, 15, Some(-241)),
    (0x82, -1, 15, Some(-16)),
    (0x82, -2147483648, 2147483647, Some(-1)),
];

/// An opcode, two longs, and what it gives.
const LONGS: &[(u8, i64, i64, Option<i64>)] = &[
    (0x61, 9223372036854775807, 1, Some(-9223372036854775808)),
    (0x61, 4294967296, -7, Some(4294967289)),
    (0x65, -9223372036854775808, 1, Some(9223372036854775807)),
    (0x69, 4294967296, 4294967296, Some(0)),
    (0x69, -7, 3, Some(-21)),
    (0x69, 123456789012, 987654321098, Some(-347190634250006584)),
    (0x6D, 1, 0, None),
    (0x6D, -9223372036854775808, -1, Some(-9223372036854775808)),
    (0x6D, -7, 2, Some(-3)),
    (0x71, 1, 0, None),
    (0x71, -9223372036854775808, -1, Some(0)),
    (0x71, -7, 2, Some(-1)),
    (0x71, 7, -2, Some(1)),
    (0x75, 5, 9, Some(-5)),
    (0x75, -9223372036854775808, 0, Some(-9223372036854775808)),
    (0x79, 1, 33, Some(8589934592)),
    (0x79, 1, 65, Some(2)),
    (0x79, 1, -1, Some(-9223372036854775808)),
    (0x7B, -256, 65, Some(-128)),
    (0x7B, -9223372036854775808, 4, Some(-576460752303423488)),
    (0x7D, -256, 65, Some(9223372036854775680)),
    (0x7D, -1, 60, Some(15)),
    (0x7D, -1, 64, Some(-1)),
    (0x7D, -9223372036854775808, -1, Some(1)),
    (0x7F, -256, 4095, Some(3840)),
    (0x81, -256, 15, Some(-241)),
    (0x83, -1, 15, Some(-16)),
];

/// What an opcode gives that is arithmetic on ints, or else a number that no row has.
fn int_given(op: u8, a: i32, b: i32) -> Option<i32> {
    let result = match sort_of(op) {
        Some(Sort::IntArithmetic(_) | Sort::IntShift(_) | Sort::IntNegate) => int_op(op, a, b),
        _ => return Some(12345),
    };
    match result {
        OpResult::Value(value) => Some(value),
        OpResult::DivideByZero => None,
    }
}

fn long_given(op: u8, a: i64, b: i64) -> Option<i64> {
    let result = match sort_of(op) {
        Some(Sort::LongArithmetic(_) | Sort::LongShift(_) | Sort::LongNegate) => long_op(op, a, b),
        _ => return Some(12345),
    };
    match result {
        LongResult::Value(value) => Some(value),
        LongResult::DivideByZero => None,
    }
}

#[test]
fn ints_are_as_in_java(rt: HostRuntime) {
    for (op, a, b, want) in INTS {
        assert!(rt; int_given(*op, *a, *b) == *want, "{op} of {a} and {b}");
    }
}

#[test]
fn longs_are_as_in_java(rt: HostRuntime) {
    for (op, a, b, want) in LONGS {
        assert!(rt; long_given(*op, *a, *b) == *want, "{op} of {a} and {b}");
    }
}
