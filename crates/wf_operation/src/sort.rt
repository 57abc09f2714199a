//! The sorts of instructions (JVMS 6.5): one for each opcode that an instruction in its long form has and that
//! no method is refused for.

ghost use Rattle.std.specs.Prelude.{◌≡◌};
ghost use Rattle.wf_operation.specs.Sorts.{constant_or_load, store_or_shuffle, arithmetic_sort, shift_or_conversion, control, object, sort_of, kind_of_element};

use wf_base::{Cmp, Kind};

/// An operation on two numbers of one type.
#[derive(Clone, Copy, Debug, PartialEq, Eq)]
pub enum Arithmetic {
    Add,
    Subtract,
    Multiply,
    Divide,
    Remainder,
    And,
    Or,
    Xor,
}

/// A shift of a number by an int.
#[derive(Clone, Copy, Debug, PartialEq, Eq)]
pub enum Shift {
    Left,
    Right,
    RightUnsigned,
}

/// What an int is cut to.
#[derive(Clone, Copy, Debug, PartialEq, Eq)]
pub enum Narrow {
    Byte,
    Char,
    Short,
}

/// An instruction that only moves slots of the stack.
#[derive(Clone, Copy, Debug, PartialEq, Eq)]
pub enum Shuffle {
    Pop,
    Pop2,
    Dup,
    DupX1,
    DupX2,
    Dup2,
    Dup2X1,
    Dup2X2,
    Swap,
}

/// What the elements of an array are to an instruction that reads or writes one. `Byte` is of bytes and of
/// booleans.
#[derive(Clone, Copy, Debug, PartialEq, Eq)]
pub enum Element {
    Int,
    Long,
    Ref,
    Byte,
    Char,
    Short,
}

/// Whether references have to be the same.
#[derive(Clone, Copy, Debug, PartialEq, Eq)]
pub enum Equality {
    Same,
    Different,
}

/// How a method is called.
#[derive(Clone, Copy, Debug, PartialEq, Eq)]
pub enum Call {
    Virtual,
    Special,
    Static,
    Interface,
}

/// The sort of an instruction (JVMS 6.5). What its operands say stands in the instruction.
#[derive(Clone, Copy, Debug, PartialEq, Eq)]
pub enum Sort {
    /// `nop`.
    Nothing,
    NullConstant,
    /// An int in `a`.
    IntConstant,
    /// `lconst_0` and `lconst_1`.
    LongConstant,
    /// `ldc`: an int, a string or a class in the pool.
    PoolConstant,
    /// `ldc2_w`: a long in the pool.
    PoolLong,
    /// Of a local in `a`.
    Load(Kind),
    /// To a local in `a`.
    Store(Kind),
    ArrayLoad(Element),
    ArrayStore(Element),
    Shuffle(Shuffle),
    IntArithmetic(Arithmetic),
    LongArithmetic(Arithmetic),
    IntShift(Shift),
    LongShift(Shift),
    IntNegate,
    LongNegate,
    /// `iinc`, of a local in `a`.
    Increment,
    IntToLong,
    LongToInt,
    Narrow(Narrow),
    /// `lcmp`.
    CompareLongs,
    CompareToZero(Cmp),
    CompareInts(Cmp),
    CompareRefs(Equality),
    CompareToNull(Equality),
    /// To the place in `a`.
    Jump,
    /// To the place of the first equal key, else to the one in `a`.
    Switch,
    Return(Kind),
    ReturnNothing,
    GetStatic,
    PutStatic,
    GetField,
    PutField,
    Invoke(Call),
    New,
    /// `newarray`, of the primitive type whose code is in `a`.
    NewArray,
    /// `anewarray`.
    NewRefArray,
    /// `multianewarray`, with `b` lengths.
    NewManyArray,
    ArrayLength,
    Throw,
    Cast,
    InstanceOf,
    EnterMonitor,
    ExitMonitor,
}

fn constant_or_load(op: u8) -> Option<Sort>
    ensures { result ≡ constant_or_load op }
{
    match op {
        0x00 => Some(Sort::Nothing),
        0x01 => Some(Sort::NullConstant),
        0x09 => Some(Sort::LongConstant),
        0x10 | 0x11 => Some(Sort::IntConstant),
        0x12 => Some(Sort::PoolConstant),
        0x14 => Some(Sort::PoolLong),
        0x15 => Some(Sort::Load(Kind::Int)),
        0x16 => Some(Sort::Load(Kind::Long)),
        0x19 => Some(Sort::Load(Kind::Ref)),
        0x2E => Some(Sort::ArrayLoad(Element::Int)),
        0x2F => Some(Sort::ArrayLoad(Element::Long)),
        0x32 => Some(Sort::ArrayLoad(Element::Ref)),
        0x33 => Some(Sort::ArrayLoad(Element::Byte)),
        0x34 => Some(Sort::ArrayLoad(Element::Char)),
        0x35 => Some(Sort::ArrayLoad(Element::Short)),
        _ => None,
    }
}

fn store_or_shuffle(op: u8) -> Option<Sort>
    ensures { result ≡ store_or_shuffle op }
{
    match op {
        0x36 => Some(Sort::Store(Kind::Int)),
        0x37 => Some(Sort::Store(Kind::Long)),
        0x3A => Some(Sort::Store(Kind::Ref)),
        0x4F => Some(Sort::ArrayStore(Element::Int)),
        0x50 => Some(Sort::ArrayStore(Element::Long)),
        0x53 => Some(Sort::ArrayStore(Element::Ref)),
        0x54 => Some(Sort::ArrayStore(Element::Byte)),
        0x55 => Some(Sort::ArrayStore(Element::Char)),
        0x56 => Some(Sort::ArrayStore(Element::Short)),
        0x57 => Some(Sort::Shuffle(Shuffle::Pop)),
        0x58 => Some(Sort::Shuffle(Shuffle::Pop2)),
        0x59 => Some(Sort::Shuffle(Shuffle::Dup)),
        0x5A => Some(Sort::Shuffle(Shuffle::DupX1)),
        0x5B => Some(Sort::Shuffle(Shuffle::DupX2)),
        0x5C => Some(Sort::Shuffle(Shuffle::Dup2)),
        0x5D => Some(Sort::Shuffle(Shuffle::Dup2X1)),
        0x5E => Some(Sort::Shuffle(Shuffle::Dup2X2)),
        0x5F => Some(Sort::Shuffle(Shuffle::Swap)),
        _ => None,
    }
}

fn arithmetic_sort(op: u8) -> Option<Sort>
    ensures { result ≡ arithmetic_sort op }
{
    match op {
        0x60 => Some(Sort::IntArithmetic(Arithmetic::Add)),
        0x61 => Some(Sort::LongArithmetic(Arithmetic::Add)),
        0x64 => Some(Sort::IntArithmetic(Arithmetic::Subtract)),
        0x65 => Some(Sort::LongArithmetic(Arithmetic::Subtract)),
        0x68 => Some(Sort::IntArithmetic(Arithmetic::Multiply)),
        0x69 => Some(Sort::LongArithmetic(Arithmetic::Multiply)),
        0x6C => Some(Sort::IntArithmetic(Arithmetic::Divide)),
        0x6D => Some(Sort::LongArithmetic(Arithmetic::Divide)),
        0x70 => Some(Sort::IntArithmetic(Arithmetic::Remainder)),
        0x71 => Some(Sort::LongArithmetic(Arithmetic::Remainder)),
        0x74 => Some(Sort::IntNegate),
        0x75 => Some(Sort::LongNegate),
        0x7E => Some(Sort::IntArithmetic(Arithmetic::And)),
        0x7F => Some(Sort::LongArithmetic(Arithmetic::And)),
        0x80 => Some(Sort::IntArithmetic(Arithmetic::Or)),
        0x81 => Some(Sort::LongArithmetic(Arithmetic::Or)),
        0x82 => Some(Sort::IntArithmetic(Arithmetic::Xor)),
        0x83 => Some(Sort::LongArithmetic(Arithmetic::Xor)),
        _ => None,
    }
}

fn shift_or_conversion(op: u8) -> Option<Sort>
    ensures { result ≡ shift_or_conversion op }
{
    match op {
        0x78 => Some(Sort::IntShift(Shift::Left)),
        0x79 => Some(Sort::LongShift(Shift::Left)),
        0x7A => Some(Sort::IntShift(Shift::Right)),
        0x7B => Some(Sort::LongShift(Shift::Right)),
        0x7C => Some(Sort::IntShift(Shift::RightUnsigned)),
        0x7D => Some(Sort::LongShift(Shift::RightUnsigned)),
        0x84 => Some(Sort::Increment),
        0x85 => Some(Sort::IntToLong),
        0x88 => Some(Sort::LongToInt),
        0x91 => Some(Sort::Narrow(Narrow::Byte)),
        0x92 => Some(Sort::Narrow(Narrow::Char)),
        0x93 => Some(Sort::Narrow(Narrow::Short)),
        0x94 => Some(Sort::CompareLongs),
        _ => None,
    }
}

fn control(op: u8) -> Option<Sort>
    ensures { result ≡ control op }
{
    match op {
        0x99 => Some(Sort::CompareToZero(Cmp::Eq)),
        0x9A => Some(Sort::CompareToZero(Cmp::Ne)),
        0x9B => Some(Sort::CompareToZero(Cmp::Lt)),
        0x9C => Some(Sort::CompareToZero(Cmp::Ge)),
        0x9D => Some(Sort::CompareToZero(Cmp::Gt)),
        0x9E => Some(Sort::CompareToZero(Cmp::Le)),
        0x9F => Some(Sort::CompareInts(Cmp::Eq)),
        0xA0 => Some(Sort::CompareInts(Cmp::Ne)),
        0xA1 => Some(Sort::CompareInts(Cmp::Lt)),
        0xA2 => Some(Sort::CompareInts(Cmp::Ge)),
        0xA3 => Some(Sort::CompareInts(Cmp::Gt)),
        0xA4 => Some(Sort::CompareInts(Cmp::Le)),
        0xA5 => Some(Sort::CompareRefs(Equality::Same)),
        0xA6 => Some(Sort::CompareRefs(Equality::Different)),
        0xA7 => Some(Sort::Jump),
        0xAB => Some(Sort::Switch),
        0xAC => Some(Sort::Return(Kind::Int)),
        0xAD => Some(Sort::Return(Kind::Long)),
        0xB0 => Some(Sort::Return(Kind::Ref)),
        0xB1 => Some(Sort::ReturnNothing),
        _ => None,
    }
}

fn object(op: u8) -> Option<Sort>
    ensures { result ≡ object op }
{
    match op {
        0xB2 => Some(Sort::GetStatic),
        0xB3 => Some(Sort::PutStatic),
        0xB4 => Some(Sort::GetField),
        0xB5 => Some(Sort::PutField),
        0xB6 => Some(Sort::Invoke(Call::Virtual)),
        0xB7 => Some(Sort::Invoke(Call::Special)),
        0xB8 => Some(Sort::Invoke(Call::Static)),
        0xB9 => Some(Sort::Invoke(Call::Interface)),
        0xBB => Some(Sort::New),
        0xBC => Some(Sort::NewArray),
        0xBD => Some(Sort::NewRefArray),
        0xBE => Some(Sort::ArrayLength),
        0xBF => Some(Sort::Throw),
        0xC0 => Some(Sort::Cast),
        0xC1 => Some(Sort::InstanceOf),
        0xC2 => Some(Sort::EnterMonitor),
        0xC3 => Some(Sort::ExitMonitor),
        0xC5 => Some(Sort::NewManyArray),
        0xC6 => Some(Sort::CompareToNull(Equality::Same)),
        0xC7 => Some(Sort::CompareToNull(Equality::Different)),
        _ => None,
    }
}

/// The sort of the opcode of a long form. Short forms, opcodes that a method is refused for, and bytes that
/// are no opcode have none.
pub fn sort_of(op: u8) -> Option<Sort>
    ensures { result ≡ sort_of op }
{
    match op {
        0x00..=0x35 => constant_or_load(op),
        0x36..=0x5F => store_or_shuffle(op),
        0x60..=0x77 => arithmetic_sort(op),
        0x78..=0x7D => shift_or_conversion(op),
        0x7E..=0x83 => arithmetic_sort(op),
        0x84..=0x98 => shift_or_conversion(op),
        0x99..=0xB1 => control(op),
        _ => object(op),
    }
}

/// The kind of the elements.
pub fn kind_of_element(element: Element) -> Kind
    ensures { result ≡ kind_of_element element }
{
    match element {
        Element::Long => Kind::Long,
        Element::Ref => Kind::Ref,
        Element::Int | Element::Byte | Element::Char | Element::Short => Kind::Int,
    }
}
