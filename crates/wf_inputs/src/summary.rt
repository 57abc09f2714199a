use wf_base::{Items, Text};
use wf_names::MemberName;

/// What is said of native and replaced methods and of literals (own rule).
#[derive(Debug, Drop)]
pub struct Summary {
    pub blocks: Items<Block>,
    pub literals: Items<Literal>,
}

/// What is said of one method. It does any finite number of its makes, writes and copies, in any order. Then it returns
/// one of its `returns` values, or throws an object that it made or that exists. Without a `returns` line it doesn't
/// return.
#[derive(Debug, Drop)]
pub struct Block {
    /// The number of the line that begins the block, counted from 1.
    pub line: u32,
    /// Whether the block stands for a body. Else its method is native.
    pub replace: bool,
    pub method: MemberName,
    pub effects: Items<EffectLine>,
}

/// An effect at its line, counted from 1.
#[derive(Debug, Drop)]
pub struct EffectLine {
    pub line: u32,
    pub effect: Effect,
}

/// Something that a method may do.
#[derive(Debug, Drop)]
pub enum Effect {
    ReturnsVoid,
    Returns(Value),
    /// It makes objects of this type. No initializer runs.
    Makes(Text),
    /// It writes the value to the field.
    Writes(MemberName, Value),
    /// It copies elements of the array that is the first argument to the array that is the second. The receiver is
    /// argument 0, and each parameter counts one.
    Copies(u8, u8),
}

/// What is returned or written.
#[derive(Debug, Drop)]
pub enum Value {
    Null,
    /// Any int or long, and for a reference null or any object.
    Any,
    Int(i32),
    /// A new object with zero fields, or a new array of any length of zeros.
    New(Text),
    /// Null, or an object that exists and is under the type.
    OneOf(Text),
    /// The argument at this place, where the receiver is 0 and each parameter counts one.
    Arg(u8),
}

/// What a field of each new literal may hold.
#[derive(Debug, Drop)]
pub struct Literal {
    /// The number of the line, counted from 1.
    pub line: u32,
    pub field: MemberName,
    pub value: Value,
}
