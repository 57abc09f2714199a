//! The numbers of what lines name, so that no name is looked up again.

use wf_base::{ClassId, FieldId, Items, MethodId, TargetId, TypeId};

/// The numbers of a summary, in the order of its lines.
#[derive(Debug, Drop)]
pub struct SummaryNumbers {
    pub blocks: Items<BlockNumbers>,
    pub literals: Items<LiteralNumbers>,
}

/// What is said of one method.
#[derive(Debug, Drop)]
pub struct BlockNumbers {
    pub method: MethodId,
    /// Whether the block stands for a body. Else its method is native.
    pub replace: bool,
    pub effects: Items<EffectNumbers>,
}

/// Something that a method may do.
#[derive(Clone, Copy, Debug)]
pub enum EffectNumbers {
    ReturnsVoid,
    Returns(ValueNumbers),
    Makes(TypeId),
    Writes(FieldId, ValueNumbers),
    /// Elements of the array that is the first argument go to the array that is the second.
    Copies(u8, u8),
}

/// What is returned or written.
#[derive(Clone, Copy, Debug)]
pub enum ValueNumbers {
    Null,
    AnyInt,
    AnyLong,
    Int(i32),
    /// A new object of the type.
    New(TypeId),
    /// Null, or an object that exists and is under the class or array.
    Under(TargetId),
    /// The argument at this place, where the receiver is 0 and each parameter counts one.
    Arg(u8),
}

/// What a field of each new literal may hold.
#[derive(Clone, Copy, Debug)]
pub struct LiteralNumbers {
    pub field: FieldId,
    pub value: ValueNumbers,
}

/// A root.
#[derive(Clone, Copy, Debug, PartialEq, Eq, PartialOrd, Ord)]
pub enum RootNumbers {
    StaticCall(MethodId),
    Inst(TypeId),
    Make {
        class: ClassId,
        made: TypeId,
        constructor: MethodId,
    },
}
