//! What an instruction does in the analysis, with what its operand resolves to (JVMS 6.5). Depths count the
//! slots of the operand stack from its top, which has depth 0; a long is named by its first slot.

use wf_base::{ClassId, FieldId, Items, Kind, MethodId, TargetId, TypeId};
use wf_names::LinkError;

/// What an instruction does.
#[derive(Drop)]
pub enum Action {
    /// It only moves values and control: `nop`, loads, stores, stack instructions, jumps, branches, switches.
    Moves,
    Computes(Computation),
    /// `ldc` of a string or a class.
    Literal(Result<Literal, LinkError>),
    Field(FieldUse),
    Array(ArrayUse),
    Makes(Making),
    Tests(TypeTest),
    /// `invokestatic`.
    CallsStatic(Result<StaticCall, LinkError>),
    /// Any other call: its method is selected by the receiver.
    Calls(Result<SelectedCall, LinkError>),
    /// With a value of this kind, or none.
    Returns(Option<Kind>),
    /// `athrow`.
    Throws,
    /// `monitorenter` and `monitorexit`.
    Monitors,
}

/// A constant or a number that is worked out.
#[derive(Clone, Copy, Debug, PartialEq, Eq)]
pub enum Computation {
    /// An int constant.
    Int(i32),
    Null,
    /// Int arithmetic but divisions, a conversion to an int, `iinc`, `lcmp`.
    AnyInt,
    /// A long constant, long arithmetic but divisions, `i2l`.
    AnyLong,
    /// `idiv` and `irem`.
    IntQuotient,
    /// `ldiv` and `lrem`.
    LongQuotient,
}

/// An object that a constant stands for.
#[derive(Drop)]
pub struct Literal {
    /// Its class.
    pub class: TypeId,
    /// What the summary says of fields of that class's literals, a line each.
    pub fields: Items<LiteralField>,
}

/// What the summary says of a field of literals.
#[derive(Clone, Copy)]
pub struct LiteralField {
    pub field: FieldId,
    pub value: StatedValue,
}

/// What a field of a literal may hold.
#[derive(Clone, Copy)]
pub enum StatedValue {
    Null,
    Int(i32),
    AnyInt,
    AnyLong,
    /// A new object of this type.
    New(TypeId),
    /// Null or an object under this class.
    Under(TargetId),
}

/// An instruction on a field. The stored value is of this kind.
#[derive(Drop)]
pub enum FieldUse {
    GetStatic(Result<StaticField, LinkError>),
    PutStatic(Result<StaticField, LinkError>, Kind),
    Get(Result<FieldId, LinkError>),
    Put(Result<FieldId, LinkError>, Kind),
}

/// A static field, and the class that declares it.
#[derive(Clone, Copy)]
pub struct StaticField {
    pub class: ClassId,
    pub field: FieldId,
}

/// An instruction on an array that is there.
#[derive(Clone, Copy, Debug, PartialEq, Eq)]
pub enum ArrayUse {
    /// `arraylength`.
    Length,
    /// A load of an int, byte, boolean, char or short.
    LoadInt,
    LoadLong,
    /// `aaload`.
    LoadRef,
    /// A store of an int, byte, boolean, char, short or long.
    StoreNumber,
    /// `aastore`.
    StoreRef,
}

/// An instruction that makes an object.
#[derive(Drop)]
pub enum Making {
    /// `new`.
    Object(Result<NewObject, LinkError>),
    /// `newarray` and `anewarray`, of this array type.
    Array(Result<TypeId, LinkError>),
    /// `multianewarray`.
    ManyArray(Result<ManyArray, LinkError>),
}

/// A class whose objects are made.
#[derive(Clone, Copy)]
pub struct NewObject {
    pub class: ClassId,
    /// The class as a type.
    pub made: TypeId,
}

/// The array types that a `multianewarray` makes.
#[derive(Drop)]
pub struct ManyArray {
    /// The outermost.
    pub array: TypeId,
    /// Its component type, that one's, and so on, one for each further length.
    pub components: Items<TypeId>,
}

/// A test of an object's type.
#[derive(Drop)]
pub enum TypeTest {
    /// `checkcast`.
    Cast(Result<TargetId, LinkError>),
    InstanceOf(Result<TargetId, LinkError>),
}

/// A call of a static method.
#[derive(Drop)]
pub struct StaticCall {
    /// The class that declares it.
    pub class: ClassId,
    pub method: MethodId,
    /// The depth of each argument, in order.
    pub arguments: Items<usize>,
}

/// A call of a method that is selected by the receiver's type.
#[derive(Drop)]
pub struct SelectedCall {
    /// The number of the call site.
    pub site: u32,
    /// The methods that some type selects there.
    pub candidates: Items<MethodId>,
    /// The depth of the receiver.
    pub receiver: usize,
    /// The depth of each argument but the receiver, in order.
    pub arguments: Items<usize>,
}
