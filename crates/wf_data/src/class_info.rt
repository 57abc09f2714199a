use wf_base::{Items, Text};

/// What is kept of a class file (JVMS 4.1). Attributes other than `Code` and the `ConstantValue` of a
/// static field are not kept.
#[derive(Debug, Drop)]
pub struct ClassInfo {
    /// The class's name, with `/` between its parts.
    pub name: Text,
    /// None in `java/lang/Object` alone.
    pub superclass: Option<Text>,
    pub interfaces: Items<Text>,
    /// The access flags as they stand in the file (JVMS table 4.1-A).
    pub flags: u16,
    pub major: u16,
    /// The constant pool. Place 0, and the place behind a Long or Double, are `Unusable`.
    pub pool: Items<PoolEntry>,
    pub fields: Items<FieldInfo>,
    pub methods: Items<MethodInfo>,
}

/// An entry of the constant pool (JVMS 4.4). Numbers of type `u16` are places in the pool.
#[derive(Debug, Drop)]
pub enum PoolEntry {
    Unusable,
    Utf8(Text),
    Integer(i32),
    /// The bits of the number.
    Float(u32),
    Long(i64),
    /// The bits of the number.
    Double(u64),
    Class(u16),
    Str(u16),
    Field(u16, u16),
    Method(u16, u16),
    InterfaceMethod(u16, u16),
    NameType(u16, u16),
    Handle(u8, u16),
    MethodKind(u16),
    Dynamic(u16, u16),
}

/// A field (JVMS 4.5).
#[derive(Debug, Drop)]
pub struct FieldInfo {
    pub name: Text,
    pub desc: Text,
    pub flags: u16,
    /// The place in the pool of a static field's constant.
    pub constant: Option<u16>,
}

/// A method (JVMS 4.6).
#[derive(Debug, Drop)]
pub struct MethodInfo {
    pub name: Text,
    pub desc: Text,
    pub flags: u16,
    /// None in a native or abstract method alone.
    pub code: Option<CodeInfo>,
}

/// The code of a method (JVMS 4.7.3).
#[derive(Debug, Drop)]
pub struct CodeInfo {
    pub max_stack: u16,
    pub max_locals: u16,
    pub code: Text,
    pub table: Items<Handler>,
}

/// An entry of a method's exception table (JVMS 4.7.3). Places are in bytes from the start of the code.
#[derive(Clone, Copy, Debug)]
pub struct Handler {
    pub start: u16,
    pub end: u16,
    pub target: u16,
    /// The place in the pool of the class that is caught, or 0 for every throwable.
    pub catch_class: u16,
}
