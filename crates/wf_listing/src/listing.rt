//! What the lines of a listing say, before places in pools and in codes are known.

use wf_base::{Items, Text};
use wf_names::MemberName;

/// What the lines of a listing say that are of the form, and the first line that isn't, counted from 1.
#[derive(Debug, Drop)]
pub struct Listing {
    pub classes: Items<Listed>,
    pub first_bad: Option<u32>,
}

/// A class.
#[derive(Debug, Drop)]
pub struct Listed {
    /// The line that begins it.
    pub line: u32,
    pub flags: u16,
    pub name: Text,
    pub superclass: Option<Text>,
    pub interfaces: Items<Text>,
    pub fields: Items<ListedField>,
    pub methods: Items<ListedMethod>,
}

#[derive(Debug, Drop)]
pub struct ListedField {
    pub flags: u16,
    pub name: Text,
    pub desc: Text,
    pub constant: Option<i32>,
}

#[derive(Debug, Drop)]
pub struct ListedMethod {
    pub flags: u16,
    pub name: Text,
    pub desc: Text,
    /// None for a native or abstract method alone.
    pub body: Option<Items<Statement>>,
}

/// A line of a body, with its number.
#[derive(Debug, Drop)]
pub struct Statement {
    pub line: u32,
    pub says: Item,
}

#[derive(Debug, Drop)]
pub enum Item {
    Label(Text),
    Step(Step),
    Catch(ListedCatch),
}

/// An entry of the exception table, by its labels.
#[derive(Debug, Drop)]
pub struct ListedCatch {
    pub from: Text,
    pub to: Text,
    pub handler: Text,
    /// None where everything is caught.
    pub class: Option<Text>,
}

/// An instruction, by what its bytes depend on.
#[derive(Debug, Drop)]
pub enum Step {
    /// These bytes, wherever they stand.
    Fixed(Text),
    /// An opcode, and how far the label is away, in two bytes.
    Jump(u8, Text),
    /// The same in four bytes.
    FarJump(u8, Text),
    Table(ListedTable),
    Lookup(ListedLookup),
    Use(Use),
    /// `ldc` of a constant that takes one place: it has one byte for the place where that is enough.
    Load(Constant),
}

/// An opcode, the place of a constant in two bytes, and further bytes.
#[derive(Debug, Drop)]
pub struct Use {
    pub op: u8,
    pub constant: Constant,
    pub rest: Text,
}

/// A `tableswitch`: the least key, a label for each key from there on, and the label for all others.
#[derive(Debug, Drop)]
pub struct ListedTable {
    pub low: i32,
    pub targets: Items<Text>,
    pub default: Text,
}

/// A `lookupswitch`.
#[derive(Debug, Drop)]
pub struct ListedLookup {
    pub cases: Items<ListedCase>,
    pub default: Text,
}

#[derive(Debug, Drop)]
pub struct ListedCase {
    pub key: i32,
    pub target: Text,
}

/// What stands at one place of a pool, by the names that it stands for (JVMS 4.4).
#[derive(Debug, Drop, PartialEq, Eq, Hash)]
pub enum Constant {
    Text(Text),
    Class(Text),
    Str(Text),
    Int(i32),
    Long(i64),
    /// The unusable place behind a Long.
    Behind(i64),
    NameType(Text, Text),
    Field(MemberName),
    Method(MemberName),
    InterfaceMethod(MemberName),
}

/// What a line of a listing says.
#[derive(Debug, Drop)]
pub enum Said {
    /// A class, as yet without fields and methods.
    Class(Listed),
    Field(ListedField),
    /// A method; where it has a body, the body is still empty.
    Method(ListedMethod),
    /// A line of a body.
    Body(Item),
    End,
}

/// Which lines may come next.
#[derive(Debug, Drop)]
pub enum Open {
    /// A class alone.
    Nothing,
    /// A field or a method of this class, or the next class.
    Class(Listed),
    /// The next statement behind these, of this method of this class, or its end.
    Body(Listed, ListedMethod, Items<Statement>),
}

/// The classes that have ended, what is open, and the first line that isn't of the form.
#[derive(Debug, Drop)]
pub struct ReadSoFar {
    pub classes: Items<Listed>,
    pub place: Open,
    pub first_bad: Option<u32>,
}
