use wf_base::{TargetId, TypeId};
use wf_system::NodeShape;

/// The meaning of a node of references: the node, that of the types that are made, and whether the value is
/// saturated.
#[derive(Clone, Copy)]
pub struct Meaning {
    pub of: NodeShape,
    pub made: NodeShape,
    pub saturated: bool,
}

/// Whose types a set has.
#[derive(Clone, Copy)]
pub enum Source {
    /// All that are made.
    Made(NodeShape),
    /// Those of a meaning.
    Meant(Meaning),
    /// Those of a value itself.
    Held(NodeShape),
}

/// Which of them are left.
#[derive(Clone, Copy)]
pub enum Mask {
    All,
    /// Those under a class.
    Under(TargetId),
    /// Those that aren't.
    NotUnder(TargetId),
    /// Those that pick a candidate at a site.
    Picking(u32, u32),
    /// Those that are in another meaning too.
    AlsoIn(Meaning),
}

/// A set of types without null, in a number of words; it is empty where nothing is there.
#[derive(Clone, Copy)]
pub struct TypeSet {
    pub there: bool,
    pub words: u32,
    pub from: Source,
    pub mask: Mask,
}

/// What is found once for all words of a target: with it each word is a few words of the sources.
#[derive(Clone, Copy)]
pub enum Plan {
    /// A word, and no more.
    First(u64),
    /// The row of a node.
    Row(NodeShape),
    /// One type.
    OneType(TypeId),
    /// One type, where it is made.
    IfMade(TypeId, NodeShape),
    /// A set of types, whether it is over the threshold, and null or not.
    Types(TypeSet, bool, bool),
    /// The candidates that types of the meaning pick at a site.
    Candidates(Meaning, u32),
    /// The elements of the array types of the meaning.
    Elements(Meaning),
}
