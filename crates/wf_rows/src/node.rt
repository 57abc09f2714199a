ghost use Rattle.std.specs.Prelude.{◌≡◌};
ghost use Rattle.wf_rows.specs.OfMethod.{in_method};

use wf_base::{ClassId, FieldId, MethodId, TypeId};

/// A node of the flow system, by name. `B` names those of bodies: `Own` within one body, `OwnOf` in the system
/// of a program.
#[derive(Clone, Copy, Debug, PartialEq, Eq)]
pub enum Node<B> {
    /// The types that are made.
    Inst,
    /// A token that is always set.
    Start,
    /// What no inequality raises.
    Nothing,
    /// Whether the class's initialization is requested.
    Initialized(ClassId),
    /// Whether the method is entered.
    Entered(MethodId),
    /// An argument of the method, the receiver first. A long is one.
    Parameter(MethodId, usize),
    /// What the method returns, or a token that it does.
    Returned(MethodId),
    /// What the field holds, in any object.
    Held(FieldId),
    /// Whether the field is touched.
    Touched(FieldId),
    /// The elements of all arrays of the type.
    Element(TypeId),
    /// What a copying line of the summary copies, by the line's number.
    Copied(u32),
    /// One of a body.
    In(B),
}

/// A node of one body. Places are in bytes from the start of the code.
#[derive(Clone, Copy, Debug, PartialEq, Eq, Hash)]
pub enum Own {
    /// What the instruction at a place gives, or a token that it goes on.
    Result(u16),
    /// What is left of operand 1 or 2 of the instruction at a place, along one of its edges.
    Refined { pc: u16, edge: usize, operand: u8 },
    /// Whether the block at a place is reached.
    Block(u16),
    /// What a slot holds at the start of a block.
    Merged { pc: u16, slot: usize },
    /// What an entry of the exception table catches, by its number.
    Caught(u16),
    /// The candidates that are called at a place.
    Links(u16),
}

/// A node of a body, in the system of a program.
#[derive(Clone, Copy, Debug, PartialEq, Eq)]
pub struct OwnOf {
    pub method: MethodId,
    pub own: Own,
}

impl Node<Own> {
    /// The same node by its name in the system of a program, where the body is that of this method.
    pub fn in_method(self, method: MethodId) -> Node<OwnOf>
        ensures { result ≡ in_method method self }
    {
        match self {
            Node::Inst => Node::Inst,
            Node::Start => Node::Start,
            Node::Nothing => Node::Nothing,
            Node::Initialized(class) => Node::Initialized(class),
            Node::Entered(of) => Node::Entered(of),
            Node::Parameter(of, i) => Node::Parameter(of, i),
            Node::Returned(of) => Node::Returned(of),
            Node::Held(field) => Node::Held(field),
            Node::Touched(field) => Node::Touched(field),
            Node::Element(array) => Node::Element(array),
            Node::Copied(line) => Node::Copied(line),
            Node::In(own) => Node::In(OwnOf { method, own }),
        }
    }
}
