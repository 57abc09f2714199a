ghost use Rattle.std.specs.Prelude.{◌≡◌, ◌<◌, Some};
ghost use Rattle.wf_rows.specs.Examples.{coded, own_number, example_number, example_thrown};

use crate::context::{ArrayType, Context};
use crate::node::{Node, Own};
use crate::throwable::Throwable;
use wf_base::{NodeId, TargetId, TypeId};

/// A program in which each node is there but `Start`, and each error but InstantiationError.
pub struct Examples {
    pub arrays: [ArrayType; 2],
}

/// Its array types are 30, with components under 31, and 32, with components under 33.
pub const EXAMPLES: Examples = Examples {
    arrays: [
        ArrayType {
            array: TypeId(30),
            component: TargetId(31),
        },
        ArrayType {
            array: TypeId(32),
            component: TargetId(33),
        },
    ],
};

fn coded(tag: u32, id: u32) -> NodeId
    requires { tag < 32 }
    ensures { result ≡ coded tag id }
{
    NodeId(tag + 32 * (id % 1000000))
}

fn own_number(own: Own) -> NodeId
    ensures { result ≡ own_number own }
{
    match own {
        Own::Result(pc) => coded(16, pc as u32),
        Own::Refined { pc, edge, operand } => coded(
            17,
            pc as u32 % 1000 * 1000 + (edge % 100) as u32 * 10 + operand as u32 % 10,
        ),
        Own::Block(pc) => coded(18, pc as u32),
        Own::Merged { pc, slot } => coded(19, pc as u32 % 1000 * 1000 + (slot % 1000) as u32),
        Own::Caught(entry) => coded(20, entry as u32),
        Own::Links(pc) => coded(21, pc as u32),
    }
}

impl Context for Examples {
    ghost use Rattle.wf_rows.specs.Examples.{example_number, example_thrown};

    ghost number = { λ c. example_number };

    ghost thrown = { λ c. example_thrown };

    ghost arrays = { λ c. c.arrays };

    fn number(&self, node: Node<Own>) -> Option<NodeId> {
        Some(match node {
            Node::Inst => coded(0, 0),
            Node::Start => return None,
            Node::Nothing => coded(1, 0),
            Node::Initialized(class) => coded(2, class.0),
            Node::Entered(method) => coded(3, method.0),
            Node::Parameter(method, i) => { coded(4, method.0 % 1000 * 1000 + (i % 1000) as u32) }
            Node::Returned(method) => coded(5, method.0),
            Node::Held(field) => coded(6, field.0),
            Node::Touched(field) => coded(7, field.0),
            Node::Element(array) => coded(8, array.0),
            Node::Copied(line) => coded(9, line),
            Node::In(own) => own_number(own),
        })
    }

    fn thrown(&self, error: Throwable) -> Option<TypeId> {
        Some(TypeId(match error {
            Throwable::NullPointer => 50,
            Throwable::ArrayIndexOutOfBounds => 51,
            Throwable::ArrayStore => 52,
            Throwable::NegativeArraySize => 53,
            Throwable::ClassCast => 54,
            Throwable::Arithmetic => 55,
            Throwable::AbstractMethod => 56,
            Throwable::IncompatibleClassChange => 57,
            Throwable::NoClassDefFound => 58,
            Throwable::NoSuchField => 59,
            Throwable::NoSuchMethod => 60,
            Throwable::Instantiation => return None,
            Throwable::ExceptionInInitializer => 61,
        }))
    }

    fn arrays(&self) -> &[ArrayType] {
        &self.arrays
    }
}
