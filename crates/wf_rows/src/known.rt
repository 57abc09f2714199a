ghost use Rattle.std.specs.Prelude.{◌≡◌};
ghost use Rattle.wf_rows.specs.Before.{given, links, refined, operand, value, row, row_under};

use crate::node::{Node, Own};
use std::marker::Model;
use wf_base::{Kind, MethodId};
use wf_system::{Guard, Inequality, ValueOp};

/// What is known in front of a place of a body, or along one edge into it: the node that says whether control
/// comes there, and for each slot the node of what it holds, `Nothing` where it is unused. Slots are the
/// locals and behind them the cells of the operand stack, the top last.
#[derive(Drop)]
pub struct Known<'a> {
    pub method: MethodId,
    pub pc: u16,
    pub predicate: Node<Own>,
    pub slots: &'a [Node<Own>],
}

impl<'a> Model for Known<'a> {
    ghost use Rattle.wf_rows.specs.Before.{Before};

    ghost Value = { Before };

    ghost view = { λ k. record { method = k.method; pc = k.pc; predicate = k.predicate; slots = k.slots.now } };
}

impl Known<'_> {
    /// What the instruction here gives.
    pub fn given(&self) -> Node<Own>
        ensures { result ≡ given self.now }
    {
        Node::In(Own::Result(self.pc))
    }

    /// The candidates of the call here.
    pub fn links(&self) -> Node<Own>
        ensures { result ≡ links self.now }
    {
        Node::In(Own::Links(self.pc))
    }

    /// What is left of an operand of the instruction here, along an edge.
    pub fn refined(&self, edge: usize, operand: u8) -> Node<Own>
        ensures { result ≡ refined self.now edge operand }
    {
        Node::In(Own::Refined {
            pc: self.pc,
            edge,
            operand,
        })
    }

    /// What the slot at a depth below the top of the stack holds.
    pub fn operand(&self, depth: usize) -> Node<Own>
        ensures { result ≡ operand self.now depth }
    {
        let at = self.slots.len().saturating_sub(depth).saturating_sub(1);
        match self.slots.get(at) {
            Some(node) => *node,
            None => Node::Nothing,
        }
    }

    /// The value of this kind at the top of the stack.
    pub fn value(&self, kind: Kind) -> Node<Own>
        ensures { result ≡ value self.now kind }
    {
        match kind {
            Kind::Long | Kind::Double => self.operand(1),
            Kind::Int | Kind::Ref | Kind::Float => self.operand(0),
        }
    }

    /// That a node is at least a value where control comes here.
    pub fn row(&self, target: Node<Own>, value: ValueOp<Node<Own>>) -> Inequality<Node<Own>>
        ensures { result ≡ row self.now target value }
    {
        row_under(Guard::NonEmpty(self.predicate), target, value)
    }
}

/// That a node is at least a value where the guard holds.
pub fn row_under(
    guard: Guard<Node<Own>>,
    target: Node<Own>,
    value: ValueOp<Node<Own>>,
) -> Inequality<Node<Own>>
    ensures { result ≡ row_under guard target value }
{
    Inequality {
        target,
        guard,
        value,
    }
}
