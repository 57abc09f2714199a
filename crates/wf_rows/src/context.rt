//! The numbers of nodes, and the one place where rows get them.

ghost use Rattle.std.specs.Prelude.{◌≡◌, ◌++◌, OnOk};
ghost use Rattle.wf_system.specs.Numbers.{renamed_guard, renamed_value};
ghost use Rattle.wf_rows.specs.Renaming.{renamed, listed};

use crate::node::{Node, Own};
use crate::throwable::Throwable;
use std::alloc::AllocError;
use wf_base::{NodeId, TargetId, TypeId};
use wf_system::{Guard, Inequality, ValueOp};

/// An array type whose components are references.
#[derive(Clone, Copy)]
pub struct ArrayType {
    pub array: TypeId,
    /// The component type, as what a cast may name.
    pub component: TargetId,
}

/// What the rows of a body look up in the program.
pub trait Context {
    ghost use Rattle.std.specs.Prelude.{List, Option};
    ghost use Rattle.wf_base.specs.declared.ids.NodeId.{NodeId};
    ghost use Rattle.wf_base.specs.declared.ids.TypeId.{TypeId};
    ghost use Rattle.wf_rows.specs.declared.context.ArrayType.{ArrayType};
    ghost use Rattle.wf_rows.specs.declared.node.Node.{Node};
    ghost use Rattle.wf_rows.specs.declared.node.Own.{Own};
    ghost use Rattle.wf_rows.specs.declared.throwable.Throwable.{Throwable};

    ghost number: { Self → Node Own → Option NodeId };

    ghost thrown: { Self → Throwable → Option TypeId };

    ghost arrays: { Self → List ArrayType };

    /// The number of a node, where it is there.
    fn number(&self, node: Node<Own>) -> Option<NodeId>
        ensures { result ≡ number self.now node };

    /// The type of what the machine throws, where it is a loadable class that isn't abstract.
    fn thrown(&self, error: Throwable) -> Option<TypeId>
        ensures { result ≡ thrown self.now error };

    /// The array types whose components are references.
    fn arrays(&self) -> &[ArrayType]
        ensures { result.now ≡ arrays self.now };
}

fn rename_guard<C: Context>(context: &C, guard: Guard<Node<Own>>) -> Option<Guard<NodeId>>
    ensures { result ≡ renamed_guard (C.number context.now) guard }
{
    Some(match guard {
        Guard::Always => Guard::Always,
        Guard::NonEmpty(node) => Guard::NonEmpty(context.number(node)?),
        Guard::HasType(made) => Guard::HasType(made),
        Guard::HasUnder(target) => Guard::HasUnder(target),
        Guard::Linked(node, candidate) => Guard::Linked(context.number(node)?, candidate),
    })
}

fn rename_value<C: Context>(context: &C, value: ValueOp<Node<Own>>) -> Option<ValueOp<NodeId>>
    ensures { result ≡ renamed_value (C.number context.now) value }
{
    Some(match value {
        ValueOp::Token => ValueOp::Token,
        ValueOp::IntIs(int) => ValueOp::IntIs(int),
        ValueOp::AnyInt => ValueOp::AnyInt,
        ValueOp::AnyLong => ValueOp::AnyLong,
        ValueOp::NullRef => ValueOp::NullRef,
        ValueOp::OneType(made) => ValueOp::OneType(made),
        ValueOp::AllUnder(target) => ValueOp::AllUnder(target),
        ValueOp::SomeUnder(target) => ValueOp::SomeUnder(target),
        ValueOp::IntRefine(cmp, a, b) => {
            ValueOp::IntRefine(cmp, context.number(a)?, context.number(b)?)
        }
        ValueOp::RefEq(a, b) => ValueOp::RefEq(context.number(a)?, context.number(b)?),
        ValueOp::RefNe(a, b) => ValueOp::RefNe(context.number(a)?, context.number(b)?),
        ValueOp::IfHolds(a, made, b, target) => {
            ValueOp::IfHolds(context.number(a)?, made, context.number(b)?, target)
        }
        ValueOp::Copy(a) => ValueOp::Copy(context.number(a)?),
        ValueOp::IntRefineBy(cmp, a, by) => ValueOp::IntRefineBy(cmp, context.number(a)?, by),
        ValueOp::NotIn(a, keys) => ValueOp::NotIn(context.number(a)?, keys),
        ValueOp::OnlyNull(a) => ValueOp::OnlyNull(context.number(a)?),
        ValueOp::NoNull(a) => ValueOp::NoNull(context.number(a)?),
        ValueOp::Under(a, target) => ValueOp::Under(context.number(a)?, target),
        ValueOp::Picked(a, site, candidate) => {
            ValueOp::Picked(context.number(a)?, site, candidate)
        }
        ValueOp::Picks(a, site) => ValueOp::Picks(context.number(a)?, site),
        ValueOp::Tested(a, target) => ValueOp::Tested(context.number(a)?, target),
        ValueOp::ElementsOf(a) => ValueOp::ElementsOf(context.number(a)?),
        ValueOp::IfNull(a) => ValueOp::IfNull(context.number(a)?),
    })
}

fn rename<C: Context>(context: &C, row: Inequality<Node<Own>>) -> Option<Inequality<NodeId>>
    ensures { result ≡ renamed (C.number context.now) row }
{
    Some(Inequality {
        target: context.number(row.target)?,
        guard: rename_guard(context, row.guard)?,
        value: rename_value(context, row.value)?,
    })
}

/// Adds a row by the numbers of its nodes, or nothing where one of them isn't there.
pub fn push<C: Context>(
    context: &C,
    row: Inequality<Node<Own>>,
    rows: &mut Vec<Inequality<NodeId>>,
) -> Result<(), AllocError>
    ensures { OnOk result (rows.new.items ≡ rows.old.items ++ listed (C.number context.now) row) }
{
    if let Some(row) = rename(context, row) {
        rows.push(row)?;
    }
    Ok(())
}
