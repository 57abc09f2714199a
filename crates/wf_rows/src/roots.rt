//! Roots, from which executions start.

ghost use Rattle.std.specs.Prelude.{◌≡◌, ◌++◌, OnOk};
ghost use Rattle.wf_rows.specs.Renaming.{all_renamed};
ghost use Rattle.wf_rows.specs.Roots.{seed, type_rows, root_parameter_rows, root_class_rows, root_rows};
ghost use Rattle.wf_rows.specs.Each.{each_from};

use crate::context::{Context, push};
use crate::known::row_under;
use crate::node::{Node, Own};
use std::alloc::AllocError;
use wf_base::{ClassId, Items, MethodId, NodeId, TypeId};
use wf_system::{Guard, Inequality, ValueOp};

/// What a root gives a parameter.
#[derive(Drop)]
pub enum RootParameter {
    Int,
    Long,
    /// Null, or an object of one of these types: those that roots have under the declared type.
    Ref(Items<TypeId>),
}

/// What a root does.
#[derive(Drop)]
pub enum RootUse {
    /// It calls a static method, which this class declares.
    Calls {
        class: ClassId,
        method: MethodId,
        parameters: Items<RootParameter>,
    },
    /// It has an object of a type, whose class is None where it is an array.
    Has {
        made: TypeId,
        class: Option<ClassId>,
    },
    /// It makes an object of a class by a constructor without parameters.
    Makes {
        class: ClassId,
        made: TypeId,
        constructor: MethodId,
    },
}

fn seed(target: Node<Own>, value: ValueOp<Node<Own>>) -> Inequality<Node<Own>>
    ensures { result ≡ seed target value }
{
    row_under(Guard::Always, target, value)
}

fn push_types<C: Context>(
    context: &C,
    target: Node<Own>,
    types: &[TypeId],
    rows: &mut Vec<Inequality<NodeId>>,
) -> Result<(), AllocError>
    ensures { OnOk result (rows.new.items ≡ rows.old.items ++ all_renamed (C.number context.now) (each_from (type_rows target) 0 types.now)) }
{
    for of in types {
        push(context, seed(target, ValueOp::OneType(*of)), rows)?;
    }
    Ok(())
}

fn push_root_parameter<C: Context>(
    context: &C,
    method: MethodId,
    i: usize,
    parameter: &RootParameter,
    rows: &mut Vec<Inequality<NodeId>>,
) -> Result<(), AllocError>
    ensures { OnOk result (rows.new.items ≡ rows.old.items ++ all_renamed (C.number context.now) (root_parameter_rows method i parameter.now)) }
{
    let target = Node::Parameter(method, i);
    match parameter {
        RootParameter::Int => push(context, seed(target, ValueOp::AnyInt), rows),
        RootParameter::Long => push(context, seed(target, ValueOp::AnyLong), rows),
        RootParameter::Ref(types) => {
            push(context, seed(target, ValueOp::NullRef), rows)?;
            push_types(context, target, types.as_slice(), rows)
        }
    }
}

fn push_root_parameters<C: Context>(
    context: &C,
    method: MethodId,
    parameters: &[RootParameter],
    rows: &mut Vec<Inequality<NodeId>>,
) -> Result<(), AllocError>
    ensures { OnOk result (rows.new.items ≡ rows.old.items ++ all_renamed (C.number context.now) (each_from (root_parameter_rows method) 0 parameters.now)) }
{
    for (i, parameter) in parameters.iter().enumerate() {
        push_root_parameter(context, method, i, parameter, rows)?;
    }
    Ok(())
}

fn push_root_class<C: Context>(
    context: &C,
    class: Option<ClassId>,
    rows: &mut Vec<Inequality<NodeId>>,
) -> Result<(), AllocError>
    ensures { OnOk result (rows.new.items ≡ rows.old.items ++ all_renamed (C.number context.now) (root_class_rows class)) }
{
    match class {
        Some(class) => push(
            context,
            seed(Node::Initialized(class), ValueOp::Token),
            rows,
        ),
        None => Ok(()),
    }
}

/// Adds the rows of a root, which hold always.
pub fn push_root<C: Context>(
    context: &C,
    root: &RootUse,
    rows: &mut Vec<Inequality<NodeId>>,
) -> Result<(), AllocError>
    ensures { OnOk result (rows.new.items ≡ rows.old.items ++ all_renamed (C.number context.now) (root_rows root.now)) }
{
    match root {
        RootUse::Calls {
            class,
            method,
            parameters,
        } => {
            push(context, seed(Node::Entered(*method), ValueOp::Token), rows)?;
            push(
                context,
                seed(Node::Initialized(*class), ValueOp::Token),
                rows,
            )?;
            push_root_parameters(context, *method, parameters.as_slice(), rows)
        }
        RootUse::Has { made, class } => {
            push(context, seed(Node::Inst, ValueOp::OneType(*made)), rows)?;
            push_root_class(context, *class, rows)
        }
        RootUse::Makes {
            class,
            made,
            constructor,
        } => {
            let object = ValueOp::OneType(*made);
            let receiver = Node::Parameter(*constructor, 0);
            push(context, seed(Node::Inst, object), rows)?;
            push(
                context,
                seed(Node::Initialized(*class), ValueOp::Token),
                rows,
            )?;
            push(
                context,
                seed(Node::Entered(*constructor), ValueOp::Token),
                rows,
            )?;
            push(context, seed(receiver, object), rows)
        }
    }
}
