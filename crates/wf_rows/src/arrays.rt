//! Instructions on arrays, those that make objects, and tests of types.

ghost use Rattle.std.specs.Prelude.{◌≡◌, ◌++◌, OnOk};
ghost use Rattle.wf_rows.specs.Renaming.{all_renamed};
ghost use Rattle.wf_rows.specs.Arrays.{stored_rows, array_rows, component_rows, one_rows, making_rows, test_rows};
ghost use Rattle.wf_rows.specs.Each.{each_from};

use crate::action::{ArrayUse, Making, TypeTest};
use crate::context::{ArrayType, Context, push};
use crate::known::{Known, row_under};
use crate::node::{Node, Own};
use std::alloc::AllocError;
use wf_base::{NodeId, TypeId};
use wf_system::{Guard, Inequality, ValueOp};

/// A value into the elements of each array type that the array may have.
pub fn push_stored<C: Context>(
    context: &C,
    guard: Guard<Node<Own>>,
    array: Node<Own>,
    stored: Node<Own>,
    arrays: &[ArrayType],
    rows: &mut Vec<Inequality<NodeId>>,
) -> Result<(), AllocError>
    ensures { OnOk result (rows.new.items ≡ rows.old.items ++ all_renamed (C.number context.now) (each_from (stored_rows guard array stored) 0 arrays.now)) }
{
    for of in arrays {
        let value = ValueOp::IfHolds(array, of.array, stored, of.component);
        push(
            context,
            row_under(guard, Node::Element(of.array), value),
            rows,
        )?;
    }
    Ok(())
}

pub fn push_array<C: Context>(
    context: &C,
    known: &Known<'_>,
    array: ArrayUse,
    rows: &mut Vec<Inequality<NodeId>>,
) -> Result<(), AllocError>
    ensures { OnOk result (rows.new.items ≡ rows.old.items ++ all_renamed (C.number context.now) (array_rows known.now (C.arrays context.now) array)) }
{
    match array {
        ArrayUse::Length | ArrayUse::LoadInt => {
            push(context, known.row(known.given(), ValueOp::AnyInt), rows)
        }
        ArrayUse::LoadLong => push(context, known.row(known.given(), ValueOp::AnyLong), rows),
        ArrayUse::LoadRef => {
            let elements = ValueOp::ElementsOf(known.operand(1));
            push(context, known.row(known.given(), elements), rows)
        }
        ArrayUse::StoreNumber => Ok(()),
        ArrayUse::StoreRef => push_stored(
            context,
            Guard::NonEmpty(known.predicate),
            known.operand(2),
            known.operand(0),
            context.arrays(),
            rows,
        ),
    }
}

fn push_components<C: Context>(
    context: &C,
    known: &Known<'_>,
    array: TypeId,
    components: &[TypeId],
    rows: &mut Vec<Inequality<NodeId>>,
) -> Result<(), AllocError>
    ensures { OnOk result (rows.new.items ≡ rows.old.items ++ all_renamed (C.number context.now) (component_rows known.now array components.now)) }
{
    let mut outer = array;
    for component in components {
        let made = ValueOp::OneType(*component);
        push(context, known.row(Node::Inst, made), rows)?;
        push(context, known.row(Node::Element(outer), made), rows)?;
        outer = *component;
    }
    Ok(())
}

/// That an object of a type is given and made.
fn push_one<C: Context>(
    context: &C,
    known: &Known<'_>,
    made: TypeId,
    rows: &mut Vec<Inequality<NodeId>>,
) -> Result<(), AllocError>
    ensures { OnOk result (rows.new.items ≡ rows.old.items ++ all_renamed (C.number context.now) (one_rows known.now made)) }
{
    let made = ValueOp::OneType(made);
    push(context, known.row(known.given(), made), rows)?;
    push(context, known.row(Node::Inst, made), rows)
}

pub fn push_making<C: Context>(
    context: &C,
    known: &Known<'_>,
    making: &Making,
    rows: &mut Vec<Inequality<NodeId>>,
) -> Result<(), AllocError>
    ensures { OnOk result (rows.new.items ≡ rows.old.items ++ all_renamed (C.number context.now) (making_rows known.now making.now)) }
{
    match making {
        Making::Object(Ok(object)) => {
            push(
                context,
                known.row(Node::Initialized(object.class), ValueOp::Token),
                rows,
            )?;
            push_one(context, known, object.made, rows)
        }
        Making::Array(Ok(array)) => push_one(context, known, *array, rows),
        Making::ManyArray(Ok(many)) => {
            push_one(context, known, many.array, rows)?;
            push_components(context, known, many.array, many.components.as_slice(), rows)
        }
        Making::Object(Err(_)) | Making::Array(Err(_)) | Making::ManyArray(Err(_)) => Ok(()),
    }
}

pub fn push_test<C: Context>(
    context: &C,
    known: &Known<'_>,
    test: &TypeTest,
    rows: &mut Vec<Inequality<NodeId>>,
) -> Result<(), AllocError>
    ensures { OnOk result (rows.new.items ≡ rows.old.items ++ all_renamed (C.number context.now) (test_rows known.now test.now)) }
{
    let operand = known.operand(0);
    let value = match test {
        TypeTest::Cast(Ok(target)) => ValueOp::Under(operand, *target),
        TypeTest::Cast(Err(_)) => ValueOp::OnlyNull(operand),
        TypeTest::InstanceOf(Ok(target)) => ValueOp::Tested(operand, *target),
        TypeTest::InstanceOf(Err(_)) => ValueOp::IfNull(operand),
    };
    push(context, known.row(known.given(), value), rows)
}
