//! What the initialization of classes runs and assigns, and what fields and elements hold that nothing was
//! written to.

ghost use Rattle.std.specs.Prelude.{◌≡◌, ◌++◌, OnOk};
ghost use Rattle.wf_rows.specs.Renaming.{all_renamed};
ghost use Rattle.wf_rows.specs.Classes.{zero_value, zero_rows, started_rows, static_start_rows, request_rows, initializer_errors, initializer_rows, requested_rows, initialization_rows, instance_rows, instances_rows, element_rows, elements_rows};
ghost use Rattle.wf_rows.specs.Each.{each_from};

use crate::action::Literal;
use crate::context::{Context, push};
use crate::errors::push_all;
use crate::known::row_under;
use crate::node::{Node, Own};
use crate::throwable::Throwable;
use crate::values::push_object;
use std::alloc::AllocError;
use wf_base::{ClassId, FieldId, Items, Kind, MethodId, NodeId, TargetId};
use wf_system::{Guard, Inequality, ValueOp};

/// What a static field holds first.
#[derive(Drop)]
pub enum StartValue {
    /// The default value of this kind.
    Zero(Kind),
    Int(i32),
    Long,
    /// A string.
    Object(Literal),
}

/// A static field, and what it holds first.
#[derive(Drop)]
pub struct StaticStart {
    pub field: FieldId,
    pub value: StartValue,
}

/// What is done where the initialization of a class or interface is requested.
#[derive(Drop)]
pub struct Initialization {
    pub class: ClassId,
    /// The method `<clinit>` that is run.
    pub initializer: Option<MethodId>,
    /// The classes and interfaces that are initialized before: the superclass of a class, and its
    /// superinterfaces that have a default method. None for an interface.
    pub before: Items<ClassId>,
    /// The static fields that it declares.
    pub fields: Items<StaticStart>,
}

/// An instance field.
#[derive(Clone, Copy)]
pub struct InstanceField {
    pub field: FieldId,
    pub kind: Kind,
}

/// The instance fields that a class declares.
#[derive(Drop)]
pub struct InstanceFields {
    pub class: TargetId,
    pub fields: Items<InstanceField>,
}

fn zero_value(kind: Kind) -> Option<ValueOp<Node<Own>>>
    ensures { result ≡ zero_value kind }
{
    match kind {
        Kind::Int => Some(ValueOp::IntIs(0)),
        Kind::Long => Some(ValueOp::AnyLong),
        Kind::Ref => Some(ValueOp::NullRef),
        Kind::Float | Kind::Double => None,
    }
}

fn push_zero<C: Context>(
    context: &C,
    guard: Guard<Node<Own>>,
    target: Node<Own>,
    kind: Kind,
    rows: &mut Vec<Inequality<NodeId>>,
) -> Result<(), AllocError>
    ensures { OnOk result (rows.new.items ≡ rows.old.items ++ all_renamed (C.number context.now) (zero_rows guard target (zero_value kind))) }
{
    match zero_value(kind) {
        Some(zero) => push(context, row_under(guard, target, zero), rows),
        None => Ok(()),
    }
}

fn push_started<C: Context>(
    context: &C,
    guard: Guard<Node<Own>>,
    held: Node<Own>,
    value: &StartValue,
    rows: &mut Vec<Inequality<NodeId>>,
) -> Result<(), AllocError>
    ensures { OnOk result (rows.new.items ≡ rows.old.items ++ all_renamed (C.number context.now) (started_rows guard held value.now)) }
{
    match value {
        StartValue::Zero(kind) => push_zero(context, guard, held, *kind, rows),
        StartValue::Int(int) => push(context, row_under(guard, held, ValueOp::IntIs(*int)), rows),
        StartValue::Long => push(context, row_under(guard, held, ValueOp::AnyLong), rows),
        StartValue::Object(literal) => push_object(context, guard, held, literal, rows),
    }
}

fn push_static_starts<C: Context>(
    context: &C,
    guard: Guard<Node<Own>>,
    fields: &[StaticStart],
    rows: &mut Vec<Inequality<NodeId>>,
) -> Result<(), AllocError>
    ensures { OnOk result (rows.new.items ≡ rows.old.items ++ all_renamed (C.number context.now) (each_from (static_start_rows guard) 0 fields.now)) }
{
    for start in fields {
        push_started(context, guard, Node::Held(start.field), &start.value, rows)?;
    }
    Ok(())
}

fn push_requests<C: Context>(
    context: &C,
    guard: Guard<Node<Own>>,
    classes: &[ClassId],
    rows: &mut Vec<Inequality<NodeId>>,
) -> Result<(), AllocError>
    ensures { OnOk result (rows.new.items ≡ rows.old.items ++ all_renamed (C.number context.now) (each_from (request_rows guard) 0 classes.now)) }
{
    for class in classes {
        push(
            context,
            row_under(guard, Node::Initialized(*class), ValueOp::Token),
            rows,
        )?;
    }
    Ok(())
}

fn push_initializer<C: Context>(
    context: &C,
    guard: Guard<Node<Own>>,
    initializer: Option<MethodId>,
    rows: &mut Vec<Inequality<NodeId>>,
) -> Result<(), AllocError>
    ensures { OnOk result (rows.new.items ≡ rows.old.items ++ all_renamed (C.number context.now) (initializer_rows guard (C.thrown context.now) initializer)) }
{
    let Some(method) = initializer else {
        return Ok(());
    };
    let entered = Node::Entered(method);
    push(context, row_under(guard, entered, ValueOp::Token), rows)?;
    let errors = [
        Throwable::ExceptionInInitializer,
        Throwable::NoClassDefFound,
    ];
    push_all(context, Guard::NonEmpty(entered), &errors, rows)
}

/// Adds the rows of what is done where the initialization of a class is requested.
pub fn push_initialization<C: Context>(
    context: &C,
    class: &Initialization,
    rows: &mut Vec<Inequality<NodeId>>,
) -> Result<(), AllocError>
    ensures { OnOk result (rows.new.items ≡ rows.old.items ++ all_renamed (C.number context.now) (initialization_rows (C.thrown context.now) class.now)) }
{
    let guard = Guard::NonEmpty(Node::Initialized(class.class));
    push_initializer(context, guard, class.initializer, rows)?;
    push_requests(context, guard, class.before.as_slice(), rows)?;
    push_static_starts(context, guard, class.fields.as_slice(), rows)
}

fn push_zeros<C: Context>(
    context: &C,
    guard: Guard<Node<Own>>,
    fields: &[InstanceField],
    rows: &mut Vec<Inequality<NodeId>>,
) -> Result<(), AllocError>
    ensures { OnOk result (rows.new.items ≡ rows.old.items ++ all_renamed (C.number context.now) (each_from (instance_rows guard) 0 fields.now)) }
{
    for of in fields {
        push_zero(context, guard, Node::Held(of.field), of.kind, rows)?;
    }
    Ok(())
}

/// Adds the rows of the instance fields that a class declares: they hold the default value where an object
/// under the class is made.
pub fn push_instance_fields<C: Context>(
    context: &C,
    class: &InstanceFields,
    rows: &mut Vec<Inequality<NodeId>>,
) -> Result<(), AllocError>
    ensures { OnOk result (rows.new.items ≡ rows.old.items ++ all_renamed (C.number context.now) (instances_rows class.now)) }
{
    push_zeros(
        context,
        Guard::HasUnder(class.class),
        class.fields.as_slice(),
        rows,
    )
}

/// Adds the rows of the elements of all array types of references: they may be null where an array is made.
pub fn push_elements<C: Context>(
    context: &C,
    rows: &mut Vec<Inequality<NodeId>>,
) -> Result<(), AllocError>
    ensures { OnOk result (rows.new.items ≡ rows.old.items ++ all_renamed (C.number context.now) (elements_rows (C.arrays context.now))) }
{
    let arrays = context.arrays();
    for of in arrays {
        let guard = Guard::HasType(of.array);
        push(
            context,
            row_under(guard, Node::Element(of.array), ValueOp::NullRef),
            rows,
        )?;
    }
    Ok(())
}
