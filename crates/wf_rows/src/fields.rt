//! Instructions on fields.

ghost use Rattle.std.specs.Prelude.{◌≡◌, ◌++◌, OnOk};
ghost use Rattle.wf_rows.specs.Renaming.{all_renamed};
ghost use Rattle.wf_rows.specs.Fields.{static_rows, field_rows};

use crate::action::{FieldUse, StaticField};
use crate::context::{Context, push};
use crate::known::Known;
use crate::node::Node;
use std::alloc::AllocError;
use wf_base::NodeId;
use wf_system::{Inequality, ValueOp};

/// That the class that declares a static field is initialized, and the field touched.
fn push_static<C: Context>(
    context: &C,
    known: &Known<'_>,
    field: &StaticField,
    rows: &mut Vec<Inequality<NodeId>>,
) -> Result<(), AllocError>
    ensures { OnOk result (rows.new.items ≡ rows.old.items ++ all_renamed (C.number context.now) (static_rows known.now field.now)) }
{
    push(
        context,
        known.row(Node::Initialized(field.class), ValueOp::Token),
        rows,
    )?;
    push(
        context,
        known.row(Node::Touched(field.field), ValueOp::Token),
        rows,
    )
}

pub fn push_field<C: Context>(
    context: &C,
    known: &Known<'_>,
    field: &FieldUse,
    rows: &mut Vec<Inequality<NodeId>>,
) -> Result<(), AllocError>
    ensures { OnOk result (rows.new.items ≡ rows.old.items ++ all_renamed (C.number context.now) (field_rows known.now field.now)) }
{
    match field {
        FieldUse::GetStatic(Ok(of)) => {
            push_static(context, known, of, rows)?;
            push(
                context,
                known.row(known.given(), ValueOp::Copy(Node::Held(of.field))),
                rows,
            )
        }
        FieldUse::PutStatic(Ok(of), kind) => {
            push_static(context, known, of, rows)?;
            let stored = ValueOp::Copy(known.value(*kind));
            push(context, known.row(Node::Held(of.field), stored), rows)
        }
        FieldUse::Get(Ok(field)) => {
            push(
                context,
                known.row(Node::Touched(*field), ValueOp::Token),
                rows,
            )?;
            push(
                context,
                known.row(known.given(), ValueOp::Copy(Node::Held(*field))),
                rows,
            )
        }
        FieldUse::Put(Ok(field), kind) => {
            push(
                context,
                known.row(Node::Touched(*field), ValueOp::Token),
                rows,
            )?;
            let stored = ValueOp::Copy(known.value(*kind));
            push(context, known.row(Node::Held(*field), stored), rows)
        }
        FieldUse::GetStatic(Err(_))
        | FieldUse::PutStatic(Err(_), _)
        | FieldUse::Get(Err(_))
        | FieldUse::Put(Err(_), _) => Ok(()),
    }
}
