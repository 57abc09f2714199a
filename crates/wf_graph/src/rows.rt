//! The rows of a body.

ghost use Rattle.std.specs.Prelude.{◌≡◌, ◌++◌, OnOk};
ghost use Rattle.wf_rows.specs.Renaming.{all_renamed};
ghost use Rattle.wf_graph.specs.Bodies.{Body, HasKeys};
ghost use Rattle.wf_graph.specs.BodyRows.{body_rows};
ghost use Rattle.wf_graph.specs.Flow.{AreShort, IsBodyBy};

use crate::covered::push_handlers;
use crate::entry::push_entry;
use crate::places::push_places;
use std::alloc::{AllocError, Global};
use wf_base::NodeId;
use wf_body::Reading;
use wf_rows::Context;
use wf_ssa::Env;
use wf_system::Inequality;

/// Adds the rows of a body, by the numbers that the context has for its nodes: of the entry, of its places in their order,
/// and of its handlers. `env` is its environment, and the keys of its first switch have the number `first_keys`. Where
/// memory runs out, what is added is left open.
pub fn push_body<C: Context>(
    alloc: Global,
    context: &C,
    reading: &Reading,
    env: &Env<'_>,
    first_keys: u32,
    rows: &mut Vec<Inequality<NodeId>>,
) -> Result<(), AllocError>
    requires same { env.now.0 ≡ reading.now.blocks }
    requires failing { env.now.1 ≡ reading.now.failing }
    requires keys { HasKeys first_keys reading.now.blocks }
    requires short { AreShort reading.now.acts }
    ensures { (b : Body) → IsBodyBy reading.now.blocks reading.now.failing reading.now.method reading.now.acts reading.now.handlers b → b.first_keys ≡ first_keys → OnOk result (rows.new.items ≡ rows.old.items ++ all_renamed (C.number context.now) (body_rows (C.arrays context.now) (C.thrown context.now) b)) }
{
    push_entry(alloc, context, reading.method, env, &reading.blocks, rows)?;
    push_places(alloc, context, reading, env, first_keys, rows)?;
    push_handlers(context, reading.handlers.as_slice(), rows)
}
