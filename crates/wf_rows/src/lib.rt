//! The table of the flow system (this project's own, after SkipFlow, CGO 2025): by an instruction, what it
//! names and what is known in front of it, the inequalities over named nodes that it stands for. The code is
//! that table once more: it makes each row by names, and `push` gives it the numbers of its nodes. Where memory
//! runs out, what a list of rows holds is left open.
#![tactic(auto)]

mod action;
mod arrays;
mod branches;
mod calls;
mod classes;
mod context;
mod errors;
mod fields;
mod joins;
mod known;
mod laws;
mod node;
mod plain;
mod roots;
mod summaries;
mod table;
mod throwable;
mod values;

pub use action::{
    Action, ArrayUse, Computation, FieldUse, Literal, LiteralField, Making, ManyArray, NewObject,
    SelectedCall, StatedValue, StaticCall, StaticField, TypeTest,
};
pub use branches::push_branches;
pub use classes::{
    Initialization, InstanceField, InstanceFields, StartValue, StaticStart, push_elements,
    push_initialization, push_instance_fields,
};
pub use context::{ArrayType, Context, push};
pub use errors::{link_error, own_errors, push_errors};
pub use joins::{HandlerEntry, push_caught, push_covered, push_edge};
pub use known::Known;
pub use laws::{
    blocks_have_their_rows, lists_have_their_rows, numbered_rows_are_named_rows,
    places_have_their_rows, rows_have_their_targets, rows_without_a_place_have_their_targets,
};
pub use node::{Node, Own, OwnOf};
pub use plain::plain_action;
pub use roots::{RootParameter, RootUse, push_root};
pub use summaries::{SummaryEffect, SummaryValue, push_effect};
pub use table::{push_action, push_place};
pub use throwable::Throwable;

#[cfg(test)]
mod tests;
