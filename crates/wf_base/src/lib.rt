//! What every crate of the analysis speaks of: texts and lists, and the numbers of classes, members, types
//! and nodes.
#![tactic(auto)]

mod cmp;
mod ids;
mod items;
mod kind;
mod text;

pub use cmp::Cmp;
pub use ids::{ClassId, FieldId, MethodId, NodeId, TargetId, TypeId};
pub use items::Items;
pub use kind::Kind;
pub use text::Text;

#[cfg(test)]
mod tests;
