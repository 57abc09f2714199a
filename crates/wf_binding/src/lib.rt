//! The names that summaries and lists of roots give, found in closed classes: which lines are valid, and the numbers of
//! what valid lines name.
#![tactic(auto)]

mod blocks;
mod described;
mod effects;
mod first;
mod literals;
mod named;
mod numbering;
mod numbers;
mod roots;
mod starts;
mod summary;
mod values;

pub use numbers::{
    BlockNumbers, EffectNumbers, LiteralNumbers, RootNumbers, SummaryNumbers, ValueNumbers,
};
pub use roots::{Added, BoundRoots, bind_roots};
pub use summary::{BoundSummary, bind_summary};
