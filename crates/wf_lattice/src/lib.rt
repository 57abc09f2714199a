//! Values of flows as rows of words, in one order for all kinds of nodes, and the filters on them.
#![tactic(auto)]

mod filter;
mod int_word;
mod kind;
mod laws;
mod view;
mod words;

pub use filter::filtered;
pub use int_word::{IntValue, IntWord};
pub use kind::NodeKind;
pub use laws::{
    comparisons_are_turned, empty_rows_have_no_bit, filters_by_types, filters_grow,
    int_filters_grow, join_is_least, meanings_grow, rows_stand_for_values, values_are_ordered,
};
pub use view::{Nulls, RefView};

#[cfg(test)]
mod tests;
