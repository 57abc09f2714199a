//! One inequality evaluated: the word that it joins into its target, over words that may rise meanwhile.
#![tactic(auto)]

mod evaluate;
mod fixed;
mod inequality;
mod kept_words;
mod log;
mod lookup;
mod plan;
mod plans;
mod raise;
mod refs;
mod words;

pub use inequality::eval;
pub use lookup::Lookup;
pub use plan::{Mask, Meaning, Plan, Source, TypeSet};
pub use words::Words;

#[cfg(test)]
mod tests;
