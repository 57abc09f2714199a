//! Listings, the text form of class files in which tests and examples are written: the lines of a listing are read into a
//! tree. What the names of the tree stand for isn't looked up here.
#![tactic(auto)]

mod lines;
mod listing;
mod names;
mod read;
mod stop;

pub use listing::{
    Constant, Item, Listed, ListedCase, ListedCatch, ListedField, ListedLookup, ListedMethod,
    ListedTable, Listing, Statement, Step, Use,
};
pub use read::read_listing;
pub use stop::Stop;

#[cfg(test)]
mod tests;
