//! Tests over small worlds of classes, which are written as listings, closed, and asked for what stands in them. There
//! is no code of the product in this crate.
#![tactic(auto)]

#[cfg(test)]
mod tests;
