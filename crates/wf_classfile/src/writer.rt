//! Classes are written piece by piece behind the bytes that are there. After a fault it is open what stands
//! behind them.

mod class;
mod constants;
mod items;
mod members;
mod places;

pub use class::put_class;
