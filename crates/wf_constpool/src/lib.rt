//! Constant pools (JVMS 4.4) are read exactly, item by item with the first fault; and what their places hold.
#![tactic(auto)]

mod entries;
mod fault;
mod items;
mod places;
mod pool;

pub use entries::are_text_bytes;
pub use fault::ClassFault;
pub use items::{run, text, u1, u2, u4, u8};
pub use places::{class_at, is_sound, method_at, text_at, text_of};
pub use pool::read_pool;

#[cfg(test)]
mod tests;
