//! What whole small worlds answer.

mod actions;
mod binding;
mod init;
mod links;
mod made;
mod members;
mod nodes;
mod programs;
mod types;
mod words;
