use wf_base::{Items, Text};
use wf_data::Handler;

/// What the statements of a body have given so far.
#[derive(Debug, Drop)]
pub struct CodeSoFar {
    pub code: Text,
    pub table: Items<Handler>,
}
