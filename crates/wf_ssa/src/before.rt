use crate::name::FlowName;
use wf_base::Items;

/// What is known in front of a place: by what it is reached, and where each slot comes from.
#[derive(Debug, Drop)]
pub struct Before {
    pub predicate: FlowName,
    pub names: Items<FlowName>,
}
