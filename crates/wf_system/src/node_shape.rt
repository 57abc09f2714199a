use wf_lattice::NodeKind;

/// What a node holds, and where its words stand.
#[derive(Clone, Copy, Debug, PartialEq, Eq)]
pub struct NodeShape {
    pub kind: NodeKind,
    pub first_word: u32,
    pub words: u32,
}
