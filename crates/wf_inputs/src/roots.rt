use wf_base::Items;
use wf_names::Root;

/// Where executions may begin, in the order of the lines.
#[derive(Debug, Drop)]
pub struct Roots {
    pub lines: Items<RootLine>,
}

/// A root at its line, counted from 1.
#[derive(Debug, Drop)]
pub struct RootLine {
    pub line: u32,
    pub root: Root,
}
