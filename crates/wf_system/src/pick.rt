use wf_base::TypeId;

/// A type and the candidate that it picks at a site.
#[derive(Clone, Copy, Debug, PartialEq, Eq)]
pub struct Pick {
    pub t: TypeId,
    pub candidate: u32,
}
