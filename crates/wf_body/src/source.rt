//! A method that is to be read.

use std::marker::Model;
use wf_base::MethodId;
use wf_data::{ClassInfo, CodeInfo};
use wf_descriptor::MethodDesc;

/// A method that has code.
#[derive(Drop)]
pub struct Source<'a> {
    pub id: MethodId,
    /// The class that declares it.
    pub class: &'a ClassInfo,
    pub is_static: bool,
    /// Its descriptor, read.
    pub desc: &'a MethodDesc,
    pub code: &'a CodeInfo,
    /// The number of its first call site.
    pub first_site: u32,
}

impl<'a> Model for Source<'a> {
    ghost use Rattle.wf_body.specs.Sources.{MethodSource};

    ghost Value = { MethodSource };

    ghost view = { λ s. record { id = s.id; pool = s.class.now.pool; is_static = s.is_static; desc = s.desc.now; code = s.code.now; first_site = s.first_site } };
}
