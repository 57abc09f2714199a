//! What of a program the bodies of its methods are made from.

ghost use Rattle.std.specs.Prelude.{◌≡◌};
ghost use Rattle.wf_body.specs.Parts.{candidates_of};

use std::marker::Model;
use wf_base::MethodId;
use wf_binding::LiteralNumbers;
use wf_links::Links;
use wf_subtype::Types;

/// What of a program the bodies of its methods are made from.
#[derive(Drop)]
pub struct Parts<'a> {
    pub types: &'a Types,
    /// What the summary says of literals.
    pub literals: &'a [LiteralNumbers],
    pub links: &'a Links,
}

impl<'a> Model for Parts<'a> {
    ghost use Rattle.wf_body.specs.Parts.{Parts};

    ghost Value = { Parts };

    ghost view = { λ p. record { types = p.types.now; literals = p.literals.now; links = p.links.now } };
}

impl Parts<'_> {
    /// The candidates of a site, ascending. None where there is no such site.
    pub fn candidates(&self, site: u32) -> &[MethodId]
        ensures { result.now ≡ candidates_of self.now.links site }
    {
        let links = self.links;
        let sites = links.sites.as_slice();
        let table = sites.get(site as usize).copied().unwrap_or(0);
        match links.candidates.as_slice().get(table as usize) {
            Some(candidates) => candidates.as_slice(),
            None => &[],
        }
    }
}
