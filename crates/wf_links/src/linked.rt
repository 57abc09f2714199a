//! The candidates of call sites by their numbers.

ghost use Rattle.std.specs.Prelude.{◌≡◌, ◌<◌, ◌^◌, [], length, slice_index, slice_index_or};
ghost use Rattle.wf_system.specs.Sides.{HasTables};

use wf_base::{Items, MethodId};
use wf_system::Pick;

/// The candidates of each call site, and which of them each type picks there. Sites that call the same share a table. The
/// tables are those that a system looks picks up in.
#[derive(Debug, Drop)]
pub struct Links {
    /// The candidates, by the number of the table.
    pub candidates: Items<Items<MethodId>>,
    /// The candidate of each type that picks one, by the number of the table.
    pub tables: Items<Items<Pick>>,
    /// The table of each site.
    pub sites: Items<u32>,
    /// The first site of each method.
    pub firsts: Items<u32>,
    ghost has_tables: { HasTables tables sites },
    ghost has_candidates: { length candidates ≡ length tables },
    ghost few: { length sites < 2 ^ 32 },
}

impl Links {
    /// How many sites there are.
    pub fn sites(&self) -> u32
        ensures { result ≡ length self.now.sites }
    {
        self.sites.len() as u32
    }

    /// The candidates of a site.
    pub fn candidates(&self, site: u32) -> &[MethodId]
        requires { site < length self.now.sites }
        ensures { result.now ≡ slice_index_or self.now.candidates (slice_index self.now.sites site) [] }
    {
        let table = self.sites.as_slice()[site as usize];
        self.candidates.as_slice()[table as usize].as_slice()
    }
}
