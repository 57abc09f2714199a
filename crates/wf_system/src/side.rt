ghost use Rattle.std.specs.Prelude.{◌≡◌, ◌<◌, ◌↔◌, ℕ, None, [], length, slice_index, slice_index_or, IsTrue};
ghost use Rattle.wf_system.specs.Sides.{pick_of, table_of, Ascends, StartsAt, HasTables};

use crate::pick::Pick;
use wf_base::{Items, NodeId, TargetId, TypeId};

/// What inequalities look up besides the values of nodes: the node of the types that are made, the nodes of
/// elements by type, the rows of types by class, the keys of switches, and what types pick at call sites.
/// Sites that pick alike share a table.
#[derive(Debug, Drop)]
pub struct Side {
    pub inst: NodeId,
    pub elems: Items<Option<NodeId>>,
    pub masks: Items<Items<u64>>,
    pub keys: Items<Items<i32>>,
    pub tables: Items<Items<Pick>>,
    pub sites: Items<u32>,
    ghost has_tables: { HasTables tables sites },
}

/// The place where the entries of the type, or of greater ones, begin in a table.
fn first_not_below(table: &[Pick], t: u64) -> usize
    requires { Ascends table.now }
    ensures { StartsAt table.now t result }
{
    let mut low = 0;
    let mut high = table.len();
    while low < high {
        let middle = low + ((high - low) >> 1);
        if (table[middle].t.0 as u64) < t {
            low = middle + 1;
        } else {
            high = middle;
        }
    }
    low
}

/// The candidate that a table has for the type.
fn picked(table: &[Pick], t: u64) -> Option<u32>
    requires { Ascends table.now }
    ensures { result ≡ pick_of table.now t }
{
    let place = first_not_below(table, t);
    if place >= table.len() {
        return None;
    }
    let pick = table[place];
    if pick.t.0 as u64 != t {
        return None;
    }
    Some(pick.candidate)
}

/// Whether tables can be those of call sites: each ascends by type, and each site has one.
pub fn have_tables(tables: &[Items<Pick>], sites: &[u32]) -> bool
    ensures { IsTrue result ↔ HasTables tables.now sites.now }
{
    if !are_below(sites, tables.len()) {
        return false;
    }
    all_ascend(tables)
}

/// Whether all numbers are below another.
fn are_below(numbers: &[u32], count: usize) -> bool
    ensures { IsTrue result ↔ ((i : ℕ) → i < length numbers.now → slice_index numbers.now i < count) }
{
    for number in numbers {
        if *number as usize >= count {
            return false;
        }
    }
    true
}

/// Whether each table ascends by type.
fn all_ascend(tables: &[Items<Pick>]) -> bool
    ensures { IsTrue result ↔ ((i : ℕ) → i < length tables.now → Ascends (slice_index_or tables.now i [])) }
{
    for table in tables {
        if !ascends(table.as_slice()) {
            return false;
        }
    }
    true
}

/// Whether a table has each type once, in order.
fn ascends(table: &[Pick]) -> bool
    ensures { IsTrue result ↔ Ascends table.now }
{
    for i in 1..table.len() {
        if table[i - 1].t.0 >= table[i].t.0 {
            return false;
        }
    }
    true
}

impl Side {
    /// The tables of a system. Each table ascends by type, and each site has one, as `have_tables` tells.
    pub fn new(
        inst: NodeId,
        elems: Items<Option<NodeId>>,
        masks: Items<Items<u64>>,
        keys: Items<Items<i32>>,
        tables: Items<Items<Pick>>,
        sites: Items<u32>,
    ) -> Side
        requires { HasTables tables sites }
        ensures inst { result.inst ≡ inst }
        ensures elems { result.elems ≡ elems }
        ensures masks { result.masks ≡ masks }
        ensures keys { result.keys ≡ keys }
        ensures tables { result.tables ≡ tables }
        ensures sites { result.sites ≡ sites }
    {
        Side {
            inst,
            elems,
            masks,
            keys,
            tables,
            sites,
        }
    }

    /// The node of the types that are made.
    pub fn inst(&self) -> NodeId
        ensures { result ≡ self.now.inst }
    {
        self.inst
    }

    /// The node of the elements of an array type; none exactly where the type has none.
    pub fn elem(&self, t: TypeId) -> Option<NodeId>
        ensures { result ≡ slice_index_or self.now.elems t.0 None }
    {
        match self.elems.as_slice().get(t.0 as usize) {
            Some(elem) => *elem,
            None => None,
        }
    }

    /// The row of the types under a class.
    pub fn mask(&self, u: TargetId) -> &[u64]
        requires { u.0 < length self.now.masks }
        ensures { result.now ≡ slice_index_or self.now.masks u.0 [] }
    {
        self.masks.as_slice()[u.0 as usize].as_slice()
    }

    /// The keys of a switch.
    pub fn keys(&self, place: u32) -> &[i32]
        requires { place < length self.now.keys }
        ensures { result.now ≡ slice_index_or self.now.keys place [] }
    {
        self.keys.as_slice()[place as usize].as_slice()
    }

    /// The candidate that a type picks at a site; none exactly where it picks none.
    pub fn picks(&self, site: u32, t: TypeId) -> Option<u32>
        requires { site < length self.now.sites }
        ensures { result ≡ pick_of (table_of self.now.tables self.now.sites site) t.0 }
    {
        self.picks_by_number(site, t.0 as u64)
    }

    /// The same by the number of the type, which may be that of no type.
    pub fn picks_by_number(&self, site: u32, t: u64) -> Option<u32>
        requires { site < length self.now.sites }
        ensures { result ≡ pick_of (table_of self.now.tables self.now.sites site) t }
    {
        picked(self.table(site), t)
    }

    /// What types pick at a site.
    pub(crate) fn table(&self, site: u32) -> &[Pick]
        requires { site < length self.now.sites }
        ensures table { result.now ≡ table_of self.now.tables self.now.sites site }
        ensures ascends { Ascends result.now }
    {
        let table = self.sites.as_slice()[site as usize];
        self.tables.as_slice()[table as usize].as_slice()
    }
}
