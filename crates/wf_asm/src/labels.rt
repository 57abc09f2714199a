//! The labels of a body and their places.

ghost use Rattle.std.specs.Prelude.{◌≡◌, ◌==◌, ◌+◌, ◌*◌, ◌^◌, ◌≤◌, min, [], length, IfOk, OnOk};
ghost use Rattle.wf_opcode.specs.Instructions.{padding};
ghost use Rattle.wf_asm.specs.Building.{spot_of, address_of, short_address_of, is_first, behind, labels_on, size_of_item, size_of_step, with_label, with_label_of};

use crate::pool::Pool;
use indexmap::IndexMap;
use std::alloc::{AllocError, Global};
use std::marker::Model;
use wf_listing::{Item, Statement, Step};

/// How far places are counted: no jump reaches further.
const FAR: usize = 4294967296;

/// Where a label is, and the line that gives it.
#[derive(Clone, Copy, Debug)]
pub struct Spot {
    pub at: usize,
    pub line: u32,
}

/// Labels with their places, in the order in which they stand.
#[derive(Drop)]
pub struct Labels<'a> {
    places: IndexMap<&'a [u8], Spot>,
}

impl<'a> Model for Labels<'a> {
    ghost use Rattle.std.specs.Prelude.{List, map};
    ghost use Rattle.wf_asm.specs.Building.{Label};

    ghost Value = { List Label };

    ghost view = { λ l. map (λ e. (e.0.now, e.1)) l.places.entries };
}

impl<'a> Labels<'a> {
    fn new(alloc: Global) -> Labels<'a>
        ensures { result ≡ [] }
    {
        Labels {
            places: IndexMap::new(alloc),
        }
    }

    fn spot(&self, name: &[u8]) -> Option<Spot>
        ensures { result ≡ spot_of self.now name.now }
    {
        self.places.get(name).copied()
    }

    /// Where a label is.
    pub fn place(&self, name: &[u8]) -> Option<usize>
        ensures { result ≡ address_of self.now name.now }
    {
        Some(self.spot(name)?.at)
    }

    /// Where a label is, in two bytes.
    pub fn short_place(&self, name: &[u8]) -> Option<u16>
        ensures { result ≡ short_address_of self.now name.now }
    {
        u16::try_from(self.place(name)?).ok()
    }

    /// Whether this line is the first that gives the label.
    pub fn is_first(&self, name: &[u8], line: u32) -> bool
        ensures { result ≡ is_first self.now name.now line }
    {
        match self.spot(name) {
            Some(spot) => spot.line == line,
            None => false,
        }
    }

    /// Adds a label, if it isn't there.
    fn add(&mut self, name: &'a [u8], spot: Spot) -> Result<(), AllocError>
        ensures { OnOk result (self.new ≡ with_label self.old name.now spot) }
    {
        if self.spot(name).is_some() {
            return Ok(());
        }
        self.places.insert(name, spot)?;
        Ok(())
    }

    fn add_item(&mut self, at: usize, line: u32, item: &'a Item) -> Result<(), AllocError>
        ensures { OnOk result (self.new ≡ with_label_of self.old at line item.now) }
    {
        match item {
            Item::Label(name) => self.add(name.as_slice(), Spot { at, line }),
            _ => Ok(()),
        }
    }
}

/// How many bytes stand between the opcode of a switch and the next multiple of four.
pub fn padding(at: usize) -> usize
    ensures { result ≡ padding at }
{
    3 - at % 4
}

/// How many bytes an instruction takes, up to `FAR`.
fn size_of_step(pool: &Pool, at: usize, step: &Step) -> usize
    requires { length pool.now ≤ 65534 }
    ensures { result ≡ min (size_of_step pool.now at step.now) FAR }
{
    match step {
        Step::Fixed(bytes) => bytes.as_slice().len().min(FAR),
        Step::Jump(_, _) => 3,
        Step::FarJump(_, _) => 5,
        Step::Table(table) => {
            let keys = table.targets.len().min(FAR);
            (13 + padding(at) + 4 * keys).min(FAR)
        }
        Step::Lookup(lookup) => {
            let cases = lookup.cases.len().min(FAR);
            (9 + padding(at) + 8 * cases).min(FAR)
        }
        Step::Use(used) => {
            let rest = used.rest.as_slice().len().min(FAR);
            (3 + rest).min(FAR)
        }
        Step::Load(constant) => { if pool.place(constant) <= 255 { 2 } else { 3 } }
    }
}

fn size_of_item(pool: &Pool, at: usize, item: &Item) -> usize
    requires { length pool.now ≤ 65534 }
    ensures { result ≡ min (size_of_item pool.now at item.now) FAR }
{
    match item {
        Item::Step(step) => size_of_step(pool, at, step),
        _ => 0,
    }
}

/// The place behind an item.
fn behind(pool: &Pool, at: usize, item: &Item) -> usize
    requires few { length pool.now ≤ 65534 }
    requires near { at ≤ 2 ^ 32 }
    ensures place { result ≡ behind pool.now at item.now }
    ensures near { result ≤ 2 ^ 32 }
{
    (at + size_of_item(pool, at, item)).min(FAR)
}

/// The labels of a body.
pub fn labels_of<'a>(
    alloc: Global,
    pool: &Pool,
    body: &'a [Statement],
) -> Result<Labels<'a>, AllocError>
    requires { length pool.now ≤ 65534 }
    ensures { IfOk result (λ labels. labels ≡ labels_on pool.now 0 [] body.now) }
{
    let mut labels = Labels::new(alloc);
    let mut at = 0;
    for statement in body {
        labels.add_item(at, statement.line, &statement.says)?;
        at = behind(pool, at, &statement.says);
    }
    Ok(labels)
}
