//! What is known before each place of a method.

ghost use Rattle.std.specs.Prelude.{◌≡◌, ℕ, ◌<◌, ◌≤◌, ◌↔◌, Bool, true, false, List, length, map, min, is_some, IfOk, IfSome, Ok, Err, Some, None};
ghost use Rattle.std.specs.Option.{option_map_or};
ghost use Rattle.wf_blocks.specs.Answers.{most, step_pc, place_of, edges_in, AreReached, ReachesPc, HasDepth, HasSlots};
ghost use Rattle.wf_blocks.specs.Bodies.{graph_of, starts_at, BodyFits};
ghost use Rattle.wf_blocks.specs.Graphs.{BadPaths, KindIs, Reached};
ghost use Rattle.wf_blocks.specs.Kinds.{HasKindIs, HasSlotCount, HasMarks};
ghost use Rattle.wf_blocks.specs.Methods.{body_of, HasShape};
ghost use Rattle.wf_blocks.specs.declared.blocks.ShapeFault.TheVariants.{Shape};

use crate::back::{count_at, seen_in};
use crate::body::Body;
use crate::counts::counts_of;
use crate::first::settled_rows;
use crate::marks::starts_of;
use crate::method::body_of;
use crate::places::Places;
use crate::seen::kind_seen;
use crate::walk::{Row, is_start};
use crate::ways::ways_of;
use std::alloc::{AllocError, Global};
use std::marker::Model;
use wf_base::Items;
use wf_data::{ClassInfo, CodeInfo, Placed};
use wf_descriptor::MethodDesc;
use wf_operation::SlotKind;

/// Why a method has no blocks.
#[derive(Clone, Copy, Debug, PartialEq, Eq)]
pub enum ShapeFault {
    /// Its instructions don't fit together.
    Shape,
    NoMemory,
}

/// What is known before each place of a method whose instructions fit together: whether a path from the entry leads
/// there, and which kind every path leaves in each slot. A contract sees it as the method's body.
///
/// Rows of slots are kept for the starts of blocks alone, so that the memory is the number of reached starts times the
/// number of slots there; `kind` walks back to the start of its block.
#[derive(Debug, Drop)]
pub struct Blocks {
    body: Body,
    places: Places,
    starts: Items<bool>,
    rows: Vec<Row>,
    counts: Items<Option<u32>>,
    ways: Items<u32>,
}

impl From<AllocError> for ShapeFault {
    ghost use Rattle.std.specs.Prelude.{◌≡◌};
    ghost use Rattle.wf_blocks.specs.declared.blocks.ShapeFault.TheVariants.{NoMemory};

    ghost from_gives = { λ _ e. e ≡ NoMemory };

    fn from(_: AllocError) -> ShapeFault {
        ShapeFault::NoMemory
    }
}

impl Model for Blocks {
    ghost use Rattle.wf_blocks.specs.Answers.{AreBlocks};
    ghost use Rattle.wf_blocks.specs.declared.body.Body.{Body};

    ghost Value = { Body };

    ghost view = { λ b. b.body };

    ghost invariant = { λ b. AreBlocks b.body b.places b.starts b.rows.items b.counts b.ways };
}

/// The blocks of a body.
fn blocks_of(alloc: Global, body: Body, places: Places) -> Result<Option<Blocks>, AllocError>
    requires fits { BodyFits body }
    requires same { places ≡ map step_pc body.steps }
    ensures found { IfOk result (λ o. IfSome o (λ blocks. (blocks ≡ body) × (BadPaths (graph_of body) → ⊥))) }
    ensures bad { result ≡ Ok None → BadPaths (graph_of body) }
{
    let starts = starts_of(alloc, &body)?;
    match settled_rows(alloc, &body, starts.as_slice())? {
        None => Ok(None),
        Some(rows) => {
            let counts = counts_of(alloc, &body, starts.as_slice(), rows.as_slice())?;
            let ways = ways_of(alloc, &body, counts.as_slice())?;
            Ok(Some(Blocks {
                body,
                places,
                starts,
                rows,
                counts,
                ways,
            }))
        }
    }
}

/// Finds what is known before each place of a method (JVMS 4.10.1, over all finite paths from the entry in place of one
/// merged state). Answers `Shape` exactly where the method's table or entry doesn't fit, a path meets a fault, or paths
/// differ in the depth of the stack at a place. It takes at most the number of reached block starts times the slots of
/// the method times five visits of a block, and near one visit of each on what compilers write.
pub fn shape_of(
    alloc: Global,
    desc: &MethodDesc,
    is_static: bool,
    class: &ClassInfo,
    info: &CodeInfo,
    code: &Items<Placed>,
) -> Result<Blocks, ShapeFault>
    requires { length code.now ≤ 65535 }
    ensures body { IfOk result (λ blocks. Some blocks ≡ body_of desc.now is_static class.now.pool info.now code.now) }
    ensures fits { IfOk result (λ _. HasShape (body_of desc.now is_static class.now.pool info.now code.now) → ⊥) }
    ensures shape { result ≡ Err Shape → HasShape (body_of desc.now is_static class.now.pool info.now code.now) }
{
    let places = Places::new(alloc, code.as_slice())?;
    let pool = class.pool.as_slice();
    match body_of(alloc, desc, is_static, pool, info, code.as_slice(), &places)? {
        None => Err(ShapeFault::Shape),
        Some(body) => match blocks_of(alloc, body, places)? {
            None => Err(ShapeFault::Shape),
            Some(blocks) => Ok(blocks),
        },
    }
}

impl Blocks {
    /// The code of the method, by the numbers of its places.
    pub fn body(&self) -> &Body
        ensures { result.now ≡ self.now }
    {
        &self.body
    }

    /// The number of the place that stands so many bytes from the start of the code.
    pub fn place_of(&self, pc: u16) -> Option<usize>
        ensures place { result ≡ place_of self.now pc }
        ensures low { IfSome result (λ p. p < length self.now.steps) }
    {
        self.places.number_of(pc)
    }

    /// Whether a block starts at the place of this number.
    pub fn starts(&self, place: usize) -> bool
        requires { place < length self.now.steps }
        ensures { result ≡ starts_at self.now place }
    {
        is_start(self.starts.as_slice(), place)
    }

    /// How many slots there are in front of the place of this number. None where no path leads there.
    pub fn slots(&self, place: usize) -> Option<u32>
        ensures every { (n : ℕ) → result ≡ Some n → HasSlots self.now place n }
        ensures reached { Reached (graph_of self.now) place ↔ (is_some result ≡ true) }
    {
        count_at(self.counts.as_slice(), place)
    }

    /// How many ways lead into the place of this number from places that a path reaches, those into handlers aside.
    /// The entry is one of them. No code of 65535 bytes has more of them than a number of four bytes says.
    pub fn ways(&self, place: usize) -> u32
        requires { place < length self.now.steps }
        ensures { (marks : List Bool) → AreReached self.now marks → result ≡ min most (edges_in self.now marks place) }
    {
        self.ways.as_slice()[place]
    }

    /// The kind that every path leaves in a slot in front of the place of this number, else `Unused`.
    pub fn kind_in(&self, place: usize, slot: usize) -> SlotKind
        requires { place < length self.now.steps }
        ensures { Reached (graph_of self.now) place → KindIs (graph_of self.now) place slot result }
    {
        let counts = self.counts.as_slice();
        if count_at(counts, place).is_some() {
            let starts = self.starts.as_slice();
            kind_seen(seen_in(
                &self.body,
                starts,
                self.rows.as_slice(),
                counts,
                place,
                slot,
            ))
        } else {
            SlotKind::Unused
        }
    }

    /// Each place that a path reaches has one number of slots, and each slot there has a kind. Those places can be marked.
    pub fn has_kinds(&self)
        ensures kinds { (place slot : ℕ) → Reached (graph_of self.now) place → HasKindIs (graph_of self.now) place slot }
        ensures slots { (place : ℕ) → Reached (graph_of self.now) place → HasSlotCount self.now place }
        ensures marks { HasMarks self.now }
    {
        let _body = &self.body;
    }

    /// Whether a block starts at a place.
    pub fn is_start(&self, pc: u16) -> bool
        ensures { result ≡ option_map_or (starts_at self.now) (place_of self.now pc) false }
    {
        match self.place_of(pc) {
            Some(place) => self.starts(place),
            None => false,
        }
    }

    /// How many ways lead into a place, as `ways` says.
    pub fn edges_in(&self, pc: u16) -> u32
        ensures { (marks : List Bool) (place : ℕ) → AreReached self.now marks → place_of self.now pc ≡ Some place → result ≡ min most (edges_in self.now marks place) }
    {
        match self.place_of(pc) {
            Some(place) => self.ways(place),
            None => 0,
        }
    }

    /// Whether a path from the entry leads to a place, over jumps, fall-through and handlers.
    pub fn is_reached(&self, pc: u16) -> bool
        ensures { ReachesPc self.now pc ↔ (result ≡ true) }
    {
        match self.place_of(pc) {
            Some(place) => self.slots(place).is_some(),
            None => false,
        }
    }

    /// The kind that every path to a place leaves in a slot, else `Unused`. The locals are numbered from 0, the cells of
    /// the stack from the number of locals on. It takes the time of a walk back to the start of the place's block.
    pub fn kind(&self, pc: u16, slot: u32) -> SlotKind
        ensures { (place : ℕ) → place_of self.now pc ≡ Some place → Reached (graph_of self.now) place → KindIs (graph_of self.now) place slot result }
    {
        match self.place_of(pc) {
            Some(place) => self.kind_in(place, slot as usize),
            None => SlotKind::Unused,
        }
    }

    /// How many cells every path to a place leaves on the stack.
    pub fn depth(&self, pc: u16) -> u16
        ensures { (place : ℕ) → place_of self.now pc ≡ Some place → Reached (graph_of self.now) place → HasDepth self.now place result }
    {
        match self.place_of(pc) {
            Some(place) => match self.slots(place) {
                Some(slots) => (slots as usize - self.body.entry.len()) as u16,
                None => 0,
            },
            None => 0,
        }
    }
}
