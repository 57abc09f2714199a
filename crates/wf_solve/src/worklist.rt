ghost use Rattle.std.specs.Prelude.{◌≡◌, ◌≢◌, ◌<◌, ◌≤◌, ℕ, length, MatchOption, IfSome, IfNone, IfOk, slice_index};
ghost use Rattle.std.specs.Int.{bit_at};
ghost use Rattle.wf_solve.specs.Work.{Adds, Takes, IsDone, HasAll, IsLast};

use std::alloc::{AllocError, Global};
use std::marker::Model;
use wf_base::NodeId;

/// The nodes that are still to be looked at, a bit each, and the word where the search for the next one goes
/// on. A contract sees it as the number of nodes that it was opened for and the words of the bits.
#[derive(Debug, Drop)]
pub struct Worklist {
    nodes: u32,
    bits: Vec<u64>,
    at: usize,
}

impl Model for Worklist {
    ghost use Rattle.wf_solve.specs.Work.{Work, work_of, IsKept};

    ghost Value = { Work };

    ghost view = { λ w. work_of w.nodes w.bits.items };

    ghost invariant = { λ w. IsKept (work_of w.nodes w.bits.items) };
}

/// The place of the lowest bit that is set.
fn lowest_bit(word: u64) -> u32
    requires { word ≢ 0 }
    ensures below { result < 64 }
    ensures set { bit_at word result ≡ 1 }
{
    word.trailing_zeros()
}

/// The first word from a place on that isn't 0.
fn first_set(bits: &[u64], from: usize) -> Option<usize>
    ensures none { IfNone result ((k : ℕ) → from ≤ k → slice_index bits.now k ≡ 0) }
    ensures some { IfSome result (λ k. (k < length bits.now) × (slice_index bits.now k ≢ 0)) }
{
    for k in from..bits.len() {
        if bits[k] != 0 {
            return Some(k);
        }
    }
    None
}

impl Worklist {
    /// An empty list for nodes below a number.
    pub fn open(alloc: Global, nodes: u32) -> Result<Worklist, AllocError>
        ensures done { IfOk result (λ w. IsDone w) }
        ensures nodes { IfOk result (λ w. w.nodes ≡ nodes) }
    {
        let bits = vec![in alloc; 0u64; nodes as usize / 64 + 1]?;
        Ok(Worklist { nodes, bits, at: 0 })
    }

    /// A list of all nodes below a number.
    pub fn all(alloc: Global, nodes: u32) -> Result<Worklist, AllocError>
        ensures all { IfOk result (λ w. HasAll w) }
        ensures nodes { IfOk result (λ w. w.nodes ≡ nodes) }
    {
        let mut work = Worklist::open(alloc, nodes)?;
        for n in 0..nodes {
            work.add(NodeId(n));
        }
        Ok(work)
    }

    /// Puts a node on the list.
    pub fn add(&mut self, n: NodeId)
        requires { n.0 < self.old.nodes }
        ensures { Adds n.0 self.old self.new }
    {
        let place = n.0 as usize / 64;
        self.bits[place] = self.bits[place] | (1u64 << (n.0 % 64));
    }

    /// Takes a node off the list, if there is one.
    pub fn take(&mut self) -> Option<NodeId>
        ensures { MatchOption result (IsDone self.old × (self.new ≡ self.old)) (λ n. Takes n.0 self.old self.new) }
    {
        match first_set(self.bits.as_slice(), self.at) {
            Some(place) => Some(self.take_at(place)),
            None => match first_set(self.bits.as_slice(), 0) {
                Some(place) => Some(self.take_at(place)),
                None => None,
            },
        }
    }

    /// Takes a node off the list, if there is one, and that one only where no other is there.
    pub fn take_before(&mut self, last: NodeId) -> Option<NodeId>
        ensures taken { MatchOption result (IsDone self.old × (self.new ≡ self.old)) (λ n. Takes n.0 self.old self.new) }
        ensures order { IfSome result (λ n. IsLast n.0 last.0 self.old) }
    {
        match self.take() {
            None => None,
            Some(first) => {
                if first.0 != last.0 {
                    return Some(first);
                }
                match self.take() {
                    None => Some(first),
                    Some(other) => {
                        self.add(first);
                        Some(other)
                    }
                }
            }
        }
    }

    /// Takes the least node of a word off the list.
    fn take_at(&mut self, place: usize) -> NodeId
        requires inside { place < length self.old.bits }
        requires some { slice_index self.old.bits place ≢ 0 }
        ensures { Takes result.0 self.old self.new }
    {
        let word = self.bits[place];
        let bit = lowest_bit(word);
        self.bits[place] = word & !(1u64 << bit);
        self.at = place;
        NodeId(place as u32 * 64 + bit)
    }
}
