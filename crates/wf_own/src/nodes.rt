//! The list of the nodes of a body, in which a node is found by its name.

ghost use Rattle.std.specs.Prelude.{◌≡◌, ℕ, ◌+◌, ◌<◌, ◌^◌, List, [], ◌∷◌, ◌++◌, length, position, OnOk, OnErr, IfSome};
ghost use Rattle.indexmap.specs.IndexMap.{IsUnchanged};
ghost use Rattle.wf_rows.specs.declared.node.Own.{Own};
ghost use Rattle.wf_own.specs.OwnNumbers.{same_own, own_number};
ghost use Rattle.wf_own.specs.Places.{ArePlaces};

use indexmap::IndexMap;
use std::alloc::{AllocError, Global};
use std::marker::Model;
use wf_rows::Own;

/// The nodes of one body of a method, each with its place. A contract sees it as their list.
#[derive(Drop)]
pub struct OwnNodes {
    nodes: Vec<Own>,
    /// The first place of each node.
    places: IndexMap<Own, usize>,
}

impl Model for OwnNodes {
    ghost use Rattle.std.specs.Prelude.{List};
    ghost use Rattle.wf_rows.specs.declared.node.Own.{Own};
    ghost use Rattle.wf_own.specs.Places.{ArePlaces};

    ghost Value = { List Own };

    ghost view = { λ n. n.nodes.items };

    ghost invariant = { λ n. ArePlaces n.places n.nodes.items };
}

/// Notes the place of a node behind those that have theirs, where the node isn't among them.
fn note(places: &mut IndexMap<Own, usize>, own: Own, place: usize) -> Result<(), AllocError>
    ensures noted { OnOk result ((nodes : List Own) → length nodes ≡ place → ArePlaces places.old nodes → ArePlaces places.new (nodes ++ own ∷ [])) }
    ensures kept { OnErr result (IsUnchanged places.old places.new) }
{
    if places.contains_key(&own) {
        return Ok(());
    }
    places.insert(own, place)?;
    Ok(())
}

impl OwnNodes {
    /// No nodes.
    pub fn new(alloc: Global) -> OwnNodes
        ensures { result ≡ [] }
    {
        OwnNodes {
            nodes: Vec::new(alloc),
            places: IndexMap::new(alloc),
        }
    }

    /// How many there are. A node that was put in twice counts twice.
    pub fn len(&self) -> usize
        ensures { result ≡ length self.now }
    {
        self.nodes.len()
    }

    /// Puts a node behind the others.
    pub fn push(&mut self, own: Own) -> Result<(), AllocError>
        ensures { OnOk result (self.new ≡ self.old ++ own ∷ []) }
    {
        let place = self.nodes.len();
        self.nodes.push(own)?;
        match note(&mut self.places, own, place) {
            Ok(()) => Ok(()),
            Err(error) => {
                // A node without a place would not be found.
                let _ = self.nodes.pop();
                Err(error)
            }
        }
    }

    /// The first place of a node, where it is there.
    pub fn position(&self, own: Own) -> Option<usize>
        ensures place { result ≡ position (same_own own) self.now }
        ensures within { IfSome result (λ place. place < length self.now) }
    {
        self.places.get(&own).copied()
    }

    /// The number of a node where those of the body begin at `first`.
    pub fn number(&self, first: u64, own: Own) -> Option<u64>
        requires { first + length self.now < 2 ^ 64 }
        ensures { result ≡ own_number first self.now own }
    {
        let place = self.position(own)?;
        Some(first + place as u64)
    }
}
