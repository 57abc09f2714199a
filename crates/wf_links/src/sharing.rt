//! What sites call, each once.

ghost use Rattle.std.specs.Prelude.{◌≡◌, IfOk, OnOk};
ghost use Rattle.wf_links.specs.Candidates.{Adds, AreShared};

use crate::callee::Callee;
use indexmap::IndexSet;
use std::alloc::{AllocError, Global};

/// What sites call, each once, and for each site the place of what it calls.
#[derive(Drop)]
pub struct Shared {
    pub callees: IndexSet<Option<Callee>>,
    pub places: Vec<u32>,
}

/// The place of a call among those that were met, behind which it is put where it is new.
fn place_of(met: &mut IndexSet<Option<Callee>>, callee: Option<Callee>) -> Result<usize, AllocError>
    ensures { IfOk result (λ place. Adds met.old.keys met.new.keys callee place) }
{
    let (place, _) = met.insert_full(callee)?;
    Ok(place)
}

/// What sites call, each once, in the order of the first site that calls it.
#[tactic(auto, using(crate::proofs::SharedCalls::none_shared, crate::proofs::SharedCalls::shared_on))]
pub fn share(alloc: Global, called: &[Option<Callee>]) -> Result<Shared, AllocError>
    ensures { IfOk result (λ shared. AreShared called.now shared.callees.keys shared.places.items) }
{
    let mut callees = IndexSet::new(alloc);
    let mut places = Vec::with_capacity(alloc, called.len())?;
    for callee in called {
        let place = place_of(&mut callees, *callee)?;

        // There are fewer than 2^32 sites.
        if place > 4294967295 {
            return Err(AllocError);
        }
        places.push(place as u32)?;
    }
    Ok(Shared { callees, places })
}
