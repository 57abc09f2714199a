//! The candidates of what is called, and which of them each type picks.

ghost use Rattle.std.specs.Prelude.{◌≡◌, ◌<◌, ◌^◌, Contains, Some, length, slice_get, IfOk};
ghost use Rattle.wf_links.specs.Candidates.{AreAscending, AreMethodsOf, AreTableOf, IsTable, IsTableIfAny, IsThere, IsThereIfAny};

use crate::callee::Callee;
use crate::picking::{Chosen, choices};
use std::alloc::{AllocError, Global};
use wf_base::{Items, MethodId};
use wf_subtype::Types;
use wf_system::Pick;

/// The candidates of what is called, and the candidate of each type that picks one.
#[derive(Drop)]
pub struct Table {
    pub candidates: Items<MethodId>,
    pub picks: Items<Pick>,
}

/// The methods that types select, in their order, each once.
fn methods_of(alloc: Global, chosen: &[Chosen]) -> Result<Vec<MethodId>, AllocError>
    ensures { IfOk result (λ methods. AreMethodsOf chosen.now methods.items) }
{
    let mut methods = Vec::with_capacity(alloc, chosen.len())?;
    for choice in chosen {
        methods.push(choice.method)?;
    }
    methods.sort()?;
    methods.dedup();
    Ok(methods)
}

/// The place of a method that is among the candidates.
fn place_of(candidates: &[MethodId], m: MethodId) -> usize
    requires ascending { AreAscending candidates.now }
    requires there { Contains candidates.now m }
    ensures { slice_get candidates.now result ≡ Some m }
{
    match candidates.binary_search(&m) {
        Ok(place) => place,
        Err(_) => unreachable!(),
    }
}

/// The candidate of each type that selects one.
fn picks_of(
    alloc: Global,
    candidates: &[MethodId],
    chosen: &[Chosen],
) -> Result<Items<Pick>, AllocError>
    requires few { length candidates.now < 2 ^ 32 }
    requires all { AreMethodsOf chosen.now candidates.now }
    ensures { IfOk result (AreTableOf candidates.now chosen.now) }
{
    let mut picks = Vec::with_capacity(alloc, chosen.len())?;
    for choice in chosen {
        let candidate = place_of(candidates, choice.method) as u32;
        picks.push(Pick {
            t: choice.t,
            candidate,
        })?;
    }
    Ok(Items::from_vec(picks))
}

/// The table of what is called.
fn table_of(alloc: Global, types: &Types, callee: Callee) -> Result<Table, AllocError>
    requires { IsThere types.now callee }
    ensures { IfOk result (λ table. IsTable types.now callee table.candidates table.picks) }
{
    let chosen = choices(alloc, types, callee)?;
    let candidates = methods_of(alloc, chosen.as_slice())?;

    // There are no more candidates than types, which no proof counts here.
    if candidates.len() > 4294967295 {
        return Err(AllocError);
    }
    let picks = picks_of(alloc, candidates.as_slice(), chosen.as_slice())?;
    Ok(Table {
        candidates: Items::from_vec(candidates),
        picks,
    })
}

/// The same; it is empty where nothing is called.
pub fn table_if_any(
    alloc: Global,
    types: &Types,
    callee: Option<Callee>,
) -> Result<Table, AllocError>
    requires { IsThereIfAny types.now callee }
    ensures { IfOk result (λ table. IsTableIfAny types.now callee table.candidates table.picks) }
{
    match callee {
        Some(callee) => table_of(alloc, types, callee),
        None => Ok(Table {
            candidates: Items::new(alloc),
            picks: Items::new(alloc),
        }),
    }
}
