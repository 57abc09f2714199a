//! What all call sites call, and the links of a program.

ghost use Rattle.std.specs.Prelude.{◌<◌, ◌^◌, IfOk, OnOk, All, length};
ghost use Rattle.wf_classes.specs.Members.{method_keys, member_count};
ghost use Rattle.wf_classes.specs.Own.{IsMethod};
ghost use Rattle.wf_links.specs.Sites.{sites_in};
ghost use Rattle.wf_links.specs.Candidates.{AreLinks, AreCalled, AreCalledIn, AreCalledBelow, Goes, AreTables, IsThereIfAny};

use crate::callee::{Callee, callee_at};
use crate::candidates::table_if_any;
use crate::linked::Links;
use crate::sharing::share;
use crate::site::{instructions_of, is_site};
use std::alloc::{AllocError, Global};
use wf_base::{Items, MethodId};
use wf_classes::{DeclaredMethod, declared_method};
use wf_data::Placed;
use wf_subtype::Types;
use wf_system::Pick;

/// Adds what an instruction calls, where it is a site.
#[tactic(auto, using(crate::proofs::Calling::goes_past))]
fn push_call(
    types: &Types,
    m: MethodId,
    declared: &DeclaredMethod<'_>,
    placed: &Placed,
    called: &mut Vec<Option<Callee>>,
) -> Result<(), AllocError>
    requires class_in { declared.now.class.0 < length types.now.classes }
    requires is { IsMethod types.now.classes m.0 declared.now.class.0 declared.now.info.now }
    ensures { OnOk result (Goes types.now m placed.now called.old.items called.new.items) }
{
    if !is_site(&placed.instr) {
        return Ok(());
    }
    let class = declared.class;
    let pool = types.classes().list().as_slice()[class.0 as usize]
        .pool
        .as_slice();
    called.push(callee_at(types, class, pool, &placed.instr))?;
    Ok(())
}

/// What the sites of a method call, in the order of their places.
#[tactic(auto, using(crate::proofs::Calling::no_sites, crate::proofs::Calling::sites_on))]
fn called_at(
    alloc: Global,
    types: &Types,
    m: MethodId,
    declared: &DeclaredMethod<'_>,
    code: &[Placed],
) -> Result<Vec<Option<Callee>>, AllocError>
    requires class_in { declared.now.class.0 < length types.now.classes }
    requires is { IsMethod types.now.classes m.0 declared.now.class.0 declared.now.info.now }
    ensures { IfOk result (λ called. AreCalled types.now (sites_in m code.now) called.items) }
{
    let mut called = Vec::new(alloc);
    for placed in code {
        push_call(types, m, declared, placed, &mut called)?;
    }
    Ok(called)
}

/// What the sites of a method call, by its number.
fn called_in(alloc: Global, types: &Types, m: MethodId) -> Result<Vec<Option<Callee>>, AllocError>
    requires { m.0 < member_count (method_keys types.now.classes) }
    ensures { IfOk result (λ called. AreCalledIn types.now m called.items) }
{
    let classes = types.classes();
    let _ = classes.list();
    let declared = declared_method(classes, m);
    let code = instructions_of(alloc, declared.info)?;
    called_at(alloc, types, m, &declared, code.as_slice())
}

/// What all sites call, and the first site of each method.
#[derive(Drop)]
struct Called {
    firsts: Vec<u32>,
    callees: Vec<Option<Callee>>,
}

/// What the sites of all methods call.
#[tactic(auto, using(crate::proofs::Calling::none_below, crate::proofs::Calling::below_on))]
fn all_called(alloc: Global, types: &Types) -> Result<Called, AllocError>
    ensures called { IfOk result (λ called. AreCalledBelow types.now (member_count (method_keys types.now.classes)) called.firsts.items called.callees.items) }
    ensures few { IfOk result (λ called. length called.callees.items < 2 ^ 32) }
{
    let mut firsts = Vec::new(alloc);
    let mut callees = Vec::new(alloc);
    for n in 0..types.classes().methods() {
        let found = called_in(alloc, types, MethodId(n))?;
        firsts.push(callees.len() as u32)?;
        callees.extend_from_slice(found.as_slice())?;

        // All code has at most 2^29 bytes, so this isn't met, which no proof counts here.
        if callees.len() > 4294967295 {
            return Err(AllocError);
        }
    }
    Ok(Called { firsts, callees })
}

/// The tables of all that is called.
#[derive(Drop)]
struct Tables {
    candidates: Items<Items<MethodId>>,
    picks: Items<Items<Pick>>,
}

#[tactic(auto, using(crate::proofs::Tables::no_tables))]
fn tables_of(alloc: Global, types: &Types, callees: &[Option<Callee>]) -> Result<Tables, AllocError>
    requires { All (IsThereIfAny types.now) callees.now }
    ensures { IfOk result (λ tables. AreTables types.now callees.now tables.candidates tables.picks) }
{
    let mut candidates = Vec::with_capacity(alloc, callees.len())?;
    let mut picks = Vec::with_capacity(alloc, callees.len())?;
    for callee in callees {
        let table = table_if_any(alloc, types, *callee)?;
        candidates.push(table.candidates)?;
        picks.push(table.picks)?;
    }
    Ok(Tables {
        candidates: Items::from_vec(candidates),
        picks: Items::from_vec(picks),
    })
}

/// The links of the types of a run. A site is an instruction that calls a method of an object, in a code that is
/// instructions as a whole; sites are numbered by method and then by place. One that doesn't resolve has no candidates.
/// What several sites call alike is looked up once.
#[tactic(auto, using(crate::proofs::Linking::links_are))]
pub fn links_of(alloc: Global, types: &Types) -> Result<Links, AllocError>
    ensures { IfOk result (AreLinks types.now) }
{
    let called = all_called(alloc, types)?;
    let shared = share(alloc, called.callees.as_slice())?;
    let tables = tables_of(alloc, types, shared.callees.as_slice())?;
    Ok(Links {
        candidates: tables.candidates,
        tables: tables.picks,
        sites: Items::from_vec(shared.places),
        firsts: Items::from_vec(called.firsts),
    })
}
