//! What the instructions of a method do.

ghost use Rattle.std.specs.Prelude.{◌≡◌, ◌+◌, ◌<◌, ◌^◌, length, true, IfOk, if◌then◌else◌};
ghost use Rattle.std.specs.List.{count_by};
ghost use Rattle.std.specs.Option.{option_copied};
ghost use Rattle.wf_actions.specs.Literals.{AreFieldsThere};
ghost use Rattle.wf_links.specs.Sites.{is_site};
ghost use Rattle.wf_body.specs.Each.{AreEach};
ghost use Rattle.wf_body.specs.Sources.{is_site_at};
ghost use Rattle.wf_body.specs.Methods.{IsActBy, IsActAt};

use crate::parts::Parts;
use crate::source::Source;
use std::alloc::{AllocError, Global};
use wf_actions::{Instruction, action_of};
use wf_base::Items;
use wf_blocks::{Body, operation_at};
use wf_data::{Instr, Placed};
use wf_links::is_site;
use wf_operation::Operation;
use wf_rows::Action;

/// What an instruction does, which is the site of this number where it is one.
fn act_by(
    alloc: Global,
    parts: &Parts<'_>,
    source: &Source<'_>,
    site: u32,
    at: &Placed,
    operation: Option<&Operation>,
) -> Result<Option<Action>, AllocError>
    requires { AreFieldsThere parts.now.types.classes parts.now.literals }
    ensures { IfOk result (λ act. IsActBy parts.now source.now site at.now (option_copied operation.entry) act) }
{
    let Some(operation) = operation else {
        return Ok(None);
    };
    let instruction = Instruction {
        pool: source.class.pool.as_slice(),
        instr: &at.instr,
        operation,
        site,
        candidates: parts.candidates(site),
    };
    action_of(alloc, parts.types, parts.literals, &instruction)
}

/// The number of the site behind an instruction.
fn site_behind(site: u32, instr: &Instr) -> u32
    requires { is_site instr.now ≡ true → site + 1 < 2 ^ 32 }
    ensures { result ≡ site + (if is_site instr.now then 1 else 0) }
{
    if is_site(instr) { site + 1 } else { site }
}

/// What the instructions of a method do, place by place.
#[tactic(auto, using(crate::proofs::Lists::none_yet, crate::proofs::Lists::one_more, crate::proofs::Sites::more_sites, crate::proofs::Sites::site_within))]
pub fn acts_of(
    alloc: Global,
    parts: &Parts<'_>,
    source: &Source<'_>,
    placed: &[Placed],
    body: &Body,
) -> Result<Items<Option<Action>>, AllocError>
    requires fields { AreFieldsThere parts.now.types.classes parts.now.literals }
    requires few { source.now.first_site + count_by is_site_at placed.now < 2 ^ 32 }
    ensures { IfOk result (λ acts. AreEach (IsActAt parts.now source.now placed.now body.now) (length placed.now) acts) }
{
    let mut acts = Vec::new(alloc);
    let mut site = source.first_site;
    for (place, at) in placed.iter().enumerate() {
        let operation = operation_at(body, place);
        acts.push(act_by(alloc, parts, source, site, at, operation)?)?;
        site = site_behind(site, &at.instr);
    }
    Ok(Items::from_vec(acts))
}
