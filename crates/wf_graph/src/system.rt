//! The inequalities of a method.

ghost use Rattle.std.specs.Prelude.{◌≡◌, ◌+◌, ◌<◌, ◌≤◌, ◌^◌, ℕ, true, false, List, length, IfOk, IfErr, ◌⊎◌};
ghost use Rattle.wf_actions.specs.Literals.{AreFieldsThere};
ghost use Rattle.wf_data.specs.declared.instr.Placed.{Placed};
ghost use Rattle.wf_nodes.specs.Numbering.{shared_count};
ghost use Rattle.wf_nodes.specs.Sharing.{thrown_type};
ghost use Rattle.wf_nodes.specs.Thrown.{type_in};
ghost use Rattle.wf_rows.specs.Renaming.{all_renamed};
ghost use Rattle.wf_rows.specs.declared.throwable.Throwable.{Throwable};
ghost use Rattle.wf_body.specs.Parts.{candidates_of};
ghost use Rattle.wf_body.specs.Sources.{HasSites};
ghost use Rattle.wf_graph.specs.Bodies.{Body, HasKeys, HasKeysOf};
ghost use Rattle.wf_graph.specs.BodyNodes.{body_nodes};
ghost use Rattle.wf_graph.specs.BodyRows.{body_rows};
ghost use Rattle.wf_graph.specs.Numbering.{body_count};
ghost use Rattle.wf_graph.specs.declared.fault.MethodFault.TheVariants.{TooMany, NoMemory};
ghost use Rattle.wf_body.specs.Methods.{failing_of};
ghost use Rattle.wf_graph.specs.Flow.{AreShort, IsBodyBy};
ghost use Rattle.wf_graph.specs.Faults.{IsMethodFault};
ghost use Rattle.wf_graph.specs.MethodSystem.{node_number, IsSystemOf};

use crate::context::BodyContext;
use crate::fault::MethodFault;
use crate::own::own_nodes;
use crate::rows::push_body;
use std::alloc::{AllocError, Global};
use wf_base::{Items, NodeId};
use wf_body::{Parts, Reading, Source, read_method};
use wf_nodes::{SharedNodes, Thrown};
use wf_own::OwnNodes;
use wf_ssa::{Env, environments, reached_are_known};
use wf_system::Inequality;

/// The inequalities of a method.
#[derive(Drop)]
pub struct MethodSystem {
    /// How many nodes of its own the method has.
    pub nodes: u64,
    pub inequalities: Items<Inequality<NodeId>>,
}

/// The inequalities of a method whose nodes have these numbers.
fn inequalities_of(
    alloc: Global,
    context: &BodyContext<'_>,
    reading: &Reading,
    env: &Env<'_>,
    first_keys: u32,
) -> Result<Items<Inequality<NodeId>>, AllocError>
    requires same { env.now.0 ≡ reading.now.blocks }
    requires failing { env.now.1 ≡ reading.now.failing }
    requires keys { HasKeys first_keys reading.now.blocks }
    requires short { AreShort reading.now.acts }
    ensures { IfOk result (λ list. (b : Body) → IsBodyBy reading.now.blocks reading.now.failing reading.now.method reading.now.acts reading.now.handlers b → b.first_keys ≡ first_keys →
        list ≡ all_renamed (node_number context.now.shared.now context.now.first context.now.own.now) (body_rows context.now.shared.now.arrays (type_in context.now.thrown.now) b)) }
{
    let mut rows = Vec::new(alloc);
    push_body(alloc, context, reading, env, first_keys, &mut rows)?;
    Ok(Items::from_vec(rows))
}

/// Whether the nodes of a body have numbers of four bytes, where they begin at `first`.
fn are_few(own: &OwnNodes, first: u64) -> bool
    ensures few { result ≡ true → first + length own.now ≤ 2 ^ 32 }
    ensures many { result ≡ false → 2 ^ 32 < first + length own.now }
{
    match first.checked_add(own.len() as u64) {
        Some(end) => end <= 1 << 32,
        None => false,
    }
}

/// The inequalities of a method that has been read.
fn system_by(
    alloc: Global,
    shared: &SharedNodes,
    thrown: &Thrown,
    reading: &Reading,
    first_keys: u32,
    first: u64,
) -> Result<MethodSystem, MethodFault>
    requires failing { reading.now.failing ≡ failing_of reading.now.blocks reading.now.acts }
    requires keys { HasKeys first_keys reading.now.blocks }
    requires short { AreShort reading.now.acts }
    requires behind { shared_count shared.now ≤ first }
    ensures system { IfOk result (λ m. (b : Body) × IsBodyBy reading.now.blocks reading.now.failing reading.now.method reading.now.acts reading.now.handlers b × (b.first_keys ≡ first_keys) × (m.nodes ≡ body_count b) × (m.inequalities ≡ all_renamed (node_number shared.now first (body_nodes b)) (body_rows shared.now.arrays (type_in thrown.now) b))) }
    ensures fault { IfErr result (λ f. (f ≡ TooMany → (b : Body) × IsBodyBy reading.now.blocks reading.now.failing reading.now.method reading.now.acts reading.now.handlers b × (2 ^ 32 < first + body_count b)) × (f ≡ TooMany ⊎ f ≡ NoMemory)) }
{
    reading.blocks.has_kinds();
    reached_are_known(&reading.blocks);
    let env = environments(alloc, &reading.blocks, &reading.failing)?;
    let own = own_nodes(alloc, reading, &env)?;
    if !are_few(&own, first) {
        return Err(MethodFault::TooMany);
    }
    let context = BodyContext {
        shared,
        thrown,
        own: &own,
        first,
    };
    let inequalities = inequalities_of(alloc, &context, reading, &env, first_keys)?;
    Ok(MethodSystem {
        nodes: own.len() as u64,
        inequalities,
    })
}

/// Finds the inequalities of a method, whose own nodes have the numbers from `first` on. It is read as `read_method` says; the
/// limit on its nodes is looked at before its inequalities are made.
pub fn system_of(
    alloc: Global,
    parts: &Parts<'_>,
    shared: &SharedNodes,
    thrown: &Thrown,
    source: &Source<'_>,
    first_keys: u32,
    first: u64,
) -> Result<MethodSystem, MethodFault>
    requires fields { AreFieldsThere parts.now.types.classes parts.now.literals }
    requires sites { HasSites source.now }
    requires short { length source.now.code.code ≤ 65535 }
    requires candidates { (site : ℕ) → length (candidates_of parts.now.links site) < 2 ^ 32 }
    requires keys { HasKeysOf source.now first_keys }
    requires behind { shared_count shared.now ≤ first }
    requires thrown { (error : Throwable) → type_in thrown.now error ≡ thrown_type parts.now.types error }
    ensures system { IfOk result (λ m. IsSystemOf parts.now shared.now source.now first_keys first m.nodes m.inequalities) }
    ensures fault { IfErr result (λ f. IsMethodFault parts.now source.now first f) }
{
    let reading = read_method(alloc, parts, source)?;
    system_by(alloc, shared, thrown, &reading, first_keys, first)
}
