//! What holds of the environments of a method.

ghost use Rattle.std.specs.Prelude.{◌≡◌, ℕ, false, List};
ghost use Rattle.wf_blocks.specs.Bodies.{graph_of};
ghost use Rattle.wf_blocks.specs.Graphs.{BadPaths, HasKind, Reached};
ghost use Rattle.wf_blocks.specs.declared.body.Body.{Body};
ghost use Rattle.wf_operation.specs.declared.slot.SlotKind.{SlotKind};
ghost use Rattle.wf_operation.specs.declared.slot.SlotKind.TheVariants.{Unused};
ghost use Rattle.wf_ssa.specs.Environments.{name_at, pc_at, IsKnown};
ghost use Rattle.wf_ssa.specs.Laws.{is_of, AreApart, HasBefore};
ghost use Rattle.wf_ssa.specs.declared.before.Before.{Before};
ghost use Rattle.wf_ssa.specs.declared.name.FlowName.TheVariants.{Nothing};

use wf_blocks::Blocks;

/// No more than one environment is known in front of a place, so that each slot has one flow.
pub fn environments_agree()
    ensures { (b : Body) (failing : List ℕ) (place : ℕ) (one other : Before) → IsKnown b failing place one → IsKnown b failing place other → one ≡ other }
{}

/// What an instruction gives, or leaves of an operand, is not known in front of it.
pub fn results_are_fresh()
    ensures names { (b : Body) (failing : List ℕ) (place slot : ℕ) (k : Before) → AreApart b → IsKnown b failing place k → is_of (pc_at b place) (name_at k.names slot) ≡ false }
    ensures predicate { (b : Body) (failing : List ℕ) (place : ℕ) (k : Before) → AreApart b → IsKnown b failing place k → is_of (pc_at b place) k.predicate ≡ false }
{}

/// Something is known in front of each place that a path reaches.
pub fn reached_are_known(blocks: &Blocks)
    ensures { (failing : List ℕ) (place : ℕ) → Reached (graph_of blocks.now) place → HasBefore blocks.now failing place }
{
    blocks.has_kinds();
}

/// A slot that every path leaves with one kind has a flow.
pub fn used_slots_have_flows()
    ensures { (b : Body) (failing : List ℕ) (place slot : ℕ) (k : Before) (kind : SlotKind) → (BadPaths (graph_of b) → ⊥) → IsKnown b failing place k → HasKind (graph_of b) place slot kind → (kind ≡ Unused → ⊥) → name_at k.names slot ≡ Nothing → ⊥ }
{}
