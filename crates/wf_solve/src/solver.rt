ghost use Rattle.std.specs.Prelude.{◌≡◌, ◌∷◌, ℕ, List, Contains, ◌<◌, ◌≤◌, ◌*◌, ◌+◌, length, IsTrue, IsOk, IfOk, OnOk};
ghost use Rattle.wf_system.specs.Bodies.{System, IsSolved, AreReaders, SystemFits};
ghost use Rattle.wf_system.specs.Shapes.{all_words};
ghost use Rattle.wf_base.specs.declared.ids.NodeId.{NodeId};
ghost use Rattle.wf_system.specs.declared.inequality.Inequality.{Inequality};
ghost use Rattle.wf_solve.specs.Solving.{IsCovered, IsCoveredBut, IsBetween, StaysBetween, Visiting, IsPaid};

use crate::steps::Steps;
use crate::worklist::Worklist;
use std::alloc::{AllocError, Global};
use std::sync::ledger::Ledger;
use wf_base::{Items, NodeId};
use wf_eval::Lookup;
use wf_system::{Bodies, Inequality, Meaning, Solution, Start};

/// Raises the words to the least solution that is at least what they are, beginning with the nodes on the
/// list, which was opened for as many nodes as the bodies have. The node of the types that are made, which
/// most inequalities read, is taken only where no other is there. A step is a node that is taken from it. It
/// takes no memory itself; where the readers of a node are refused, that node is on the list again, and the
/// words lie between those at entry and the solution.
pub fn solve<B: Bodies, L: Ledger>(
    alloc: Global,
    bodies: &B,
    words: &mut [u64],
    work: &mut Worklist,
    steps: &mut Steps<L>,
) -> Result<(), AllocError>
    requires fits { SystemFits (B.system bodies.now) }
    requires words { length words.old ≡ all_words (B.system bodies.now).nodes }
    requires list { work.old.nodes ≡ length (B.system bodies.now).nodes }
    requires covered { IsCovered (B.system bodies.now) words.old work.old }
    ensures solved { OnOk result (IsSolved (B.system bodies.now) words.old words.new) }
    ensures between { IsBetween (B.system bodies.now) words.old words.new }
    ensures covered { IsCovered (B.system bodies.now) words.new work.new }
    ensures list { work.new.nodes ≡ work.old.nodes }
    ensures built { IsTrue (B.all_built bodies.now) → IsOk result }
    ensures steps { steps.new ≤ steps.old + 64 * all_words (B.system bodies.now).nodes + length (B.system bodies.now).nodes + 1 }
{
    let made = bodies.side().inst();
    while let Some(node) = work.take_before(made) {
        steps.tick();
        if let Err(refused) = serve(alloc, bodies, node, words, work) {
            return Err(refused);
        }
    }
    Ok(())
}

/// Raises the words to the least solution that is at least what they are, beginning with all nodes.
pub fn solve_all<B: Bodies, L: Ledger>(
    alloc: Global,
    bodies: &B,
    words: &mut [u64],
    steps: &mut Steps<L>,
) -> Result<(), AllocError>
    requires fits { SystemFits (B.system bodies.now) }
    requires words { length words.old ≡ all_words (B.system bodies.now).nodes }
    ensures solved { OnOk result (IsSolved (B.system bodies.now) words.old words.new) }
    ensures between { IsBetween (B.system bodies.now) words.old words.new }
    ensures steps { steps.new ≤ steps.old + 64 * all_words (B.system bodies.now).nodes + length (B.system bodies.now).nodes + 1 }
{
    let mut work = match Worklist::all(alloc, bodies.shape().nodes()) {
        Ok(work) => work,
        Err(refused) => return Err(refused),
    };
    solve(alloc, bodies, words, &mut work, steps)
}

/// The least solution that is at least some words.
pub fn solution<B: Bodies, L: Ledger>(
    alloc: Global,
    bodies: &B,
    words: Items<u64>,
    steps: &mut Steps<L>,
) -> Result<Solution, AllocError>
    requires fits { SystemFits (B.system bodies.now) }
    requires words { length words ≡ all_words (B.system bodies.now).nodes }
    ensures system { IfOk result (λ s. s.system ≡ B.system bodies.now) }
    ensures start { IfOk result (λ s. s.start ≡ words) }
    ensures steps { steps.new ≤ steps.old + 64 * all_words (B.system bodies.now).nodes + length (B.system bodies.now).nodes + 1 }
{
    let meaning = Meaning::of(bodies);
    let start = Start::of(&words);
    let mut raised = words;
    match solve_all(alloc, bodies, raised.as_mut_slice(), steps) {
        Ok(()) => Ok(Solution::of_words(raised, meaning, start)),
        Err(refused) => Err(refused),
    }
}

/// Joins the inequalities that read a node into their targets. Where they are refused, the node is put back.
fn serve<B: Bodies>(
    alloc: Global,
    bodies: &B,
    node: NodeId,
    words: &mut [u64],
    work: &mut Worklist,
) -> Result<(), AllocError>
    requires fits { SystemFits (B.system bodies.now) }
    requires all { length words.old ≡ all_words (B.system bodies.now).nodes }
    requires list { work.old.nodes ≡ length (B.system bodies.now).nodes }
    requires there { node.0 < length (B.system bodies.now).nodes }
    requires covered { IsCoveredBut (B.system bodies.now) node words.old work.old }
    ensures covered { IsCovered (B.system bodies.now) words.new work.new }
    ensures stays { StaysBetween (B.system bodies.now) words.old words.new }
    ensures same { length words.new ≡ length words.old }
    ensures list { work.new.nodes ≡ work.old.nodes }
    ensures paid { OnOk result (IsPaid words.old words.new work.old work.new) }
    ensures built { IsTrue (B.all_built bodies.now) → IsOk result }
{
    match bodies.readers(alloc, node) {
        Ok(readers) => {
            visit(bodies, node, readers.as_slice(), words, work);
            Ok(())
        }
        Err(refused) => {
            work.add(node);
            Err(refused)
        }
    }
}

/// Joins inequalities into their targets, and puts on the list each target that rose.
fn visit<B: Bodies>(
    bodies: &B,
    node: NodeId,
    rows: &[Inequality<NodeId>],
    words: &mut [u64],
    work: &mut Worklist,
)
    requires fits { SystemFits (B.system bodies.now) }
    requires all { length words.old ≡ all_words (B.system bodies.now).nodes }
    requires list { work.old.nodes ≡ length (B.system bodies.now).nodes }
    requires readers { AreReaders (B.system bodies.now) node rows.now }
    requires covered { IsCoveredBut (B.system bodies.now) node words.old work.old }
    ensures covered { IsCovered (B.system bodies.now) words.new work.new }
    ensures stays { StaysBetween (B.system bodies.now) words.old words.new }
    ensures same { length words.new ≡ length words.old }
    ensures list { work.new.nodes ≡ work.old.nodes }
    ensures paid { IsPaid words.old words.new work.old work.new }
{
    for row in rows {
        visit_one(bodies, *row, words, work);
    }
}

/// Joins one inequality into its target, and puts the target on the list where it rose.
fn visit_one<B: Bodies>(bodies: &B, row: Inequality<NodeId>, words: &mut [u64], work: &mut Worklist)
    requires fits { SystemFits (B.system bodies.now) }
    requires all { length words.old ≡ all_words (B.system bodies.now).nodes }
    requires list { work.old.nodes ≡ length (B.system bodies.now).nodes }
    requires there { Contains (B.system bodies.now).rows row }
    ensures next { (rest : List (Inequality NodeId)) (start : List ℕ) → Visiting (B.system bodies.now) (row ∷ rest) start words.old work.old → Visiting (B.system bodies.now) rest start words.new work.new }
    ensures same { length words.new ≡ length words.old }
    ensures list { work.new.nodes ≡ work.old.nodes }
    ensures paid { IsPaid words.old words.new work.old work.new }
{
    let lookup = Lookup::new(bodies.shape(), bodies.side(), bodies.threshold());
    if lookup.raise(words, row) {
        work.add(row.target);
    }
}
