ghost use Rattle.std.specs.Prelude.{◌≡◌, ◌≢◌, ◌⊎◌, ◌++◌, List, ℕ, Some};
ghost use Rattle.wf_first.specs.declared.program.Program.{Program};
ghost use Rattle.wf_io.specs.declared.tree.MemFile.{MemFile};
ghost use Rattle.wf_io.specs.Faults.{Rose};
ghost use Rattle.wf_io.specs.Log.{Seen, failures};
ghost use Rattle.wf_runs.specs.Due.{Given, NoneFails};
ghost use Rattle.world.specs.Command.{IsCommand, words_of};
ghost use Rattle.world.specs.Outcome.{Outcome, OutcomeIsOne, CallsPart, CallsAll};
ghost use Rattle.world.specs.Output.{IsCut, Got, TellsFault, TellsOrNoMemory, IsStatusOf};
ghost use Rattle.world.specs.Run.{Analyses, Runs, Prints, PrintsRun, PrintsPart, IsRefusal, TellsRefusal, LastFails, IsStatus};

use crate::command::paths_of;
use crate::load::load;
use crate::output::{tell, write_all};
use std::alloc::Global;
use std::thread::Threads;
use wf_base::Text;
use wf_first::least_world;
use wf_io::{Sink, Tree};
use wf_report::write_world;
use wf_runs::{Refusal, RunFault};

/// The report for a roots file and a directory of class files.
fn report_of<T: Tree>(
    alloc: Global,
    tree: &mut T,
    roots: &[u8],
    dir: &[u8],
) -> Result<Text, RunFault>
    ensures { (words : List (List ℕ)) → IsCommand words roots.now dir.now →
        Analyses words (T.seen tree.old) (T.seen tree.new) result }
{
    let program = load(alloc, tree, roots, dir)?;
    let world = least_world(alloc, &program)?;
    Ok(write_world(alloc, &world, false)?)
}

/// The report that the words ask for.
fn analyse<T: Tree>(alloc: Global, words: &[Vec<u8>], tree: &mut T) -> Result<Text, RunFault>
    ensures { Analyses (words_of words.now) (T.seen tree.old) (T.seen tree.new) result }
{
    match paths_of(words) {
        Some((roots, dir)) => report_of(alloc, tree, roots, dir),
        None => Err(RunFault::Refused(Refusal::Unbuilt)),
    }
}

/// Writes a line to the error sink, and answers this status.
fn tell_line<E: Sink>(status: u8, line: &[u8], err: &mut E) -> u8
    ensures told { (had : List ℕ) → E.taken err.old ≡ Some had →
        Got had line.now (E.taken err.new) (E.count err.old) (E.count err.new) }
    ensures status { result ≡ status }
{
    tell(err, line);
    status
}

/// Writes the line of a fault to the error sink, and answers its status; or those of want of memory, where
/// the line takes memory.
fn tell_fault<E: Sink>(alloc: Global, fault: &RunFault, err: &mut E) -> u8
    ensures told { (had : List ℕ) → E.taken err.old ≡ Some had →
        TellsOrNoMemory fault.now result had (E.taken err.new) (E.count err.old) (E.count err.new) }
    ensures status { IsStatusOf fault.now result }
{
    match fault.line(alloc) {
        Ok(line) => tell_line(fault.status(), line.as_slice(), err),
        Err(_) => tell_line(9, b"no memory\n", err),
    }
}

/// Writes the report, and answers the status.
fn print<O: Sink, E: Sink>(alloc: Global, text: &Text, out: &mut O, err: &mut E) -> u8
    ensures statuses { (result ≡ 0) ⊎ (result ≡ 7) }
    ensures printed { (had : List ℕ) → O.taken out.old ≡ Some had → result ≡ 0 → O.taken out.new ≡ Some (had ++ text.now) }
    ensures err_kept { result ≡ 0 → E.taken err.new ≡ E.taken err.old }
    ensures rose { result ≡ 7 → Rose (O.count out.old) (O.count out.new) }
    ensures cut { (had : List ℕ) → O.taken out.old ≡ Some had → result ≡ 7 → IsCut had text.now (O.taken out.new) }
    ensures tells { (had : List ℕ) (before behind : Seen) → E.taken err.old ≡ Some had → result ≡ 7 →
        TellsFault before behind result had (E.taken err.new) (E.count err.old) (E.count err.new) }
{
    match write_all(out, text.as_slice()) {
        Ok(()) => 0,
        Err(_) => tell_fault(alloc, &RunFault::WriteFault, err),
    }
}

/// For words and files one thing is due.
pub fn outcome_is_one()
    ensures { OutcomeIsOne }
{}

/// Does what the words ask, with nothing but the tree and the sinks: `--roots FILE DIR` reads the class
/// files below DIR and the root in FILE, and writes to `out` the report of the world of the least solution.
/// Answers the status: 0 for a report; 3 for a file that spells no class, a class that belongs at another
/// path, and classes without `java/lang/Object`; 6 for a read fault, 7 for a write fault, 9 for want of
/// memory, and 10 for words or input that aren't built yet, each with its line on `err`. The runtime isn't
/// used yet. Own rule.
pub fn world_run<R: Threads + Sync, T: Tree, O: Sink, E: Sink>(
    _rt: &R,
    alloc: Global,
    words: &[Vec<u8>],
    tree: &mut T,
    out: &mut O,
    err: &mut E,
) -> u8
    ensures statuses { IsStatus result }

    // Whatever the tree tells, what is done is the run for the words on its answers.
    ensures runs { Runs (words_of words.now) (T.seen tree.old) (T.seen tree.new) result }
    ensures reported { (had : List ℕ) → O.taken out.old ≡ Some had → result ≡ 0 →
        PrintsRun (words_of words.now) (T.seen tree.old) (T.seen tree.new) had (O.taken out.new) }

    // Of told files, a report is that of the world of the least solution for the program that is due.
    ensures printed { (files : List MemFile) (had : List ℕ) → (T.seen tree.old).told ≡ Some files → O.taken out.old ≡ Some had →
        result ≡ 0 → Prints files (words_of words.now) had (O.taken out.new) }

    // The calls of the tree are those of the run, with what each asks for; all of them, where nothing failed.
    ensures calls { (files : List MemFile) → (T.seen tree.old).told ≡ Some files →
        CallsPart files (words_of words.now) (T.seen tree.old) (T.seen tree.new) }
    ensures all_calls { (files : List MemFile) → (T.seen tree.old).told ≡ Some files →
        (result ≡ 0) ⊎ (result ≡ 3) ⊎ (result ≡ 7) ⊎ (result ≡ 10) →
        CallsAll files (words_of words.now) (T.seen tree.old) (T.seen tree.new) }

    // Every other status has its cause.
    ensures refused { (files : List MemFile) (had : List ℕ) → (T.seen tree.old).told ≡ Some files → E.taken err.old ≡ Some had →
        (result ≡ 3) ⊎ (result ≡ 10) →
        TellsRefusal files (words_of words.now) result had (E.taken err.new) (E.count err.old) (E.count err.new) }
    ensures due { (files : List MemFile) → (T.seen tree.old).told ≡ Some files →
        (result ≡ 3) ⊎ (result ≡ 10) → IsRefusal files (words_of words.now) result }
    ensures read_fault { result ≡ 6 → Rose (failures (T.seen tree.old).log) (failures (T.seen tree.new).log) }
    ensures failed_call { result ≡ 6 → LastFails (T.seen tree.old) (T.seen tree.new) }
    ensures none_failed { result ≢ 6 → result ≢ 9 → NoneFails (T.seen tree.old) (T.seen tree.new) }
    ensures write_fault { result ≡ 7 → Rose (O.count out.old) (O.count out.new) }
    ensures cut { (files : List MemFile) (had : List ℕ) → (T.seen tree.old).told ≡ Some files → O.taken out.old ≡ Some had →
        result ≡ 7 → PrintsPart files (words_of words.now) had (O.taken out.new) }

    // Where a report is due and nothing that was handed in failed, it is printed, unless memory runs out.
    ensures complete { (files : List MemFile) (program : Program) → (T.seen tree.old).told ≡ Some files →
        Outcome files (words_of words.now) (Given program) →
        (Rose (failures (T.seen tree.old).log) (failures (T.seen tree.new).log) → ⊥) →
        (Rose (O.count out.old) (O.count out.new) → ⊥) →
        (result ≡ 0) ⊎ (result ≡ 9) }

    // What a run leaves.
    ensures out_kept { result ≢ 0 → result ≢ 7 → O.taken out.new ≡ O.taken out.old }
    ensures err_kept { result ≡ 0 → E.taken err.new ≡ E.taken err.old }
    ensures tells { (had : List ℕ) → E.taken err.old ≡ Some had → result ≢ 0 →
        TellsFault (T.seen tree.old) (T.seen tree.new) result had (E.taken err.new) (E.count err.old) (E.count err.new) }
    ensures tree_kept { (T.seen tree.new).told ≡ (T.seen tree.old).told }
{
    match analyse(alloc, words, tree) {
        Ok(text) => print(alloc, &text, out, err),
        Err(fault) => tell_fault(alloc, &fault, err),
    }
}
