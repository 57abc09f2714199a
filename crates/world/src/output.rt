ghost use Rattle.std.specs.Prelude.{◌≡◌, ◌≤◌, ◌++◌, List, ℕ, Some, OnOk, OnErr};
ghost use Rattle.wf_io.specs.Faults.{Rose};
ghost use Rattle.world.specs.Output.{IsCut, Got};

use wf_io::{Sink, SinkFault};

/// Writes all bytes, in as many pieces as the sink takes, of which none is empty. After a fault the sink has a beginning
/// of them.
pub fn write_all<S: Sink>(sink: &mut S, bytes: &[u8]) -> Result<(), SinkFault>
    ensures all { (had : List ℕ) → S.taken sink.old ≡ Some had → OnOk result (S.taken sink.new ≡ Some (had ++ bytes.now)) }
    ensures cut { (had : List ℕ) → S.taken sink.old ≡ Some had → OnErr result (IsCut had bytes.now (S.taken sink.new)) }
    ensures rose { OnErr result (Rose (S.count sink.old) (S.count sink.new)) }
    ensures grows { S.count sink.old ≤ S.count sink.new }
{
    let mut done = 0;
    while done < bytes.len() {
        match sink.write(&bytes[done..]) {
            Ok(n) => done += n,
            Err(fault) => return Err(fault),
        }
    }
    Ok(())
}

/// Writes a line to the error sink. A fault of that sink changes nothing else.
pub fn tell<E: Sink>(err: &mut E, line: &[u8])
    ensures { (had : List ℕ) → E.taken err.old ≡ Some had →
        Got had line.now (E.taken err.new) (E.count err.old) (E.count err.new) }
{
    let _ = write_all(err, line);
}
