ghost use Rattle.std.specs.Prelude.{◌≤◌, length, IfOk};
ghost use Rattle.wf_runs.specs.Run.{Does};
ghost use Rattle.wf_walk.specs.File.{read_file};

use crate::limits::MAX_FILE_BYTES;
use std::alloc::Global;
use wf_base::Text;
use wf_io::Tree;
use wf_runs::{Refusal, RunFault, fault_at};

/// A file that was read.
#[derive(Debug, Drop)]
pub struct File {
    pub path: Text,
    pub bytes: Text,
}

/// Reads a file. Not built where it is longer than `MAX_FILE_BYTES`.
pub fn read_file<T: Tree>(alloc: Global, tree: &mut T, path: Text) -> Result<File, RunFault>
    ensures read { Does (read_file path) (T.seen tree.old) (T.seen tree.new) result }
    ensures within { IfOk result (λ file. length file.bytes ≤ MAX_FILE_BYTES) }
{
    match tree.read(alloc, &path, MAX_FILE_BYTES) {
        Ok(bytes) => Ok(File { path, bytes }),
        Err(fault) => Err(fault_at(path, Refusal::Unbuilt, fault)),
    }
}
