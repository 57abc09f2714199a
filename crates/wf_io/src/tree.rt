ghost use Rattle.std.specs.Prelude.{◌≡◌, ◌≤◌, length, IfOk};
ghost use Rattle.wf_io.specs.Log.{Seen, Listed, WasRead, Logs, failures};

use std::alloc::{AllocError, Global};
use wf_base::{Items, Text};

/// A file of a tree that tells its files: its path, with `/` between the parts, and its bytes.
#[derive(Debug, Drop)]
pub struct MemFile {
    pub path: Text,
    pub bytes: Text,
}

/// What stands directly below a directory. Entries are ordered by the bytes of their names, and of two
/// with one name the file stands first.
#[derive(Debug, Drop, PartialEq, Eq, PartialOrd, Ord)]
pub struct Entry {
    pub name: Text,
    pub is_dir: bool,
}

/// Why a tree gives nothing.
#[derive(Clone, Copy, Debug, PartialEq, Eq)]
pub enum TreeFault {
    /// The outside failed; the tree has counted it.
    Failed,
    /// There is more than was asked for.
    More,
    NoMemory,
}

impl From<AllocError> for TreeFault {
    ghost use Rattle.wf_io.specs.declared.tree.TreeFault.{TreeFault};

    ghost from_gives = { λ _ fault. fault ≡ TreeFault.NoMemory };

    fn from(_: AllocError) -> TreeFault {
        TreeFault::NoMemory
    }
}

/// A tree of files. It tells the calls that were made of it, each with its answer, and it may tell its files,
/// as a list of which the first of two with one path counts; a tree of real files tells none. Where it tells
/// them, it answers `More` exactly where there is more than was asked for. How many calls failed, and which
/// was the last, is read off its calls.
pub trait Tree {
    /// The files, where they are told, and the calls that were made.
    ghost seen: { Self → Seen };

    /// The entries directly below a directory, each once, in any order: at most `most`.
    fn list(&mut self, alloc: Global, dir: &Text, most: u32) -> Result<Items<Entry>, TreeFault>
        ensures logged { Logs (Listed dir.now most result) (seen self.old) (seen self.new) }
        ensures within { IfOk result (λ entries. length entries ≤ most) };

    /// The bytes of a file: at most `most`.
    fn read(&mut self, alloc: Global, path: &Text, most: u32) -> Result<Text, TreeFault>
        ensures logged { Logs (WasRead path.now most result) (seen self.old) (seen self.new) }
        ensures within { IfOk result (λ bytes. length bytes ≤ most) };

    /// How many calls have failed, up to the greatest number of 64 bits.
    fn faults(&self) -> u64
        ensures { result ≡ failures (seen self.now).log };
}
