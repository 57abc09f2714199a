ghost use Rattle.std.specs.Prelude.{◌≡◌, ◌≤◌, [], length, IfOk};
ghost use Rattle.std.specs.IoError.{error_kind};
ghost use Rattle.wf_io.specs.RealFiles.{seen_of};

use crate::calls::Calls;
use crate::tree::{Entry, Tree, TreeFault};
use std::alloc::{AllocError, Global};
use std::io::{self, ErrorKind, Read};
use std::rt::Files;
use std::{fs, str};
use wf_base::{Items, Text};

/// The tree of real files. It follows links. A path or a name that isn't UTF-8 is a fault, and so is a
/// link that leads nowhere. Where the system finds no memory, it answers `NoMemory`.
#[derive(Drop)]
pub struct StdTree<'a, R> {
    rt: &'a R,
    calls: Calls,
}

impl<'a, R: Files> StdTree<'a, R> {
    pub fn new(rt: &'a R) -> StdTree<'a, R>
        ensures { (seen_of result).log ≡ [] }
    {
        StdTree {
            rt,
            calls: Calls::none(),
        }
    }
}

impl<'a, R: Files + AllocGlobal + Clone + Drop> Tree for StdTree<'a, R> {
    ghost seen = { seen_of };

    fn list(&mut self, alloc: Global, dir: &Text, most: u32) -> Result<Items<Entry>, TreeFault> {
        let answer = entries_in(self.rt, alloc, dir.as_slice(), most);
        self.calls.listed(dir, most, answer)
    }

    fn read(&mut self, alloc: Global, path: &Text, most: u32) -> Result<Text, TreeFault> {
        let answer = bytes_at(self.rt, alloc, path.as_slice(), most);
        self.calls.was_read(path, most, answer)
    }

    fn faults(&self) -> u64 {
        self.calls.failures()
    }
}

/// The entries of a directory, at most `most`.
fn entries_in<R: Files + AllocGlobal + Clone + Drop>(
    rt: &R,
    alloc: Global,
    dir: &[u8],
    most: u32,
) -> Result<Items<Entry>, TreeFault>
    ensures { IfOk result (λ entries. length entries ≤ most) }
{
    let mut entries = Vec::new(alloc);
    for found in fs::read_dir(rt, path_of(dir)?)? {
        if entries.len() >= most as usize {
            return Err(TreeFault::More);
        }
        let found = found?;
        let name = Text::from_slice(alloc, found.file_name().as_bytes())?;
        let is_dir = fs::metadata(rt, found.path())?.is_dir();
        entries
            .push(Entry { name, is_dir })
            .map_err(AllocError::from)?;
    }
    Ok(Items::from_vec(entries))
}

/// The bytes of a file, at most `most`. Of a longer file it reads one byte more.
fn bytes_at<R: Files>(rt: &R, alloc: Global, path: &[u8], most: u32) -> Result<Text, TreeFault>
    ensures { IfOk result (λ text. length text ≤ most) }
{
    let file = fs::open(rt, path_of(path)?)?;
    let mut bytes = Vec::new(alloc);
    file.take(u64::from(most) + 1).read_to_end(&mut bytes)?;
    if bytes.len() > most as usize {
        return Err(TreeFault::More);
    }
    Ok(Text::from_vec(bytes))
}

/// The path as text, which is what the system is asked for.
fn path_of(path: &[u8]) -> Result<&str, TreeFault> {
    str::from_utf8(path).map_err(|_| TreeFault::Failed)
}

impl From<io::Error> for TreeFault {
    ghost use Rattle.wf_io.specs.RealFiles.{fault_of};

    ghost from_gives = { λ error fault. fault ≡ fault_of (error_kind error) };

    fn from(error: io::Error) -> TreeFault {
        if error.kind() == ErrorKind::OutOfMemory {
            TreeFault::NoMemory
        } else {
            TreeFault::Failed
        }
    }
}
