ghost use Rattle.std.specs.Prelude.{◌≡◌, ◌≢◌, ◌≤◌, ◌<◌, ◌⊎◌, None, Some, Err, [], length, IfOk, IsErrOf, IsSomeAnd};
ghost use Rattle.std.specs.Option.{option_copied};
ghost use Rattle.wf_io.specs.InMemory.{files_of, seen_of, failing_calls, numbers_from, after_one, FailsNext};
ghost use Rattle.wf_io.specs.Log.{Listed, WasRead, Logs};
ghost use Rattle.wf_io.specs.Tree.{listing, content};

use crate::calls::Calls;
use crate::entries::entries_below;
use crate::failing::Failing;
use crate::tree::{Entry, MemFile, Tree, TreeFault};
use std::alloc::Global;
use wf_base::{Items, Text};

/// A tree in memory, which fails where it is told to. Its calls are numbered from 0 in the order in which
/// they are made, `list` and `read` together, whatever they answer.
#[derive(Drop)]
pub struct TreeMem {
    files: Items<MemFile>,
    failing: Failing,
    calls: Calls,
}

impl TreeMem {
    /// A tree of these files. The calls with these numbers fail.
    pub fn new(files: Items<MemFile>, failing: Items<u64>) -> TreeMem
        ensures files { files_of result ≡ files }
        ensures failing { failing_calls result ≡ numbers_from failing 0 }
        ensures none_made { (seen_of result).log ≡ [] }
    {
        TreeMem {
            files,
            failing: Failing::new(failing),
            calls: Calls::none(),
        }
    }
}

impl Tree for TreeMem {
    ghost seen = { seen_of };

    fn list(&mut self, alloc: Global, dir: &Text, most: u32) -> Result<Items<Entry>, TreeFault>
        ensures logged { Logs (Listed dir.now most result) (seen_of self.old) (seen_of self.new) }
        ensures within { IfOk result (λ entries. length entries ≤ most) }

        // The entries come in order. The calls that fail are those that are told to.
        ensures in_order { IfOk result (λ entries. entries ≡ listing (files_of self.old) dir.now) }
        ensures only { IsErrOf result TreeFault.Failed → FailsNext (failing_calls self.old) }
        ensures always { FailsNext (failing_calls self.old) → result ≡ Err TreeFault.Failed }
        ensures counted { failing_calls self.new ≡ after_one (failing_calls self.old) }
    {
        if self.failing.fails_next() {
            return self.calls.listed(dir, most, Err(TreeFault::Failed));
        }
        let answer = listed(alloc, self.files.as_slice(), dir.as_slice(), most);
        self.calls.listed(dir, most, answer)
    }

    fn read(&mut self, alloc: Global, path: &Text, most: u32) -> Result<Text, TreeFault>
        ensures logged { Logs (WasRead path.now most result) (seen_of self.old) (seen_of self.new) }
        ensures within { IfOk result (λ bytes. length bytes ≤ most) }

        // The calls that fail are those that are told to, and those of a path that isn't there.
        ensures only { IsErrOf result TreeFault.Failed →
            FailsNext (failing_calls self.old) ⊎ (content (files_of self.old) path.now ≡ None) }
        ensures always { FailsNext (failing_calls self.old) → result ≡ Err TreeFault.Failed }
        ensures counted { failing_calls self.new ≡ after_one (failing_calls self.old) }
    {
        if self.failing.fails_next() {
            return self.calls.was_read(path, most, Err(TreeFault::Failed));
        }
        let answer = read_of(alloc, self.files.as_slice(), path.as_slice(), most);
        self.calls.was_read(path, most, answer)
    }

    fn faults(&self) -> u64 {
        self.calls.failures()
    }
}

/// The entries directly below a directory, at most `most`.
fn listed(
    alloc: Global,
    files: &[MemFile],
    dir: &[u8],
    most: u32,
) -> Result<Items<Entry>, TreeFault>
    ensures listed { IfOk result (λ entries. entries ≡ listing files.now dir.now) }
    ensures within { IfOk result (λ entries. length entries ≤ most) }
    ensures more { IsErrOf result TreeFault.More → most < length (listing files.now dir.now) }
    ensures never_failed { result ≢ Err TreeFault.Failed }
{
    let entries = entries_below(alloc, files, dir)?;
    if entries.len() > most as usize {
        return Err(TreeFault::More);
    }
    let entries = entries.into_iter().collect(alloc)?;
    Ok(Items::from_vec(entries))
}

/// The bytes of the first file with this path, at most `most`.
fn read_of(alloc: Global, files: &[MemFile], path: &[u8], most: u32) -> Result<Text, TreeFault>
    ensures bytes { IfOk result (λ bytes. content files.now path.now ≡ Some bytes) }
    ensures within { IfOk result (λ bytes. length bytes ≤ most) }
    ensures more { IsErrOf result TreeFault.More → IsSomeAnd (content files.now path.now) (λ bytes. most < length bytes) }
    ensures absent { IsErrOf result TreeFault.Failed → content files.now path.now ≡ None }
{
    let Some(bytes) = found(files, path) else {
        return Err(TreeFault::Failed);
    };
    copied(alloc, bytes, most)
}

/// A copy of the bytes, at most `most`.
fn copied(alloc: Global, bytes: &[u8], most: u32) -> Result<Text, TreeFault>
    ensures bytes { IfOk result (λ text. text ≡ bytes.now) }
    ensures within { IfOk result (λ text. length text ≤ most) }
    ensures more { IsErrOf result TreeFault.More → most < length bytes.now }
    ensures never_failed { result ≢ Err TreeFault.Failed }
{
    if bytes.len() > most as usize {
        return Err(TreeFault::More);
    }
    Ok(Text::from_slice(alloc, bytes)?)
}

/// The bytes of the first file with this path.
fn found<'a>(files: &'a [MemFile], path: &[u8]) -> Option<&'a [u8]>
    ensures { option_copied result ≡ content files.now path.now }
{
    for file in files {
        if file.path.as_slice() == path {
            return Some(file.bytes.as_slice());
        }
    }
    None
}
