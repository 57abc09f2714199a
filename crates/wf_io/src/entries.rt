ghost use Rattle.std.specs.Prelude.{◌≡◌, ◌≤◌, length, IfOk};
ghost use Rattle.std.specs.Option.{option_copied};
ghost use Rattle.wf_io.specs.Tree.{rest_of, entry_at, entry_of, in_order, listing};

use crate::tree::{Entry, MemFile};
use std::alloc::{AllocError, Global};
use std::collections::BTreeSet;
use wf_base::{Items, Text};

/// Sorts the entries that a tree gave, and keeps each once, so that it no longer matters in which order
/// the tree gave them.
pub fn sorted(entries: Items<Entry>) -> Result<Items<Entry>, AllocError>
    ensures order { IfOk result (λ sorted. sorted ≡ in_order entries) }
    ensures within { IfOk result (λ sorted. length sorted ≤ length entries) }
{
    let mut entries = entries.into_vec();
    entries.sort()?;
    entries.dedup();
    Ok(Items::from_vec(entries))
}

/// The entries directly below a directory, sorted.
pub fn entries_below(
    alloc: Global,
    files: &[MemFile],
    dir: &[u8],
) -> Result<BTreeSet<Entry>, AllocError>
    ensures { IfOk result (λ entries. entries.keys ≡ listing files.now dir.now) }
{
    // The set is the listing of the files that were gone over, which are the last ones.
    let mut entries = BTreeSet::new(alloc);
    for i in (0..files.len()).rev() {
        if let Some(entry) = entry_below(alloc, dir, files[i].path.as_slice())? {
            entries.insert(entry)?;
        }
    }
    Ok(entries)
}

/// The entry directly below a directory through which a path leads.
fn entry_below(alloc: Global, dir: &[u8], path: &[u8]) -> Result<Option<Entry>, AllocError>
    ensures { IfOk result (λ entry. entry ≡ entry_of dir.now path.now) }
{
    let Some(rest) = rest_below(dir, path) else {
        return Ok(None);
    };
    let (name, is_dir) = first_part(rest);
    let name = Text::from_slice(alloc, name)?;
    Ok(Some(Entry { name, is_dir }))
}

/// What a path has behind a directory and a slash.
#[tactic(auto, using(crate::proofs::Paths::rest_laws))]
fn rest_below<'a>(dir: &[u8], path: &'a [u8]) -> Option<&'a [u8]>
    ensures { option_copied result ≡ rest_of dir.now path.now }
{
    let (first, rest) = path.strip_prefix(dir)?.split_first()?;
    if *first == b'/' { Some(rest) } else { None }
}

/// What stands before the first slash, and whether there is a slash.
fn first_part(path: &[u8]) -> (&[u8], bool)
    ensures name { result.0.now ≡ (entry_at path.now).name }
    ensures is_dir { result.1 ≡ (entry_at path.now).is_dir }
{
    for (i, byte) in path.iter().enumerate() {
        if *byte == b'/' {
            return (&path[..i], true);
        }
    }
    (path, false)
}
