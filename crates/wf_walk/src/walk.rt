ghost use Rattle.std.specs.Prelude.{◌≡◌, ◌+◌, ◌≤◌, true, false, length, IfOk};
ghost use Rattle.wf_runs.specs.Run.{Does, Answers, leaves};
ghost use Rattle.wf_walk.specs.Walk.{path_in, is_noted, note, visit, entries_in, visit_all, walk, noted_from};

use crate::limits::{MAX_DEPTH, MAX_ENTRIES, MAX_FILES};
use std::alloc::{AllocError, Global};
use wf_base::{Items, Text};
use wf_io::{Entry, Tree};
use wf_runs::{Refusal, RunFault, fault_at};

/// What a walk has met.
#[derive(Debug, Drop)]
pub struct Walked {
    /// How many entries may still be listed.
    pub left: u32,
    /// The paths of the class files, in the order in which they are to be read.
    pub noted: Items<Text>,
}

/// A directory that was listed: its path, and its entries in order.
#[derive(Debug, Drop)]
struct Listing {
    dir: Text,
    entries: Items<Entry>,
}

/// The path of an entry of a directory.
pub fn path_in(alloc: Global, dir: &Text, name: &Text) -> Result<Text, AllocError>
    ensures { IfOk result (λ path. path ≡ path_in dir.now name.now) }
{
    let mut path = Text::from_slice(alloc, dir.as_slice())?;
    path.push_slice(b"/")?;
    path.push_slice(name.as_slice())?;
    Ok(path)
}

/// Whether a file of this name is noted.
fn is_noted(name: &[u8]) -> bool
    ensures { result ≡ is_noted name.now }
{
    name.ends_with(b".class") && name != b"module-info.class".as_slice()
}

/// Lists a directory, in order. Not built where it has more than `left` entries.
fn entries_in<T: Tree>(
    alloc: Global,
    tree: &mut T,
    dir: Text,
    left: u32,
) -> Result<Listing, RunFault>
    ensures listed { Does (entries_in dir left) (T.seen tree.old) (T.seen tree.new) result }
    ensures within { IfOk result (λ listing. length listing.entries ≤ left) }
{
    match tree.list(alloc, &dir, left) {
        Ok(entries) => {
            let entries = wf_io::sorted(entries)?;
            Ok(Listing { dir, entries })
        }
        Err(fault) => Err(fault_at(dir, Refusal::Unbuilt, fault)),
    }
}

/// Notes a class file, where the limit of files allows one more.
fn note(walked: &mut Walked, path: Text) -> Result<(), RunFault>
    ensures { Answers (note path walked.old) (leaves walked.new result) }
{
    if walked.noted.len() >= MAX_FILES {
        return Err(RunFault::Refused(Refusal::Unbuilt));
    }
    match walked.noted.push(path) {
        Ok(()) => Ok(()),
        Err(_) => Err(RunFault::NoMemory),
    }
}

/// Goes into a directory, or notes a class file.
#[cycle(walking)]
fn visit<T: Tree>(
    alloc: Global,
    tree: &mut T,
    dir: &Text,
    entry: &Entry,
    depth: u32,
    top: bool,
    walked: &mut Walked,
) -> Result<(), RunFault>
    ensures { Does (visit top (walk depth false) dir.now entry.now walked.old) (T.seen tree.old) (T.seen tree.new) (leaves walked.new result) }
{
    if entry.is_dir {
        if top && entry.name.as_slice() == b"META-INF".as_slice() {
            return Ok(());
        }
        let below = path_in(alloc, dir, &entry.name)?;
        return walk(alloc, tree, below, depth, false, walked);
    }
    if is_noted(entry.name.as_slice()) {
        let path = path_in(alloc, dir, &entry.name)?;
        return note(walked, path);
    }
    Ok(())
}

/// Goes over the entries of a directory.
#[cycle(walking)]
fn visit_all<T: Tree>(
    alloc: Global,
    tree: &mut T,
    listing: &Listing,
    depth: u32,
    top: bool,
    walked: &mut Walked,
) -> Result<(), RunFault>
    requires { length listing.now.entries ≤ walked.old.left }
    ensures { Does (visit_all top (walk depth false) listing.now walked.old) (T.seen tree.old) (T.seen tree.new) (leaves walked.new result) }
{
    let left = walked.left;
    walked.left = left - listing.entries.len() as u32;
    for entry in listing.entries.as_slice() {
        visit(alloc, tree, &listing.dir, entry, depth, top, walked)?;
    }
    Ok(())
}

/// Walks a directory, below which directories may lie `depth - 1` deep.
#[cycle(walking)]
fn walk<T: Tree>(
    alloc: Global,
    tree: &mut T,
    dir: Text,
    depth: u32,
    top: bool,
    walked: &mut Walked,
) -> Result<(), RunFault>
    ensures { Does (walk depth top dir walked.old) (T.seen tree.old) (T.seen tree.new) (leaves walked.new result) }
{
    if depth == 0 {
        return Err(RunFault::Refused(Refusal::Unbuilt));
    }
    let listing = entries_in(alloc, tree, dir, walked.left)?;
    visit_all(alloc, tree, &listing, depth - 1, top, walked)
}

/// Walks the named directory, and notes its class files in the order in which they are to be read: at each
/// level by the bytes of the names, of two with one name the file first. A directory `META-INF` directly
/// below the named one and files `module-info.class` are passed over. Not built where more than
/// `MAX_ENTRIES` entries, `MAX_FILES` files or `MAX_DEPTH` levels are met. Own rule.
pub fn walk_from<T: Tree>(alloc: Global, tree: &mut T, dir: &Text) -> Result<Items<Text>, RunFault>
    ensures { Does (noted_from dir.now) (T.seen tree.old) (T.seen tree.new) result }
{
    let dir = Text::from_slice(alloc, dir.as_slice())?;
    let mut walked = Walked {
        left: MAX_ENTRIES,
        noted: Items::new(alloc),
    };
    walk(alloc, tree, dir, MAX_DEPTH + 1, true, &mut walked)?;
    Ok(walked.noted)
}
