//! Trees at a limit and past it. What is refused at a limit makes no further call, so a call that is told to
//! fail shows whether it was made.

ghost use Rattle.std.specs.Prelude.{None, ◌≤◌, length, IfOk};
ghost use Rattle.wf_io.specs.Calls.{log_of};

use super::{FIRST_ROW, File, Ran, WORDS, bytes_of, push_text, run, sink};
use crate::run::world_run;
use std::alloc::{AllocError, Global};
use std::test::Fail;
use std::thread::Threads;
use wf_base::{Items, Text};
use wf_io::{Calls, Entry, MemFile, Tree, TreeFault, TreeMem};

fn push_files(alloc: Global, out: &mut Vec<MemFile>, files: &[File]) -> Result<(), Fail> {
    for (path, content) in files {
        let path = Text::from_slice(alloc, path.as_bytes())?;
        let bytes = bytes_of(alloc, content)?;
        out.push(MemFile { path, bytes })?;
    }
    Ok(())
}

fn run_files<R: Threads + Sync + AllocGlobal>(
    rt: &R,
    files: Vec<MemFile>,
    failing: &[u64],
) -> Result<Ran, AllocError> {
    let alloc = rt.alloc();
    let failing = Items::from_vec(failing.to_vec(alloc)?);
    let tree = TreeMem::new(Items::from_vec(files), failing);
    run(rt, &WORDS, tree, sink(alloc, 1000, &[])?)
}

/// Empty files directly below `d`, so many, with names that end so.
fn many_files(alloc: Global, count: usize, end: &str) -> Result<Vec<MemFile>, AllocError> {
    let mut files = Vec::new(alloc);
    for i in 0..count {
        let path = format!(in alloc; "d/{i}{end}")?;
        let path = Text::from_slice(alloc, path.as_bytes())?;
        let bytes = Text::new(alloc);
        files.push(MemFile { path, bytes })?;
    }
    Ok(files)
}

/// With 65536 entries in `d` the walk goes on to `d/java`, and with one more it doesn't.
#[test]
fn entries(rt: HostRuntime) -> Result<(), Fail> {
    let alloc = rt.alloc();
    for (count, status) in [(65534, 6), (65535, 10)] {
        let mut files = many_files(alloc, count, "")?;
        push_files(alloc, &mut files, &FIRST_ROW)?;
        let ran = run_files(&rt, files, &[1])?;
        assert_eq!(rt; ran.status, status, "with {count}");
    }
    Ok(())
}

/// With 20000 class files the first is read, and with one more it isn't.
#[test]
fn files(rt: HostRuntime) -> Result<(), Fail> {
    let alloc = rt.alloc();
    for (count, status) in [(19998, 6), (19999, 10)] {
        let mut files = many_files(alloc, count, ".class")?;
        push_files(alloc, &mut files, &FIRST_ROW)?;
        let ran = run_files(&rt, files, &[3])?;
        assert_eq!(rt; ran.status, status, "with {count}");
    }
    Ok(())
}

/// Directories lie 64 deep below `d`, and no deeper.
#[test]
fn depth(rt: HostRuntime) -> Result<(), Fail> {
    let alloc = rt.alloc();
    for (call, status) in [(64, 6), (65, 10)] {
        let mut path = Text::from_slice(alloc, b"d")?;
        for _ in 0..65 {
            path.push_slice(b"/a")?;
        }
        path.push_slice(b"/f")?;
        let bytes = Text::new(alloc);
        let mut files = Vec::new(alloc);
        files.push(MemFile { path, bytes })?;
        let ran = run_files(&rt, files, &[call])?;
        assert_eq!(rt; ran.status, status, "at {call}");
    }
    Ok(())
}

/// A class with this name of one byte, with `main ()V` and so many methods besides.
fn large_class(alloc: Global, name: u8, besides: u16) -> Result<Vec<u8>, AllocError> {
    let mut out = Vec::new(alloc);
    let methods = besides % 60000 + 1;
    out.extend_from_slice(&[0xca, 0xfe, 0xba, 0xbe, 0, 0, 0, 52])?;
    out.extend_from_slice(&(7 + methods).to_be_bytes())?;
    out.extend_from_slice(&[7, 0, 2, 1, 0, 1, name, 7, 0, 4])?;
    push_text(&mut out, b"java/lang/Object")?;
    push_text(&mut out, b"()V")?;
    push_text(&mut out, b"Code")?;
    push_text(&mut out, b"main")?;
    for i in 1..methods {
        push_text(&mut out, i.to_string(alloc)?.as_bytes())?;
    }
    out.extend_from_slice(&[0, 0x21, 0, 1, 0, 3, 0, 0, 0, 0])?;
    out.extend_from_slice(&methods.to_be_bytes())?;
    for i in 0..methods {
        out.extend_from_slice(&[0, 0x09])?;
        out.extend_from_slice(&(7 + i).to_be_bytes())?;
        out.extend_from_slice(&[0, 5, 0, 1, 0, 6, 0, 0, 0, 13])?;
        out.extend_from_slice(&[0, 0, 0, 0, 0, 0, 0, 1, 0xb1, 0, 0, 0, 0])?;
    }
    out.extend_from_slice(&[0, 0])?;
    Ok(out)
}

/// Two classes and `java/lang/Object` have 65536 methods together, or one more.
#[test]
fn methods(rt: HostRuntime) -> Result<(), Fail> {
    let alloc = rt.alloc();
    for (besides, status) in [(32766, 0), (32767, 10)] {
        let mut files = Vec::new(alloc);
        push_files(alloc, &mut files, &FIRST_ROW[1..])?;
        for (name, path, count) in [(b'A', "d/A.class", 32767), (b'B', "d/B.class", besides)] {
            let path = Text::from_slice(alloc, path.as_bytes())?;
            let bytes = Text::from_vec(large_class(alloc, name, count)?);
            files.push(MemFile { path, bytes })?;
        }
        let ran = run_files(&rt, files, &[])?;
        assert_eq!(rt; ran.status, status, "with {besides}");
    }
    Ok(())
}

/// A file of so many bytes, all 0.
fn zeros(alloc: Global, path: &str, size: usize) -> Result<MemFile, AllocError> {
    let path = Text::from_slice(alloc, path.as_bytes())?;
    let mut bytes = Vec::new(alloc);
    bytes.resize(size, 0)?;
    let bytes = Text::from_vec(bytes);
    Ok(MemFile { path, bytes })
}

/// A file of 16777216 bytes is looked at, and one of a byte more isn't.
#[test]
fn bytes_of_a_file(rt: HostRuntime) -> Result<(), Fail> {
    let alloc = rt.alloc();
    for (size, status) in [(16777216, 3), (16777217, 10)] {
        let mut files = Vec::new(alloc);
        files.push(zeros(alloc, "d/A.class", size)?)?;
        let ran = run_files(&rt, files, &[])?;
        assert_eq!(rt; ran.status, status, "with {size}");
    }
    let mut files = Vec::new(alloc);
    push_files(alloc, &mut files, &FIRST_ROW[..2])?;
    files.push(zeros(alloc, "r", 16777217)?)?;
    let ran = run_files(&rt, files, &[])?;
    assert_eq!(rt; ran.status, 10);
    assert_eq!(rt; ran.err.bytes(), b"not built yet\n".as_slice());
    Ok(())
}

/// A tree of 34 class files of 16777216 bytes, `d/10.class` to `d/43.class`, which are made when they are
/// read.
#[derive(Drop)]
struct LargeFiles {
    /// The inside of the attribute that makes a file so long.
    inside: Vec<u8>,
    reads: u32,
    calls: Calls,
}

/// The bytes of such a file, of which two bytes of its path are the name of the class.
fn bytes_at(alloc: Global, path: &Text, inside: &[u8], most: u32) -> Result<Text, TreeFault>
    ensures { IfOk result (λ bytes. length bytes ≤ most) }
{
    let name = path.as_slice().get(2..4).unwrap_or_default();
    let bytes = Text::from_vec(large_file(alloc, name, inside)?);
    if bytes.as_slice().len() > most as usize {
        return Err(TreeFault::More);
    }
    Ok(bytes)
}

fn entries_in(alloc: Global, most: u32) -> Result<Items<Entry>, TreeFault>
    ensures { IfOk result (λ entries. length entries ≤ most) }
{
    let entries = large_files(alloc)?;
    if entries.len() > most as usize {
        return Err(TreeFault::More);
    }
    Ok(Items::from_vec(entries))
}

/// The bytes of such a file: a class with this name and one attribute.
fn large_file(alloc: Global, name: &[u8], inside: &[u8]) -> Result<Vec<u8>, AllocError> {
    let mut out = Vec::new(alloc);
    out.extend_from_slice(&[0xca, 0xfe, 0xba, 0xbe, 0, 0, 0, 52, 0, 5, 7, 0, 2])?;
    push_text(&mut out, name)?;
    out.extend_from_slice(&[7, 0, 4])?;
    push_text(&mut out, b"java/lang/Object")?;
    out.extend_from_slice(&[0, 0x21, 0, 1, 0, 3, 0, 0, 0, 0, 0, 0, 0, 1, 0, 2])?;
    out.extend_from_slice(&16777156u32.to_be_bytes())?;
    out.extend_from_slice(inside)?;
    Ok(out)
}

fn large_files(alloc: Global) -> Result<Vec<Entry>, AllocError> {
    let mut entries = Vec::new(alloc);
    for i in 10..44 {
        let name = format!(in alloc; "{i}.class")?;
        let name = Text::from_slice(alloc, name.as_bytes())?;
        let is_dir = false;
        entries.push(Entry { name, is_dir })?;
    }
    Ok(entries)
}

impl Tree for LargeFiles {
    ghost seen = { λ t. record { told = None; log = log_of t.calls } };

    fn list(&mut self, alloc: Global, dir: &Text, most: u32) -> Result<Items<Entry>, TreeFault> {
        let answer = entries_in(alloc, most);
        self.calls.listed(dir, most, answer)
    }

    fn read(&mut self, alloc: Global, path: &Text, most: u32) -> Result<Text, TreeFault> {
        self.reads = self.reads.saturating_add(1);
        let answer = bytes_at(alloc, path, &self.inside, most);
        self.calls.was_read(path, most, answer)
    }

    fn faults(&self) -> u64 {
        self.calls.failures()
    }
}

/// The 33rd file passes the sum of 536870912 bytes, and nothing behind it is read.
#[test]
fn bytes_of_all_files(rt: HostRuntime) -> Result<(), Fail> {
    let alloc = rt.alloc();
    let mut inside = Vec::new(alloc);
    inside.resize(16777156, 0)?;
    let mut tree = LargeFiles {
        inside,
        reads: 0,
        calls: Calls::none(),
    };
    let mut words = Vec::new(alloc);
    for word in WORDS {
        words.push(word.as_bytes().to_vec(alloc)?)?;
    }
    let mut out = sink(alloc, 1000, &[])?;
    let mut err = sink(alloc, 1000, &[])?;
    let status = world_run(&rt, alloc, &words, &mut tree, &mut out, &mut err);
    assert_eq!(rt; status, 10);
    assert_eq!(rt; err.bytes(), b"not built yet\n".as_slice());
    assert_eq!(rt; tree.reads, 33);
    Ok(())
}
