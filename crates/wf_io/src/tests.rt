use crate::{
    Entry, MemFile, Sink, SinkFault, SinkMem, StdSink, StdTree, Tree, TreeFault, TreeMem, sorted,
};
use std::alloc::{AllocError, Global};
use std::fs;
use std::io::{self, ErrorKind, Write};
use std::os::unix::fs::symlink;
use std::test::Fail;
use wf_base::{Items, Text};

fn text(alloc: Global, bytes: &str) -> Result<Text, AllocError> {
    Text::from_slice(alloc, bytes.as_bytes())
}

fn numbers(alloc: Global, given: &[u64]) -> Result<Items<u64>, AllocError> {
    Ok(Items::from_vec(given.to_vec(alloc)?))
}

fn tree(alloc: Global, files: &[(&str, &str)], failing: &[u64]) -> Result<TreeMem, AllocError> {
    let mut made = Vec::new(alloc);
    for (path, bytes) in files {
        let path = text(alloc, path)?;
        let bytes = text(alloc, bytes)?;
        made.push(MemFile { path, bytes })?;
    }
    Ok(TreeMem::new(Items::from_vec(made), numbers(alloc, failing)?))
}

/// The names of the entries, each with a slash if it is a directory, and a space.
fn names(alloc: Global, entries: &Items<Entry>) -> Result<Vec<u8>, AllocError> {
    let mut names = Vec::new(alloc);
    for entry in entries.as_slice() {
        names.extend_from_slice(entry.name.as_slice())?;
        names.extend_from_slice(if entry.is_dir { b"/ " } else { b" " })?;
    }
    Ok(names)
}

const FILES: [(&str, &str); 9] = [
    ("in/a.class", "x"),
    ("in/a/B.class", "one"),
    ("in/a/B.class", "three"),
    ("in/META-INF/MANIFEST.MF", ""),
    ("in/a", "file"),
    ("in/a/C.class", "two"),
    ("inner/d", ""),
    ("in", ""),
    ("in//e", ""),
];

#[test]
fn tree_in_memory_lists(rt: HostRuntime) -> Result<(), Fail> {
    let alloc = rt.alloc();
    let mut tree = tree(alloc, &FILES, &[])?;
    for (dir, most, want) in [
        ("in", 5, "/ META-INF/ a a/ a.class "),
        ("in/a", 2, "B.class C.class "),
        ("in/META-INF", 1, "MANIFEST.MF "),
        ("in/a.class", 0, ""),
        ("nowhere", 0, ""),
    ] {
        let entries = tree.list(alloc, &text(alloc, dir)?, most)?;
        assert_eq!(rt;
            names(alloc, &entries)?.as_slice(),
            want.as_bytes(),
            "at {dir}"
        );
    }
    let more = tree.list(alloc, &text(alloc, "in")?, 4);
    assert_eq!(rt; more.err(), Some(TreeFault::More));
    assert_eq!(rt; tree.faults(), 0);
    Ok(())
}

#[test]
fn tree_in_memory_reads(rt: HostRuntime) -> Result<(), Fail> {
    let alloc = rt.alloc();
    let mut tree = tree(alloc, &FILES, &[])?;
    for (path, most, want) in [
        ("in/a/B.class", 3, Ok("one")),
        ("in/a/B.class", 2, Err(TreeFault::More)),
        ("in/META-INF/MANIFEST.MF", 0, Ok("")),
        ("in/a", 9, Ok("file")),
        ("in/META-INF", 9, Err(TreeFault::Failed)),
        ("in/b", 9, Err(TreeFault::Failed)),
    ] {
        match (tree.read(alloc, &text(alloc, path)?, most), want) {
            (Ok(bytes), Ok(want)) => {
                assert_eq!(rt; bytes.as_slice(), want.as_bytes(), "at {path}");
            }
            (Err(fault), Err(want)) => assert_eq!(rt; fault, want, "at {path}"),
            _ => panic!(rt; "at {path}"),
        }
    }
    assert_eq!(rt; tree.faults(), 2);
    Ok(())
}

#[test]
fn tree_in_memory_fails_where_it_is_told_to(rt: HostRuntime) -> Result<(), Fail> {
    let alloc = rt.alloc();
    let mut tree = tree(alloc, &FILES, &[1, 2, 9])?;
    let dir = text(alloc, "in")?;
    for (number, fails) in [false, true, true, false].iter().enumerate() {
        let failed = if number % 2 == 0 {
            tree.list(alloc, &dir, 9).err()
        } else {
            tree.read(alloc, &dir, 9).err()
        };
        let want = if *fails {
            Some(TreeFault::Failed)
        } else {
            None
        };
        assert_eq!(rt; failed, want, "at {number}");
    }
    assert_eq!(rt; tree.faults(), 2);
    Ok(())
}

#[test]
fn tree_in_memory_lists_many(rt: HostRuntime) -> Result<(), Fail> {
    let alloc = rt.alloc();
    let mut files = Vec::new(alloc);
    for number in (0..65_537u32).rev() {
        let path = format!(in alloc; "in/{number}")?;
        let path = text(alloc, path.as_str())?;
        files.push(MemFile {
            path,
            bytes: Text::new(alloc),
        })?;
    }
    let mut tree = TreeMem::new(Items::from_vec(files), Items::new(alloc));
    let dir = text(alloc, "in")?;
    assert_eq!(rt; tree.list(alloc, &dir, 65_536).err(), Some(TreeFault::More));
    let entries = sorted(tree.list(alloc, &dir, 65_537)?)?;
    assert_eq!(rt; entries.len(), 65_537);
    Ok(())
}

#[test]
fn sorts_entries(rt: HostRuntime) -> Result<(), Fail> {
    let alloc = rt.alloc();
    let mut entries = Vec::new(alloc);
    for (name, is_dir) in [
        ("b", true),
        ("b", false),
        ("a-", false),
        ("b", true),
        ("a", true),
    ] {
        let name = text(alloc, name)?;
        entries.push(Entry { name, is_dir })?;
    }
    let entries = sorted(Items::from_vec(entries))?;
    assert_eq!(rt;
        names(alloc, &entries)?.as_slice(),
        b"a/ a- b b/ ".as_slice()
    );
    Ok(())
}

#[test]
fn sink_in_memory_takes(rt: HostRuntime) -> Result<(), Fail> {
    let alloc = rt.alloc();
    let mut sink = SinkMem::new(alloc, 5, 2, numbers(alloc, &[1, 6])?)?;
    for (piece, want) in [
        ("abc", Ok(2)),
        ("", Ok(0)),
        ("c", Err(SinkFault::Failed)),
        ("cd", Ok(2)),
        ("ef", Ok(1)),
        ("", Ok(0)),
        ("f", Err(SinkFault::Failed)),
    ] {
        assert_eq!(rt; sink.write(piece.as_bytes()), want, "at {piece}");
    }
    assert_eq!(rt; sink.bytes(), b"abcde".as_slice());
    assert_eq!(rt; sink.faults(), 2);
    Ok(())
}

#[test]
fn real_tree_lists_and_reads(rt: HostRuntime) -> Result<(), Fail> {
    let alloc = rt.alloc();
    let _ = fs::remove_dir_all(&rt, "real");
    fs::create_dir_all(&rt, "real/a/deep")?;
    fs::write(&rt, "real/b.class", "four")?;
    symlink(&rt, "b.class", "real/link")?;
    symlink(&rt, "a", "real/way")?;

    let mut tree = StdTree::new(&rt);
    let dir = text(alloc, "real")?;
    let entries = sorted(tree.list(alloc, &dir, 4)?)?;
    assert_eq!(rt;
        names(alloc, &entries)?.as_slice(),
        b"a/ b.class link way/ ".as_slice()
    );
    assert_eq!(rt; tree.list(alloc, &dir, 3).err(), Some(TreeFault::More));
    for path in ["real/b.class", "real/link"] {
        let path = text(alloc, path)?;
        assert_eq!(rt; tree.read(alloc, &path, 4)?.as_slice(), b"four".as_slice());
        assert_eq!(rt; tree.read(alloc, &path, 3).err(), Some(TreeFault::More));
    }
    assert_eq!(rt; tree.faults(), 0);

    symlink(&rt, "nothing", "real/a/stray")?;
    for path in ["real/none", "real/a", "real/a/stray", "\0"] {
        let path = text(alloc, path)?;
        assert_eq!(rt; tree.read(alloc, &path, 9).err(), Some(TreeFault::Failed));
    }
    for dir in ["real/none", "real/b.class", "real/a"] {
        let dir = text(alloc, dir)?;
        assert_eq!(rt; tree.list(alloc, &dir, 9).err(), Some(TreeFault::Failed));
    }
    let path = Text::from_slice(alloc, b"real/\xff")?;
    assert_eq!(rt; tree.read(alloc, &path, 9).err(), Some(TreeFault::Failed));
    assert_eq!(rt; tree.faults(), 8);
    fs::remove_dir_all(&rt, "real")?;
    Ok(())
}

/// A writer that is broken off before every write, takes one byte of each piece, and no more than three.
#[derive(Drop)]
struct Slow {
    is_next: bool,
    left: usize,
}

impl Write for Slow {
    fn write(&mut self, piece: &[u8]) -> io::Result<usize> {
        self.is_next = !self.is_next;
        if self.is_next {
            return Err(io::Error::from(ErrorKind::Interrupted));
        }
        let taken = piece.len().min(self.left).min(1);
        self.left -= taken;
        Ok(taken)
    }

    fn flush(&mut self) -> io::Result<()> {
        Ok(())
    }
}

#[test]
fn real_sink_takes(rt: HostRuntime) -> Result<(), Fail> {
    let alloc = rt.alloc();
    let mut sink = StdSink::new(fs::create(&rt, "taken")?);
    assert_eq!(rt; sink.write(b""), Ok(0));
    assert_eq!(rt; sink.write(b"some"), Ok(4));
    assert_eq!(rt; sink.write(b" more"), Ok(5));
    assert_eq!(rt; sink.faults(), 0);
    assert_eq!(rt; fs::read(&rt, "taken")?.as_slice(), b"some more".as_slice());
    fs::remove_file(&rt, "taken")?;

    let mut full = StdSink::new(Slow {
        is_next: false,
        left: 3,
    });
    for want in [
        Ok(1),
        Ok(1),
        Ok(1),
        Err(SinkFault::Failed),
        Err(SinkFault::Failed),
    ] {
        assert_eq!(rt; full.write(b"some"), want);
    }
    assert_eq!(rt; full.write(b""), Ok(0));
    assert_eq!(rt; full.faults(), 2);
    Ok(())
}
