use crate::{path_in, read_file, walk_from};
use std::alloc::{AllocError, Global};
use std::test::Fail;
use wf_base::{Items, Text};
use wf_io::{MemFile, TreeMem};

fn text(alloc: Global, bytes: &str) -> Result<Text, AllocError> {
    Text::from_slice(alloc, bytes.as_bytes())
}

/// A tree of files whose bytes are their paths. The calls with these numbers fail.
fn tree(alloc: Global, paths: &[&str], failing: &[u64]) -> Result<TreeMem, AllocError> {
    let mut files = Vec::new(alloc);
    for path in paths {
        files.push(MemFile {
            path: text(alloc, path)?,
            bytes: text(alloc, path)?,
        })?;
    }
    let failing = Items::from_vec(failing.to_vec(alloc)?);
    Ok(TreeMem::new(Items::from_vec(files), failing))
}

const PATHS: [&str; 8] = [
    "d/b/Z.class",
    "d/META-INF/X.class",
    "d/b/META-INF/Y.class",
    "d/a.class",
    "d/a.class/C.class",
    "d/module-info.class",
    "d/notes.txt",
    "e/E.class",
];

#[test]
fn walk_notes_class_files_in_order(rt: HostRuntime) -> Result<(), Fail> {
    let alloc = rt.alloc();
    let mut tree = tree(alloc, &PATHS, &[])?;
    let noted = walk_from(alloc, &mut tree, &text(alloc, "d")?)?;
    let want = [
        "d/a.class",
        "d/a.class/C.class",
        "d/b/META-INF/Y.class",
        "d/b/Z.class",
    ];
    assert_eq!(rt; noted.len(), want.len());
    for (path, want) in noted.as_slice().iter().zip(want.iter()) {
        assert_eq!(rt; path.as_slice(), want.as_bytes());
    }
    Ok(())
}

#[test]
fn each_call_may_fail(rt: HostRuntime) -> Result<(), Fail> {
    let alloc = rt.alloc();
    let lines = ["d", "d/a.class", "d/b", "d/b/META-INF"];
    for (number, path) in lines.iter().enumerate() {
        let mut tree = tree(alloc, &PATHS, &[number as u64])?;
        let answer = walk_from(alloc, &mut tree, &text(alloc, "d")?);
        let Some(fault) = answer.err() else {
            panic!(rt; "at {path}");
        };
        assert_eq!(rt; fault.status(), 6);
        let line = format!(in alloc; "read fault: {path}\n")?;
        assert_eq!(rt; fault.line(alloc)?.as_slice(), line.as_bytes());
    }
    Ok(())
}

#[test]
fn files_are_read(rt: HostRuntime) -> Result<(), Fail> {
    let alloc = rt.alloc();
    let mut tree = tree(alloc, &PATHS, &[])?;
    let path = path_in(alloc, &text(alloc, "e")?, &text(alloc, "E.class")?)?;
    let file = read_file(alloc, &mut tree, path)?;
    assert_eq!(rt; file.path.as_slice(), b"e/E.class".as_slice());
    assert_eq!(rt; file.bytes.as_slice(), b"e/E.class".as_slice());
    let none = read_file(alloc, &mut tree, text(alloc, "none")?);
    assert_eq!(rt; none.err().map(|fault| fault.status()), Some(6));
    Ok(())
}
