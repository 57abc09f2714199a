//! The rows of the top call over a tree and sinks in memory.

mod bad;
mod hierarchy;
mod limits;
mod listings;
mod path;

use crate::run::world_run;
use listings::{OBJECT, class_bytes};
use std::alloc::{AllocError, Global};
use std::test::Fail;
use std::thread::Threads;
use wf_base::{Items, Text};
use wf_io::{MemFile, SinkMem, TreeMem};

/// What a file of a tree has.
#[derive(Clone, Copy)]
enum Content {
    /// `java/lang/Object`, with its constructor.
    Object,
    /// A class with this name, in the form of names, with `main ()V` and `other ()V`.
    Class(&'static str),
    Bytes(&'static [u8]),
}

type File = (&'static str, Content);

const FIRST_ROW: [File; 3] = [
    ("d/A.class", Content::Class("A")),
    ("d/java/lang/Object.class", Content::Object),
    ("r", Content::Bytes(b"static A.main ()V\n")),
];

const WORDS: [&str; 3] = ["--roots", "r", "d"];

const REPORT: &[u8] = b"world 1\ntypes 0\nmethods 1\nA.main ()V\nfields 0\nunresolved 0\nend\n";

/// A constant text as it stands in a pool (JVMS 4.4.7).
fn push_text(out: &mut Vec<u8>, text: &[u8]) -> Result<(), AllocError> {
    out.extend_from_slice(&[1, 0])?;
    out.push((text.len() % 256) as u8)?;
    out.extend_from_slice(text)
}

fn bytes_of(alloc: Global, content: &Content) -> Result<Text, Fail> {
    match content {
        Content::Object => class_bytes(alloc, OBJECT),
        Content::Class(name) => {
            let listing = format!(in alloc;
                "class {name}
                method static main ()V
                  return
                end
                method static other ()V
                  return
                end
            "
            )?;
            class_bytes(alloc, listing.as_str())
        }
        Content::Bytes(bytes) => Ok(Text::from_slice(alloc, bytes)?),
    }
}

fn tree(alloc: Global, files: &[File], failing: &[u64]) -> Result<TreeMem, Fail> {
    let mut made = Vec::new(alloc);
    for (path, content) in files {
        let path = Text::from_slice(alloc, path.as_bytes())?;
        let bytes = bytes_of(alloc, content)?;
        made.push(MemFile { path, bytes })?;
    }
    let failing = Items::from_vec(failing.to_vec(alloc)?);
    Ok(TreeMem::new(Items::from_vec(made), failing))
}

/// A sink that takes at most this many bytes at a time, and fails at these writes.
fn sink(alloc: Global, step: usize, failing: &[u64]) -> Result<SinkMem, AllocError> {
    let failing = Items::from_vec(failing.to_vec(alloc)?);
    SinkMem::new(alloc, 1000, step.max(1), failing)
}

#[derive(Drop)]
/// The status of a run, with what stands on its sinks.
struct Ran {
    status: u8,
    out: SinkMem,
    err: SinkMem,
}

fn run<R: Threads + Sync + AllocGlobal>(
    rt: &R,
    words: &[&str],
    mut tree: TreeMem,
    mut out: SinkMem,
) -> Result<Ran, AllocError> {
    let alloc = rt.alloc();
    let mut err = sink(alloc, 1000, &[])?;
    let mut bytes = Vec::new(alloc);
    for word in words {
        bytes.push(word.as_bytes().to_vec(alloc)?)?;
    }
    let status = world_run(rt, alloc, &bytes, &mut tree, &mut out, &mut err);
    Ok(Ran { status, out, err })
}

#[test]
fn first_row(rt: HostRuntime) -> Result<(), Fail> {
    let alloc = rt.alloc();
    let ran = run(
        &rt,
        &WORDS,
        tree(alloc, &FIRST_ROW, &[])?,
        sink(alloc, 1000, &[])?,
    )?;
    assert_eq!(rt; ran.status, 0);
    assert_eq!(rt; ran.out.bytes(), REPORT);
    assert_eq!(rt; ran.out.bytes().len(), 63);
    assert_eq!(rt; ran.err.bytes().len(), 0);
    Ok(())
}

#[test]
fn other_words_are_not_built(rt: HostRuntime) -> Result<(), Fail> {
    let alloc = rt.alloc();
    let cases: [&[&str]; 8] = [
        &[],
        &["--roots"],
        &["--roots", "r"],
        &["--root", "r", "d"],
        &["--roots", "r", "-d"],
        &["--roots", "--", "d"],
        &["--roots", "r", "d", "e"],
        &["r", "--roots", "d"],
    ];
    for words in cases {
        let ran = run(
            &rt,
            words,
            tree(alloc, &FIRST_ROW, &[])?,
            sink(alloc, 1000, &[])?,
        )?;
        assert_eq!(rt; ran.status, 10, "{words:?}");
        assert_eq!(rt; ran.err.bytes(), b"not built yet\n".as_slice());
        assert_eq!(rt; ran.out.bytes().len(), 0);
    }
    Ok(())
}

#[test]
fn each_call_of_the_tree_may_fail(rt: HostRuntime) -> Result<(), Fail> {
    let alloc = rt.alloc();
    let lines = [
        "read fault: d\n",
        "read fault: d/java\n",
        "read fault: d/java/lang\n",
        "read fault: d/A.class\n",
        "read fault: d/java/lang/Object.class\n",
        "read fault: r\n",
    ];
    for (k, line) in lines.iter().enumerate() {
        let tree = tree(alloc, &FIRST_ROW, &[k as u64])?;
        let ran = run(&rt, &WORDS, tree, sink(alloc, 1000, &[])?)?;
        assert_eq!(rt; ran.status, 6, "at {k}");
        assert_eq!(rt; ran.err.bytes(), line.as_bytes());
        assert_eq!(rt; ran.out.bytes().len(), 0);
    }
    Ok(())
}

#[test]
fn each_write_may_fail(rt: HostRuntime) -> Result<(), Fail> {
    let alloc = rt.alloc();
    for k in 0..63 {
        let out = sink(alloc, 1, &[k])?;
        let ran = run(&rt, &WORDS, tree(alloc, &FIRST_ROW, &[])?, out)?;
        assert_eq!(rt; ran.status, 7, "at {k}");
        assert_eq!(rt; ran.err.bytes(), b"write fault\n".as_slice());
        assert_eq!(rt; ran.out.bytes(), &REPORT[..k as usize]);
    }
    Ok(())
}

/// Which file is read at which call shows the order of the walk.
#[test]
fn walk_goes_in_order(rt: HostRuntime) -> Result<(), Fail> {
    let alloc = rt.alloc();
    let files = [
        ("d/b/Z.class", Content::Class("b/Z")),
        ("d/META-INF/X.class", Content::Bytes(b"")),
        ("d/b/META-INF/Y.class", Content::Class("b/META-INF/Y")),
        ("d/a.class", Content::Class("a")),
        ("d/a.class/C.class", Content::Bytes(b"")),
        ("d/module-info.class", Content::Bytes(b"")),
        ("d/notes.txt", Content::Bytes(b"")),
        ("d/java/lang/Object.class", Content::Object),
        ("r", Content::Bytes(b"static a.main ()V")),
    ];
    let calls = [
        "d",
        "d/a.class",
        "d/b",
        "d/b/META-INF",
        "d/java",
        "d/java/lang",
        "d/a.class",
    ];
    for (k, path) in calls.iter().enumerate() {
        let ran = run(
            &rt,
            &WORDS,
            tree(alloc, &files, &[k as u64])?,
            sink(alloc, 1000, &[])?,
        )?;
        assert_eq!(rt; ran.status, 6, "at {k}");
        let line = format!(in alloc; "read fault: {path}\n")?;
        assert_eq!(rt; ran.err.bytes(), line.as_bytes());
    }
    Ok(())
}

/// Rows that end in a report.
#[test]
fn roots_of_the_form(rt: HostRuntime) -> Result<(), Fail> {
    let alloc = rt.alloc();
    let roots: [&'static [u8]; 4] = [
        b"static A.main ()V",
        b"static A.main ()V\n",
        b"static A.main ()V\r\n",
        b"static A.other ()V\n",
    ];
    for (i, line) in roots.into_iter().enumerate() {
        let files = [
            ("d/A.class", Content::Class("A")),
            ("d/java/lang/Object.class", Content::Object),
            ("r", Content::Bytes(line)),
        ];
        let ran = run(
            &rt,
            &WORDS,
            tree(alloc, &files, &[])?,
            sink(alloc, 1000, &[])?,
        )?;
        assert_eq!(rt; ran.status, 0, "at {i}");
        if i < 3 {
            assert_eq!(rt; ran.out.bytes(), REPORT);
        }
    }
    Ok(())
}

#[test]
fn other_input_is_not_built(rt: HostRuntime) -> Result<(), Fail> {
    let alloc = rt.alloc();
    let cases: [[File; 3]; 10] = [
        // roots files
        row("d/A.class", Content::Class("A"), b"static A.nope ()V\n"),
        row("d/A.class", Content::Class("A"), b"static A.main ()V\n\n"),
        row(
            "d/A.class",
            Content::Class("A"),
            b"# x\nstatic A.main ()V\n",
        ),
        row("d/A.class", Content::Class("A"), b"static A.main ()V\r"),
        row("d/A.class", Content::Class("A"), b"static A.main ()V \n"),
        row("d/A.class", Content::Class("A"), b"static  A.main ()V\n"),
        row("d/A.class", Content::Class("A"), b"static A.m\\61in ()V\n"),
        row("d/A.class", Content::Class("A"), b"inst A\n"),
        row(
            "d/A.class",
            Content::Class("A"),
            b"static java/lang/Object.<init> ()V\n",
        ),
        row("d/A.class", Content::Class("A"), b""),
    ];
    for (i, files) in cases.iter().enumerate() {
        let ran = run(
            &rt,
            &WORDS,
            tree(alloc, files, &[])?,
            sink(alloc, 1000, &[])?,
        )?;
        assert_eq!(rt; ran.status, 10, "at {i}");
        assert_eq!(rt; ran.err.bytes(), b"not built yet\n".as_slice());
        assert_eq!(rt; ran.out.bytes().len(), 0);
    }
    Ok(())
}

fn row(path: &'static str, class: Content, roots: &'static [u8]) -> [File; 3] {
    [
        (path, class),
        ("d/java/lang/Object.class", Content::Object),
        ("r", Content::Bytes(roots)),
    ]
}

/// A class at another path than that of its name is refused before a later file is read.
#[test]
fn class_at_another_path(rt: HostRuntime) -> Result<(), Fail> {
    let alloc = rt.alloc();
    for (path, line) in [
        ("d/B.class", "wrong name in d/B.class: A\n"),
        ("d/A/A.class", "wrong name in d/A/A.class: A\n"),
    ] {
        let files = row(path, Content::Class("A"), b"static A.main ()V\n");
        let ran = run(
            &rt,
            &WORDS,
            tree(alloc, &files, &[9])?,
            sink(alloc, 1000, &[])?,
        )?;
        assert_eq!(rt; ran.status, 3);
        assert_eq!(rt; ran.err.bytes(), line.as_bytes());
        assert_eq!(rt; ran.out.bytes().len(), 0);
    }
    Ok(())
}

/// Without `java/lang/Object` the roots file isn't read.
#[test]
fn no_object(rt: HostRuntime) -> Result<(), Fail> {
    let alloc = rt.alloc();
    let files = [("d/A.class", Content::Class("A"))];
    let ran = run(
        &rt,
        &WORDS,
        tree(alloc, &files, &[])?,
        sink(alloc, 1000, &[])?,
    )?;
    assert_eq!(rt; ran.status, 3);
    assert_eq!(rt;
        ran.err.bytes(),
        b"java/lang/Object is not loadable\n".as_slice()
    );
    let files = [("d/java/lang/Object.class", Content::Object)];
    let ran = run(
        &rt,
        &WORDS,
        tree(alloc, &files, &[])?,
        sink(alloc, 1000, &[])?,
    )?;
    assert_eq!(rt; ran.status, 6);
    assert_eq!(rt; ran.err.bytes(), b"read fault: r\n".as_slice());
    Ok(())
}

/// Names in the report, in the roots file and in a fault's line have the form with escapes.
#[test]
fn names_are_escaped(rt: HostRuntime) -> Result<(), Fail> {
    let alloc = rt.alloc();
    let files = [
        ("d/a b\u{e9}.class", Content::Class("a\\20b\\c3\\a9")),
        ("d/java/lang/Object.class", Content::Object),
        ("r", Content::Bytes(b"static a\\20b\\c3\\a9.main ()V\n")),
    ];
    let ran = run(
        &rt,
        &WORDS,
        tree(alloc, &files, &[])?,
        sink(alloc, 1000, &[])?,
    )?;
    assert_eq!(rt; ran.status, 0);
    let report =
        b"world 1\ntypes 0\nmethods 1\na\\20b\\c3\\a9.main ()V\nfields 0\nunresolved 0\nend\n";
    assert_eq!(rt; ran.out.bytes(), report.as_slice());
    let ran = run(
        &rt,
        &WORDS,
        tree(alloc, &files, &[3])?,
        sink(alloc, 1000, &[])?,
    )?;
    assert_eq!(rt;
        ran.err.bytes(),
        b"read fault: d/a\\20b\\c3\\a9.class\n".as_slice()
    );
    Ok(())
}
