//! Files that spell no class, and classes of another form.

use super::{Content, File, REPORT, Ran, WORDS, push_text, run, sink, tree};
use std::alloc::{AllocError, Global};
use std::test::Fail;
use std::thread::Threads;
use wf_base::{Items, Text};
use wf_io::{MemFile, TreeMem};

/// `java/lang/Object` with no methods.
const OBJECT: &[u8] =
    b"\xca\xfe\xba\xbe\x00\x00\x00\x34\x00\x03\x07\x00\x02\x01\x00\x10java/lang/Object\x00\x21\x00\x01\x00\x00\x00\x00\x00\x00\x00\x00\x00\x00";

/// A class `a//A` below `java/lang/Object`.
const TWO_SLASHES: &[u8] =
    b"\xca\xfe\xba\xbe\x00\x00\x004\x00\x05\x07\x00\x02\x01\x00\x04a//A\x07\x00\x04\x01\x00\x10java/lang/Object\x00!\x00\x01\x00\x03\x00\x00\x00\x00\x00\x00\x00\x00";

/// What is changed of it.
#[derive(Clone, Copy)]
enum Change {
    CutTo(usize),
    OneMore,
    Byte(usize, u8),
}

fn changed(alloc: Global, change: Change) -> Result<Vec<u8>, AllocError> {
    let mut bytes = OBJECT.to_vec(alloc)?;
    match change {
        Change::CutTo(size) => bytes.truncate(size),
        Change::OneMore => bytes.push(0)?,
        Change::Byte(place, byte) => {
            if let Some(old) = bytes.get_mut(place) {
                *old = byte;
            }
        }
    }
    Ok(bytes)
}

fn mem_file(alloc: Global, path: &str, bytes: Vec<u8>) -> Result<MemFile, AllocError> {
    let path = Text::from_slice(alloc, path.as_bytes())?;
    let bytes = Text::from_vec(bytes);
    Ok(MemFile { path, bytes })
}

/// The run over these files and the root `static A.main ()V`.
fn run_files<R: Threads + Sync + AllocGlobal>(
    rt: &R,
    mut files: Vec<MemFile>,
) -> Result<Ran, AllocError> {
    let alloc = rt.alloc();
    files.push(mem_file(alloc, "r", b"static A.main ()V\n".to_vec(alloc)?)?)?;
    let tree = TreeMem::new(Items::from_vec(files), Items::new(alloc));
    run(rt, &WORDS, tree, sink(alloc, 1000, &[])?)
}

#[test]
fn first_fault_of_a_file(rt: HostRuntime) -> Result<(), Fail> {
    let alloc = rt.alloc();
    let cases = [
        (Change::CutTo(45), "44: cut"),
        (Change::OneMore, "46: trailing"),
        (Change::Byte(16, 0), "16: utf8"),
        (Change::Byte(13, 2), "13: tag"),
        (Change::Byte(7, 0x35), "6: version"),
        (Change::Byte(37, 1), "36: super"),
        (Change::CutTo(0), "0: cut"),
        (Change::CutTo(10), "10: cut"),
        (Change::CutTo(20), "16: cut"),
    ];
    for (change, fault) in cases {
        let mut files = Vec::new(alloc);
        let bytes = changed(alloc, change)?;
        files.push(mem_file(alloc, "d/java/lang/Object.class", bytes)?)?;
        let ran = run_files(&rt, files)?;
        assert_eq!(rt; ran.status, 3, "{fault}");
        let line = format!(in alloc; "bad class file d/java/lang/Object.class at {fault}\n")?;
        assert_eq!(rt; ran.err.bytes(), line.as_bytes());
        assert_eq!(rt; ran.out.bytes().len(), 0);
    }
    Ok(())
}

/// A class of no allowed name, and a file that ends behind the magic number.
#[test]
fn other_bad_files(rt: HostRuntime) -> Result<(), Fail> {
    let alloc = rt.alloc();
    let cases: [(File, &str); 2] = [
        (
            ("d/a/A.class", Content::Bytes(TWO_SLASHES)),
            "bad class file d/a/A.class at 44: name\n",
        ),
        (
            ("d/A.class", Content::Bytes(b"\xca\xfe\xba\xbe")),
            "bad class file d/A.class at 4: cut\n",
        ),
    ];
    for (file, line) in cases {
        let files = [
            file,
            ("d/java/lang/Object.class", Content::Object),
            ("r", Content::Bytes(b"static A.main ()V\n")),
        ];
        let ran = run(
            &rt,
            &WORDS,
            tree(alloc, &files, &[])?,
            sink(alloc, 1000, &[])?,
        )?;
        assert_eq!(rt; ran.status, 3);
        assert_eq!(rt; ran.err.bytes(), line.as_bytes());
        assert_eq!(rt; ran.out.bytes().len(), 0);
    }
    Ok(())
}

#[test]
fn path_of_a_bad_file_is_escaped(rt: HostRuntime) -> Result<(), Fail> {
    let alloc = rt.alloc();
    let files = [
        ("d/a b.class", Content::Bytes(b"")),
        ("d/java/lang/Object.class", Content::Object),
    ];
    let ran = run(
        &rt,
        &WORDS,
        tree(alloc, &files, &[])?,
        sink(alloc, 1000, &[])?,
    )?;
    assert_eq!(rt; ran.status, 3);
    assert_eq!(rt;
        ran.err.bytes(),
        b"bad class file d/a\\20b.class at 0: cut\n".as_slice()
    );
    Ok(())
}

/// What a class has besides `main ()V`.
#[derive(Clone, Copy, PartialEq, Eq)]
enum Besides {
    Field,
    InterfaceFlag,
    Handler,
    SourceFile,
}

/// The bytes of the class `A`.
fn class_with(alloc: Global, besides: Besides) -> Result<Vec<u8>, AllocError> {
    let mut out = Vec::new(alloc);
    out.extend_from_slice(&[0xca, 0xfe, 0xba, 0xbe, 0, 0, 0, 52, 0, 10, 7, 0, 2])?;
    push_text(&mut out, b"A")?;
    out.extend_from_slice(&[7, 0, 4])?;
    for text in [
        b"java/lang/Object".as_slice(),
        b"()V",
        b"Code",
        b"main",
        b"I",
    ] {
        push_text(&mut out, text)?;
    }
    push_text(&mut out, b"SourceFile")?;
    let high = if besides == Besides::InterfaceFlag {
        6
    } else {
        0
    };
    out.extend_from_slice(&[high, 0x21, 0, 1, 0, 3, 0, 0])?;
    if besides == Besides::Field {
        out.extend_from_slice(&[0, 1, 0, 9, 0, 7, 0, 8, 0, 0])?;
    } else {
        out.extend_from_slice(&[0, 0])?;
    }
    let handlers: &[u8] = if besides == Besides::Handler {
        &[0, 0, 0, 1, 0, 0, 0, 0]
    } else {
        &[]
    };
    let handler = if besides == Besides::Handler { 1 } else { 0 };
    out.extend_from_slice(&[0, 1, 0, 9, 0, 7, 0, 5, 0, 1, 0, 6])?;
    out.extend_from_slice(&[0, 0, 0, 13 + 8 * handler, 0, 0, 0, 0, 0, 0, 0, 1, 0xb1])?;
    out.extend_from_slice(&[0, handler])?;
    out.extend_from_slice(handlers)?;
    out.extend_from_slice(&[0, 0])?;
    if besides == Besides::SourceFile {
        out.extend_from_slice(&[0, 1, 0, 9, 0, 0, 0, 2, 0, 4])?;
    } else {
        out.extend_from_slice(&[0, 0])?;
    }
    Ok(out)
}

/// What comes first in the order of the walk counts.
#[test]
fn other_forms(rt: HostRuntime) -> Result<(), Fail> {
    let alloc = rt.alloc();
    for besides in [Besides::Field, Besides::InterfaceFlag, Besides::Handler] {
        for (bad, status, line) in [
            ("d/B.class", 10, "not built yet\n"),
            ("d/0.class", 3, "bad class file d/0.class at 0: cut\n"),
        ] {
            let mut files = Vec::new(alloc);
            files.push(mem_file(alloc, bad, Vec::new(alloc))?)?;
            files.push(mem_file(alloc, "d/A.class", class_with(alloc, besides)?)?)?;
            let ran = run_files(&rt, files)?;
            assert_eq!(rt; ran.status, status);
            assert_eq!(rt; ran.err.bytes(), line.as_bytes());
            assert_eq!(rt; ran.out.bytes().len(), 0);
        }
    }
    Ok(())
}

#[test]
fn skipped_attributes_are_no_hindrance(rt: HostRuntime) -> Result<(), Fail> {
    let alloc = rt.alloc();
    let mut files = Vec::new(alloc);
    let class = class_with(alloc, Besides::SourceFile)?;
    files.push(mem_file(alloc, "d/A.class", class)?)?;
    let path = Text::from_slice(alloc, b"d/java/lang/Object.class")?;
    let bytes = super::bytes_of(alloc, &Content::Object)?;
    files.push(MemFile { path, bytes })?;
    let ran = run_files(&rt, files)?;
    assert_eq!(rt; ran.status, 0);
    assert_eq!(rt; ran.out.bytes(), REPORT);
    assert_eq!(rt; ran.err.bytes().len(), 0);
    Ok(())
}
