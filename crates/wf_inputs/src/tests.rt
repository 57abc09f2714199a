use crate::{Effect, InputFault, Value, print_roots, print_summary, read_roots, read_summary};
use std::alloc::Global;
use std::test::Fail;
use wf_names::{InputWhy, Limit, Root};

const CLONE: &[u8] = b"method java/lang/Object.clone ()Ljava/lang/Object;\nreturns arg 0\n";

/// The bytes of the longest text that a test gives: the readers take texts below 4 GiB.
const LONGEST: usize = 100_000;

/// The line and word of the fault of a summary. Line 0 where there is none.
fn summary_fault(alloc: Global, text: &[u8]) -> (u32, Option<InputWhy>) {
    if text.len() > LONGEST {
        return (u32::MAX, None);
    }
    match read_summary(alloc, text) {
        Err(InputFault::Bad { line, why }) => (line, Some(why)),
        _ => (0, None),
    }
}

/// The line and word of the fault of a list of roots. Line 0 where there is none.
fn roots_fault(alloc: Global, text: &[u8]) -> (u32, Option<InputWhy>) {
    if text.len() > LONGEST {
        return (u32::MAX, None);
    }
    match read_roots(alloc, text) {
        Err(InputFault::Bad { line, why }) => (line, Some(why)),
        _ => (0, None),
    }
}

/// The limit that a summary goes over, with its greatest number.
fn summary_limit(alloc: Global, text: &[u8]) -> Option<(Limit, u64)> {
    if text.len() > LONGEST {
        return None;
    }
    match read_summary(alloc, text) {
        Err(InputFault::TooMany { limit, most }) => Some((limit, most)),
        _ => None,
    }
}

#[test]
fn faults_of_summaries(rt: HostRuntime) {
    let form = Some(InputWhy::Form);
    let cases: [(&[u8], u32, Option<InputWhy>); 16] = [
        (CLONE, 0, None),
        (b"", 0, None),
        (b"# returns\r\n\r\n#", 0, None),
        (b"method A.f ()I\r\nreturns int -2147483648", 0, None),
        (b"method A.f ()I\r\nreturns int 1\r", 2, form),
        (b"method A.f ()I\nreturns bool\n", 2, form),
        (b"returns void\n", 1, Some(InputWhy::Place)),
        (
            b"literal A.v I int 7\nreturns void\nbad\n",
            2,
            Some(InputWhy::Place),
        ),
        (b"\nbad\nreturns void\n", 2, form),
        (b"method A.f ()I\nreturns int 2147483648\n", 2, form),
        (b"method A.f ()I\nreturns int -0\n", 2, form),
        (b"method A.f ()I\ncopies 0 255\n", 2, form),
        (b"method A.f ()I\ncopies 01 0\n", 2, form),
        (b"method A.f ()I \n", 1, form),
        (b"replace Af ()I\n", 1, form),
        (b"method A\\41.f ()I\n", 1, form),
    ];
    for (text, line, why) in cases {
        assert_eq!(rt; summary_fault(rt.alloc(), text), (line, why));
    }
}

#[test]
fn faults_of_roots(rt: HostRuntime) {
    let cases: [(&[u8], u32, Option<InputWhy>); 6] = [
        (
            b"static A.main ()V\n# x\nstatic A.main ()V\ninst [I\nmake p/A",
            0,
            None,
        ),
        (b"static A.main\n", 1, Some(InputWhy::Form)),
        (b"make A\n\nstart A\n", 3, Some(InputWhy::Form)),
        (b" make A\n", 1, Some(InputWhy::Form)),
        (b"inst A B\n", 1, Some(InputWhy::Form)),
        (b"inst \n", 1, Some(InputWhy::Form)),
    ];
    for (text, line, why) in cases {
        assert_eq!(rt; roots_fault(rt.alloc(), text), (line, why));
    }
}

/// The limit counts lines that mean nothing too, and comes before any bad line.
#[test]
fn too_many_lines(rt: HostRuntime) -> Result<(), Fail> {
    let alloc = rt.alloc();
    let mut text = Vec::from_slice(alloc, b"bad\n")?;
    for _ in 0..65535 {
        text.push(b'\n')?;
    }
    assert_eq!(rt;
        roots_fault(alloc, text.as_slice()),
        (1, Some(InputWhy::Form))
    );
    text.push(b'#')?;
    assert_eq!(rt;
        summary_limit(alloc, text.as_slice()),
        Some((Limit::SummaryLines, 65536))
    );
    Ok(())
}

#[test]
fn blocks_and_effects(rt: HostRuntime) -> Result<(), Fail> {
    let alloc = rt.alloc();
    let text =
        b"#\nreplace A.f (I)V\nwrites A.a\\20b.c [I some B\ncopies 0 254\nliteral A.v I any\n";
    let summary = read_summary(alloc, text)?;
    assert_eq!(rt; summary.blocks.len(), 1);
    let block = &summary.blocks.as_slice()[0];
    assert!(rt; block.replace);
    assert_eq!(rt; block.line, 2);
    assert_eq!(rt; block.effects.len(), 2);
    let effect = &block.effects.as_slice()[0];
    assert_eq!(rt; effect.line, 3);
    match &effect.effect {
        Effect::Writes(field, Value::OneOf(name)) => {
            assert_eq!(rt; field.name.as_slice(), b"a b.c".as_slice());
            assert_eq!(rt; name.as_slice(), b"B".as_slice());
        }
        _ => assert!(rt; false),
    }
    assert_eq!(rt; summary.literals.len(), 1);
    assert_eq!(rt; summary.literals.as_slice()[0].line, 5);
    Ok(())
}

#[test]
fn what_is_printed(rt: HostRuntime) -> Result<(), Fail> {
    let alloc = rt.alloc();
    let roots = read_roots(alloc, b"static A.main ()V")?;
    let printed = print_roots(alloc, &roots)?;
    assert_eq!(rt; printed.as_slice(), b"static A.main ()V\n".as_slice());
    let printed = print_summary(alloc, &read_summary(alloc, CLONE)?)?;
    assert_eq!(rt; printed.as_slice(), CLONE);
    let text =
        b"#\n\nliteral A.v I int -7\r\nmethod A.f ()I\nreturns null\nreturns void\nmakes [I\nwrites A.v I any\ncopies 0 1\nreplace A.g ()V\nreturns new B";
    let want =
        b"method A.f ()I\nreturns null\nreturns void\nmakes [I\nwrites A.v I any\ncopies 0 1\nreplace A.g ()V\nreturns new B\nliteral A.v I int -7\n";
    let printed = print_summary(alloc, &read_summary(alloc, text)?)?;
    assert_eq!(rt; printed.as_slice(), want.as_slice());
    Ok(())
}

#[test]
fn roots_in_order(rt: HostRuntime) -> Result<(), Fail> {
    let alloc = rt.alloc();
    let roots = read_roots(alloc, b"inst A\n#\nmake p/A\n")?;
    assert_eq!(rt; roots.lines.len(), 2);
    assert_eq!(rt; roots.lines.as_slice()[1].line, 3);
    match &roots.lines.as_slice()[1].root {
        Root::Make(name) => assert_eq!(rt; name.as_slice(), b"p/A".as_slice()),
        _ => assert!(rt; false),
    }
    Ok(())
}
