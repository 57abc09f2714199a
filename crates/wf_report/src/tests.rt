use crate::{WorldFault, read_world, write_world};
use std::alloc::Global;
use std::test::Fail;
use wf_names::LinkError;

const FIRST: &[u8] = b"world 1\ntypes 0\nmethods 1\nA.main ()V\nfields 0\nunresolved 0\nend\n";

/// The bytes of the longest text that a test gives: the reader takes texts below 4 GiB.
const LONGEST: usize = 100_000;

/// The first bad line of a text. 0 where there is none.
fn bad_line(alloc: Global, text: &[u8]) -> u32 {
    if text.len() > LONGEST {
        return u32::MAX;
    }
    match read_world(alloc, text) {
        Err(WorldFault::BadLine { line }) => line,
        _ => 0,
    }
}

#[test]
fn first_world(rt: HostRuntime) -> Result<(), Fail> {
    let alloc = rt.alloc();
    let world = read_world(alloc, FIRST)?;
    assert_eq!(rt; world.methods.len(), 1);
    assert_eq!(rt;
        world.methods.as_slice()[0].name.as_slice(),
        b"main".as_slice()
    );
    assert!(rt; world.types.is_empty() && world.fields.is_empty());
    let written = write_world(alloc, &world, false)?;
    assert_eq!(rt; written.as_slice(), FIRST);
    let brief = b"world 1\ntypes 0\nmethods 1\nfields 0\nunresolved 0\nend\n";
    let written = write_world(alloc, &world, true)?;
    assert_eq!(rt; written.as_slice(), brief.as_slice());
    Ok(())
}

#[test]
fn every_list(rt: HostRuntime) -> Result<(), Fail> {
    let alloc = rt.alloc();
    let text =
        b"world 1\ntypes 2\n[Lq/Y;\nq/Y\nmethods 1\nA.main ()V\nfields 2\nP.a J\nP.n I\nunresolved 2\nA.main ()V 1 NoClassDefFoundError\nA.main ()V 10 InstantiationError\nend\n";
    let world = read_world(alloc, text)?;
    assert_eq!(rt; world.types.len(), 2);
    assert_eq!(rt; world.unresolved.len(), 2);
    let place = &world.unresolved.as_slice()[1];
    assert_eq!(rt; place.pc, 10);
    assert_eq!(rt; place.error, LinkError::Instantiation);
    let written = write_world(alloc, &world, false)?;
    assert_eq!(rt; written.as_slice(), text.as_slice());
    Ok(())
}

#[test]
fn first_bad_lines(rt: HostRuntime) {
    let cases: [(&[u8], u32); 14] = [
        (FIRST, 0),
        (
            b"world 1\ntypes 0\nmethods 1\nA.main ()V\nfields 0\nunresolved 0\n",
            7,
        ),
        (
            b"world 1\ntypes 0\nmethods 1\nA.main ()V\nfields 0\nunresolved 0\nend",
            7,
        ),
        (
            b"world 1\ntypes 0\nmethods 0\nfields 0\nunresolved 0\nend\n\n",
            7,
        ),
        (b"", 1),
        (b"world 1\r\n", 1),
        (b"world 1\ntypes 1\nmethods 0\n", 3),
        (b"world 1\ntypes 00\n", 2),
        (b"world 1\ntypes 2\nA\nA\n", 4),
        (b"world 1\ntypes 2\nB\nA\n", 4),
        (b"world 1\ntypes 2\n[I\nI;\n", 4),
        (b"world 1\ntypes 0\nmethods 1\nA.f I\n", 4),
        (
            b"world 1\ntypes 0\nmethods 0\nfields 0\nunresolved 1\nA.f ()V 65536 NoSuchFieldError\n",
            6,
        ),
        (b"world 1\ntypes 18446744073709551615\nA\nend x\n", 4),
    ];
    for (text, line) in cases {
        assert_eq!(rt; bad_line(rt.alloc(), text), line);
    }
}
