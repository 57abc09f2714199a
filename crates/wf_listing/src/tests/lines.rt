//! Which line isn't of the form.

use crate::read_listing;
use std::process::Abort;

/// The first line that isn't of the form, or 0 where each is; 1000 where memory ran out.
fn first_bad(rt: &(impl Abort + AllocGlobal), text: &[u8]) -> u32 {
    assert!(rt; text.len() < 1000);
    match read_listing(rt.alloc(), text) {
        Ok(listing) => listing.first_bad.unwrap_or(0),
        Err(_) => 1000,
    }
}

#[test]
fn first_lines(rt: HostRuntime) {
    assert_eq!(rt; first_bad(&rt, b"clas A"), 1);
    assert_eq!(rt; first_bad(&rt, b"# a\n\n  class A\nend\nclas B\n"), 4);
    assert_eq!(rt; first_bad(&rt, b"field I x"), 1);
    assert_eq!(rt; first_bad(&rt, b"class  A\n"), 1);
    assert_eq!(rt; first_bad(&rt, b"class \\41\n"), 1);
    assert_eq!(rt; first_bad(&rt, b"class \\5c\r\n"), 0);
}

#[test]
fn ends(rt: HostRuntime) {
    assert_eq!(rt; first_bad(&rt, b"class A\nmethod f ()V\nreturn\n"), 4);
    assert_eq!(rt; first_bad(&rt, b"class A\nmethod f ()V\nreturn"), 4);
    assert_eq!(rt; first_bad(&rt, b"class A\nmethod native f ()V\nend\n"), 3);
    assert_eq!(rt; first_bad(&rt, b"class A\nmethod f ()V\nreturn\nend"), 0);
}

#[test]
fn flags(rt: HostRuntime) {
    assert_eq!(rt; first_bad(&rt, b"class A\nfield static static x I\n"), 2);
    assert_eq!(rt; first_bad(&rt, b"class A\nfield static package x I\n"), 0);
    assert_eq!(rt;
        first_bad(&rt, b"class A\nfield private protected x I\n"),
        2
    );
    assert_eq!(rt; first_bad(&rt, b"class A\nfield public x I\n"), 2);
}

#[test]
fn operands(rt: HostRuntime) {
    assert_eq!(rt; first_bad(&rt, b"class A\nfield x I = -1\n"), 0);
    assert_eq!(rt; first_bad(&rt, b"class A\nfield x I = -0\n"), 2);
    assert_eq!(rt; first_bad(&rt, b"class A\nfield x I = 01\n"), 2);
    assert_eq!(rt; first_bad(&rt, b"class A\nfield x I = 2147483648\n"), 2);
    assert_eq!(rt;
        first_bad(&rt, b"class A\nmethod f ()V\ninvokedynamic A.f ()V\nend\n"),
        3
    );
    assert_eq!(rt;
        first_bad(
            &rt,
            b"class A\nmethod f ()V\ninvokeinterface A.f ()Q\nend\n"
        ),
        3
    );
    assert_eq!(rt;
        first_bad(&rt, b"class A\nmethod f ()V\nldc \"\0\"\nend\n"),
        3
    );
    assert_eq!(rt;
        first_bad(&rt, b"class A\nmethod f ()V\nldc \"\x01\t\"\nend\n"),
        0
    );
}
