//! The least line of a listing that isn't of the form.

use crate::{AsmFault, assemble};
use std::process::Abort;

/// The faulty line of a listing, or 0 where it is one.
fn faulty_line(rt: &(impl Abort + AllocGlobal), text: &[u8]) -> u32 {
    assert!(rt; text.len() < 1000);
    match assemble(rt.alloc(), text) {
        Ok(_) => 0,
        Err(AsmFault::BadLine { line }) => line,
        Err(AsmFault::NoMemory) => 1000,
    }
}

#[test]
fn one_line(rt: HostRuntime) {
    assert_eq!(rt; faulty_line(&rt, b"clas A"), 1);
    assert_eq!(rt; faulty_line(&rt, b"class A\nmethod f ()V\nreturn\n"), 4);
    assert_eq!(rt;
        faulty_line(&rt, b"class A\nmethod f ()V\nreturn\nend\n"),
        0
    );
    assert_eq!(rt;
        faulty_line(&rt, b"class A\nmethod f ()V\ngoto L\nend\n"),
        3
    );
    assert_eq!(rt;
        faulty_line(&rt, b"class A\nmethod f ()V\nL:\ncatch L M L any\nend\n"),
        4
    );
}

#[test]
fn labels_given_twice(rt: HostRuntime) {
    assert_eq!(rt;
        faulty_line(&rt, b"class A\nmethod f ()V\nL:\nL:\nreturn\nend\n"),
        4
    );
    assert_eq!(rt;
        faulty_line(&rt, b"class A\nmethod f ()V\nL:\nM:\nreturn\nend\n"),
        0
    );
    assert_eq!(rt;
        faulty_line(&rt, b"class A\nmethod f ()V\nL:\ngoto M\nL:\nend\n"),
        4
    );
}

/// A label that isn't given counts before a later line of wrong words, and so does a key out of range.
#[test]
fn the_least_counts(rt: HostRuntime) {
    assert_eq!(rt;
        faulty_line(&rt, b"class A\nmethod f ()V\ngoto L\nnop\nnope\nend\n"),
        3
    );
    assert_eq!(rt;
        faulty_line(&rt, b"class A\nmethod f ()V\ngoto L\nnop\nnope\nL:\nend\n"),
        5
    );
    assert_eq!(rt;
        faulty_line(&rt, b"class A\nmethod f ()V\nnope\ngoto L\nend\n"),
        3
    );
    assert_eq!(rt;
        faulty_line(
            &rt,
            b"class A\nmethod f ()V\nL:\nlookupswitch 2147483648 L default L\ngoto M\nend\n"
        ),
        4
    );
}
