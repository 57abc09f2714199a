use crate::{Refusal, RunFault, fault_at};
use std::alloc::{AllocError, Global};
use std::test::Fail;
use wf_base::Text;
use wf_bytes::Why;
use wf_io::TreeFault;

fn text(alloc: Global, bytes: &str) -> Result<Text, AllocError> {
    Text::from_slice(alloc, bytes.as_bytes())
}

/// A refusal that names a file.
fn bad_class(alloc: Global) -> Result<Refusal, AllocError> {
    Ok(Refusal::BadClass {
        file: text(alloc, "d/a b.class")?,
        offset: 12,
        why: Why::Cut,
    })
}

fn wrong_name(alloc: Global) -> Result<Refusal, AllocError> {
    Ok(Refusal::WrongName {
        file: text(alloc, "d/B.class")?,
        name: text(alloc, "A\u{e9}")?,
    })
}

#[test]
fn faults_have_their_statuses_and_lines(rt: HostRuntime) -> Result<(), Fail> {
    let alloc = rt.alloc();
    let cases: [(RunFault, u8, &str); 7] = [
        (
            bad_class(alloc)?.into(),
            3,
            "bad class file d/a\\20b.class at 12: cut\n",
        ),
        (
            wrong_name(alloc)?.into(),
            3,
            "wrong name in d/B.class: A\\c3\\a9\n",
        ),
        (
            Refusal::NoObject.into(),
            3,
            "java/lang/Object is not loadable\n",
        ),
        (Refusal::Unbuilt.into(), 10, "not built yet\n"),
        (
            RunFault::ReadFault {
                path: text(alloc, "d/x")?,
            },
            6,
            "read fault: d/x\n",
        ),
        (RunFault::WriteFault, 7, "write fault\n"),
        (RunFault::NoMemory, 9, "no memory\n"),
    ];
    for (fault, status, line) in &cases {
        assert_eq!(rt; fault.status(), *status, "{line}");
        assert_eq!(rt; fault.line(alloc)?.as_slice(), line.as_bytes());
    }
    Ok(())
}

#[test]
fn calls_that_gave_nothing(rt: HostRuntime) -> Result<(), Fail> {
    let alloc = rt.alloc();
    for (fault, status) in [
        (TreeFault::Failed, 6),
        (TreeFault::More, 3),
        (TreeFault::NoMemory, 9),
    ] {
        let ended = fault_at(text(alloc, "d")?, Refusal::NoObject, fault);
        assert_eq!(rt; ended.status(), status);
    }
    Ok(())
}
