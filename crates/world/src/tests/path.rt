//! Programs that call, whose worlds were worked out by hand.

use super::Ran;
use super::listings::run_listing;
use std::alloc::{AllocError, Global};
use std::test::Fail;

/// A program, and how many methods it enters, one a line.
type Program = (&'static str, u8, &'static str);

/// The report of a world that has methods alone.
fn report(alloc: Global, count: u8, methods: &str) -> Result<String, AllocError> {
    format!(in alloc; "world 1\ntypes 0\nmethods {count}\n{methods}fields 0\nunresolved 0\nend\n")
}

/// Whether a run printed this world and nothing else.
fn prints(alloc: Global, ran: &Ran, count: u8, methods: &str) -> Result<bool, AllocError> {
    let due = report(alloc, count, methods)?;
    Ok(ran.status == 0 && ran.out.bytes() == due.as_bytes() && ran.err.bytes().is_empty())
}

const FIRST: [Program; 6] = [
    // g calls itself and never returns, so its call of f is never made
    (
        "class A
        method static f ()I
          iconst_3
          ireturn
        end
        method static g ()V
          invokestatic A.g ()V
          invokestatic A.f ()I
          return
        end
        method static main ()V
          invokestatic A.g ()V
          return
        end",
        2,
        "A.g ()V\nA.main ()V\n",
    ),
    // the same classes, where main calls f
    (
        "class A
        method static f ()I
          iconst_3
          ireturn
        end
        method static g ()V
          invokestatic A.g ()V
          invokestatic A.f ()I
          return
        end
        method static main ()V
          invokestatic A.f ()I
          return
        end",
        2,
        "A.f ()I\nA.main ()V\n",
    ),
    // main calls itself
    (
        "class A
        method static f ()I
          iconst_4
          ireturn
        end
        method static main ()V
          invokestatic A.main ()V
          return
        end",
        1,
        "A.main ()V\n",
    ),
    // what stands behind a return is never carried out
    (
        "class A
        method static f ()I
          iconst_4
          ireturn
        end
        method static main ()V
          return
          invokestatic A.f ()I
          return
        end",
        1,
        "A.main ()V\n",
    ),
    // f has its int from itself, so it never returns, and g isn't called
    (
        "class A
        method static f ()I
          invokestatic A.f ()I
          ireturn
        end
        method static g ()V
          return
        end
        method static main ()V
          invokestatic A.f ()I
          invokestatic A.g ()V
          return
        end",
        2,
        "A.f ()I\nA.main ()V\n",
    ),
    // an int that is handed on through two methods enables what follows
    (
        "class A
        method static f ()I
          iconst_4
          ireturn
        end
        method static h ()I
          invokestatic A.f ()I
          ireturn
        end
        method static k ()I
          iconst_m1
          invokestatic A.h ()I
          ireturn
        end
        method static last ()V
          return
        end
        method static main ()V
          invokestatic A.k ()I
          invokestatic A.last ()V
          return
        end",
        5,
        "A.f ()I\nA.h ()I\nA.k ()I\nA.last ()V\nA.main ()V\n",
    ),
];

const SECOND: [Program; 6] = [
    // two methods that call each other
    (
        "class A
        method static f ()V
          invokestatic A.g ()V
          return
        end
        method static g ()V
          invokestatic A.f ()V
          return
        end
        method static main ()V
          invokestatic A.f ()V
          invokestatic A.never ()V
          return
        end
        method static never ()V
          return
        end",
        3,
        "A.f ()V\nA.g ()V\nA.main ()V\n",
    ),
    // methods stand in the order of class, name and descriptor
    (
        "class B
        method static z ()V
          return
        end
        method static a ()V
          return
        end
        method static a ()I
          iconst_0
          iconst_1
          ireturn
        end
        class A
        method static main ()V
          invokestatic B.z ()V
          invokestatic B.a ()V
          invokestatic B.a ()I
          return
        end",
        4,
        "A.main ()V\nB.a ()I\nB.a ()V\nB.z ()V\n",
    ),
    // one name in two classes: only the called one is entered
    (
        "class A
        method <init> ()V
          return
        end
        method static f ()I
          iconst_4
          ireturn
        end
        method static main ()V
          invokestatic B.f ()I
          return
        end
        class B
        method static f ()I
          iconst_4
          ireturn
        end",
        2,
        "A.main ()V\nB.f ()I\n",
    ),
    // a call is made again behind one that returned
    (
        "class A
        method static f ()I
          iconst_4
          ireturn
        end
        method static main ()V
          invokestatic A.f ()I
          invokestatic A.f ()I
          return
        end
        method static other ()V
          invokestatic A.f ()I
          return
        end",
        2,
        "A.f ()I\nA.main ()V\n",
    ),
    // a method that never returns is entered from another one, behind which nothing is
    (
        "class A
        method static main ()V
          invokestatic B.run ()V
          invokestatic B.stop ()V
          invokestatic B.after ()V
          return
        end
        class B
        method static after ()V
          return
        end
        method static run ()V
          return
        end
        method static stop ()V
          invokestatic B.stop ()V
          return
        end",
        3,
        "A.main ()V\nB.run ()V\nB.stop ()V\n",
    ),
    // a root that no other method calls, in a class of constructors
    (
        "class A
        method <init> ()V
          return
        end
        method static main ()V
          iconst_0
          iconst_5
          return
        end
        class B
        method <init> ()V
          return
        end",
        1,
        "A.main ()V\n",
    ),
];

#[test]
fn programs_that_call(rt: HostRuntime) -> Result<(), Fail> {
    let alloc = rt.alloc();
    for programs in [FIRST, SECOND] {
        for (listing, count, methods) in programs {
            let ran = run_listing(&rt, listing)?;
            assert!(rt; prints(alloc, &ran, count, methods)?, "{listing}");
        }
    }
    Ok(())
}

/// A chain of fifty methods, each of which calls the next, and one that nothing calls.
#[test]
fn a_chain_of_calls(rt: HostRuntime) -> Result<(), Fail> {
    let alloc = rt.alloc();
    let mut listing = String::from_str(
        alloc,
        "class A\nmethod static main ()V\ninvokestatic A.m10 ()V\nreturn\nend\n",
    )?;
    let mut methods = String::new(alloc);
    for i in 10..60u8 {
        let next = format!(in alloc;
            "method static m{i} ()V\ninvokestatic A.m{} ()V\nreturn\nend\n",
            i + 1
        )?;
        listing.push_str(next.as_str())?;
        methods.push_str(format!(in alloc; "A.m{i} ()V\n")?.as_str())?;
    }
    listing.push_str("method static m60 ()V\nreturn\nend\nmethod static m61 ()V\nreturn\nend\n")?;
    methods.push_str("A.m60 ()V\n")?;
    let ran = run_listing(&rt, listing.as_str())?;
    methods.push_str("A.main ()V\n")?;
    assert!(rt; prints(alloc, &ran, 52, methods.as_str())?);
    Ok(())
}

/// A call has to name a static method that the named class itself declares, even where it is never made.
#[test]
fn other_calls_are_not_built(rt: HostRuntime) -> Result<(), Fail> {
    let alloc = rt.alloc();
    let calls = [
        "C.f ()I",
        "A.f ()V",
        "A.<init> ()V",
        "A.g ()I",
        "java/lang/Object.f ()I",
    ];
    for call in calls {
        let listing = format!(in alloc;
            "
            class A
            method <init> ()V
              return
            end
            method static f ()I
              iconst_3
              ireturn
            end
            method static main ()V
              return
              invokestatic {call}
              return
            end
            class B
            method static g ()I
              iconst_2
              ireturn
            end
        "
        )?;
        let ran = run_listing(&rt, listing.as_str())?;
        assert_eq!(rt; ran.status, 10, "{call}");
        assert_eq!(rt; ran.err.bytes(), b"not built yet\n".as_slice());
        assert_eq!(rt; ran.out.bytes().len(), 0);
    }
    Ok(())
}
