//! Summaries and roots, bound to a closed world.

ghost use Rattle.std.specs.Prelude.{◌≡◌, true};
ghost use Rattle.wf_binding.specs.Numbering.{RootsStand, made_stands};

use super::made::closed;
use std::alloc::Global;
use std::test::Fail;
use wf_base::{ClassId, Items, MethodId, Text, TypeId};
use wf_binding::{Added, RootNumbers, bind_roots, bind_summary};
use wf_classes::Classes;
use wf_inputs::{InputFault, RootLine, read_roots, read_summary};
use wf_names::{InputWhy, Root};
use wf_subtype::{Types, types_of};

const LISTING: &[u8] = b"class java/lang/Object
method protected native clone ()Ljava/lang/Object;
class java/lang/String
field value [C
field static last I
class A
field n I
field d D
method static main ()V
return
end
method <init> ()V
return
end
method static native nat (JI[I)I
method native run (JI[I)V
method static dbl (D)V
return
end
method plain (I)V
return
end
abstract X
method abstract m ()V
method <init> ()V
return
end
interface I
class Bare
";

/// A class that is abstract, and two that extend it.
const SUBCLASSES: &[u8] = b"class java/lang/Object
abstract X
class X1 extends X
class X2 extends X
class A
method static main ()V
return
end
";

/// The bytes of the longest text that a test gives: the readers take texts below 4 GiB.
const LONGEST: usize = 100_000;

/// The line and word of the fault of a summary. Line 0 where there is none.
fn summary_fault(
    alloc: Global,
    classes: &Classes,
    text: &[u8],
) -> Result<(u32, Option<InputWhy>), Fail> {
    if text.len() > LONGEST {
        return Ok((u32::MAX, None));
    }
    let summary = read_summary(alloc, text)?;
    match bind_summary(alloc, classes, summary) {
        Ok(_) => Ok((0, None)),
        Err(InputFault::Bad { line, why }) => Ok((line, Some(why))),
        Err(_) => Ok((u32::MAX, None)),
    }
}

/// The same of a list of roots.
fn roots_fault(
    alloc: Global,
    classes: &Classes,
    text: &[u8],
) -> Result<(u32, Option<InputWhy>), Fail> {
    if text.len() > LONGEST {
        return Ok((u32::MAX, None));
    }
    let roots = read_roots(alloc, text)?;
    match bind_roots(alloc, classes, roots) {
        Ok(_) => Ok((0, None)),
        Err(InputFault::Bad { line, why }) => Ok((line, Some(why))),
        Err(_) => Ok((u32::MAX, None)),
    }
}

#[test]
fn faults_of_summaries(rt: HostRuntime) -> Result<(), Fail> {
    let alloc = rt.alloc();
    let absent = Some(InputWhy::Absent);
    let kind = Some(InputWhy::Kind);
    let Some(classes) = closed(alloc, LISTING)? else {
        assert!(rt; false);
        return Ok(());
    };
    let cases: [(&[u8], u32, Option<InputWhy>); 40] = [
        (b"", 0, None),
        (
            b"method java/lang/Object.clone ()Ljava/lang/Object;\nreturns arg 0\n",
            0,
            None,
        ),
        (b"method A.main ()V\n", 1, kind),
        (b"method A.nope ()V\n", 1, absent),
        (b"method B.main ()V\n", 1, absent),
        (b"replace A.nat (JI[I)I\n", 1, kind),
        (b"replace X.m ()V\n", 1, kind),
        (b"replace A.main ()V\nreturns void\n", 0, None),
        (
            b"replace A.main ()V\nreplace A.main ()V\n",
            2,
            Some(InputWhy::Twice),
        ),
        (
            b"replace A.main ()V\nreplace A.main ()V\nmethod A.no ()V\n",
            2,
            Some(InputWhy::Twice),
        ),
        (
            b"replace A.main ()V\nmakes Zed\nreplace A.main ()V\n",
            2,
            absent,
        ),
        (b"replace A.main ()V\nreturns int 1\n", 2, kind),
        (b"method A.nat (JI[I)I\nreturns void\n", 2, kind),
        (
            b"method A.nat (JI[I)I\nreturns int -1\nreturns any\nreturns arg 1\n",
            0,
            None,
        ),
        (b"method A.nat (JI[I)I\nreturns arg 0\n", 2, kind),
        (b"method A.nat (JI[I)I\nreturns arg 2\n", 2, kind),
        (b"method A.nat (JI[I)I\nreturns arg 3\n", 2, kind),
        (b"method A.nat (JI[I)I\nreturns null\n", 2, kind),
        (b"method A.nat (JI[I)I\ncopies 2 2\n", 0, None),
        (b"method A.nat (JI[I)I\ncopies 2 1\n", 2, kind),
        (
            b"method A.run (JI[I)V\ncopies 0 3\nwrites A.n I arg 2\n",
            0,
            None,
        ),
        (b"method A.run (JI[I)V\nwrites A.n I arg 1\n", 2, kind),
        (b"method A.run (JI[I)V\nwrites A.d D any\n", 2, kind),
        (b"method A.run (JI[I)V\nwrites A.x I any\n", 2, absent),
        (b"method A.run (JI[I)V\nwrites A.n I new Zed\n", 2, absent),
        (b"method A.run (JI[I)V\nmakes X\n", 2, kind),
        (b"method A.run (JI[I)V\nmakes I\n", 2, kind),
        (
            b"method A.run (JI[I)V\nmakes [[LI;\nmakes [J\nmakes Bare\n",
            0,
            None,
        ),
        (b"method A.run (JI[I)V\nmakes [LZed;\n", 2, absent),
        (b"method A.run (JI[I)V\nmakes [Q\n", 2, absent),
        (b"method A.run (JI[I)V\nmakes J\n", 2, absent),
        (
            b"method java/lang/Object.clone ()Ljava/lang/Object;\nreturns new X\n",
            2,
            kind,
        ),
        (
            b"method java/lang/Object.clone ()Ljava/lang/Object;\nreturns some X\nreturns some I\n",
            0,
            None,
        ),
        (
            b"method java/lang/Object.clone ()Ljava/lang/Object;\nreturns some Zed\n",
            2,
            absent,
        ),
        (
            b"method java/lang/Object.clone ()Ljava/lang/Object;\nreturns int 1\n",
            2,
            kind,
        ),
        (b"literal java/lang/String.value [C new [C\n", 0, None),
        (b"literal java/lang/String.last I int 1\n", 1, kind),
        (b"literal A.n I int 1\n", 1, kind),
        (b"literal java/lang/String.value [C arg 0\n", 1, kind),
        (b"literal java/lang/String.nope [C null\n", 1, absent),
    ];
    for (text, line, why) in cases {
        assert_eq!(rt; summary_fault(alloc, &classes, text)?, (line, why));
    }
    Ok(())
}

#[test]
fn faults_of_roots(rt: HostRuntime) -> Result<(), Fail> {
    let alloc = rt.alloc();
    let absent = Some(InputWhy::Absent);
    let kind = Some(InputWhy::Kind);
    let Some(classes) = closed(alloc, LISTING)? else {
        assert!(rt; false);
        return Ok(());
    };
    let cases: [(&[u8], u32, Option<InputWhy>); 16] = [
        (
            b"static A.main ()V\nstatic A.main ()V\ninst [LI;\nmake A\n",
            0,
            None,
        ),
        (b"static A.nope ()V\n", 1, absent),
        (b"static A.plain (I)V\n", 1, kind),
        (b"static A.dbl (D)V\n", 1, kind),
        (b"static A.nat (JI[I)I\n", 0, None),
        (b"inst X\n", 1, kind),
        (b"inst I\n", 1, kind),
        (b"inst Zed\n", 1, absent),
        (b"inst [[J\ninst Bare\n", 0, None),
        (b"make X\n", 1, kind),
        (b"make Bare\n", 1, kind),
        (b"make I\n", 1, kind),
        (b"make [I\n", 1, kind),
        (b"make [LZed;\n", 1, absent),
        (b"make Zed\n", 1, absent),
        (b"static A.main ()V\n\ninst X\nmake Zed\n", 3, kind),
    ];
    for (text, line, why) in cases {
        assert_eq!(rt; roots_fault(alloc, &classes, text)?, (line, why));
    }
    Ok(())
}

/// Many blocks, all of one method.
#[test]
fn second_block_of_many(rt: HostRuntime) -> Result<(), Fail> {
    let alloc = rt.alloc();
    let Some(classes) = closed(alloc, LISTING)? else {
        assert!(rt; false);
        return Ok(());
    };
    let mut text = Text::new(alloc);
    for _ in 0..4096 {
        text.push_slice(b"replace A.main ()V\n")?;
    }
    let fault = summary_fault(alloc, &classes, text.as_slice())?;
    assert_eq!(rt; fault, (2, Some(InputWhy::Twice)));
    Ok(())
}

/// The root of a line.
fn root_of(alloc: Global, line: &[u8]) -> Result<Option<Root>, Fail> {
    if line.len() > LONGEST {
        return Ok(None);
    }
    match read_roots(alloc, line)?.lines.into_vec().pop() {
        Some(line) => Ok(Some(line.root)),
        None => Ok(None),
    }
}

/// The types of a listing, with one array type that something names. `None` where the listing gives no classes.
fn types_in(alloc: Global, listing: &[u8], array: &[u8]) -> Result<Option<Types>, Fail> {
    let Some(classes) = closed(alloc, listing)? else {
        return Ok(None);
    };
    let named = Vec::from_array(alloc, [Text::from_slice(alloc, array)?])?;
    Ok(Some(types_of(alloc, classes, &Items::from_vec(named))?))
}

/// Roots that are asked for, one after the other, of a list that has one already.
#[test]
fn roots_that_are_asked_for(rt: HostRuntime) -> Result<(), Fail> {
    let alloc = rt.alloc();
    let Some(types) = types_in(alloc, SUBCLASSES, b"[[LX;")? else {
        assert!(rt; false);
        return Ok(());
    };
    let listed = read_roots(alloc, b"static A.main ()V\n")?;
    let mut roots = bind_roots(alloc, types.classes(), listed)?;
    let cases: [(&[u8], Added, usize); 12] = [
        (b"inst X1", Added::New, 2),
        (b"inst X2", Added::New, 3),
        (b"inst X1", Added::There, 3),
        (b"inst X2", Added::There, 3),
        (b"inst X", Added::Invalid, 3),
        (b"inst Nope", Added::Invalid, 3),
        (b"static A.main ()V", Added::There, 3),
        (b"static A.nope ()V", Added::Invalid, 3),
        (b"make A", Added::Invalid, 3),
        (b"inst [[LX;", Added::New, 4),
        (b"inst [LX;", Added::Invalid, 4),
        (b"inst [[LX;", Added::There, 4),
    ];
    for (line, added, count) in cases {
        let Some(root) = root_of(alloc, line)? else {
            assert!(rt; false);
            return Ok(());
        };
        assert_eq!(rt; roots.add(alloc, &types, root)?, added);
        assert_eq!(rt; roots.get().lines.len(), count);
    }
    Ok(())
}

/// Whether each type of which a root has objects is a type of the universe.
fn all_stand(types: &Types, lines: &[RootLine]) -> bool
    ensures { result ≡ true → RootsStand types.now lines.now }
{
    for line in lines {
        if !stands(types, &line.root) {
            return false;
        }
    }
    true
}

fn stands(types: &Types, root: &Root) -> bool
    ensures { result ≡ made_stands types.now root.now }
{
    match root {
        Root::StaticCall(_) => true,
        Root::Inst(name) | Root::Make(name) => types.find(name.as_slice()).is_some(),
    }
}

/// The numbers of the roots of a list. `None` where some type of a root doesn't stand in the universe.
fn numbers_of(
    alloc: Global,
    types: &Types,
    text: &[u8],
) -> Result<Option<Items<RootNumbers>>, Fail> {
    if text.len() > LONGEST {
        return Ok(None);
    }
    let roots = read_roots(alloc, text)?;
    let bound = bind_roots(alloc, types.classes(), roots)?;
    if !all_stand(types, bound.get().lines.as_slice()) {
        return Ok(None);
    }
    Ok(Some(bound.numbers(alloc, types)?))
}

/// Classes, the methods of a class and types are numbered in the order of the bytes of their names, and null is type 0.
/// A root that is given twice counts once.
#[test]
fn numbers_of_roots(rt: HostRuntime) -> Result<(), Fail> {
    let alloc = rt.alloc();
    let Some(types) = types_in(alloc, LISTING, b"[LI;")? else {
        assert!(rt; false);
        return Ok(());
    };
    let text =
        b"static A.main ()V\nmake A\nstatic A.main ()V\ninst [LI;\n\nmake A\nstatic A.nat (JI[I)I\ninst [LI;\n";
    let Some(numbers) = numbers_of(alloc, &types, text)? else {
        assert!(rt; false);
        return Ok(());
    };
    let want = [
        RootNumbers::StaticCall(MethodId(2)),
        RootNumbers::StaticCall(MethodId(3)),
        RootNumbers::Inst(TypeId(3)),
        RootNumbers::Make {
            class: ClassId(0),
            made: TypeId(1),
            constructor: MethodId(0),
        },
    ];
    assert_eq!(rt; numbers.len(), 4);
    for number in want {
        assert!(rt; numbers.as_slice().contains(&number));
    }
    Ok(())
}
