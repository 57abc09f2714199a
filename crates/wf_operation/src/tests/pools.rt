//! Instructions that need the pool, and those that lead elsewhere.

use super::*;
use wf_base::Text;

/// An int at 0, texts from 1, names with the descriptors 1 to 5 from 8, a field and two methods of each from 13, and
/// from 28 the classes `A` and `[[I`, a long, a string and a float.
fn pool(alloc: Global) -> Result<Vec<PoolEntry>, AllocError> {
    let mut pool = Vec::new(alloc);
    let texts: &[&[u8]] = &[b"J", b"F", b"x", b"(I[JLa;)J", b"(D)V", b"A", b"[[I"];
    pool.push(PoolEntry::Integer(7))?;
    for text in texts {
        pool.push(PoolEntry::Utf8(Text::from_slice(alloc, text)?))?;
    }
    for desc in 1..=5u16 {
        pool.push(PoolEntry::NameType(0, desc))?;
    }
    for name_type in 8..=12u16 {
        pool.push(PoolEntry::Field(0, name_type))?;
        pool.push(PoolEntry::Method(0, name_type))?;
        pool.push(PoolEntry::InterfaceMethod(0, name_type))?;
    }
    pool.push(PoolEntry::Class(6))?;
    pool.push(PoolEntry::Class(7))?;
    pool.push(PoolEntry::Long(1))?;
    pool.push(PoolEntry::Str(3))?;
    pool.push(PoolEntry::Float(0))?;
    Ok(pool)
}

/// An opcode, `a`, `b`, and the stack in front of it and behind it where it has an effect.
const CASES: &[(u8, i32, i32, &[u8], Option<&[u8]>)] = &[
    (0x12, 0, 0, b"", Some(b"I")),
    (0x12, 28, 0, b"", Some(b"A")),
    (0x12, 31, 0, b"", Some(b"A")),
    (0x12, 32, 0, b"", None),
    (0x12, 30, 0, b"", None),
    (0x14, 30, 0, b"", Some(b"LR")),
    (0x14, 0, 0, b"", None),
    // a field of descriptor J, F and x
    (0xB2, 13, 0, b"", Some(b"LR")),
    (0xB3, 13, 0, b"LR", Some(b"")),
    (0xB4, 13, 0, b"A", Some(b"LR")),
    (0xB5, 13, 0, b"ALR", Some(b"")),
    (0xB5, 13, 0, b"LR", None),
    (0xB2, 16, 0, b"", None),
    (0xB2, 19, 0, b"", None),
    (0xB2, 14, 0, b"", None),
    // methods of descriptor (I[JLa;)J
    (0xB6, 23, 0, b"AIAA", Some(b"LR")),
    (0xB7, 23, 0, b"AIAA", Some(b"LR")),
    (0xB8, 23, 0, b"IAA", Some(b"LR")),
    (0xB9, 23, 0, b"AIAA", None),
    (0xB6, 24, 0, b"AIAA", None),
    (0xB7, 24, 0, b"AIAA", Some(b"LR")),
    (0xB8, 24, 0, b"IAA", Some(b"LR")),
    (0xB9, 24, 0, b"AIAA", Some(b"LR")),
    (0xB6, 22, 0, b"AIAA", None),
    // of (D)V, and of x
    (0xB8, 26, 0, b"", None),
    (0xB8, 20, 0, b"", None),
    // classes
    (0xBB, 28, 0, b"", Some(b"A")),
    (0xBB, 5, 0, b"", None),
    (0xBD, 28, 0, b"I", Some(b"A")),
    (0xC0, 29, 0, b"A", Some(b"A")),
    (0xC1, 29, 0, b"A", Some(b"I")),
    (0xC1, 33, 0, b"A", None),
    (0xC5, 29, 2, b"II", Some(b"A")),
    (0xC5, 29, 1, b"I", Some(b"A")),
    (0xC5, 29, 0, b"", None),
    (0xC5, 29, 3, b"III", None),
    (0xC5, 28, 1, b"I", None),
    (0xBB, -1, 0, b"", None),
    (0xBB, 65564, 0, b"", None),
];

#[test]
fn instructions_with_the_pool(rt: HostRuntime) -> Result<(), Fail> {
    let pool = pool(rt.alloc())?;
    for (op, a, b, before, after) in CASES {
        let instr = instr(rt.alloc(), *op, *a, *b);
        let found = match operation_of(rt.alloc(), &pool, &instr)? {
            Some(operation) => behind(rt.alloc(), &operation.effect, before)?,
            None => None,
        };
        let found = found.as_ref().map(|slots| slots.as_slice());
        assert_eq!(rt; found.is_some(), after.is_some(), "{op} {a}");
        assert_eq!(rt; found.unwrap_or(b""), after.unwrap_or(b""), "{op} {a}");
    }
    Ok(())
}

/// An opcode of a branch, and what is left of operand 1 and 2 along edge 0, then along edge 1.
type Branch = (u8, Option<Left>, Option<Left>, Option<Left>, Option<Left>);

fn against(cmp: Cmp) -> Option<Left> {
    Some(Left::Compared(cmp))
}

fn against_zero(cmp: Cmp) -> Option<Left> {
    Some(Left::ComparedTo(cmp, 0))
}

/// Sees what is left of operands along the edges of a branch.
fn is_left(
    rt: &(impl Abort + AllocGlobal),
    (op, one, two, other_one, other_two): Branch,
) -> Result<(), AllocError> {
    let instr = instr(rt.alloc(), op, 5, 0);
    if let Some(operation) = operation_of(rt.alloc(), &[], &instr)? {
        let next = &operation.next;
        assert_eq!(rt; left_of(next, 0, 1), one, "{op}");
        assert_eq!(rt; left_of(next, 0, 2), two, "{op}");
        assert_eq!(rt; left_of(next, 1, 1), other_one, "{op}");
        assert_eq!(rt; left_of(next, 1, 2), other_two, "{op}");
        assert_eq!(rt; target(next, 0), Some(5), "{op}");
    } else {
        assert!(rt; false, "{op}");
    }
    Ok(())
}

#[test]
fn ints_are_refined(rt: HostRuntime) -> Result<(), Fail> {
    let branches: [Branch; 4] = [
        (
            0x9B,
            against_zero(Cmp::Lt),
            None,
            against_zero(Cmp::Ge),
            None,
        ),
        (
            0xA3,
            against(Cmp::Gt),
            against(Cmp::Lt),
            against(Cmp::Le),
            against(Cmp::Ge),
        ),
        (
            0x9F,
            against(Cmp::Eq),
            against(Cmp::Eq),
            against(Cmp::Ne),
            against(Cmp::Ne),
        ),
        (0xA7, None, None, None, None),
    ];
    for branch in branches {
        is_left(&rt, branch)?;
    }
    Ok(())
}

#[test]
fn references_are_refined(rt: HostRuntime) -> Result<(), Fail> {
    let same = Some(Left::SameRef);
    let other = Some(Left::OtherRef);
    let null = Some(Left::OnlyNull);
    let no_null = Some(Left::NoNull);
    let branches: [Branch; 4] = [
        (0xA5, same, same, other, other),
        (0xA6, other, other, same, same),
        (0xC6, null, None, no_null, None),
        (0xC7, no_null, None, null, None),
    ];
    for branch in branches {
        is_left(&rt, branch)?;
    }
    Ok(())
}

#[test]
fn edges_of_a_switch(rt: HostRuntime) -> Result<(), Fail> {
    let mut cases = Vec::new(rt.alloc());
    cases.push(Case { key: 3, target: 20 })?;
    cases.push(Case { key: 3, target: 30 })?;
    let switch = Instr {
        op: 0xAB,
        a: 40,
        b: 0,
        cases: Items::from_vec(cases),
    };
    if let Some(operation) = operation_of(rt.alloc(), &[], &switch)? {
        let next = &operation.next;
        let key = Some(Left::ComparedTo(Cmp::Eq, 3));
        for (edge, place, left) in [(0, 20, key), (1, 30, key), (2, 40, Some(Left::NoKey))] {
            assert_eq!(rt; target(next, edge), Some(place), "{edge}");
            assert_eq!(rt; left_of(next, edge, 1), left, "{edge}");
            assert_eq!(rt; left_of(next, edge, 2), None, "{edge}");
        }
        assert!(rt; !gives_value(&operation));
        assert_eq!(rt; link_of(operation.sort), Link::Plain);
    } else {
        assert!(rt; false);
    }
    Ok(())
}

#[test]
fn values_and_links(rt: HostRuntime) -> Result<(), Fail> {
    let pool = pool(rt.alloc())?;
    let cases = [
        (0x84, 1, true, Link::Plain),
        (0x15, 1, false, Link::Plain),
        (0x59, 0, false, Link::Plain),
        (0x60, 0, true, Link::Plain),
        (0xB8, 23, true, Link::Calls),
        (0xC0, 29, true, Link::Tests),
        (0xC1, 29, true, Link::Tests),
        (0xBB, 28, true, Link::Plain),
        (0xB3, 13, false, Link::Plain),
    ];
    for (op, a, gives, link) in cases {
        let instr = instr(rt.alloc(), op, a, 0);
        if let Some(operation) = operation_of(rt.alloc(), &pool, &instr)? {
            assert_eq!(rt; gives_value(&operation), gives, "{op}");
            assert_eq!(rt; link_of(operation.sort), link, "{op}");
        } else {
            assert!(rt; false, "{op}");
        }
    }
    Ok(())
}
