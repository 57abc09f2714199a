//! Each form of instruction, by the bytes of the JVM's table (JVMS 6.5).

use crate::lines::line_said;
use crate::listing::{Constant, Item, Said, Step};
use crate::names::names;
use std::alloc::Global;
use std::test::Fail;
use wf_base::Text;

/// Whether a line is an instruction of these bytes.
fn is_fixed(alloc: Global, line: &[u8], bytes: &[u8]) -> bool {
    match line_said(alloc, 1, line) {
        Ok(Said::Body(Item::Step(Step::Fixed(code)))) => code.as_slice() == bytes,
        _ => false,
    }
}

/// The opcode of a line that uses a constant at a place of two bytes, and what stands behind the place.
fn is_use(alloc: Global, line: &[u8], op: u8, rest: &[u8]) -> bool {
    match line_said(alloc, 1, line) {
        Ok(Said::Body(Item::Step(Step::Use(used)))) => used.op == op
            && used.rest.as_slice() == rest,
        _ => false,
    }
}

/// Whether a line loads this constant in the shortest form.
fn is_load(alloc: Global, line: &[u8], wanted: &Constant) -> bool {
    match line_said(alloc, 1, line) {
        Ok(Said::Body(Item::Step(Step::Load(constant)))) => constant == *wanted,
        _ => false,
    }
}

#[test]
fn loads(rt: HostRuntime) -> Result<(), Fail> {
    let alloc = rt.alloc();
    let text = Constant::Str(Text::from_slice(alloc, b"a b")?);
    let class = Constant::Class(Text::from_slice(alloc, b"[I")?);
    assert!(rt; is_load(alloc, b"ldc \"a b\"", &text));
    assert!(rt; is_load(alloc, b"ldc int -7", &Constant::Int(-7)));
    assert!(rt; is_load(alloc, b"ldc class [I", &class));
    Ok(())
}

#[test]
fn numbers(rt: HostRuntime) {
    let alloc = rt.alloc();
    assert!(rt; is_fixed(alloc, b"nop", &[0x00]));
    assert!(rt; is_fixed(alloc, b"return", &[0xB1]));
    assert!(rt; is_fixed(alloc, b"monitorexit", &[0xC3]));
    assert!(rt; is_fixed(alloc, b"bipush -128", &[0x10, 0x80]));
    assert!(rt; is_fixed(alloc, b"sipush 513", &[0x11, 0x02, 0x01]));
    assert!(rt; is_fixed(alloc, b"iload 255", &[0x15, 0xFF]));
    assert!(rt; is_fixed(alloc, b"iinc 1 -1", &[0x84, 0x01, 0xFF]));
}

#[test]
fn wide_and_arrays(rt: HostRuntime) {
    let alloc = rt.alloc();
    assert!(rt; is_fixed(alloc, b"wide ret 300", &[0xC4, 0xA9, 0x01, 0x2C]));
    assert!(rt;
        is_fixed(
            alloc,
            b"wide iinc 1 -2",
            &[0xC4, 0x84, 0x00, 0x01, 0xFF, 0xFE]
        )
    );
    assert!(rt; !is_fixed(alloc, b"wide nop", &[0xC4, 0x00]));
    assert!(rt; is_fixed(alloc, b"newarray boolean", &[0xBC, 0x04]));
    assert!(rt; is_fixed(alloc, b"newarray long", &[0xBC, 0x0B]));
}

#[test]
fn places(rt: HostRuntime) {
    let alloc = rt.alloc();
    assert!(rt; is_use(alloc, b"getfield A.x I", 0xB4, &[]));
    assert!(rt; is_use(alloc, b"invokestatic interface A.f ()V", 0xB8, &[]));
    assert!(rt; is_use(alloc, b"invokeinterface A.f (IJ)V", 0xB9, &[4, 0]));
    assert!(rt; is_use(alloc, b"new A", 0xBB, &[]));
    assert!(rt; is_use(alloc, b"multianewarray [[I 2", 0xC5, &[2]));
    assert!(rt; is_use(alloc, b"ldc long -1", 0x14, &[]));
    assert!(rt; is_use(alloc, b"ldc_w int 7", 0x13, &[]));
}

#[test]
fn places_of_fields_and_classes(rt: HostRuntime) {
    let alloc = rt.alloc();
    assert!(rt; is_use(alloc, b"getstatic A.x [I", 0xB2, &[]));
    assert!(rt; is_use(alloc, b"putfield A.x J", 0xB5, &[]));
    assert!(rt; is_use(alloc, b"invokespecial A.<init> ()V", 0xB7, &[]));
    assert!(rt; is_use(alloc, b"anewarray A", 0xBD, &[]));
    assert!(rt; is_use(alloc, b"checkcast [I", 0xC0, &[]));
    assert!(rt; is_use(alloc, b"instanceof A", 0xC1, &[]));
    assert!(rt; is_fixed(alloc, b"wide iload 300", &[0xC4, 0x15, 0x01, 0x2C]));
}

#[test]
fn jumps(rt: HostRuntime) {
    let said = line_said(rt.alloc(), 1, b"ifnull L");
    assert!(rt;
        matches!(&said, Ok(Said::Body(Item::Step(Step::Jump(op, label)))) if *op == 0xC6 && label.as_slice() == b"L".as_slice())
    );
    let said = line_said(rt.alloc(), 1, b"goto_w L");
    assert!(rt;
        matches!(&said, Ok(Said::Body(Item::Step(Step::FarJump(op, label)))) if *op == 0xC8 && label.as_slice() == b"L".as_slice())
    );
}

#[test]
fn switches(rt: HostRuntime) {
    let said = line_said(rt.alloc(), 1, b"tableswitch -1 A B default C");
    assert!(rt;
        matches!(&said, Ok(Said::Body(Item::Step(Step::Table(table)))) if table.low == -1 && table.targets.len() == 2)
    );
    let said = line_said(rt.alloc(), 1, b"lookupswitch 5 A 9 B default C");
    assert!(rt;
        matches!(&said, Ok(Said::Body(Item::Step(Step::Lookup(lookup)))) if lookup.cases.len() == 2)
    );
    let said = line_said(rt.alloc(), 1, b"lookupswitch default C");
    assert!(rt;
        matches!(&said, Ok(Said::Body(Item::Step(Step::Lookup(lookup)))) if lookup.cases.is_empty())
    );
    let said = line_said(rt.alloc(), 1, b"tableswitch 0 default C");
    assert!(rt; said.is_err());
}

#[test]
fn outside(rt: HostRuntime) {
    let said = line_said(rt.alloc(), 3, b"interface A extends B implements C D");
    assert!(rt;
        matches!(&said, Ok(Said::Class(class)) if class.line == 3 && class.flags == 0x0601 && class.interfaces.len() == 2)
    );
    let said = line_said(rt.alloc(), 1, b"class java/lang/Object");
    assert!(rt;
        matches!(&said, Ok(Said::Class(class)) if class.flags == 0x0021 && class.superclass.is_none())
    );
    let said = line_said(rt.alloc(), 1, b"field static x I = 7");
    assert!(rt;
        matches!(&said, Ok(Said::Field(field)) if field.flags == 0x0009 && field.constant == Some(7))
    );
    let said = line_said(rt.alloc(), 1, b"method package abstract f ()V");
    assert!(rt;
        matches!(&said, Ok(Said::Method(method)) if method.flags == 0x0400 && method.body.is_none())
    );
    let said = line_said(rt.alloc(), 1, b"catch A B C any");
    assert!(rt; matches!(&said, Ok(Said::Body(Item::Catch(entry))) if entry.class.is_none()));
}

/// Each name stands at its opcode in the list of names (JVMS 7).
#[test]
fn names_stand_at_their_opcodes(rt: HostRuntime) {
    let opcodes: [(&[u8], usize); 9] = [
        (b"nop", 0x00),
        (b"ldc", 0x12),
        (b"aload_3", 0x2d),
        (b"sastore", 0x56),
        (b"swap", 0x5f),
        (b"ifeq", 0x99),
        (b"return", 0xb1),
        (b"wide", 0xc4),
        (b"jsr_w", 0xc9),
    ];
    for (name, opcode) in opcodes {
        let place = names().split(|b| *b == b' ').position(|word| word == name);
        assert_eq!(rt; place, Some(opcode));
    }
    assert_eq!(rt; names().split(|b| *b == b' ').count(), 202);
}
