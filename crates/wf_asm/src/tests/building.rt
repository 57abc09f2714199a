use crate::build::class_of;
use crate::fault::AsmFault;
use std::alloc::{AllocError, Global};
use std::process::Abort;
use std::test::Fail;
use wf_base::{Items, Text};
use wf_listing::{
    Constant, Item, Listed, ListedCase, ListedCatch, ListedLookup, ListedMethod, ListedTable,
    Statement, Step,
};

fn label(alloc: Global, name: &[u8]) -> Result<Item, AllocError> {
    Ok(Item::Label(Text::from_slice(alloc, name)?))
}

fn fixed(alloc: Global, bytes: &[u8]) -> Result<Item, AllocError> {
    Ok(Item::Step(Step::Fixed(Text::from_slice(alloc, bytes)?)))
}

fn jump(alloc: Global, to: &[u8]) -> Result<Item, AllocError> {
    Ok(Item::Step(Step::Jump(0xA7, Text::from_slice(alloc, to)?)))
}

/// A class `A` without superclass, whose method `m` has these items, in lines from 1 on.
fn listed(alloc: Global, items: Vec<Item>) -> Result<Listed, AllocError> {
    let mut body = Vec::new(alloc);
    let mut line = 0u32;
    for says in items {
        line = line.saturating_add(1);
        body.push(Statement { line, says })?;
    }
    let mut methods = Vec::new(alloc);
    methods.push(ListedMethod {
        flags: 9,
        name: Text::from_slice(alloc, b"m")?,
        desc: Text::from_slice(alloc, b"()V")?,
        body: Some(Items::from_vec(body)),
    })?;
    Ok(Listed {
        line: 0,
        flags: 0x21,
        name: Text::from_slice(alloc, b"A")?,
        superclass: None,
        interfaces: Items::new(alloc),
        fields: Items::new(alloc),
        methods: Items::from_vec(methods),
    })
}

/// The bytes of such a method, or the line that is wrong.
fn code(alloc: Global, items: Vec<Item>) -> Result<Result<Vec<u8>, u32>, AllocError> {
    let class = match class_of(alloc, &listed(alloc, items)?) {
        Ok(class) => class,
        Err(AsmFault::BadLine { line }) => return Ok(Err(line)),
        Err(AsmFault::NoMemory) => return Err(AllocError),
    };
    let mut bytes = Vec::new(alloc);
    if let Some(method) = class.methods.as_slice().first() {
        if let Some(code) = &method.code {
            bytes.extend_from_slice(code.code.as_slice())?;
        }
    }
    Ok(Ok(bytes))
}

/// The code of a table behind this many bytes: its keys 5 and 6 lead to itself and behind it.
fn table_at(alloc: Global, front: &[u8]) -> Result<Result<Vec<u8>, u32>, AllocError> {
    let mut targets = Vec::new(alloc);
    targets.push(Text::from_slice(alloc, b"L")?)?;
    targets.push(Text::from_slice(alloc, b"M")?)?;
    let table = ListedTable {
        low: 5,
        targets: Items::from_vec(targets),
        default: Text::from_slice(alloc, b"M")?,
    };
    let mut items = Vec::new(alloc);
    items.push(fixed(alloc, front)?)?;
    items.push(label(alloc, b"L")?)?;
    items.push(Item::Step(Step::Table(table)))?;
    items.push(label(alloc, b"M")?)?;
    items.push(fixed(alloc, b"\xb1")?)?;
    code(alloc, items)
}

fn is_code(found: &Result<Vec<u8>, u32>, wanted: &[u8]) -> bool {
    match found {
        Ok(bytes) => bytes.as_slice() == wanted,
        Err(_) => false,
    }
}

fn is_bad_line(found: &Result<Vec<u8>, u32>, wanted: u32) -> bool {
    match found {
        Ok(_) => false,
        Err(line) => *line == wanted,
    }
}

#[test]
fn tables_at_each_alignment(rt: HostRuntime) -> Result<(), Fail> {
    let alloc = rt.alloc();
    let at_0 = b"\xaa\0\0\0\0\0\0\x18\0\0\0\x05\0\0\0\x06\0\0\0\0\0\0\0\x18\xb1";
    let at_1 = b"\0\xaa\0\0\0\0\0\x17\0\0\0\x05\0\0\0\x06\0\0\0\0\0\0\0\x17\xb1";
    let at_2 = b"\0\0\xaa\0\0\0\0\x16\0\0\0\x05\0\0\0\x06\0\0\0\0\0\0\0\x16\xb1";
    let at_3 = b"\0\0\0\xaa\0\0\0\x15\0\0\0\x05\0\0\0\x06\0\0\0\0\0\0\0\x15\xb1";
    assert!(rt; is_code(&table_at(alloc, b"")?, at_0));
    assert!(rt; is_code(&table_at(alloc, b"\0")?, at_1));
    assert!(rt; is_code(&table_at(alloc, b"\0\0")?, at_2));
    assert!(rt; is_code(&table_at(alloc, b"\0\0\0")?, at_3));
    Ok(())
}

#[test]
fn lookups(rt: HostRuntime) -> Result<(), Fail> {
    let alloc = rt.alloc();
    let mut cases = Vec::new(alloc);
    cases.push(ListedCase {
        key: -1,
        target: Text::from_slice(alloc, b"M")?,
    })?;
    cases.push(ListedCase {
        key: 7,
        target: Text::from_slice(alloc, b"L")?,
    })?;
    let lookup = ListedLookup {
        cases: Items::from_vec(cases),
        default: Text::from_slice(alloc, b"L")?,
    };
    let mut items = Vec::new(alloc);
    items.push(fixed(alloc, b"\0")?)?;
    items.push(label(alloc, b"L")?)?;
    items.push(Item::Step(Step::Lookup(lookup)))?;
    items.push(label(alloc, b"M")?)?;
    let wanted = b"\0\xab\0\0\0\0\0\0\0\0\0\x02\xff\xff\xff\xff\0\0\0\x1b\0\0\0\x07\0\0\0\0";
    assert!(rt; is_code(&code(alloc, items)?, wanted));
    Ok(())
}

/// The numbers stand from place 6 on, so the last but one is at 255, and the last at 256.
#[test]
fn loads_have_one_byte_up_to_255(rt: HostRuntime) -> Result<(), Fail> {
    let alloc = rt.alloc();
    let mut items = Vec::new(alloc);
    for n in 0..251 {
        items.push(Item::Step(Step::Load(Constant::Int(n))))?;
    }
    let found = code(alloc, items)?;
    let Ok(bytes) = found else {
        assert!(rt; false);
        return Ok(());
    };
    assert_eq!(rt; bytes.len(), 503);
    assert!(rt; bytes.as_slice().starts_with(b"\x12\x06\x12\x07"));
    assert!(rt; bytes.as_slice().ends_with(b"\x12\xfe\x12\xff\x13\x01\x00"));
    Ok(())
}

/// A jump over this many bytes.
fn jump_over(alloc: Global, count: usize) -> Result<Result<Vec<u8>, u32>, AllocError> {
    let zeros = vec![in alloc; 0; count]?;
    let mut items = Vec::new(alloc);
    items.push(jump(alloc, b"L")?)?;
    items.push(fixed(alloc, zeros.as_slice())?)?;
    items.push(label(alloc, b"L")?)?;
    code(alloc, items)
}

#[test]
fn jumps(rt: HostRuntime) -> Result<(), Fail> {
    let alloc = rt.alloc();
    let mut items = Vec::new(alloc);
    items.push(label(alloc, b"L")?)?;
    items.push(fixed(alloc, b"\0")?)?;
    items.push(jump(alloc, b"L")?)?;
    assert!(rt; is_code(&code(alloc, items)?, b"\0\xa7\xff\xff"));
    assert!(rt; jump_over(alloc, 32764)?.is_ok());
    assert!(rt; is_bad_line(&jump_over(alloc, 32765)?, 1));
    let mut nowhere = Vec::new(alloc);
    nowhere.push(fixed(alloc, b"\0")?)?;
    nowhere.push(jump(alloc, b"L")?)?;
    assert!(rt; is_bad_line(&code(alloc, nowhere)?, 2));
    Ok(())
}

/// The length of the code of a body with one such instruction.
fn code_of_length(alloc: Global, count: usize) -> Result<Result<Vec<u8>, u32>, AllocError> {
    let zeros = vec![in alloc; 0; count]?;
    let mut items = Vec::new(alloc);
    items.push(fixed(alloc, zeros.as_slice())?)?;
    code(alloc, items)
}

#[test]
fn codes_have_65535_bytes_at_most(rt: HostRuntime) -> Result<(), Fail> {
    let alloc = rt.alloc();
    assert!(rt; code_of_length(alloc, 65535)?.is_ok());
    assert!(rt; is_bad_line(&code_of_length(alloc, 65536)?, 1));
    Ok(())
}

fn catch(alloc: Global, class: Option<Text>) -> Result<Item, AllocError> {
    Ok(Item::Catch(ListedCatch {
        from: Text::from_slice(alloc, b"L")?,
        to: Text::from_slice(alloc, b"M")?,
        handler: Text::from_slice(alloc, b"M")?,
        class,
    }))
}

#[test]
fn catches(rt: HostRuntime) -> Result<(), Fail> {
    let alloc = rt.alloc();
    let mut items = Vec::new(alloc);
    items.push(label(alloc, b"L")?)?;
    items.push(fixed(alloc, b"\0")?)?;
    items.push(label(alloc, b"M")?)?;
    items.push(fixed(alloc, b"\xb1")?)?;
    items.push(catch(alloc, None)?)?;
    items.push(catch(alloc, Some(Text::from_slice(alloc, b"B")?))?)?;
    let mut found = Vec::new(alloc);
    if let Ok(class) = class_of(alloc, &listed(alloc, items)?) {
        if let Some(method) = class.methods.as_slice().first() {
            if let Some(code) = &method.code {
                for h in code.table.as_slice() {
                    found.push((h.start, h.end, h.target, h.catch_class))?;
                }
            }
        }
    }
    let wanted = [(0, 1, 1, 0), (0, 1, 1, 6)];
    assert_eq!(rt; found.as_slice(), wanted.as_slice());
    Ok(())
}
