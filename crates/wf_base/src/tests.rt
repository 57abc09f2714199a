use crate::{Items, Text};
use std::alloc::{AllocError, Global};
use std::test::Fail;

fn text(alloc: Global, bytes: &str) -> Result<Text, AllocError> {
    Text::from_slice(alloc, bytes.as_bytes())
}

#[test]
fn texts_and_items(rt: HostRuntime) -> Result<(), Fail> {
    let alloc = rt.alloc();
    let mut line = Text::new(alloc);
    line.push_slice(b"A.")?;
    line.push_slice(b"main")?;
    assert_eq!(rt; line.as_slice(), b"A.main".as_slice());
    assert!(rt; line < text(alloc, "A.nope")?);
    let mut items = Items::new(alloc);
    assert!(rt; items.is_empty());
    for i in 0..3u8 {
        assert!(rt; items.push(i).is_ok());
    }
    assert_eq!(rt; items.len(), 3);
    items.as_mut_slice().reverse();
    assert_eq!(rt; items.as_slice(), [2, 1, 0].as_slice());
    assert_eq!(rt; Items::from_vec(items.into_vec()).len(), 3);
    Ok(())
}

/// A text that is shared is as good as one of its own.
#[test]
fn shared_texts(rt: HostRuntime) -> Result<(), Fail> {
    let alloc = rt.alloc();
    let shared = Text::shared(alloc, b"A.main")?;
    let moved = Text::from_slice(alloc, b"A.main ()V")?.into_shared(alloc)?;
    assert!(rt; moved.part(alloc, 0, 6)?.into_shared(alloc)? == shared);
    let mut longer = shared.clone()?;
    longer.push_slice(b" ()V")?;
    assert_eq!(rt; shared.as_slice(), b"A.main".as_slice());
    assert_eq!(rt; longer.as_slice(), b"A.main ()V".as_slice());
    assert!(rt; shared == text(alloc, "A.main")?);
    Ok(())
}
