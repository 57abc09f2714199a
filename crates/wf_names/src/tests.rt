use crate::{InputWhy, Limit, LinkError, MemberName, Root, member_text, name_text, read_name};
use std::alloc::{AllocError, Global};
use std::test::Fail;
use wf_base::Text;

fn text(alloc: Global, bytes: &str) -> Result<Text, AllocError> {
    Text::from_slice(alloc, bytes.as_bytes())
}

#[test]
fn words_are_names(rt: HostRuntime) -> Result<(), Fail> {
    let alloc = rt.alloc();
    let name = read_name(alloc, b"a\\20b\\c3\\a9;")?.ok_or("no name")?;
    assert_eq!(rt; name.as_slice(), b"a b\xc3\xa9;".as_slice());
    let words: [&[u8]; 7] = [b"", b"a b", b"a\\", b"a\\2", b"a\\2G", b"a\\41", b"a\\C3"];
    for word in words {
        assert!(rt; read_name(alloc, word)?.is_none());
    }
    Ok(())
}

#[test]
fn names_have_a_printed_form(rt: HostRuntime) -> Result<(), Fail> {
    let alloc = rt.alloc();
    let cases: [(&[u8], &[u8]); 5] = [
        (b"java/lang/Object", b"java/lang/Object"),
        (b"", b""),
        (b"!~", b"!~"),
        (b"a b\\", b"a\\20b\\5c"),
        (b"\x00\x1f\x7f\xff\n", b"\\00\\1f\\7f\\ff\\0a"),
    ];
    for (name, want) in cases {
        assert_eq!(rt; name_text(alloc, name)?.as_slice(), want);
    }
    let member = MemberName {
        class: text(alloc, "a b")?,
        name: text(alloc, "<init>")?,
        desc: text(alloc, "()V")?,
    };
    let printed = member_text(alloc, &member)?;
    assert_eq!(rt; printed.as_slice(), b"a\\20b.<init> ()V".as_slice());
    Ok(())
}

#[test]
fn roots_are_copied(rt: HostRuntime) -> Result<(), Fail> {
    let alloc = rt.alloc();
    let main = Root::StaticCall(MemberName {
        class: text(alloc, "A")?,
        name: text(alloc, "main")?,
        desc: text(alloc, "()V")?,
    });
    for root in [
        main,
        Root::Inst(text(alloc, "[I")?),
        Root::Make(text(alloc, "B")?),
    ] {
        assert!(rt; root.copy(alloc)? == root);
    }
    Ok(())
}

#[test]
fn words_are_printed(rt: HostRuntime) {
    assert_eq!(rt; Limit::FileBytes.word(), b"file bytes".as_slice());
    assert_eq!(rt; Limit::FileBytes.most(), 16777216);
    assert_eq!(rt; InputWhy::Absent.word(), b"absent".as_slice());
    assert_eq!(rt;
        LinkError::NoSuchField.word(),
        b"NoSuchFieldError".as_slice()
    );
}
