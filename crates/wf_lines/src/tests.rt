use crate::{integer_in, line_count, natural_in, next_line, read_member, word_count, words_of};
use std::test::Fail;

#[test]
fn lines_and_words(rt: HostRuntime) -> Result<(), Fail> {
    assert_eq!(rt; line_count(b"a b\r\n\n#c\n d\r"), 4);
    let (line, behind) = next_line(b"a b\r\n\n#c\n d\r").ok_or("no line")?;
    assert_eq!(rt; line, b"a b".as_slice());
    assert_eq!(rt; behind, b"\n#c\n d\r".as_slice());
    assert_eq!(rt; next_line(b" d\r").ok_or("no line")?.0, b" d\r".as_slice());
    assert!(rt; next_line(b"").is_none());
    assert_eq!(rt; word_count(b" d  e"), 4);
    let words = words_of(rt.alloc(), b" d  e")?;
    assert_eq!(rt; words.len(), 4);
    assert_eq!(rt; words[1].as_slice(), b"d".as_slice());
    assert_eq!(rt; words[2].as_slice(), b"".as_slice());
    Ok(())
}

#[test]
fn decimals(rt: HostRuntime) {
    for (word, number) in [
        (b"0".as_slice(), Some(0)),
        (b"254", Some(254)),
        (b"255", None),
        (b"00", None),
        (b"07", None),
        (b"-1", None),
        (b"", None),
        (b"1a", None),
        (b"18446744073709551871", None),
    ] {
        assert_eq!(rt; natural_in(254, word), number);
    }
    for (word, number) in [
        (b"-2147483648".as_slice(), Some(-2147483648)),
        (b"2147483647", Some(2147483647)),
        (b"2147483648", None),
        (b"-0", None),
        (b"+1", None),
        (b"-", None),
    ] {
        assert_eq!(rt; integer_in(-2147483648, 2147483647, word), number);
    }
}

#[test]
fn members(rt: HostRuntime) -> Result<(), Fail> {
    let alloc = rt.alloc();
    let member = read_member(alloc, b"a\\20b.c.d", b"()V")?.ok_or("no member")?;
    assert_eq!(rt; member.class.as_slice(), b"a b".as_slice());
    assert_eq!(rt; member.name.as_slice(), b"c.d".as_slice());
    assert_eq!(rt; member.desc.as_slice(), b"()V".as_slice());
    for word in [b"ab".as_slice(), b".c", b"a.", b"a\\.c"] {
        assert!(rt; read_member(alloc, word, b"I")?.is_none());
    }
    Ok(())
}
