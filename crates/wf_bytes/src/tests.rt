use crate::{Cursor, Why};
use std::test::Fail;
use wf_base::Text;

#[test]
fn cursor_reads_the_highest_byte_first(rt: HostRuntime) {
    let mut cursor = Cursor::new(&[1, 0, 2, 0, 0, 1, 4, 7, 8, 9]);
    assert_eq!(rt; cursor.u1(), Some(1));
    assert_eq!(rt; cursor.u2(), Some(2));
    assert_eq!(rt; cursor.u4(), Some(260));
    assert_eq!(rt; cursor.u4(), None);
    assert_eq!(rt; cursor.at(), 7);
    match cursor.part(2) {
        Some(mut part) => {
            assert_eq!(rt; part.at(), 7);
            assert_eq!(rt; part.u2(), Some(7 * 256 + 8));
            assert!(rt; part.is_done());
        }
        None => assert!(rt; false),
    }
    assert_eq!(rt; cursor.take(1), Some([9].as_slice()));
    assert_eq!(rt; cursor.take(1), None);
    assert_eq!(rt; cursor.u1(), None);
}

/// A text of a file is the same whether the file shares its bytes or not.
#[test]
fn texts_of_a_file(rt: HostRuntime) -> Result<(), Fail> {
    let alloc = rt.alloc();
    let bytes = b"\0\x02ab\x01c";
    let file = Text::shared(alloc, bytes)?;
    for mut cursor in [Cursor::new(bytes), Cursor::over(&file)] {
        assert_eq!(rt; cursor.u2(), Some(2));
        let text = cursor.text(alloc, 2)?.ok_or("cut")?;
        assert_eq!(rt; text.as_slice(), b"ab".as_slice());
        let mut part = cursor.part(2).ok_or("cut")?;
        assert_eq!(rt; part.u1(), Some(1));
        let text = part.text(alloc, 1)?.ok_or("cut")?;
        assert_eq!(rt; text.as_slice(), b"c".as_slice());
        assert!(rt; part.text(alloc, 1)?.is_none());
        assert_eq!(rt; (part.at(), cursor.left()), (6, 0));
    }
    Ok(())
}

#[test]
fn faults_have_words(rt: HostRuntime) {
    assert_eq!(rt; Why::Utf8.word(), b"utf8".as_slice());
    assert_eq!(rt; Why::Trailing.word(), b"trailing".as_slice());
}
