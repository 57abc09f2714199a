use crate::reference::brackets;
use crate::universe::{array_name, letter_of};
use std::test::Fail;

/// Names as `javap` prints them of `String[]`, `int[][]` and `boolean[]`.
#[test]
fn arrays_have_the_names_of_class_files(rt: HostRuntime) -> Result<(), Fail> {
    let strings = array_name(rt.alloc(), b"java/lang/String".as_slice())?;
    assert_eq!(rt; strings.as_slice(), b"[Ljava/lang/String;".as_slice());
    let ints = array_name(rt.alloc(), b"[I".as_slice())?;
    assert_eq!(rt; ints.as_slice(), b"[[I".as_slice());
    assert_eq!(rt; brackets(ints.as_slice()), 2);
    assert_eq!(rt; letter_of(4), b'Z');
    assert_eq!(rt; letter_of(11), b'J');
    Ok(())
}
