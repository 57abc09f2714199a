use super::{Change, SAME, changed, is_bad, with};
use std::test::Fail;
use wf_bytes::Why;

/// An abstract class `A` with two fields and two methods that are named `x`, by the texts at places 5 and 6.
/// The descriptors are at places 7 `I`, 8 `J`, 10 `()V`, 11 `()I` and 12 `I` again; at place 9 is `<x>`. The
/// fields are at 87 and 95, and the methods at 105 and 113, each with its name 2 and its descriptor 4 bytes on.
pub const TWINS: &[u8] = b"\
    \xca\xfe\xba\xbe\0\0\04\0\x0d\
    \x01\0\x01A\x07\0\x01\x01\0\x10java/lang/Object\x07\0\x03\x01\0\x01x\x01\0\x01x\
    \x01\0\x01I\x01\0\x01J\x01\0\x03<x>\x01\0\x03()V\x01\0\x03()I\x01\0\x01I\
    \x04\0\0\x02\0\x04\0\0\
    \0\x02\0\0\0\x05\0\x07\0\0\0\0\0\x06\0\x08\0\0\
    \0\x02\x04\0\0\x05\0\x0a\0\0\x04\0\0\x06\0\x0b\0\0\
    \0\0";

/// Changes of TWINS that leave it a class file.
pub fn told_apart() -> [(&'static str, Change); 4] {
    [
        ("two fields of one name and two descriptors", SAME),
        ("a name that is a field's alone", with(&[(90, 9)])),
        ("one place names both fields", with(&[(98, 5)])),
        ("another name of the second field", with(&[(98, 9)])),
    ]
}

#[test]
fn members_are_told_apart_by_their_texts(rt: HostRuntime) -> Result<(), Fail> {
    assert_eq!(rt; TWINS.len(), 123);
    for (label, change) in told_apart() {
        let bytes = changed(rt.alloc(), TWINS, change)?;
        assert!(rt; super::read(&rt, &bytes).is_ok(), "{label}");
    }
    let faults: [(Change, u32, Why); 7] = [
        (with(&[(100, 7)]), 99, Why::Twice),
        (with(&[(100, 12)]), 99, Why::Twice),
        (with(&[(98, 5), (100, 12)]), 99, Why::Twice),
        (with(&[(118, 10)]), 117, Why::Twice),
        // The texts of a field are looked at again for a method, and the other way round.
        (with(&[(98, 9), (116, 9)]), 115, Why::Name),
        (with(&[(110, 7)]), 109, Why::Descriptor),
        (with(&[(108, 9), (116, 9)]), 107, Why::Name),
    ];
    for (change, place, why) in faults {
        let bytes = changed(rt.alloc(), TWINS, change)?;
        assert!(rt;
            is_bad(&super::read(&rt, &bytes), place, why),
            "{place} {why:?}"
        );
    }
    Ok(())
}
