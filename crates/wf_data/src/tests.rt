use crate::{What, is_interface, is_native_or_abstract, is_static};

#[test]
fn flags_and_words(rt: HostRuntime) {
    assert!(rt; is_static(0x0009));
    assert!(rt; is_interface(0x0601));
    assert!(rt; !is_interface(0x0421));
    assert!(rt; is_native_or_abstract(0x0100));
    assert_eq!(rt; What::MethodHandle.word(), b"method handle".as_slice());
}
