ghost use Rattle.std.specs.Prelude.{◌<◌, ◌^◌, length, IfOk};

use crate::{
    DescFault, is_field_descriptor, is_method_descriptor, read_descriptor, read_field_descriptor,
};
use std::alloc::Global;
use std::test::Fail;
use wf_base::Kind;

#[test]
fn descriptors_have_kinds_and_texts(rt: HostRuntime) -> Result<(), Fail> {
    let alloc = rt.alloc();
    let method = read_descriptor(alloc, b"(JD[[ILa/b;)Lx;")?;
    let want: [(Kind, &[u8]); 4] = [
        (Kind::Long, b"J"),
        (Kind::Double, b"D"),
        (Kind::Ref, b"[[I"),
        (Kind::Ref, b"La/b;"),
    ];
    assert_eq!(rt; method.params.len(), want.len());
    for (param, (kind, text)) in method.params.as_slice().iter().zip(want) {
        assert_eq!(rt; param.kind, kind);
        assert_eq!(rt; param.text.as_slice(), text);
    }
    match &method.ret {
        Some(ret) => assert_eq!(rt; ret.text.as_slice(), b"Lx;".as_slice()),
        None => assert!(rt; false),
    }
    let method = read_descriptor(alloc, b"(I)V")?;
    assert_eq!(rt; method.params.len(), 1);
    assert!(rt; method.ret.is_none());
    assert!(rt; read_descriptor(alloc, b"()V")?.params.is_empty());
    for (text, kind) in [
        ("B", Kind::Int),
        ("C", Kind::Int),
        ("S", Kind::Int),
        ("Z", Kind::Int),
        ("F", Kind::Float),
        ("[J", Kind::Ref),
    ] {
        let field = read_field_descriptor(alloc, text.as_bytes())?;
        assert_eq!(rt; field.kind, kind, "{text}");
        assert_eq!(rt; field.text.as_slice(), text.as_bytes(), "{text}");
    }
    Ok(())
}

/// Where the bytes are no method descriptor.
fn method_fault(alloc: Global, bytes: &[u8]) -> Option<u32>
    requires { length bytes.now < 2 ^ 32 }
{
    match read_descriptor(alloc, bytes) {
        Err(DescFault::NotADescriptor { at }) => Some(at),
        _ => None,
    }
}

/// `(`, n times the type, and `)V`.
fn method_of(alloc: Global, n: usize, param: u8) -> Result<Vec<u8>, Fail>
    requires { n < 2 ^ 20 }
    ensures { IfOk result (λ bytes. length bytes.items < 2 ^ 32) }
{
    let mut bytes = vec![in alloc; param; n + 1]?;
    bytes[0] = b'(';
    bytes.push(b')')?;
    bytes.push(b'V')?;
    Ok(bytes)
}

#[test]
fn descriptors_stop_at_their_longest_beginning(rt: HostRuntime) -> Result<(), Fail> {
    let alloc = rt.alloc();
    for (text, at) in [
        ("", 0),
        ("(", 1),
        ("()", 2),
        ("()VV", 3),
        ("(Q)V", 1),
        ("(V)V", 1),
        ("(L;)V", 2),
        ("(La/;)V", 4),
        ("(La", 3),
    ] {
        assert_eq!(rt; method_fault(alloc, text.as_bytes()), Some(at), "{text}");
        assert!(rt; !is_method_descriptor(text.as_bytes(), 255), "{text}");
    }
    for (n, param, at) in [
        (127, b'J', None),
        (128, b'J', Some(128)),
        (255, b'I', None),
        (256, b'I', Some(256)),
    ] {
        let bytes = method_of(alloc, n, param)?;
        assert_eq!(rt; method_fault(alloc, bytes.as_slice()), at);
        assert_eq!(rt; is_method_descriptor(bytes.as_slice(), 255), at.is_none());
    }
    let bytes = method_of(alloc, 255, b'I')?;
    assert!(rt; !is_method_descriptor(bytes.as_slice(), 254));
    let mut array = vec![in alloc; b'['; 256]?;
    array.push(b'I')?;
    assert!(rt; is_field_descriptor(&array[1..]));
    assert!(rt; !is_field_descriptor(array.as_slice()));
    match read_field_descriptor(alloc, array.as_slice()) {
        Err(DescFault::NotADescriptor { at }) => assert_eq!(rt; at, 255),
        _ => assert!(rt; false),
    }
    Ok(())
}
