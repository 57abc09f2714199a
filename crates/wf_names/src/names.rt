//! Names of classes, fields and methods (JVMS 4.2), tested byte by byte.

ghost use Rattle.std.specs.Prelude.{◌≡◌};
ghost use Rattle.std.specs.List.{list_any};
ghost use Rattle.std.specs.Str.{bytes_eq};
ghost use Rattle.wf_names.specs.Names.{object_name, constructor_name, initializer_name, is_forbidden, is_class_name, is_not_in_fields, is_field_name, is_not_in_methods, is_plain_method_name, is_method_name};

pub fn is_object_name(name: &[u8]) -> bool
    ensures { result ≡ bytes_eq name.now object_name }
{
    name == b"java/lang/Object".as_slice()
}

pub fn is_constructor_name(name: &[u8]) -> bool
    ensures { result ≡ bytes_eq name.now constructor_name }
{
    name == b"<init>".as_slice()
}

pub fn is_initializer_name(name: &[u8]) -> bool
    ensures { result ≡ bytes_eq name.now initializer_name }
{
    name == b"<clinit>".as_slice()
}

/// `.`, `;` and `[`, which no name has.
pub fn is_forbidden(byte: u8) -> bool
    ensures { result ≡ is_forbidden byte }
{
    byte == b'.' || byte == b';' || byte == b'['
}

/// Whether the bytes are parts joined by `/`, each of them a name (JVMS 4.2.1).
pub fn is_class_name(name: &[u8]) -> bool
    ensures { result ≡ is_class_name name.now }
{
    let mut begun = false;
    for byte in name {
        if *byte == b'/' {
            if !begun {
                return false;
            }
            begun = false;
        } else {
            if is_forbidden(*byte) {
                return false;
            }
            begun = true;
        }
    }
    begun
}

fn is_not_in_fields(byte: u8) -> bool
    ensures { result ≡ is_not_in_fields byte }
{
    is_forbidden(byte) || byte == b'/'
}

fn has_byte_not_in_fields(name: &[u8]) -> bool
    ensures { result ≡ list_any is_not_in_fields name.now }
{
    name.iter().any(|byte| is_not_in_fields(*byte))
}

/// Whether the bytes are a field's name (JVMS 4.2.2).
pub fn is_field_name(name: &[u8]) -> bool
    ensures { result ≡ is_field_name name.now }
{
    !name.is_empty() && !has_byte_not_in_fields(name)
}

fn is_not_in_methods(byte: u8) -> bool
    ensures { result ≡ is_not_in_methods byte }
{
    is_forbidden(byte) || byte == b'/' || byte == b'<' || byte == b'>'
}

fn has_byte_not_in_methods(name: &[u8]) -> bool
    ensures { result ≡ list_any is_not_in_methods name.now }
{
    name.iter().any(|byte| is_not_in_methods(*byte))
}

fn is_plain_method_name(name: &[u8]) -> bool
    ensures { result ≡ is_plain_method_name name.now }
{
    !name.is_empty() && !has_byte_not_in_methods(name)
}

/// Whether the bytes are a method's name (JVMS 4.2.2).
pub fn is_method_name(name: &[u8]) -> bool
    ensures { result ≡ is_method_name name.now }
{
    is_constructor_name(name) || is_initializer_name(name) || is_plain_method_name(name)
}
