//! Access flags (JVMS tables 4.1-A, 4.5-A and 4.6-A).

ghost use Rattle.std.specs.Prelude.{◌≡◌};
ghost use Rattle.wf_data.specs.Flags.{is_public, is_private, is_protected, is_static, is_native, is_abstract, is_interface, is_native_or_abstract};

const PUBLIC: u16 = 0x0001;

const PRIVATE: u16 = 0x0002;

const PROTECTED: u16 = 0x0004;

const STATIC: u16 = 0x0008;

const NATIVE: u16 = 0x0100;

const INTERFACE: u16 = 0x0200;

const ABSTRACT: u16 = 0x0400;

/// Whether a class or member with these flags is public.
pub fn is_public(flags: u16) -> bool
    ensures { result ≡ is_public flags }
{
    flags & PUBLIC != 0
}

/// Whether a member with these flags is private.
pub fn is_private(flags: u16) -> bool
    ensures { result ≡ is_private flags }
{
    flags & PRIVATE != 0
}

/// Whether a member with these flags is protected.
pub fn is_protected(flags: u16) -> bool
    ensures { result ≡ is_protected flags }
{
    flags & PROTECTED != 0
}

/// Whether a method or field with these flags is static.
pub fn is_static(flags: u16) -> bool
    ensures { result ≡ is_static flags }
{
    flags & STATIC != 0
}

/// Whether a method with these flags is native.
pub fn is_native(flags: u16) -> bool
    ensures { result ≡ is_native flags }
{
    flags & NATIVE != 0
}

/// Whether a class or method with these flags is abstract.
pub fn is_abstract(flags: u16) -> bool
    ensures { result ≡ is_abstract flags }
{
    flags & ABSTRACT != 0
}

/// Whether a method with these flags has no code.
pub fn is_native_or_abstract(flags: u16) -> bool
    ensures { result ≡ is_native_or_abstract flags }
{
    is_native(flags) || is_abstract(flags)
}

/// Whether a class with these flags is an interface.
pub fn is_interface(flags: u16) -> bool
    ensures { result ≡ is_interface flags }
{
    flags & INTERFACE != 0
}
