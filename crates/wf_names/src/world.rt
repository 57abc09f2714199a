ghost use Rattle.std.specs.Prelude.{◌≡◌};
ghost use Rattle.wf_names.specs.Words.{link_error_word};

use crate::member::MemberName;
use wf_base::{Items, Text};

/// Why a place fails to link, after the errors of JVMS 5.4.3 and 6.5.
#[derive(Clone, Copy, Debug, PartialEq, Eq)]
pub enum LinkError {
    NoClassDefFound,
    NoSuchField,
    NoSuchMethod,
    IncompatibleClassChange,
    Instantiation,
}

impl LinkError {
    /// The error of the Java platform that the machine throws at such a place, as it is printed.
    pub fn word(self) -> &'static [u8]
        ensures { result.now ≡ link_error_word self }
    {
        match self {
            LinkError::NoClassDefFound => b"NoClassDefFoundError",
            LinkError::NoSuchField => b"NoSuchFieldError",
            LinkError::NoSuchMethod => b"NoSuchMethodError",
            LinkError::IncompatibleClassChange => b"IncompatibleClassChangeError",
            LinkError::Instantiation => b"InstantiationError",
        }
    }
}

/// A place in a method's code that fails to link.
#[derive(Debug, Drop)]
pub struct Unresolved {
    pub method: MemberName,
    /// The place of the instruction, in bytes from the start of the code.
    pub pc: u16,
    pub error: LinkError,
}

/// What has to be in the image: the types that are instantiated, the methods that are entered, the fields
/// that are touched, and the places that fail to link. Types stand in the order of their names' bytes,
/// members in the order of their names, places by method and place.
#[derive(Debug, Drop)]
pub struct World {
    pub types: Items<Text>,
    pub methods: Items<MemberName>,
    pub fields: Items<MemberName>,
    pub unresolved: Items<Unresolved>,
}
