ghost use Rattle.std.specs.Prelude.{◌≡◌};
ghost use Rattle.wf_descriptor.specs.declared.descriptor.DescFault.TheVariants.{NoMemory};

use std::alloc::{AllocError, AllocFailed};
use thiserror::Error;
use wf_base::{Items, Kind, Text};

/// The type of a field, a parameter or a result (JVMS 4.3.2).
#[derive(Debug, Drop)]
pub struct FieldDesc {
    pub kind: Kind,
    /// The descriptor as it stands in the file.
    pub text: Text,
}

/// The types of a method (JVMS 4.3.3).
#[derive(Debug, Drop)]
pub struct MethodDesc {
    /// The parameters in their order, the receiver not among them.
    pub params: Items<FieldDesc>,
    /// None where the method returns nothing.
    pub ret: Option<FieldDesc>,
}

/// Why bytes give no descriptor.
#[derive(Debug, Drop, Error)]
pub enum DescFault {
    /// The bytes are none. So many of them are the longest beginning that they share with some descriptor.
    #[error("no descriptor")]
    NotADescriptor { at: u32 },
    #[error("no memory")]
    NoMemory,
}

impl From<AllocError> for DescFault {
    ghost from_gives = { λ _ e. e ≡ NoMemory };

    fn from(_: AllocError) -> DescFault {
        DescFault::NoMemory
    }
}

impl<T: Drop> From<AllocFailed<T>> for DescFault {
    ghost from_gives = { λ _ e. e ≡ NoMemory };

    fn from(_: AllocFailed<T>) -> DescFault {
        DescFault::NoMemory
    }
}
