ghost use Rattle.std.specs.Prelude.{◌≡◌};
ghost use Rattle.wf_constpool.specs.declared.fault.ClassFault.TheVariants.{NoMemory};

use std::alloc::{AllocError, AllocFailed};
use thiserror::Error;
use wf_bytes::Why;

/// Why a file gives no class.
#[derive(Debug, Drop, Error)]
pub enum ClassFault {
    /// The bytes spell no class. The first fault that is met in the order of reading: what is wrong with an
    /// item, and the place of the item's first byte from the start of the file.
    #[error("bad class file")]
    Bad { offset: u32, why: Why },
    #[error("no memory")]
    NoMemory,
}

impl From<AllocError> for ClassFault {
    ghost from_gives = { λ _ e. e ≡ NoMemory };

    fn from(_: AllocError) -> ClassFault {
        ClassFault::NoMemory
    }
}

impl<T: Drop> From<AllocFailed<T>> for ClassFault {
    ghost from_gives = { λ _ e. e ≡ NoMemory };

    fn from(_: AllocFailed<T>) -> ClassFault {
        ClassFault::NoMemory
    }
}
