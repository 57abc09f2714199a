ghost use Rattle.std.specs.Prelude.{◌≡◌};
ghost use Rattle.wf_asm.specs.declared.fault.AsmFault.TheVariants.{NoMemory};

use std::alloc::{AllocError, AllocFailed};
use thiserror::Error;

/// Why a listing gives no classes.
#[derive(Debug, Drop, Error)]
pub enum AsmFault {
    /// The least line that isn't of the form, counted from 1.
    #[error("bad line")]
    BadLine { line: u32 },
    #[error("no memory")]
    NoMemory,
}

impl From<AllocError> for AsmFault {
    ghost from_gives = { λ _ e. e ≡ NoMemory };

    fn from(_: AllocError) -> AsmFault {
        AsmFault::NoMemory
    }
}

impl<T: Drop> From<AllocFailed<T>> for AsmFault {
    ghost from_gives = { λ _ e. e ≡ NoMemory };

    fn from(_: AllocFailed<T>) -> AsmFault {
        AsmFault::NoMemory
    }
}
