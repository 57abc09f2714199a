ghost use Rattle.std.specs.Prelude.{◌≡◌};
ghost use Rattle.wf_report.specs.declared.fault.WorldFault.TheVariants.{NoMemory};

use std::alloc::{AllocError, AllocFailed};
use thiserror::Error;

/// Why a text is no report.
#[derive(Debug, Drop, Error)]
pub enum WorldFault {
    /// The first line that is outside the form, counted from 1.
    #[error("bad line")]
    BadLine { line: u32 },
    #[error("no memory")]
    NoMemory,
}

impl From<AllocError> for WorldFault {
    ghost from_gives = { λ _ e. e ≡ NoMemory };

    fn from(_: AllocError) -> WorldFault {
        WorldFault::NoMemory
    }
}

impl<T: Drop> From<AllocFailed<T>> for WorldFault {
    ghost from_gives = { λ _ e. e ≡ NoMemory };

    fn from(_: AllocFailed<T>) -> WorldFault {
        WorldFault::NoMemory
    }
}
