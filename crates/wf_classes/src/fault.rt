ghost use Rattle.std.specs.Prelude.{◌≡◌};
ghost use Rattle.wf_classes.specs.declared.fault.CloseFault.TheVariants.{NoMemory};

use std::alloc::{AllocError, AllocFailed};
use thiserror::Error;

/// Why some classes give no closed world.
#[derive(Debug, Drop, Error)]
pub enum CloseFault {
    /// `java/lang/Object` isn't loadable, so no class is.
    #[error("java/lang/Object is not loadable")]
    NoObject,
    #[error("no memory")]
    NoMemory,
}

impl From<AllocError> for CloseFault {
    ghost from_gives = { λ _ e. e ≡ NoMemory };

    fn from(_: AllocError) -> CloseFault {
        CloseFault::NoMemory
    }
}

impl<T: Drop> From<AllocFailed<T>> for CloseFault {
    ghost from_gives = { λ _ e. e ≡ NoMemory };

    fn from(_: AllocFailed<T>) -> CloseFault {
        CloseFault::NoMemory
    }
}
