ghost use Rattle.std.specs.Prelude.{◌≡◌};
ghost use Rattle.wf_listing.specs.declared.stop.Stop.TheVariants.{NoMemory};

use std::alloc::{AllocError, AllocFailed};

/// Why a line says nothing, or why no bytes are put; at which line isn't known yet.
#[derive(Debug, Drop)]
pub enum Stop {
    /// It isn't of the form.
    NotOfForm,
    NoMemory,
}

impl From<AllocError> for Stop {
    ghost from_gives = { λ _ e. e ≡ NoMemory };

    fn from(_: AllocError) -> Stop {
        Stop::NoMemory
    }
}

impl<T: Drop> From<AllocFailed<T>> for Stop {
    ghost from_gives = { λ _ e. e ≡ NoMemory };

    fn from(_: AllocFailed<T>) -> Stop {
        Stop::NoMemory
    }
}
