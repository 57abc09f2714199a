ghost use Rattle.std.specs.Prelude.{◌≡◌};
ghost use Rattle.wf_classfile.specs.declared.fault.SpellFault.TheVariants.{NoMemory};

use std::alloc::{AllocError, AllocFailed};
use thiserror::Error;

/// Why a class is not written.
#[derive(Debug, Drop, Error)]
pub enum SpellFault {
    /// No bytes spell the class.
    #[error("no class file spells the class")]
    NotSpellable,
    #[error("no memory")]
    NoMemory,
}

impl From<AllocError> for SpellFault {
    ghost from_gives = { λ _ e. e ≡ NoMemory };

    fn from(_: AllocError) -> SpellFault {
        SpellFault::NoMemory
    }
}

impl<T: Drop> From<AllocFailed<T>> for SpellFault {
    ghost from_gives = { λ _ e. e ≡ NoMemory };

    fn from(_: AllocFailed<T>) -> SpellFault {
        SpellFault::NoMemory
    }
}
