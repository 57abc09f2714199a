ghost use Rattle.std.specs.Prelude.{◌≡◌};
ghost use Rattle.wf_opcode.specs.declared.fault.DecodeFault.TheVariants as fault;
ghost use Rattle.wf_opcode.specs.declared.fault.Stop.TheVariants as stop;

use std::alloc::{AllocError, AllocFailed};
use thiserror::Error;

/// Why a code gives no list of instructions.
#[derive(Debug, Drop, Error)]
pub enum DecodeFault {
    /// At this place, and at none before it, no whole instruction starts.
    #[error("no instruction at {pc}")]
    BadCode { pc: u16 },
    #[error("no memory")]
    NoMemory,
}

impl From<AllocError> for DecodeFault {
    ghost from_gives = { λ _ e. e ≡ fault.NoMemory };

    fn from(_: AllocError) -> DecodeFault {
        DecodeFault::NoMemory
    }
}

impl<T: Drop> From<AllocFailed<T>> for DecodeFault {
    ghost from_gives = { λ _ e. e ≡ fault.NoMemory };

    fn from(_: AllocFailed<T>) -> DecodeFault {
        DecodeFault::NoMemory
    }
}

/// Why an instruction isn't read.
#[derive(Debug, Drop)]
pub enum Stop {
    /// The bytes begin with none.
    NoInstruction,
    NoMemory,
}

impl<T: Drop> From<AllocFailed<T>> for Stop {
    ghost from_gives = { λ _ e. e ≡ stop.NoMemory };

    fn from(_: AllocFailed<T>) -> Stop {
        Stop::NoMemory
    }
}
