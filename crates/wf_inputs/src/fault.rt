ghost use Rattle.std.specs.Prelude.{◌≡◌};
ghost use Rattle.wf_inputs.specs.declared.fault.InputFault.TheVariants.{NoMemory};

use std::alloc::{AllocError, AllocFailed};
use thiserror::Error;
use wf_names::{InputWhy, Limit};

/// Why bytes are no summary or no list of roots.
#[derive(Debug, Drop, Error)]
pub enum InputFault {
    /// The first bad line, counted from 1, and its word.
    #[error("bad line")]
    Bad { line: u32, why: InputWhy },
    /// More lines than the limit.
    #[error("over a limit")]
    TooMany { limit: Limit, most: u64 },
    #[error("no memory")]
    NoMemory,
}

impl From<AllocError> for InputFault {
    ghost from_gives = { λ _ e. e ≡ NoMemory };

    fn from(_: AllocError) -> InputFault {
        InputFault::NoMemory
    }
}

impl<T: Drop> From<AllocFailed<T>> for InputFault {
    ghost from_gives = { λ _ e. e ≡ NoMemory };

    fn from(_: AllocFailed<T>) -> InputFault {
        InputFault::NoMemory
    }
}
