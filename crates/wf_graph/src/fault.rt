//! Why a method has no inequalities.

ghost use Rattle.std.specs.Prelude.{◌≡◌};

use std::alloc::AllocError;
use thiserror::Error;
use wf_refusals::{BodyFault, Refusal};

/// Why a method has no inequalities.
#[derive(Debug, Drop, Error)]
pub enum MethodFault {
    /// It has no body that the analysis reads.
    #[error("refused")]
    Refused(Refusal),
    /// Its nodes have no numbers of four bytes.
    #[error("too many nodes")]
    TooMany,
    #[error("no memory")]
    NoMemory,
}

impl From<AllocError> for MethodFault {
    ghost use Rattle.std.specs.Prelude.{◌≡◌};
    ghost use Rattle.wf_graph.specs.declared.fault.MethodFault.TheVariants.{NoMemory};

    ghost from_gives = { λ _ e. e ≡ NoMemory };

    fn from(_: AllocError) -> MethodFault {
        MethodFault::NoMemory
    }
}

impl From<BodyFault> for MethodFault {
    ghost use Rattle.std.specs.Prelude.{◌≡◌};
    ghost use Rattle.wf_graph.specs.Faults.{fault_of};

    ghost from_gives = { λ fault e. e ≡ fault_of fault };

    fn from(fault: BodyFault) -> MethodFault {
        match fault {
            BodyFault::Refused(refusal) => MethodFault::Refused(refusal),
            BodyFault::NoMemory => MethodFault::NoMemory,
        }
    }
}
