//! The instructions of a body of which none is refused.

ghost use Rattle.std.specs.Prelude.{ℕ, ◌≡◌, ◌≤◌, List, length, IfOk, IfErr};
ghost use Rattle.wf_data.specs.declared.class_info.PoolEntry.{PoolEntry};
ghost use Rattle.wf_data.specs.declared.instr.Placed.{Placed};
ghost use Rattle.wf_refusals.specs.declared.body.BodyFault.TheVariants as fault;
ghost use Rattle.wf_refusals.specs.declared.instruction.Refusal.{Refusal};
ghost use Rattle.wf_refusals.specs.Faults.{IsBodyFault};
ghost use Rattle.wf_refusals.specs.Refusals.{IsReadable, IsUnreadable};

use crate::instruction::{Refusal, first_refusal};
use std::alloc::{AllocError, Global};
use thiserror::Error;
use wf_base::Items;
use wf_data::{Placed, PoolEntry, What};
use wf_opcode::{DecodeFault, a_code_is_read_in_one_way, decode};

/// Why a body has no instructions that the analysis reads.
#[derive(Debug, Drop, Error)]
pub enum BodyFault {
    #[error("refused")]
    Refused(Refusal),
    #[error("no memory")]
    NoMemory,
}

impl From<AllocError> for BodyFault {
    ghost from_gives = { λ _ e. e ≡ fault.NoMemory };

    fn from(_: AllocError) -> BodyFault {
        BodyFault::NoMemory
    }
}

impl From<DecodeFault> for BodyFault {
    ghost use Rattle.wf_refusals.specs.Faults.{fault_of};

    ghost from_gives = { λ fault e. e ≡ fault_of fault };

    fn from(fault: DecodeFault) -> BodyFault {
        match fault {
            DecodeFault::BadCode { pc } => BodyFault::Refused(Refusal {
                pc,
                what: What::Code,
            }),
            DecodeFault::NoMemory => BodyFault::NoMemory,
        }
    }
}

/// The instructions of a code with the pool of its class, where none of them is refused.
pub fn read_body(alloc: Global, pool: &[PoolEntry], code: &[u8]) -> Result<Items<Placed>, BodyFault>
    requires { length code.now ≤ 65535 }
    ensures ok { IfOk result (λ is. IsReadable pool.now code.now is) }
    ensures err { IfErr result (λ fault. IsBodyFault pool.now code.now fault) }
{
    let placed = decode(alloc, code)?;
    match first_refusal(alloc, pool, placed.as_slice())? {
        Some(refusal) => Err(BodyFault::Refused(refusal)),
        None => Ok(placed),
    }
}

/// A code is refused for one thing, or has instructions of which none is.
pub fn a_body_is_refused_for_one_thing()
    ensures one { (pool : List PoolEntry) (code : List ℕ) (r s : Refusal) → IsUnreadable pool code r → IsUnreadable pool code s → r ≡ s }
    ensures apart { (pool : List PoolEntry) (code : List ℕ) (is : List Placed) (r : Refusal) → IsReadable pool code is → IsUnreadable pool code r → ⊥ }
{
    a_code_is_read_in_one_way();
}
