ghost use Rattle.std.specs.Prelude.{◌≡◌, ℕ, ◌+◌, ◌%◌, ◌<◌, ◌≤◌, List, length, IfOk, IfErr};
ghost use Rattle.wf_data.specs.declared.instr.Placed.{Placed};
ghost use Rattle.wf_opcode.specs.Instructions.{padding, Instructions, IsBadAt, IsFault};

use crate::fault::{DecodeFault, Stop};
use crate::reader::Reader;
use std::alloc::Global;
use wf_base::Items;
use wf_data::Placed;

/// A code is instructions in at most one way. It has at most one first place where none starts, and then it
/// is no list of instructions.
pub fn a_code_is_read_in_one_way()
    ensures instructions { (code : List ℕ) (a b : List Placed) → Instructions 0 code a → Instructions 0 code b → a ≡ b }
    ensures fault { (code : List ℕ) (p q : ℕ) → IsBadAt code p → IsBadAt code q → p ≡ q }
    ensures apart { (code : List ℕ) (pc : ℕ) (placed : List Placed) → IsBadAt code pc → Instructions 0 code placed → ⊥ }
{}

/// The padding of a switch reaches the next multiple of four from the start of the code.
pub fn padding_reaches_the_next_multiple_of_four()
    ensures multiple { (pc : ℕ) → (pc + 1 + padding pc) % 4 ≡ 0 }
    ensures next { (pc : ℕ) → padding pc < 4 }
{}

/// The instructions of a code (JVMS 6.5) in their order, each in its long form at its place: a jump with the
/// place that it leads to, and every switch as a `lookupswitch`.
#[tactic(auto, using(crate::proofs::InstructionLaws::goes_on, crate::proofs::InstructionLaws::ends, crate::proofs::InstructionLaws::stops, crate::proofs::InstructionLaws::gets_smaller))]
pub fn decode(alloc: Global, code: &[u8]) -> Result<Items<Placed>, DecodeFault>
    requires { length code.now ≤ 65535 }
    ensures ok { IfOk result (λ placed. Instructions 0 code.now placed) }
    ensures err { IfErr result (λ fault. IsFault code.now fault) }
{
    let mut reader = Reader::new(alloc, code);
    let mut found = Vec::new(alloc);
    while !reader.is_done() {
        let pc = reader.at() as u16;
        let instr = match reader.instruction(pc) {
            Ok(instr) => instr,
            Err(Stop::NoInstruction) => return Err(DecodeFault::BadCode { pc }),
            Err(Stop::NoMemory) => return Err(DecodeFault::NoMemory),
        };
        found.push(Placed { pc, instr })?;
    }
    Ok(Items::from_vec(found))
}
