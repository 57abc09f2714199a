//! The instructions of a code (JVMS 6.5).

ghost use Rattle.std.specs.Prelude.{◌≡◌, option_map, IfOk};
ghost use Rattle.wf_first.specs.Code.{narrow, operation_in, size_of, operations};

use std::alloc::{AllocError, Global};

/// An instruction. Written so far: those of the first form.
#[derive(Clone, Copy, Debug, PartialEq, Eq)]
pub enum Operation {
    /// `iconst_m1` to `iconst_5`: the constant.
    IntConstant(i32),
    /// `invokestatic`: the place of the method in the constant pool.
    InvokeStatic(u16),
    /// `ireturn`
    IntReturn,
    /// `return`
    Return,
}

/// An instruction and its place, in bytes from the start of the code.
#[derive(Clone, Copy, Debug, PartialEq, Eq)]
pub struct Placed {
    pub pc: u16,
    pub operation: Operation,
}

fn narrow(opcode: u8) -> Option<Operation>
    ensures { result ≡ narrow opcode }
{
    match opcode {
        0x02..=0x08 => Some(Operation::IntConstant(opcode as i32 - 3)),
        0xAC => Some(Operation::IntReturn),
        0xB1 => Some(Operation::Return),
        _ => None,
    }
}

/// The instruction with which the bytes begin.
fn operation_in(bytes: &[u8]) -> Option<Operation>
    ensures { result ≡ operation_in bytes.now }
{
    match bytes {
        [0xB8, high, low, ..] => Some(Operation::InvokeStatic(256 * *high as u16 + *low as u16)),
        [0xB8, ..] => None,
        [opcode, ..] => narrow(*opcode),
        [] => None,
    }
}

/// How many bytes an instruction has.
fn size_of(operation: Operation) -> usize
    ensures { result ≡ size_of operation }
{
    match operation {
        Operation::InvokeStatic(_) => 3,
        _ => 1,
    }
}

/// The instructions of a code with their places, in their order. None where some bytes of it are no
/// instruction that is known, where the last one is cut, or where the code has more than 65535 bytes.
#[tactic(auto, using(crate::proofs::CodeLaws::goes_on, crate::proofs::CodeLaws::stops, crate::proofs::CodeLaws::ends))]
pub fn operations(alloc: Global, code: &[u8]) -> Result<Option<Vec<Placed>>, AllocError>
    ensures { IfOk result (λ found. option_map (λ v. v.items) found ≡ operations code.now) }
{
    if code.len() > 65535 {
        return Ok(None);
    }
    let mut found = Vec::new(alloc);
    let mut pc = 0;
    while pc < code.len() {
        let Some(operation) = operation_in(&code[pc..]) else {
            return Ok(None);
        };
        found.push(Placed {
            pc: pc as u16,
            operation,
        })?;
        pc += size_of(operation);
    }
    Ok(Some(found))
}
