//! Instructions with one operand, and numbers as operands.

ghost use Rattle.std.specs.Prelude.{◌≡◌, ◌==◌, ◌∷◌, ◌++◌, [], length, IfOk};
ghost use Rattle.wf_listing.specs.declared.listing.Step.TheVariants as step;
ghost use Rattle.wf_listing.specs.Lines.{given, int_in, s1_said, s2_said, u1_said, u2_said, fixed, with_operand, widened, one_word, one_operand, label_said, using_class, iinc_said, wide_iinc_said};
ghost use Rattle.wf_names.specs.NameForm.{name_of};
ghost use Rattle.wf_listing.specs.Saying.{Says, SaysAs};

use crate::lines::words::{label_said, name_said};
use crate::listing::{Constant, Step, Use};
use crate::stop::Stop;
use std::alloc::{AllocError, Global};
use wf_base::Text;
use wf_lines::integer_in;

/// A number of 32 bits.
pub fn int_said(word: &[u8]) -> Option<i32>
    ensures { result ≡ int_in 32 word.now }
{
    let n = integer_in(i64::from(i32::MIN), i64::from(i32::MAX), word)?;
    Some(n as i32)
}

/// A number of 64 bits.
pub fn long_said(word: &[u8]) -> Option<i64>
    ensures { result ≡ int_in 64 word.now }
{
    integer_in(i64::MIN, i64::MAX, word)
}

fn s1_said(word: &[u8]) -> Option<[u8; 1]>
    ensures { result ≡ s1_said word.now }
{
    let n = integer_in(-128, 127, word)?;
    Some((n as i8).to_be_bytes())
}

fn s2_said(word: &[u8]) -> Option<[u8; 2]>
    ensures { result ≡ s2_said word.now }
{
    let n = integer_in(-32768, 32767, word)?;
    Some((n as i16).to_be_bytes())
}

/// The byte of a local or an index.
pub fn u1_said(word: &[u8]) -> Option<[u8; 1]>
    ensures { result ≡ u1_said word.now }
{
    let n = integer_in(0, 255, word)?;
    Some((n as u8).to_be_bytes())
}

fn u2_said(word: &[u8]) -> Option<[u8; 2]>
    ensures { result ≡ u2_said word.now }
{
    let n = integer_in(0, 65535, word)?;
    Some((n as u16).to_be_bytes())
}

pub fn one_word(words: &[Text]) -> Result<&Text, Stop>
    ensures { SaysAs (λ w. w.now) result (one_word words.now) }
{
    match words {
        [word] => Ok(word),
        _ => Err(Stop::NotOfForm),
    }
}

/// These bytes, one behind the other.
fn fixed(alloc: Global, front: &[u8], more: &[u8], rest: &[u8]) -> Result<Step, AllocError>
    ensures { IfOk result (λ made. made ≡ fixed (front.now ++ more.now ++ rest.now)) }
{
    let mut bytes = Vec::from_slice(alloc, front)?;
    bytes.extend_from_slice(more)?;
    bytes.extend_from_slice(rest)?;
    Ok(Step::Fixed(Text::from_vec(bytes)))
}

/// An instruction that is its opcode alone.
pub fn alone(alloc: Global, op: u8, words: &[Text]) -> Result<Step, Stop>
    ensures { Says result (given (length words.now == 0) (fixed (op ∷ []))) }
{
    if !words.is_empty() {
        return Err(Stop::NotOfForm);
    }
    Ok(fixed(alloc, &[op], &[], &[])?)
}

pub fn with_operand(alloc: Global, op: u8, operand: &[u8]) -> Result<Step, AllocError>
    ensures { IfOk result (λ made. made ≡ with_operand op operand.now) }
{
    fixed(alloc, &[op], operand, &[])
}

pub fn s1_operand(alloc: Global, op: u8, words: &[Text]) -> Result<Step, Stop>
    ensures { Says result (one_operand s1_said (with_operand op) words.now) }
{
    match s1_said(one_word(words)?.as_slice()) {
        Some(bytes) => Ok(with_operand(alloc, op, &bytes)?),
        None => Err(Stop::NotOfForm),
    }
}

pub fn s2_operand(alloc: Global, op: u8, words: &[Text]) -> Result<Step, Stop>
    ensures { Says result (one_operand s2_said (with_operand op) words.now) }
{
    match s2_said(one_word(words)?.as_slice()) {
        Some(bytes) => Ok(with_operand(alloc, op, &bytes)?),
        None => Err(Stop::NotOfForm),
    }
}

pub fn u1_operand(alloc: Global, op: u8, words: &[Text]) -> Result<Step, Stop>
    ensures { Says result (one_operand u1_said (with_operand op) words.now) }
{
    match u1_said(one_word(words)?.as_slice()) {
        Some(bytes) => Ok(with_operand(alloc, op, &bytes)?),
        None => Err(Stop::NotOfForm),
    }
}

/// An instruction behind `wide`, with a local of two bytes.
pub fn wide_local(alloc: Global, op: u8, words: &[Text]) -> Result<Step, Stop>
    ensures { Says result (one_operand u2_said (widened op) words.now) }
{
    match u2_said(one_word(words)?.as_slice()) {
        Some(bytes) => Ok(fixed(alloc, &[0xC4, op], &bytes, &[])?),
        None => Err(Stop::NotOfForm),
    }
}

pub fn jump(op: u8, words: &[Text]) -> Result<Step, Stop>
    ensures { Says result (one_operand label_said (step.Jump op) words.now) }
{
    Ok(Step::Jump(op, label_said(one_word(words)?)?))
}

pub fn far_jump(op: u8, words: &[Text]) -> Result<Step, Stop>
    ensures { Says result (one_operand label_said (step.FarJump op) words.now) }
{
    Ok(Step::FarJump(op, label_said(one_word(words)?)?))
}

pub fn class_operand(alloc: Global, op: u8, words: &[Text]) -> Result<Step, Stop>
    ensures { Says result (one_operand name_of (using_class op) words.now) }
{
    let name = name_said(alloc, one_word(words)?.as_slice())?;
    Ok(Step::Use(Use {
        op,
        constant: Constant::Class(name),
        rest: Text::new(alloc),
    }))
}

pub fn iinc_said(alloc: Global, words: &[Text]) -> Result<Step, Stop>
    ensures { Says result (iinc_said words.now) }
{
    let [local, constant] = words else {
        return Err(Stop::NotOfForm);
    };
    let Some(local) = u1_said(local.as_slice()) else {
        return Err(Stop::NotOfForm);
    };
    let Some(constant) = s1_said(constant.as_slice()) else {
        return Err(Stop::NotOfForm);
    };
    Ok(fixed(alloc, &[0x84], &local, &constant)?)
}

pub fn wide_iinc_said(alloc: Global, words: &[Text]) -> Result<Step, Stop>
    ensures { Says result (wide_iinc_said words.now) }
{
    let [local, constant] = words else {
        return Err(Stop::NotOfForm);
    };
    let Some(local) = u2_said(local.as_slice()) else {
        return Err(Stop::NotOfForm);
    };
    let Some(constant) = s2_said(constant.as_slice()) else {
        return Err(Stop::NotOfForm);
    };
    Ok(fixed(alloc, &[0xC4, 0x84], &local, &constant)?)
}
