//! Instructions by their names.

ghost use Rattle.std.specs.Prelude.{◌≡◌, position};
ghost use Rattle.std.specs.Str.{bytes_eq};
ghost use Rattle.std.specs.List.{slice_split};
ghost use Rattle.wf_listing.specs.Lines.{place_of, opcode_of, primitive_of, with_operand, one_operand, wide_with, wide_said, place_said, operands_said, step_said};
ghost use Rattle.wf_listing.specs.Saying.{Says};

use crate::lines::{constants, members, operands, switches};
use crate::listing::Step;
use crate::names::names;
use crate::stop::Stop;
use std::alloc::Global;
use wf_base::Text;
use wf_opcode::{Form, is_widened, row_of};

/// The place of a word among the words of a line.
fn place_of(word: &[u8], line: &[u8]) -> Option<usize>
    ensures { result ≡ place_of word.now line.now }
{
    line.split(|b| *b == b' ').position(|other| word == other)
}

#[tactic(auto, unfolding(crate::specs::Lines::opcode_of))]
fn opcode_of(name: &[u8]) -> Option<u8>
    ensures { result ≡ opcode_of name.now }
{
    let opcode = place_of(name, names())?;
    if opcode < 202 {
        Some(opcode as u8)
    } else {
        None
    }
}

/// The codes of primitive types in newarray (JVMS table 6.5.newarray-A).
#[tactic(auto, unfolding(crate::specs::Lines::primitive_of))]
fn primitive_of(word: &[u8]) -> Option<[u8; 1]>
    ensures { result ≡ primitive_of word.now }
{
    let place = place_of(word, b"boolean char float double byte short int long")?;
    if place < 8 {
        Some([4 + place as u8])
    } else {
        None
    }
}

fn new_array(alloc: Global, op: u8, words: &[Text]) -> Result<Step, Stop>
    ensures { Says result (one_operand primitive_of (with_operand op) words.now) }
{
    match primitive_of(operands::one_word(words)?.as_slice()) {
        Some(code) => Ok(operands::with_operand(alloc, op, &code)?),
        None => Err(Stop::NotOfForm),
    }
}

fn wide_with(alloc: Global, op: u8, words: &[Text]) -> Result<Step, Stop>
    ensures { Says result (wide_with op words.now) }
{
    if op == 0x84 {
        return operands::wide_iinc_said(alloc, words);
    }
    if !is_widened(op) {
        return Err(Stop::NotOfForm);
    }
    operands::wide_local(alloc, op, words)
}

fn wide_said(alloc: Global, words: &[Text]) -> Result<Step, Stop>
    ensures { Says result (wide_said words.now) }
{
    let [name, rest @ ..] = words else {
        return Err(Stop::NotOfForm);
    };
    match opcode_of(name.as_slice()) {
        Some(op) => wide_with(alloc, op, rest),
        None => Err(Stop::NotOfForm),
    }
}

/// An instruction with a place of the pool in two bytes.
#[tactic(auto, unfolding(crate::specs::Lines::place_said))]
fn place_said(alloc: Global, op: u8, words: &[Text]) -> Result<Step, Stop>
    ensures { Says result (place_said op words.now) }
{
    match op {
        0x13 => constants::wide_load_said(alloc, words),
        0x14 => constants::long_said(alloc, words),
        0xB2..=0xB5 => members::field_operand(alloc, op, words),
        0xB6 => members::method_operand(alloc, op, words),
        0xB7 | 0xB8 => members::any_method(alloc, op, words),
        _ => operands::class_operand(alloc, op, words),
    }
}

/// An instruction by its opcode and the words behind its name.
#[tactic(auto, unfolding(crate::specs::Lines::operands_said))]
fn operands_said(alloc: Global, op: u8, form: Form, words: &[Text]) -> Result<Step, Stop>
    ensures { Says result (operands_said op form words.now) }
{
    match form {
        Form::Alone => operands::alone(alloc, op, words),
        Form::S1 => operands::s1_operand(alloc, op, words),
        Form::S2 => operands::s2_operand(alloc, op, words),
        Form::U1 if op == 0x12 => constants::load_said(alloc, words),
        Form::U1 => operands::u1_operand(alloc, op, words),
        Form::U2 => place_said(alloc, op, words),
        Form::Jump2 => operands::jump(op, words),
        Form::Jump4 => operands::far_jump(op, words),
        Form::Iinc => operands::iinc_said(alloc, words),
        Form::Invoke if op == 0xB9 => members::interface_call(alloc, words),
        Form::Invoke => Err(Stop::NotOfForm),
        Form::NewArray => new_array(alloc, op, words),
        Form::MultiArray => members::arrays_said(alloc, words),
        Form::TableSwitch => switches::table_said(alloc, words),
        Form::LookupSwitch => switches::lookup_said(alloc, words),
        Form::Wide => wide_said(alloc, words),
    }
}

/// An instruction by its name and the words behind it.
pub fn step_said(alloc: Global, name: &Text, words: &[Text]) -> Result<Step, Stop>
    ensures { Says result (step_said name.now words.now) }
{
    let Some(op) = opcode_of(name.as_slice()) else {
        return Err(Stop::NotOfForm);
    };
    match row_of(op) {
        Some(row) => operands_said(alloc, op, row.form, words),
        None => Err(Stop::NotOfForm),
    }
}
