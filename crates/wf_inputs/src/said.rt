//! What the words of one line say.

ghost use Rattle.std.specs.Prelude.{◌≡◌, ◌<◌, ◌^◌, length, option_map};
ghost use Rattle.wf_names.specs.NameForm.{name_of};
ghost use Rattle.wf_lines.specs.Lines.{words_of};
ghost use Rattle.wf_lines.specs.Members.{member_said};
ghost use Rattle.wf_inputs.specs.declared.said.Said.TheVariants.{Sets};
ghost use Rattle.wf_inputs.specs.declared.said.Stop.TheVariants.{NoMemory};
ghost use Rattle.wf_inputs.specs.declared.summary.Effect.TheVariants.{Writes};
ghost use Rattle.wf_inputs.specs.Giving.{Says};
ghost use Rattle.wf_inputs.specs.Saying.{name_said, method_said, argument_of, int_of, lone_value, value_with, value_said, setting_said, is_void, return_said, copy_said, effect_said, line_said, root_said};

use crate::summary::{Effect, Value};
use std::alloc::{AllocError, AllocFailed, Global};
use wf_base::Text;
use wf_lines::{integer_in, natural_in, read_member, word_count, words_of};
use wf_names::{MemberName, Root, read_name};

/// What a line of a summary says.
#[derive(Debug, Drop)]
pub enum Said {
    /// A block begins, which stands for a body or not.
    Opens(bool, MemberName),
    Does(Effect),
    Sets(MemberName, Value),
}

/// Why words say nothing.
#[derive(Debug, Drop)]
pub enum Stop {
    NotOfForm,
    NoMemory,
}

impl From<AllocError> for Stop {
    ghost from_gives = { λ _ e. e ≡ NoMemory };

    fn from(_: AllocError) -> Stop {
        Stop::NoMemory
    }
}

impl<T: Drop> From<AllocFailed<T>> for Stop {
    ghost from_gives = { λ _ e. e ≡ NoMemory };

    fn from(_: AllocFailed<T>) -> Stop {
        Stop::NoMemory
    }
}

fn name_of(alloc: Global, word: &Text) -> Result<Text, Stop>
    ensures { Says result (name_of word.now) }
{
    match read_name(alloc, word.as_slice())? {
        Some(name) => Ok(name),
        None => Err(Stop::NotOfForm),
    }
}

fn name_said(alloc: Global, words: &[Text]) -> Result<Text, Stop>
    ensures { Says result (name_said words.now) }
{
    match words {
        [name] => name_of(alloc, name),
        _ => Err(Stop::NotOfForm),
    }
}

fn member_of(alloc: Global, word: &Text, desc: &Text) -> Result<MemberName, Stop>
    ensures { Says result (member_said word.now desc.now) }
{
    match read_member(alloc, word.as_slice(), desc.as_slice())? {
        Some(member) => Ok(member),
        None => Err(Stop::NotOfForm),
    }
}

fn method_said(alloc: Global, words: &[Text]) -> Result<MemberName, Stop>
    ensures { Says result (method_said words.now) }
{
    match words {
        [word, desc] => member_of(alloc, word, desc),
        _ => Err(Stop::NotOfForm),
    }
}

fn argument_of(word: &Text) -> Result<u8, Stop>
    ensures { Says result (argument_of word.now) }
{
    match natural_in(254, word.as_slice()) {
        Some(place) => Ok(place as u8),
        None => Err(Stop::NotOfForm),
    }
}

fn int_of(word: &Text) -> Result<i32, Stop>
    ensures { Says result (int_of word.now) }
{
    match integer_in(i64::from(i32::MIN), i64::from(i32::MAX), word.as_slice()) {
        Some(n) => Ok(n as i32),
        None => Err(Stop::NotOfForm),
    }
}

fn lone_value(word: &Text) -> Result<Value, Stop>
    ensures { Says result (lone_value word.now) }
{
    if word.as_slice() == b"null".as_slice() {
        Ok(Value::Null)
    } else if word.as_slice() == b"any".as_slice() {
        Ok(Value::Any)
    } else {
        Err(Stop::NotOfForm)
    }
}

fn value_with(alloc: Global, word: &Text, operand: &Text) -> Result<Value, Stop>
    ensures { Says result (value_with word.now operand.now) }
{
    if word.as_slice() == b"int".as_slice() {
        Ok(Value::Int(int_of(operand)?))
    } else if word.as_slice() == b"new".as_slice() {
        Ok(Value::New(name_of(alloc, operand)?))
    } else if word.as_slice() == b"some".as_slice() {
        Ok(Value::OneOf(name_of(alloc, operand)?))
    } else if word.as_slice() == b"arg".as_slice() {
        Ok(Value::Arg(argument_of(operand)?))
    } else {
        Err(Stop::NotOfForm)
    }
}

fn value_said(alloc: Global, words: &[Text]) -> Result<Value, Stop>
    ensures { Says result (value_said words.now) }
{
    match words {
        [word] => lone_value(word),
        [word, operand] => value_with(alloc, word, operand),
        _ => Err(Stop::NotOfForm),
    }
}

/// A field and a value.
fn setting_said(alloc: Global, words: &[Text]) -> Result<(MemberName, Value), Stop>
    ensures { Says result (setting_said words.now) }
{
    match words {
        [word, desc, value @ ..] => {
            let field = member_of(alloc, word, desc)?;
            Ok((field, value_said(alloc, value)?))
        }
        _ => Err(Stop::NotOfForm),
    }
}

fn is_void(words: &[Text]) -> bool
    ensures { result ≡ is_void words.now }
{
    match words {
        [word] => word.as_slice() == b"void".as_slice(),
        _ => false,
    }
}

fn return_said(alloc: Global, words: &[Text]) -> Result<Effect, Stop>
    ensures { Says result (return_said words.now) }
{
    if is_void(words) {
        return Ok(Effect::ReturnsVoid);
    }
    Ok(Effect::Returns(value_said(alloc, words)?))
}

fn copy_said(words: &[Text]) -> Result<Effect, Stop>
    ensures { Says result (copy_said words.now) }
{
    match words {
        [from, to] => {
            let from = argument_of(from)?;
            Ok(Effect::Copies(from, argument_of(to)?))
        }
        _ => Err(Stop::NotOfForm),
    }
}

fn write_said(alloc: Global, words: &[Text]) -> Result<Effect, Stop>
    ensures { Says result (option_map (λ s. Writes s.0 s.1) (setting_said words.now)) }
{
    let (field, value) = setting_said(alloc, words)?;
    Ok(Effect::Writes(field, value))
}

fn effect_said(alloc: Global, word: &Text, words: &[Text]) -> Result<Effect, Stop>
    ensures { Says result (effect_said word.now words.now) }
{
    if word.as_slice() == b"returns".as_slice() {
        return_said(alloc, words)
    } else if word.as_slice() == b"makes".as_slice() {
        Ok(Effect::Makes(name_said(alloc, words)?))
    } else if word.as_slice() == b"writes".as_slice() {
        write_said(alloc, words)
    } else if word.as_slice() == b"copies".as_slice() {
        copy_said(words)
    } else {
        Err(Stop::NotOfForm)
    }
}

fn literal_said(alloc: Global, words: &[Text]) -> Result<Said, Stop>
    ensures { Says result (option_map (λ s. Sets s.0 s.1) (setting_said words.now)) }
{
    let (field, value) = setting_said(alloc, words)?;
    Ok(Said::Sets(field, value))
}

fn words_said(alloc: Global, words: &[Text]) -> Result<Said, Stop>
    ensures { Says result (line_said words.now) }
{
    let [word, words @ ..] = words else {
        return Err(Stop::NotOfForm);
    };
    if word.as_slice() == b"method".as_slice() {
        Ok(Said::Opens(false, method_said(alloc, words)?))
    } else if word.as_slice() == b"replace".as_slice() {
        Ok(Said::Opens(true, method_said(alloc, words)?))
    } else if word.as_slice() == b"literal".as_slice() {
        literal_said(alloc, words)
    } else {
        Ok(Said::Does(effect_said(alloc, word, words)?))
    }
}

fn root_words_said(alloc: Global, words: &[Text]) -> Result<Root, Stop>
    ensures { Says result (root_said words.now) }
{
    let [word, words @ ..] = words else {
        return Err(Stop::NotOfForm);
    };
    if word.as_slice() == b"static".as_slice() {
        Ok(Root::StaticCall(method_said(alloc, words)?))
    } else if word.as_slice() == b"inst".as_slice() {
        Ok(Root::Inst(name_said(alloc, words)?))
    } else if word.as_slice() == b"make".as_slice() {
        Ok(Root::Make(name_said(alloc, words)?))
    } else {
        Err(Stop::NotOfForm)
    }
}

/// What a line of a summary says. Lines of more words than any of the form has aren't cut into them.
#[tactic(auto, using(crate::proofs::Shapes::long_line))]
pub fn line_said(alloc: Global, line: &[u8]) -> Result<Said, Stop>
    requires { length line.now < 2 ^ 32 }
    ensures { Says result (line_said (words_of line.now)) }
{
    if word_count(line) > 5 {
        return Err(Stop::NotOfForm);
    }
    let words = words_of(alloc, line)?;
    words_said(alloc, words.as_slice())
}

/// What a line of a list of roots says.
#[tactic(auto, using(crate::proofs::Shapes::long_root))]
pub fn root_said(alloc: Global, line: &[u8]) -> Result<Root, Stop>
    requires { length line.now < 2 ^ 32 }
    ensures { Says result (root_said (words_of line.now)) }
{
    if word_count(line) > 3 {
        return Err(Stop::NotOfForm);
    }
    let words = words_of(alloc, line)?;
    root_words_said(alloc, words.as_slice())
}
