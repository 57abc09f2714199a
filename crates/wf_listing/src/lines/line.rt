//! Whole lines.

ghost use Rattle.std.specs.Prelude.{◌≡◌, ◌==◌, ◌<◌, length, Some};
ghost use Rattle.wf_listing.specs.declared.listing.Said.TheVariants as said;
ghost use Rattle.wf_listing.specs.declared.listing.Step.TheVariants as step;
ghost use Rattle.wf_listing.specs.Lines.{given, label_line, wide_load, is_label, class_caught, catch_said, step_line, text_load, words_said, all_said, line_said};
ghost use Rattle.wf_listing.specs.Saying.{Says};

use crate::lines::words::{label_said, name_said};
use crate::lines::{constants, heads, instructions};
use crate::listing::{Constant, Item, ListedCatch, Said, Step};
use crate::stop::Stop;
use std::alloc::Global;
use wf_base::Text;
use wf_lines::words_of;

/// A label line is one word that ends with `:` and isn't that alone.
fn is_label(word: &[u8]) -> bool
    ensures { result ≡ is_label word.now }
{
    word.len() >= 2 && word.ends_with(b":")
}

fn class_caught(alloc: Global, word: &[u8]) -> Result<Option<Text>, Stop>
    ensures { Says result (class_caught word.now) }
{
    if word == b"any".as_slice() {
        return Ok(None);
    }
    Ok(Some(name_said(alloc, word)?))
}

/// A catch line, behind its first word.
#[tactic(auto, unfolding(crate::specs::Lines::catch_said))]
fn catch_said(alloc: Global, words: &[Text]) -> Result<Item, Stop>
    ensures { Says result (catch_said words.now) }
{
    let [from, to, handler, class] = words else {
        return Err(Stop::NotOfForm);
    };
    let from = label_said(from)?;
    let to = label_said(to)?;
    let handler = label_said(handler)?;
    let class = class_caught(alloc, class.as_slice())?;
    Ok(Item::Catch(ListedCatch {
        from,
        to,
        handler,
        class,
    }))
}

fn step_line(alloc: Global, name: &Text, words: &[Text]) -> Result<Said, Stop>
    ensures { Says result (step_line name.now words.now) }
{
    Ok(Said::Body(Item::Step(instructions::step_said(alloc, name, words)?)))
}

fn label_line(alloc: Global, word: &[u8]) -> Result<Said, Stop>
    requires { 0 < length word.now }
    ensures { Says result (Some (label_line word.now)) }
{
    let name = Text::from_slice(alloc, &word[..word.len() - 1])?;
    Ok(Said::Body(Item::Label(name)))
}

fn end_line(words: &[Text]) -> Result<Said, Stop>
    ensures { Says result (given (length words.now == 0) said.End) }
{
    if words.is_empty() {
        Ok(Said::End)
    } else {
        Err(Stop::NotOfForm)
    }
}

/// A line of words, by the first of them.
#[tactic(auto, unfolding(crate::specs::Lines::words_said))]
fn words_said(alloc: Global, line: u32, first: &Text, words: &[Text]) -> Result<Said, Stop>
    ensures { Says result (words_said line first.now words.now) }
{
    let word = first.as_slice();
    if words.is_empty() && is_label(word) {
        return label_line(alloc, word);
    }
    if word == b"class".as_slice() {
        return heads::class_said(alloc, line, 0x0021, words);
    }
    if word == b"abstract".as_slice() {
        return heads::class_said(alloc, line, 0x0421, words);
    }
    if word == b"interface".as_slice() {
        return heads::class_said(alloc, line, 0x0601, words);
    }
    if word == b"field".as_slice() {
        return heads::field_said(alloc, words);
    }
    if word == b"method".as_slice() {
        return heads::method_said(alloc, words);
    }
    if word == b"catch".as_slice() {
        return Ok(Said::Body(catch_said(alloc, words)?));
    }
    if word == b"end".as_slice() {
        return end_line(words);
    }
    step_line(alloc, first, words)
}

fn all_said(alloc: Global, line: u32, words: &[Text]) -> Result<Said, Stop>
    ensures { Says result (all_said line words.now) }
{
    match words {
        [] => Err(Stop::NotOfForm),
        [first, rest @ ..] => words_said(alloc, line, first, rest),
    }
}

/// An `ldc` of a text, behind the opening quote.
fn text_load(alloc: Global, bytes: &[u8]) -> Result<Said, Stop>
    ensures { Says result (text_load step.Load bytes.now) }
{
    let text = constants::quoted(alloc, bytes)?;
    Ok(Said::Body(Item::Step(Step::Load(Constant::Str(text)))))
}

fn wide_text_load(alloc: Global, bytes: &[u8]) -> Result<Said, Stop>
    ensures { Says result (text_load wide_load bytes.now) }
{
    let text = constants::quoted(alloc, bytes)?;
    Ok(Said::Body(Item::Step(constants::wide_load(alloc, Constant::Str(text)))))
}

/// What a line says that means something. A text may have spaces, so its line isn't divided into words.
#[tactic(auto, unfolding(crate::specs::Lines::line_said))]
pub fn line_said(alloc: Global, line: u32, bytes: &[u8]) -> Result<Said, Stop>
    ensures { Says result (line_said line bytes.now) }
{
    if bytes.starts_with(b"ldc \"") {
        return text_load(alloc, &bytes[5..]);
    }
    if bytes.starts_with(b"ldc_w \"") {
        return wide_text_load(alloc, &bytes[7..]);
    }
    let words = words_of(alloc, bytes)?;
    all_said(alloc, line, &words)
}
