//! The lines of a text and the words of a line, from the first to the last.

ghost use Rattle.std.specs.Prelude.{◌≡◌, ◌==◌, ◌+◌, ◌^◌, ◌<◌, ◌≤◌, ◌∷◌, [], length, position, count_by, IfOk, IfSome, MatchOption};
ghost use Rattle.std.specs.Str.Lines.{strip_carriage_return};
ghost use Rattle.wf_lines.specs.Lines.{is_nothing, lines_of, words_of};

use std::alloc::{AllocError, Global};
use wf_base::Text;

fn first(sep: u8, bytes: &[u8]) -> Option<usize>
    ensures first { result ≡ position (λ b. b == sep) bytes.now }
    ensures inside { IfSome result (λ i. i < length bytes.now) }
{
    bytes.iter().position(|b| *b == sep)
}

/// A line without the carriage return before its line feed.
fn without_return(line: &[u8]) -> &[u8]
    ensures line { result.now ≡ strip_carriage_return line.now }
    ensures shorter { length result.now ≤ length line.now }
{
    match line {
        [front @ .., b'\r'] => front,
        _ => line,
    }
}

/// The first line of a text and what stands behind it. None at the end of the text. A carriage return before the
/// line feed is dropped.
pub fn next_line(text: &[u8]) -> Option<(&[u8], &[u8])>
    ensures lines { MatchOption result (lines_of text.now ≡ []) (λ cut. lines_of text.now ≡ cut.0.now ∷ lines_of cut.1.now) }
    ensures shorter { MatchOption result (length text.now ≡ 0) (λ cut. length cut.1.now < length text.now) }
    ensures within { IfSome result (λ cut. length cut.0.now ≤ length text.now) }
{
    match first(b'\n', text) {
        Some(i) => Some((without_return(&text[..i]), &text[i + 1..])),
        None if text.is_empty() => None,
        None => Some((text, &[])),
    }
}

#[tactic(auto, using(crate::proofs::Cutting::one_more, crate::proofs::Cutting::no_more))]
/// How many lines a text has.
pub fn line_count(text: &[u8]) -> usize
    ensures { result ≡ length (lines_of text.now) }
{
    let mut count = 0;
    let mut rest = text;
    while let Some((_, behind)) = next_line(rest) {
        count += 1;
        rest = behind;
    }
    count
}

/// Whether a line means nothing: it is empty, or a comment.
pub fn is_nothing(line: &[u8]) -> bool
    ensures { result ≡ is_nothing line.now }
{
    match line {
        [] => true,
        [first, ..] => *first == b'#',
    }
}

fn space_count(line: &[u8]) -> usize
    ensures spaces { result ≡ count_by (λ b. b == 32) line.now }
    ensures bound { result ≤ length line.now }
{
    line.iter().filter(|b| **b == b' ').count()
}

/// How many words a line has, which is one more than it has spaces.
pub fn word_count(line: &[u8]) -> usize
    requires { length line.now < 2 ^ 32 }
    ensures { result ≡ length (words_of line.now) }
{
    space_count(line) + 1
}

#[tactic(auto, using(crate::proofs::Cutting::word_ends, crate::proofs::Cutting::last_word))]
/// The words of a line, which one space divides. An empty line is one empty word.
pub fn words_of(alloc: Global, line: &[u8]) -> Result<Vec<Text>, AllocError>
    ensures { IfOk result (λ words. words.items ≡ words_of line.now) }
{
    let mut words = Vec::new(alloc);
    let mut rest = line;
    while let Some(i) = first(b' ', rest) {
        words.push(Text::from_slice(alloc, &rest[..i])?)?;
        rest = &rest[i + 1..];
    }
    words.push(Text::from_slice(alloc, rest)?)?;
    Ok(words)
}
