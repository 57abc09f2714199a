//! The lines of a report, from the first to the last.

ghost use Rattle.std.specs.Prelude.{◌≡◌, ◌==◌, ◌+◌, ◌<◌, ◌^◌, length, position, Some, None, IfSome, MatchOption};
ghost use Rattle.wf_report.specs.Reading.{cut, spot};

use std::marker::Model;

/// A reader of lines. A contract sees it as the place that it has reached.
#[derive(Debug, Drop)]
pub struct Lines<'a> {
    line: u32,
    left: &'a [u8],
}

impl<'a> Model for Lines<'a> {
    ghost use Rattle.std.specs.Prelude.{◌+◌, ◌<◌, ◌^◌, length};
    ghost use Rattle.wf_report.specs.Reading.{Place, spot};

    ghost Value = { Place };

    ghost view = { λ l. spot l.line l.left.now };

    ghost invariant = { λ l. l.line + length l.left.now < 2 ^ 32 };
}

fn first_feed(text: &[u8]) -> Option<usize>
    ensures first { result ≡ position (λ b. b == 10) text.now }
    ensures inside { IfSome result (λ i. i < length text.now) }
{
    text.iter().position(|b| *b == b'\n')
}

/// The first line of a text and what stands behind its line feed. None where there is no line feed.
pub fn cut(text: &[u8]) -> Option<(&[u8], &[u8])>
    ensures parts { MatchOption result (cut text.now ≡ None) (λ parts. cut text.now ≡ Some (parts.0.now, parts.1.now)) }
    ensures length { IfSome result (λ parts. length parts.0.now + 1 + length parts.1.now ≡ length text.now) }
{
    let i = first_feed(text)?;
    Some((&text[..i], &text[i + 1..]))
}

impl<'a> Lines<'a> {
    pub fn new(line: u32, left: &'a [u8]) -> Lines<'a>
        requires { line + length left.now < 2 ^ 32 }
        ensures { result ≡ spot line left.now }
    {
        Lines { line, left }
    }

    /// The number of the next line, counted from 1.
    pub fn line(&self) -> u32
        ensures { result ≡ self.now.line }
    {
        self.line
    }

    /// The next line, where it ends with a line feed.
    pub fn next(&mut self) -> Option<&'a [u8]>
        ensures text { MatchOption result (cut self.old.left ≡ None) (λ text. cut self.old.left ≡ Some (text.now, self.new.left)) }
        ensures line { IfSome result (λ _. self.new.line ≡ self.old.line + 1) }
    {
        let (text, left) = cut(self.left)?;
        self.line += 1;
        self.left = left;
        Some(text)
    }

    /// Whether nothing is left.
    pub fn is_done(&self) -> bool
        ensures { result ≡ (length self.now.left == 0) }
    {
        self.left.is_empty()
    }
}
