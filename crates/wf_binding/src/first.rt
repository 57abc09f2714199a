//! The first bad line, whatever the order in which lines are gone over.

ghost use Rattle.std.specs.Prelude.{◌≡◌};
ghost use Rattle.wf_binding.specs.First.{at_line, earlier_of};

use wf_names::InputWhy;

/// A bad line and what is wrong with it.
#[derive(Clone, Copy, Debug)]
pub struct BadLine {
    pub line: u32,
    pub why: InputWhy,
}

pub fn at_line(line: u32, word: Option<InputWhy>) -> Option<BadLine>
    ensures { result ≡ at_line line word }
{
    match word {
        Some(why) => Some(BadLine { line, why }),
        None => None,
    }
}

/// The one that stands first.
pub fn earlier_of(a: Option<BadLine>, b: Option<BadLine>) -> Option<BadLine>
    ensures { result ≡ earlier_of a b }
{
    match (a, b) {
        (Some(x), Some(y)) => { if y.line < x.line { Some(y) } else { Some(x) } }
        (Some(x), None) => Some(x),
        (None, _) => b,
    }
}
