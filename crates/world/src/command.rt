ghost use Rattle.std.specs.Prelude.{◌≡◌, ◌↔◌, List, ℕ, map, IsTrue, IfSome, IfNone};
ghost use Rattle.world.specs.Command.{IsPath, IsCommand, words_of};

use std::str;

/// Whether a word is a path: it is UTF-8, and begins with `-` only if it is `-`.
fn is_path(word: &[u8]) -> bool
    ensures { IsTrue result ↔ IsPath word.now }
{
    if str::from_utf8(word).is_err() {
        return false;
    }
    match word {
        [b'-'] => true,
        [b'-', ..] => false,
        _ => true,
    }
}

/// The two paths of the words `--roots FILE DIR`: of the roots file, and of the directory of class files.
pub fn paths_of(words: &[Vec<u8>]) -> Option<(&[u8], &[u8])>
    ensures some { IfSome result (λ paths. IsCommand (words_of words.now) paths.0.now paths.1.now) }
    ensures none { IfNone result ((roots dir : List ℕ) → IsCommand (words_of words.now) roots dir → ⊥) }
{
    match words {
        [first, roots, dir]
            if first.as_slice() == b"--roots".as_slice() && is_path(roots) && is_path(dir) => {
            Some((roots.as_slice(), dir.as_slice()))
        }
        _ => None,
    }
}
