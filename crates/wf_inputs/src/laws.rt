//! The law between reading and printing.

ghost use Rattle.std.specs.Prelude.{◌≡◌, ℕ, List, Ok};
ghost use Rattle.wf_inputs.specs.declared.roots.Roots.{Roots};
ghost use Rattle.wf_inputs.specs.declared.summary.Summary.{Summary};
ghost use Rattle.wf_inputs.specs.Printing.{summary_text, roots_text};
ghost use Rattle.wf_inputs.specs.Reading.{summary_of, roots_of};
ghost use Rattle.wf_inputs.specs.Unnumbered.{unnumbered, unnumbered_roots, IsReadAsSummary, IsReadAsRoots};

use wf_lines::{
    decimals_are_read_back, lines_are_read_back, members_are_read_back, words_are_read_back,
};
use wf_names::names_are_read_back;

/// What is printed of a summary or of roots that some bytes were read as, but for the line numbers, is read as these
/// again, but for the line numbers.
pub fn inputs_are_read_back()
    ensures summary { (bytes : List ℕ) (read printed : Summary) → summary_of bytes ≡ Ok read → unnumbered printed ≡ unnumbered read → IsReadAsSummary (summary_text printed) printed }
    ensures roots { (bytes : List ℕ) (read printed : Roots) → roots_of bytes ≡ Ok read → unnumbered_roots printed ≡ unnumbered_roots read → IsReadAsRoots (roots_text printed) printed }
{
    names_are_read_back();
    members_are_read_back();
    decimals_are_read_back();
    words_are_read_back();
    lines_are_read_back();
}
