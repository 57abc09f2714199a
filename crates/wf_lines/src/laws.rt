//! The laws between reading and printing.

ghost use Rattle.std.specs.Prelude.{◌≡◌, ◌==◌, ℕ, ◌^◌, ◌<◌, ℤ, pos, ◌-ℤ◌, ◌≤ℤ◌, true, false, List, [], ◌∷◌, Some, length};
ghost use Rattle.std.specs.List.{flat_map};
ghost use Rattle.std.specs.Fmt.{decimal, signed_decimal};
ghost use Rattle.wf_names.specs.declared.member.MemberName.{MemberName};
ghost use Rattle.wf_lines.specs.Decimals.{natural_of, integer_of};
ghost use Rattle.wf_lines.specs.Lines.{line, lines_of, words_of, joined, is_word, are_words, is_line, are_lines};
ghost use Rattle.wf_lines.specs.Members.{IsPrintedMember, member_said, member_words};

use wf_names::names_are_read_back;

/// Lines that are printed one after the other are read as these lines.
pub fn lines_are_read_back()
    ensures { (texts : List (List ℕ)) → are_lines texts ≡ true → lines_of (flat_map line texts) ≡ texts }
{}

/// The words of a line, joined, are the line. Printed words that are joined are a line that is printed, and are read
/// as these words.
pub fn words_are_read_back()
    ensures read { (text : List ℕ) → joined (words_of text) ≡ text }
    ensures printed { (first : List ℕ) (rest : List (List ℕ)) → are_words (first ∷ rest) ≡ true → words_of (joined (first ∷ rest)) ≡ first ∷ rest }
    ensures line { (words : List (List ℕ)) → are_words words ≡ true → is_line (joined words) ≡ true }
{}

/// A word that is read as a number is what is printed of that number, and no other word is.
pub fn decimals_are_read_back()
    ensures read { (word : List ℕ) (n : ℕ) → natural_of word ≡ Some n → n < 2 ^ 64 → decimal n ≡ word }
    ensures printed { (n : ℕ) → n < 2 ^ 64 → natural_of (decimal n) ≡ Some n }
    ensures word { (word : List ℕ) (n : ℕ) → natural_of word ≡ Some n → is_word word ≡ true }
    ensures signed { (word : List ℕ) (z : ℤ) → integer_of word ≡ Some z → (pos 0 -ℤ pos (2 ^ 63)) ≤ℤ z → z ≤ℤ (pos (2 ^ 63) -ℤ pos 1) → signed_decimal z ≡ word }
    ensures signed_word { (word : List ℕ) (z : ℤ) → integer_of word ≡ Some z → is_word word ≡ true }
{}

/// Two words that are read as a member are the words that are printed of it. A member whose class has no `.` is read from what is printed of it.
pub fn members_are_read_back()
    ensures read { (word desc : List ℕ) (member : MemberName) → member_said word desc ≡ Some member → member_words member ≡ word ∷ desc ∷ [] }
    ensures words { (word desc : List ℕ) (member : MemberName) → member_said word desc ≡ Some member → are_words (word ∷ desc ∷ []) ≡ true }
    ensures printed { (member : MemberName) (word desc : List ℕ) → IsPrintedMember member → member_words member ≡ word ∷ desc ∷ [] → member_said word desc ≡ Some member }
{
    names_are_read_back();
}
