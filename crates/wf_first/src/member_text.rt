ghost use Rattle.std.specs.Prelude.{◌≡◌, ◌∷◌, [], Some};
ghost use Rattle.std.specs.Option.{option_copied};
ghost use Rattle.std.specs.Str.{bytes_eq};
ghost use Rattle.wf_names.specs.NameForm.{escaped_byte, escaped, member_text, member_of};
ghost use Rattle.wf_first.specs.Stripping.{strip};

use wf_names::{hex_digit, is_plain};

/// What follows the printed form of a byte, where the text begins with it.
fn strip_byte(text: &[u8], b: u8) -> Option<&[u8]>
    ensures { option_copied result ≡ strip (escaped_byte b) text.now }
{
    if is_plain(b) {
        return match text {
            [first, rest @ ..] if *first == b => Some(rest),
            _ => None,
        };
    }
    match text {
        [b'\\', high, low, rest @ ..] if *high == hex_digit(b / 16) && *low == hex_digit(b % 16) =>
            { Some(rest) }
        _ => None,
    }
}

/// What follows the printed form of a name, where the text begins with it.
#[tactic(auto, using(crate::proofs::Strip::goes_on))]
fn strip_name<'a>(text: &'a [u8], name: &[u8]) -> Option<&'a [u8]>
    ensures { option_copied result ≡ strip (escaped name.now) text.now }
{
    let mut rest = text;
    for b in name {
        rest = strip_byte(rest, *b)?;
    }
    Some(rest)
}

fn strip_plain(text: &[u8], b: u8) -> Option<&[u8]>
    ensures { option_copied result ≡ strip (b ∷ []) text.now }
{
    match text {
        [first, rest @ ..] if *first == b => Some(rest),
        _ => None,
    }
}

/// What follows a member's printed form, where the text begins with it.
#[tactic(auto, using(crate::proofs::Strip::strip_append))]
fn strip_member<'a>(text: &'a [u8], class: &[u8], name: &[u8], desc: &[u8]) -> Option<&'a [u8]>
    ensures { option_copied result ≡ strip (member_text (member_of class.now name.now desc.now)) text.now }
{
    let text = strip_plain(strip_name(text, class)?, b'.')?;
    let text = strip_plain(strip_name(text, name)?, b' ')?;
    strip_name(text, desc)
}

/// Whether a text is the printed form of the member with this class, name and descriptor.
#[tactic(auto, using(crate::proofs::Strip::whole_some, crate::proofs::Strip::whole_none))]
pub fn is_member_text(text: &[u8], class: &[u8], name: &[u8], desc: &[u8]) -> bool
    ensures { result ≡ bytes_eq text.now (member_text (member_of class.now name.now desc.now)) }
{
    match strip_member(text, class, name, desc) {
        Some(rest) => rest.is_empty(),
        None => false,
    }
}
