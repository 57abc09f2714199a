ghost use Rattle.std.specs.Prelude.{◌≡◌, ◌==◌, ◌<◌, length, position, IfOk, IfSome};
ghost use Rattle.wf_lines.specs.Members.{divided, member_said};

use std::alloc::{AllocError, Global};
use wf_base::Text;
use wf_names::{MemberName, read_name};

fn first_dot(word: &[u8]) -> Option<usize>
    ensures first { result ≡ position (λ b. b == 46) word.now }
    ensures inside { IfSome result (λ i. i < length word.now) }
{
    word.iter().position(|b| *b == b'.')
}

/// The class and the name that a word divides by its first `.`.
fn divided(alloc: Global, word: &[u8]) -> Result<Option<(Text, Text)>, AllocError>
    ensures { IfOk result (λ names. names ≡ divided (position (λ b. b == 46) word.now) word.now) }
{
    let Some(dot) = first_dot(word) else {
        return Ok(None);
    };
    let Some(class) = read_name(alloc, &word[..dot])? else {
        return Ok(None);
    };
    match read_name(alloc, &word[dot + 1..])? {
        Some(name) => Ok(Some((class, name))),
        None => Ok(None),
    }
}

/// The field or method that two words of a line are: `CLASS.NAME` and its descriptor, each in the form of names.
/// Whether they are allowed names isn't asked.
pub fn read_member(
    alloc: Global,
    word: &[u8],
    desc: &[u8],
) -> Result<Option<MemberName>, AllocError>
    ensures { IfOk result (λ member. member ≡ member_said word.now desc.now) }
{
    let Some((class, name)) = divided(alloc, word)? else {
        return Ok(None);
    };
    match read_name(alloc, desc)? {
        Some(desc) => Ok(Some(MemberName { class, name, desc })),
        None => Ok(None),
    }
}
