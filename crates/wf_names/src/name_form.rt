ghost use Rattle.std.specs.Prelude.{◌≡◌, ◌<◌, ◌&&◌, ◌++◌, ℕ, true, List, Some, length, nat_le, OnOk, IfOk, IfSome, option_to_list};
ghost use Rattle.std.specs.List.{list_all};
ghost use Rattle.wf_names.specs.declared.member.MemberName.{MemberName};
ghost use Rattle.wf_names.specs.declared.name_form.Escape.TheVariants as escape;
ghost use Rattle.wf_base.specs.Bytes.{IsBytes};
ghost use Rattle.wf_names.specs.NameForm.{is_plain, hex_digit, escaped_byte, escaped, member_text, hex_value, escape_of, escape_on, unescaped_from, name_of};

use crate::member::MemberName;
use std::alloc::{AllocError, Global};
use wf_base::Text;

/// Where a word in the form of names goes on.
#[derive(Clone, Copy, Debug)]
enum Escape {
    /// Outside an escape.
    Outside,
    /// Behind a backslash.
    Begun,
    /// Behind a backslash and this digit.
    High(u8),
}

/// Whether a byte stands for itself in the form of names.
pub fn is_plain(b: u8) -> bool
    ensures { result ≡ is_plain b }
{
    b >= b'!' && b <= b'~' && b != b'\\'
}

/// A hexadecimal digit, in lower case.
pub fn hex_digit(d: u8) -> u8
    requires { d < 16 }
    ensures { result ≡ hex_digit d }
{
    if d < 10 { b'0' + d } else { b'a' - 10 + d }
}

fn push_byte(out: &mut Vec<u8>, b: u8) -> Result<(), AllocError>
    ensures { OnOk result (out.new.items ≡ out.old.items ++ escaped_byte b) }
{
    if is_plain(b) {
        out.push(b)?;
        return Ok(());
    }
    out.extend_from_slice(&[b'\\', hex_digit(b / 16), hex_digit(b % 16)])
}

fn push_name(out: &mut Vec<u8>, name: &[u8]) -> Result<(), AllocError>
    ensures { OnOk result (out.new.items ≡ out.old.items ++ escaped name.now) }
{
    for b in name {
        push_byte(out, *b)?;
    }
    Ok(())
}

/// A name or path in the form in which it is printed: a printable byte of ASCII other than the space and
/// the backslash stands for itself, and every other byte is a backslash and two hexadecimal digits. Own
/// rule.
pub fn name_text(alloc: Global, name: &[u8]) -> Result<Text, AllocError>
    ensures { IfOk result (λ text. text ≡ escaped name.now) }
{
    let mut out = Vec::new(alloc);
    push_name(&mut out, name)?;
    Ok(Text::from_vec(out))
}

/// A field or method as it is printed: `CLASS.NAME DESC`, each part in the form of names.
pub fn member_text(alloc: Global, member: &MemberName) -> Result<Text, AllocError>
    ensures { IfOk result (λ text. text ≡ member_text member.now) }
{
    let mut out = Vec::new(alloc);
    push_name(&mut out, member.class.as_slice())?;
    out.push(b'.')?;
    push_name(&mut out, member.name.as_slice())?;
    out.push(b' ')?;
    push_name(&mut out, member.desc.as_slice())?;
    Ok(Text::from_vec(out))
}

/// The value of a hexadecimal digit in lower case.
fn hex_value(d: u8) -> Option<u8>
    ensures value { result ≡ hex_value d }
    ensures small { IfSome result (λ v. v < 16) }
{
    match d {
        b'0'..=b'9' => Some(d - b'0'),
        b'a'..=b'f' => Some(d - b'a' + 10),
        _ => None,
    }
}

/// The byte of an escape with these digits, which is none that stands for itself.
fn escape_of(high: u8, low: u8) -> Option<u8>
    ensures { result ≡ escape_of high low }
{
    let high = hex_value(high)?;
    let low = hex_value(low)?;
    let b = high * 16 + low;
    if is_plain(b) { None } else { Some(b) }
}

/// Where a word goes on behind a byte, and the byte of the name that ends there.
fn escape_on(escape: Escape, b: u8) -> Option<(Escape, Option<u8>)>
    ensures { result ≡ escape_on escape b }
{
    match escape {
        Escape::Outside if b == b'\\' => Some((Escape::Begun, None)),
        Escape::Outside if is_plain(b) => Some((Escape::Outside, Some(b))),
        Escape::Outside => None,
        Escape::Begun => Some((Escape::High(b), None)),
        Escape::High(high) => Some((Escape::Outside, Some(escape_of(high, b)?))),
    }
}

fn push_some(out: &mut Vec<u8>, b: Option<u8>) -> Result<(), AllocError>
    ensures { OnOk result (out.new.items ≡ out.old.items ++ option_to_list b) }
{
    match b {
        Some(b) => Ok(out.push(b)?),
        None => Ok(()),
    }
}

/// The bytes that a word in the form of names stands for.
#[tactic(auto, using(crate::proofs::Unescaping::goes_on, crate::proofs::Unescaping::stops, crate::proofs::Unescaping::ends, crate::proofs::Unescaping::ends_begun, crate::proofs::Unescaping::ends_high))]
fn unescaped(alloc: Global, word: &[u8]) -> Result<Option<Text>, AllocError>
    ensures { IfOk result (λ name. name ≡ unescaped_from escape.Outside word.now) }
{
    let mut name = Vec::new(alloc);
    let mut escape = Escape::Outside;
    for b in word {
        match escape_on(escape, *b) {
            Some((next, byte)) => {
                push_some(&mut name, byte)?;
                escape = next;
            }
            None => return Ok(None),
        }
    }
    match escape {
        Escape::Outside => Ok(Some(Text::from_vec(name))),
        Escape::Begun => Ok(None),
        Escape::High(_) => Ok(None),
    }
}

/// The name that a word in the form of names stands for. None where it is empty or not in that form.
pub fn read_name(alloc: Global, word: &[u8]) -> Result<Option<Text>, AllocError>
    ensures { IfOk result (λ name. name ≡ name_of word.now) }
{
    if word.is_empty() {
        return Ok(None);
    }
    unescaped(alloc, word)
}

/// The law between printing and reading names: what is printed of a name is read as that name, and no other
/// word is. Each byte of such a word is a printable byte of ASCII other than the space.
pub fn names_are_read_back()
    ensures printed { (name : List ℕ) → IsBytes name → 0 < length name → name_of (escaped name) ≡ Some name }
    ensures read { (word name : List ℕ) → name_of word ≡ Some name → escaped name ≡ word }
    ensures printable { (word name : List ℕ) → name_of word ≡ Some name → list_all (λ b. nat_le 33 b && nat_le b 126) word ≡ true }
{}
