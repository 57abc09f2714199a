//! What a line of a report says.

ghost use Rattle.std.specs.Prelude.{◌≡◌, IfOk};
ghost use Rattle.std.specs.Ordering.{is_lt};
ghost use Rattle.wf_lines.specs.Lines.{words_of};
ghost use Rattle.wf_report.specs.Worlds.{name_cmp, member_cmp, place_cmp};
ghost use Rattle.wf_report.specs.Reading.{is_behind, last_of, member_of_words, error_of, place_of_words, type_said, method_said, field_said, place_said, count_of_words, count_said};

use crate::names::{is_field, is_method, is_place, is_type_name};
use std::alloc::{AllocError, Global};
use std::cmp::Ordering;
use wf_base::Text;
use wf_lines::{natural_in, read_member, words_of};
use wf_names::{LinkError, MemberName, Unresolved, read_name};

fn is_less(order: Ordering) -> bool
    ensures { result ≡ is_lt order }
{
    match order {
        Ordering::Less => true,
        Ordering::Equal => false,
        Ordering::Greater => false,
    }
}

/// Whether a name stands behind the last of those before it.
fn is_behind_names(before: &[Text], name: &Text) -> bool
    ensures { result ≡ is_behind name_cmp (last_of before.now) name.now }
{
    match before.last() {
        Some(last) => is_less(last.cmp(name)),
        None => true,
    }
}

fn is_behind_members(before: &[MemberName], member: &MemberName) -> bool
    ensures { result ≡ is_behind member_cmp (last_of before.now) member.now }
{
    match before.last() {
        Some(last) => is_less(last.cmp(member)),
        None => true,
    }
}

fn place_order(a: &Unresolved, b: &Unresolved) -> Ordering
    ensures { result ≡ place_cmp a.now b.now }
{
    match a.method.cmp(&b.method) {
        Ordering::Equal => a.pc.cmp(&b.pc),
        order => order,
    }
}

fn is_behind_places(before: &[Unresolved], place: &Unresolved) -> bool
    ensures { result ≡ is_behind place_cmp (last_of before.now) place.now }
{
    match before.last() {
        Some(last) => is_less(place_order(last, place)),
        None => true,
    }
}

/// A type, behind those before it.
pub fn type_said(alloc: Global, before: &[Text], text: &[u8]) -> Result<Option<Text>, AllocError>
    ensures { IfOk result (λ name. name ≡ type_said before.now text.now) }
{
    let Some(name) = read_name(alloc, text)? else {
        return Ok(None);
    };
    if !is_type_name(&name) {
        return Ok(None);
    }
    if !is_behind_names(before, &name) {
        return Ok(None);
    }
    Ok(Some(name))
}

fn member_of_words(alloc: Global, words: &[Text]) -> Result<Option<MemberName>, AllocError>
    ensures { IfOk result (λ member. member ≡ member_of_words words.now) }
{
    match words {
        [word, desc] => read_member(alloc, word.as_slice(), desc.as_slice()),
        _ => Ok(None),
    }
}

fn member_of(alloc: Global, text: &[u8]) -> Result<Option<MemberName>, AllocError>
    ensures { IfOk result (λ member. member ≡ member_of_words (words_of text.now)) }
{
    let words = words_of(alloc, text)?;
    member_of_words(alloc, words.as_slice())
}

/// A method, behind those before it.
pub fn method_said(
    alloc: Global,
    before: &[MemberName],
    text: &[u8],
) -> Result<Option<MemberName>, AllocError>
    ensures { IfOk result (λ member. member ≡ method_said before.now text.now) }
{
    let Some(member) = member_of(alloc, text)? else {
        return Ok(None);
    };
    if !is_method(&member) {
        return Ok(None);
    }
    if !is_behind_members(before, &member) {
        return Ok(None);
    }
    Ok(Some(member))
}

/// A field, behind those before it.
pub fn field_said(
    alloc: Global,
    before: &[MemberName],
    text: &[u8],
) -> Result<Option<MemberName>, AllocError>
    ensures { IfOk result (λ member. member ≡ field_said before.now text.now) }
{
    let Some(member) = member_of(alloc, text)? else {
        return Ok(None);
    };
    if !is_field(&member) {
        return Ok(None);
    }
    if !is_behind_members(before, &member) {
        return Ok(None);
    }
    Ok(Some(member))
}

fn error_of(word: &[u8]) -> Option<LinkError>
    ensures { result ≡ error_of word.now }
{
    if word == LinkError::NoClassDefFound.word() {
        Some(LinkError::NoClassDefFound)
    } else if word == LinkError::NoSuchField.word() {
        Some(LinkError::NoSuchField)
    } else if word == LinkError::NoSuchMethod.word() {
        Some(LinkError::NoSuchMethod)
    } else if word == LinkError::IncompatibleClassChange.word() {
        Some(LinkError::IncompatibleClassChange)
    } else if word == LinkError::Instantiation.word() {
        Some(LinkError::Instantiation)
    } else {
        None
    }
}

fn place_of(alloc: Global, words: &[Text]) -> Result<Option<Unresolved>, AllocError>
    ensures { IfOk result (λ place. place ≡ place_of_words words.now) }
{
    let [word, desc, pc, error] = words else {
        return Ok(None);
    };
    let Some(method) = read_member(alloc, word.as_slice(), desc.as_slice())? else {
        return Ok(None);
    };
    let Some(pc) = natural_in(65535, pc.as_slice()) else {
        return Ok(None);
    };
    match error_of(error.as_slice()) {
        Some(error) => Ok(Some(Unresolved {
            method,
            pc: pc as u16,
            error,
        })),
        None => Ok(None),
    }
}

/// A place that fails to link, behind those before it.
pub fn place_said(
    alloc: Global,
    before: &[Unresolved],
    text: &[u8],
) -> Result<Option<Unresolved>, AllocError>
    ensures { IfOk result (λ place. place ≡ place_said before.now text.now) }
{
    let words = words_of(alloc, text)?;
    let Some(place) = place_of(alloc, words.as_slice())? else {
        return Ok(None);
    };
    if !is_place(&place) {
        return Ok(None);
    }
    if !is_behind_places(before, &place) {
        return Ok(None);
    }
    Ok(Some(place))
}

fn count_of(title: &[u8], words: &[Text]) -> Option<u64>
    ensures { result ≡ count_of_words title.now words.now }
{
    match words {
        [word, count] if word.as_slice() == title => natural_in(u64::MAX, count.as_slice()),
        _ => None,
    }
}

/// How many lines follow a line with this title.
pub fn count_said(alloc: Global, title: &[u8], text: &[u8]) -> Result<Option<u64>, AllocError>
    ensures { IfOk result (λ count. count ≡ count_said title.now text.now) }
{
    let words = words_of(alloc, text)?;
    Ok(count_of(title, words.as_slice()))
}
