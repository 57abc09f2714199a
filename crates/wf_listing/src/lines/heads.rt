//! The lines outside bodies.

ghost use Rattle.std.specs.Prelude.{◌≡◌, IfOk, count_by};
ghost use Rattle.std.specs.List.{list_any};
ghost use Rattle.std.specs.Str.{bytes_eq};
ghost use Rattle.wf_listing.specs.Lines.{interfaces_said, tail_said, super_of, listed, class_said, flag_of, is_access, sum_of_flags, flags_said, head_said, field_with, int_in, has_value, field_said, method_with, method_said};
ghost use Rattle.wf_listing.specs.Saying.{Says};

use crate::lines::operands::int_said;
use crate::lines::words::{name_said, names_said};
use crate::listing::{Listed, ListedField, ListedMethod, Said};
use crate::stop::Stop;
use std::alloc::{AllocError, Global};
use wf_base::{Items, Text};
use wf_data::is_native_or_abstract;
use wf_names::is_object_name;

/// What the lines of fields and of methods have.
#[derive(Debug, Drop)]
pub struct Head {
    pub flags: u16,
    pub name: Text,
    pub desc: Text,
}

fn interfaces_said(alloc: Global, words: &[Text]) -> Result<Items<Text>, Stop>
    ensures { Says result (interfaces_said words.now) }
{
    match words {
        [] => Ok(Items::new(alloc)),
        [first, names @ ..] if first.as_slice() == b"implements".as_slice() && !names.is_empty() =>
            { names_said(alloc, names) }
        _ => Err(Stop::NotOfForm),
    }
}

/// The superclass, where it is said, and the interfaces.
fn tail_said(alloc: Global, words: &[Text]) -> Result<(Option<Text>, Items<Text>), Stop>
    ensures { Says result (tail_said words.now) }
{
    match words {
        [] => Ok((None, Items::new(alloc))),
        [_] => Err(Stop::NotOfForm),
        [first, name, rest @ ..] if first.as_slice() == b"extends".as_slice() => {
            let superclass = name_said(alloc, name.as_slice())?;
            Ok((Some(superclass), interfaces_said(alloc, rest)?))
        }
        _ => Ok((None, interfaces_said(alloc, words)?)),
    }
}

/// The superclass java/lang/Object where none is said, and none for that class itself.
fn super_of(alloc: Global, name: &Text, said: Option<Text>) -> Result<Option<Text>, AllocError>
    ensures { IfOk result (λ superclass. superclass ≡ super_of name.now said) }
{
    match said {
        Some(superclass) => Ok(Some(superclass)),
        None if is_object_name(name.as_slice()) => Ok(None),
        None => Ok(Some(Text::from_slice(alloc, b"java/lang/Object")?)),
    }
}

/// A class, behind its first word.
pub fn class_said(alloc: Global, line: u32, flags: u16, words: &[Text]) -> Result<Said, Stop>
    ensures { Says result (class_said line flags words.now) }
{
    let [name, tail @ ..] = words else {
        return Err(Stop::NotOfForm);
    };
    let name = name_said(alloc, name.as_slice())?;
    let (superclass, interfaces) = tail_said(alloc, tail)?;
    let superclass = super_of(alloc, &name, superclass)?;
    Ok(Said::Class(Listed {
        line,
        flags,
        name,
        superclass,
        interfaces,
        fields: Items::new(alloc),
        methods: Items::new(alloc),
    }))
}

/// The flag that a word is (JVMS tables 4.5-A and 4.6-A). `package` is the access that has no flag.
fn flag_of(word: &[u8]) -> Option<u16>
    ensures { result ≡ flag_of word.now }
{
    if word == b"static".as_slice() {
        Some(0x0008)
    } else if word == b"private".as_slice() {
        Some(0x0002)
    } else if word == b"protected".as_slice() {
        Some(0x0004)
    } else if word == b"package".as_slice() {
        Some(0)
    } else if word == b"abstract".as_slice() {
        Some(0x0400)
    } else if word == b"native".as_slice() {
        Some(0x0100)
    } else {
        None
    }
}

fn is_access(word: &[u8]) -> bool
    ensures { result ≡ is_access word.now }
{
    word == b"private".as_slice()
        || word == b"protected".as_slice()
        || word == b"package".as_slice()
}

fn is_among(word: &Text, words: &[Text]) -> bool
    ensures { result ≡ list_any (bytes_eq word.now) words.now }
{
    words
        .iter()
        .any(|other| word.as_slice() == other.as_slice())
}

fn access_count(words: &[Text]) -> usize
    ensures { result ≡ count_by is_access words.now }
{
    words
        .iter()
        .filter(|word| is_access(word.as_slice()))
        .count()
}

/// The bits of flags, each word once.
fn sum_of_flags(words: &[Text]) -> Option<u16>
    ensures { result ≡ sum_of_flags words.now }
{
    let [first, rest @ ..] = words else {
        return Some(0);
    };
    if is_among(first, rest) {
        return None;
    }
    let flag = flag_of(first.as_slice())?;
    Some(flag | sum_of_flags(rest)?)
}

/// The bits of flags. Two words of access contradict one another, and a member without one is public.
fn flags_said(words: &[Text]) -> Option<u16>
    ensures { result ≡ flags_said words.now }
{
    let accesses = access_count(words);
    if accesses > 1 {
        return None;
    }
    let flags = sum_of_flags(words)?;
    if accesses == 0 {
        return Some(flags | 1);
    }
    Some(flags)
}

/// Flags, a name and a descriptor.
fn head_said(alloc: Global, words: &[Text]) -> Result<Head, Stop>
    ensures { Says result (head_said words.now) }
{
    if words.len() < 2 {
        return Err(Stop::NotOfForm);
    }
    let n = words.len() - 2;
    let Some(flags) = flags_said(&words[..n]) else {
        return Err(Stop::NotOfForm);
    };
    Ok(Head {
        flags,
        name: name_said(alloc, words[n].as_slice())?,
        desc: name_said(alloc, words[n + 1].as_slice())?,
    })
}

fn field_with(constant: Option<i32>, head: Head) -> Said
    ensures { result ≡ field_with constant head }
{
    Said::Field(ListedField {
        flags: head.flags,
        name: head.name,
        desc: head.desc,
        constant,
    })
}

fn has_value(words: &[Text]) -> bool
    ensures { result ≡ has_value words.now }
{
    words.len() >= 2 && words[words.len() - 2].as_slice() == b"=".as_slice()
}

/// A field, behind its first word. It has a constant where its last word but one is `=`.
pub fn field_said(alloc: Global, words: &[Text]) -> Result<Said, Stop>
    ensures { Says result (field_said words.now) }
{
    if !has_value(words) {
        return Ok(field_with(None, head_said(alloc, words)?));
    }
    let n = words.len() - 2;
    let Some(constant) = int_said(words[n + 1].as_slice()) else {
        return Err(Stop::NotOfForm);
    };
    Ok(field_with(Some(constant), head_said(alloc, &words[..n])?))
}

fn method_with(alloc: Global, head: Head) -> Said
    ensures { result ≡ method_with head }
{
    let body = if is_native_or_abstract(head.flags) {
        None
    } else {
        Some(Items::new(alloc))
    };
    Said::Method(ListedMethod {
        flags: head.flags,
        name: head.name,
        desc: head.desc,
        body,
    })
}

/// A method, behind its first word. A native or abstract one has no body.
pub fn method_said(alloc: Global, words: &[Text]) -> Result<Said, Stop>
    ensures { Says result (method_said words.now) }
{
    Ok(method_with(alloc, head_said(alloc, words)?))
}
