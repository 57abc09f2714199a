//! Words that stand for names and labels.

ghost use Rattle.wf_names.specs.NameForm.{name_of};
ghost use Rattle.wf_lines.specs.Members.{member_said};
ghost use Rattle.wf_listing.specs.Lines.{names_of, label_said, labels_said};
ghost use Rattle.wf_listing.specs.Saying.{Says};

use crate::stop::Stop;
use std::alloc::Global;
use wf_base::{Items, Text};
use wf_lines::read_member;
use wf_names::{MemberName, read_name};

pub fn name_said(alloc: Global, word: &[u8]) -> Result<Text, Stop>
    ensures { Says result (name_of word.now) }
{
    match read_name(alloc, word)? {
        Some(name) => Ok(name),
        None => Err(Stop::NotOfForm),
    }
}

#[tactic(auto, using(crate::proofs::Each::goes_on, crate::proofs::Each::stops, crate::proofs::Each::ends))]
pub fn names_said(alloc: Global, words: &[Text]) -> Result<Items<Text>, Stop>
    ensures { Says result (names_of words.now) }
{
    let mut names = Vec::new(alloc);
    for word in words {
        names.push(name_said(alloc, word.as_slice())?)?;
    }
    Ok(Items::from_vec(names))
}

/// A label that is named.
pub fn label_said(word: &Text) -> Result<Text, Stop>
    ensures { Says result (label_said word.now) }
{
    if word.as_slice().is_empty() {
        return Err(Stop::NotOfForm);
    }
    Ok(word.clone()?)
}

#[tactic(auto, using(crate::proofs::Each::goes_on, crate::proofs::Each::stops, crate::proofs::Each::ends))]
pub fn labels_said(alloc: Global, words: &[Text]) -> Result<Items<Text>, Stop>
    ensures { Says result (labels_said words.now) }
{
    let mut labels = Vec::new(alloc);
    for word in words {
        labels.push(label_said(word)?)?;
    }
    Ok(Items::from_vec(labels))
}

/// A member by its two words.
pub fn member_said(alloc: Global, word: &Text, desc: &Text) -> Result<MemberName, Stop>
    ensures { Says result (member_said word.now desc.now) }
{
    match read_member(alloc, word.as_slice(), desc.as_slice())? {
        Some(member) => Ok(member),
        None => Err(Stop::NotOfForm),
    }
}
