//! Switches.

ghost use Rattle.std.specs.Prelude.{◌≡◌, ◌≤◌, length, IfSome};
ghost use Rattle.std.specs.Option.{option_copied};
ghost use Rattle.wf_listing.specs.Lines.{is_default, before_default, table_with, table_from, table_said, case_said, cases_said, lookup_said};
ghost use Rattle.wf_listing.specs.Saying.{Says};

use crate::lines::operands::int_said;
use crate::lines::words::{label_said, labels_said};
use crate::listing::{ListedCase, ListedLookup, ListedTable, Step};
use crate::stop::Stop;
use std::alloc::Global;
use wf_base::{Items, Text};

fn is_default(words: &[Text]) -> bool
    ensures { result ≡ is_default words.now }
{
    match words {
        [first, label] => first.as_slice() == b"default".as_slice() && !label.as_slice().is_empty(),
        _ => false,
    }
}

/// All words but the last two, where these are `default` and a label.
fn before_default(words: &[Text]) -> Option<&[Text]>
    ensures front { option_copied result ≡ before_default words.now }
    ensures long { IfSome result (λ _. 2 ≤ length words.now) }
{
    if words.len() < 2 {
        return None;
    }
    let (front, back) = words.split_at(words.len() - 2);
    if !is_default(back) {
        return None;
    }
    Some(front)
}

/// A tableswitch has at least one key.
fn table_with(alloc: Global, default: Text, low: i32, targets: &[Text]) -> Result<Step, Stop>
    ensures { Says result (table_with default low targets.now) }
{
    if targets.is_empty() {
        return Err(Stop::NotOfForm);
    }
    let targets = labels_said(alloc, targets)?;
    Ok(Step::Table(ListedTable {
        low,
        targets,
        default,
    }))
}

fn table_from(alloc: Global, default: Text, words: &[Text]) -> Result<Step, Stop>
    ensures { Says result (table_from default words.now) }
{
    let [low, targets @ ..] = words else {
        return Err(Stop::NotOfForm);
    };
    match int_said(low.as_slice()) {
        Some(low) => table_with(alloc, default, low, targets),
        None => Err(Stop::NotOfForm),
    }
}

pub fn table_said(alloc: Global, words: &[Text]) -> Result<Step, Stop>
    ensures { Says result (table_said words.now) }
{
    let Some(front) = before_default(words) else {
        return Err(Stop::NotOfForm);
    };
    let default = words[words.len() - 1].clone()?;
    table_from(alloc, default, front)
}

fn case_said(key: &Text, label: &Text) -> Result<ListedCase, Stop>
    ensures { Says result (case_said key.now label.now) }
{
    let Some(key) = int_said(key.as_slice()) else {
        return Err(Stop::NotOfForm);
    };
    Ok(ListedCase {
        key,
        target: label_said(label)?,
    })
}

#[tactic(auto, using(crate::proofs::Cases::goes_on, crate::proofs::Cases::stops, crate::proofs::Cases::ends, crate::proofs::Cases::breaks_off))]
fn cases_said(alloc: Global, words: &[Text]) -> Result<Items<ListedCase>, Stop>
    ensures { Says result (cases_said words.now) }
{
    let mut cases = Vec::new(alloc);
    let mut rest = words;
    while let [key, label, behind @ ..] = rest {
        cases.push(case_said(key, label)?)?;
        rest = behind;
    }
    if !rest.is_empty() {
        return Err(Stop::NotOfForm);
    }
    Ok(Items::from_vec(cases))
}

pub fn lookup_said(alloc: Global, words: &[Text]) -> Result<Step, Stop>
    ensures { Says result (lookup_said words.now) }
{
    let Some(front) = before_default(words) else {
        return Err(Stop::NotOfForm);
    };
    let cases = cases_said(alloc, front)?;
    let default = words[words.len() - 1].clone()?;
    Ok(Step::Lookup(ListedLookup { cases, default }))
}
