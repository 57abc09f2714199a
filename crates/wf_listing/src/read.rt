//! A listing, line after line.

ghost use Rattle.std.specs.Prelude.{◌≡◌, ◌+◌, ◌^◌, ◌<◌, ◌≤◌, ◌++◌, ◌∷◌, [], length, OnOk, IfOk};
ghost use Rattle.wf_listing.specs.Reading.{opened, drop_spaces, with_field, with_method, with_body, bad_at, with_bad, depth, method_on, said_outside, said_in_class, said_in_body, said_on, line_on, at_end, listing_of};

use crate::lines::line_said;
use crate::listing::{
    Listed, ListedField, ListedMethod, Listing, Open, ReadSoFar, Said, Statement,
};
use crate::stop::Stop;
use std::alloc::{AllocError, Global};
use wf_base::Items;
use wf_lines::{is_nothing, next_line};

/// A line behind its spaces.
#[tactic(auto, using(crate::proofs::Reading::space_goes_on))]
fn drop_spaces(line: &[u8]) -> &[u8]
    ensures line { result.now ≡ drop_spaces line.now }
    ensures shorter { length result.now ≤ length line.now }
{
    let mut rest = line;
    while let [b' ', behind @ ..] = rest {
        rest = behind;
    }
    rest
}

/// Adds an element, which is dropped for want of memory.
fn push<T: Drop>(items: &mut Items<T>, item: T) -> Result<(), AllocError>
    ensures { OnOk result (items.new ≡ items.old ++ item ∷ []) }
{
    match items.push(item) {
        Ok(()) => Ok(()),
        Err(_) => Err(AllocError),
    }
}

fn with_field(mut class: Listed, field: ListedField) -> Result<Listed, AllocError>
    ensures { IfOk result (λ c. c ≡ with_field class field) }
{
    push(&mut class.fields, field)?;
    Ok(class)
}

fn with_method(mut class: Listed, method: ListedMethod) -> Result<Listed, AllocError>
    ensures { IfOk result (λ c. c ≡ with_method class method) }
{
    push(&mut class.methods, method)?;
    Ok(class)
}

fn with_body(method: ListedMethod, body: Items<Statement>) -> ListedMethod
    ensures { result ≡ with_body method body }
{
    ListedMethod {
        flags: method.flags,
        name: method.name,
        desc: method.desc,
        body: Some(body),
    }
}

/// The first line outside the form, where this line is outside too.
fn bad_at(line: u32, first_bad: Option<u32>) -> Option<u32>
    ensures { result ≡ bad_at line first_bad }
{
    match first_bad {
        None => Some(line),
        Some(first) => Some(first),
    }
}

fn with_bad(line: u32, so_far: ReadSoFar) -> ReadSoFar
    ensures { result ≡ with_bad line so_far }
{
    ReadSoFar {
        classes: so_far.classes,
        place: so_far.place,
        first_bad: bad_at(line, so_far.first_bad),
    }
}

/// A method opens its body, where it has one.
fn method_on(
    alloc: Global,
    classes: Items<Listed>,
    class: Listed,
    first_bad: Option<u32>,
    method: ListedMethod,
) -> Result<ReadSoFar, AllocError>
    ensures { IfOk result (λ next. next ≡ method_on classes class first_bad method method.body) }
{
    match &method.body {
        None => Ok(ReadSoFar {
            classes,
            place: Open::Class(with_method(class, method)?),
            first_bad,
        }),
        Some(_) => Ok(ReadSoFar {
            classes,
            place: Open::Body(class, method, Items::new(alloc)),
            first_bad,
        }),
    }
}

/// A line that may not stand outside a class.
fn bad_outside(line: u32, classes: Items<Listed>, first_bad: Option<u32>) -> ReadSoFar
    ensures { result ≡ opened classes Open.Nothing (bad_at line first_bad) }
{
    ReadSoFar {
        classes,
        place: Open::Nothing,
        first_bad: bad_at(line, first_bad),
    }
}

fn said_outside(line: u32, classes: Items<Listed>, first_bad: Option<u32>, said: Said) -> ReadSoFar
    ensures { result ≡ said_outside line classes first_bad said }
{
    match said {
        Said::Class(class) => ReadSoFar {
            classes,
            place: Open::Class(class),
            first_bad,
        },
        Said::Field(_) => bad_outside(line, classes, first_bad),
        Said::Method(_) => bad_outside(line, classes, first_bad),
        Said::Body(_) => bad_outside(line, classes, first_bad),
        Said::End => bad_outside(line, classes, first_bad),
    }
}

fn said_in_class(
    alloc: Global,
    line: u32,
    mut classes: Items<Listed>,
    class: Listed,
    first_bad: Option<u32>,
    said: Said,
) -> Result<ReadSoFar, AllocError>
    ensures { IfOk result (λ next. next ≡ said_in_class line classes class first_bad said) }
{
    match said {
        Said::Class(next) => {
            push(&mut classes, class)?;
            Ok(ReadSoFar {
                classes,
                place: Open::Class(next),
                first_bad,
            })
        }
        Said::Field(field) => Ok(ReadSoFar {
            classes,
            place: Open::Class(with_field(class, field)?),
            first_bad,
        }),
        Said::Method(method) => method_on(alloc, classes, class, first_bad, method),
        _ => Ok(ReadSoFar {
            classes,
            place: Open::Class(class),
            first_bad: bad_at(line, first_bad),
        }),
    }
}

fn said_in_body(
    line: u32,
    classes: Items<Listed>,
    class: Listed,
    method: ListedMethod,
    mut body: Items<Statement>,
    first_bad: Option<u32>,
    said: Said,
) -> Result<ReadSoFar, AllocError>
    ensures { IfOk result (λ next. next ≡ said_in_body line classes class method body first_bad said) }
{
    match said {
        Said::Body(item) => {
            push(&mut body, Statement { line, says: item })?;
            Ok(ReadSoFar {
                classes,
                place: Open::Body(class, method, body),
                first_bad,
            })
        }
        Said::End => Ok(ReadSoFar {
            classes,
            place: Open::Class(with_method(class, with_body(method, body))?),
            first_bad,
        }),
        _ => Ok(ReadSoFar {
            classes,
            place: Open::Body(class, method, body),
            first_bad: bad_at(line, first_bad),
        }),
    }
}

/// What is open behind a line that says this.
fn said_on(alloc: Global, line: u32, so_far: ReadSoFar, said: Said) -> Result<ReadSoFar, AllocError>
    ensures { IfOk result (λ next. next ≡ said_on line so_far.classes so_far.place so_far.first_bad said) }
{
    let classes = so_far.classes;
    let first_bad = so_far.first_bad;
    match so_far.place {
        Open::Nothing => Ok(said_outside(line, classes, first_bad, said)),
        Open::Class(class) => said_in_class(alloc, line, classes, class, first_bad, said),
        Open::Body(class, method, body) => said_in_body(
            line, classes, class, method, body, first_bad, said,
        ),
    }
}

/// What is open behind a line, which begins with no space.
fn line_on(
    alloc: Global,
    line: u32,
    so_far: ReadSoFar,
    bytes: &[u8],
) -> Result<ReadSoFar, AllocError>
    ensures { IfOk result (λ next. next ≡ line_on line so_far bytes.now) }
{
    if is_nothing(bytes) {
        return Ok(so_far);
    }
    match line_said(alloc, line, bytes) {
        Ok(said) => said_on(alloc, line, so_far, said),
        Err(Stop::NotOfForm) => Ok(with_bad(line, so_far)),
        Err(Stop::NoMemory) => Err(AllocError),
    }
}

/// The classes behind the last line, behind which no body may be open.
fn at_end(read: u32, so_far: ReadSoFar) -> Result<Listing, AllocError>
    requires { 1 < depth so_far.place → read + 1 < 2 ^ 32 }
    ensures { IfOk result (λ listing. listing ≡ at_end (read + 1) so_far) }
{
    let mut classes = so_far.classes;
    let first_bad = so_far.first_bad;
    match so_far.place {
        Open::Nothing => Ok(Listing { classes, first_bad }),
        Open::Class(class) => {
            push(&mut classes, class)?;
            Ok(Listing { classes, first_bad })
        }
        Open::Body(class, method, body) => {
            let class = with_method(class, with_body(method, body))?;
            push(&mut classes, class)?;
            Ok(Listing {
                classes,
                first_bad: bad_at(read + 1, first_bad),
            })
        }
    }
}

/// What a listing says (own rule; docs/GUIDE.md, "Listings", has the form), line by line: a line that isn't of the form by
/// itself or in its place is left out, and the first of them is given. Where a body has no `end`, that is the line behind the
/// last. The text has fewer than 2^32 bytes, so that its lines can be counted in 32 bits.
#[tactic(auto, using(crate::proofs::Reading::goes_on, crate::proofs::Reading::ends, crate::proofs::Reading::text_weight, crate::proofs::Reading::deeper))]
pub fn read_listing(alloc: Global, text: &[u8]) -> Result<Listing, AllocError>
    requires { length text.now < 2 ^ 32 }
    ensures { IfOk result (λ listing. listing ≡ listing_of text.now) }
{
    let mut so_far = ReadSoFar {
        classes: Items::new(alloc),
        place: Open::Nothing,
        first_bad: None,
    };
    let mut read = 0;
    let mut rest = text;
    while let Some((line, behind)) = next_line(rest) {
        read += 1;
        so_far = line_on(alloc, read, so_far, drop_spaces(line))?;
        rest = behind;
    }
    at_end(read, so_far)
}
