//! What fields of literals may hold.

ghost use Rattle.std.specs.Prelude.{◌≡◌};
ghost use Rattle.wf_binding.specs.First.{IsFirst};
ghost use Rattle.wf_binding.specs.Validity.{Somewhere, IsBadLiteral, has_literals, is_of_instances, literal_fits, literal_word};

use crate::effects::word_of;
use crate::first::{BadLine, at_line, earlier_of};
use crate::named::{field_kind, field_of};
use crate::values::{value_fits, value_there};
use wf_classes::Classes;
use wf_data::is_static;
use wf_inputs::Literal;
use wf_names::InputWhy;

/// The classes of literals.
fn has_literals(name: &[u8]) -> bool
    ensures { result ≡ has_literals name.now }
{
    name == b"java/lang/String".as_slice() || name == b"java/lang/Class".as_slice()
}

fn is_of_instances(classes: &Classes, literal: &Literal) -> bool
    ensures { result ≡ is_of_instances classes.now literal.now }
{
    match field_of(classes, &literal.field) {
        Some(field) => !is_static(field.flags),
        None => false,
    }
}

fn literal_fits(classes: &Classes, literal: &Literal) -> bool
    ensures { result ≡ literal_fits classes.now literal.now }
{
    has_literals(literal.field.class.as_slice())
        && is_of_instances(classes, literal)
        && value_fits(classes, &[], field_kind(&literal.field), &literal.value)
}

fn literal_word(classes: &Classes, literal: &Literal) -> Option<InputWhy>
    ensures { result ≡ literal_word classes.now literal.now }
{
    let there = field_of(classes, &literal.field).is_some() && value_there(classes, &literal.value);
    word_of(there, literal_fits(classes, literal))
}

/// The first bad literal.
pub fn first_bad_literal(classes: &Classes, literals: &[Literal]) -> Option<BadLine>
    ensures { IsFirst (Somewhere (IsBadLiteral classes.now literals.now)) result }
{
    let mut found = None;
    for literal in literals {
        let word = literal_word(classes, literal);
        found = earlier_of(found, at_line(literal.line, word));
    }
    found
}
