//! Instructions that name a member or an array.

ghost use Rattle.std.specs.Prelude.{◌≡◌, ◌+◌, ◌<◌, ◌∷◌, [], IfSome};
ghost use Rattle.wf_listing.specs.declared.listing.Constant.TheVariants as constant;
ghost use Rattle.wf_listing.specs.Lines.{two_words, one_member, call, any_method, slots_from, interface_call, using_constant, arrays_said};
ghost use Rattle.wf_listing.specs.Saying.{Says};

use crate::lines::operands::u1_said;
use crate::lines::words::{member_said, name_said};
use crate::listing::{Constant, Step, Use};
use crate::stop::Stop;
use std::alloc::Global;
use wf_base::Text;
use wf_descriptor::is_method_descriptor;
use wf_names::MemberName;

fn using_constant(op: u8, constant: Constant, rest: Text) -> Step
    ensures { result ≡ using_constant op constant rest }
{
    Step::Use(Use { op, constant, rest })
}

fn two_words(alloc: Global, words: &[Text]) -> Result<MemberName, Stop>
    ensures { Says result (two_words words.now) }
{
    match words {
        [word, desc] => member_said(alloc, word, desc),
        _ => Err(Stop::NotOfForm),
    }
}

pub fn field_operand(alloc: Global, op: u8, words: &[Text]) -> Result<Step, Stop>
    ensures { Says result (one_member (call op constant.Field) words.now) }
{
    let field = two_words(alloc, words)?;
    Ok(using_constant(op, Constant::Field(field), Text::new(alloc)))
}

pub fn method_operand(alloc: Global, op: u8, words: &[Text]) -> Result<Step, Stop>
    ensures { Says result (one_member (call op constant.Method) words.now) }
{
    let method = two_words(alloc, words)?;
    Ok(using_constant(op, Constant::Method(method), Text::new(alloc)))
}

/// A method, with `interface` before it where an interface declares it.
pub fn any_method(alloc: Global, op: u8, words: &[Text]) -> Result<Step, Stop>
    ensures { Says result (any_method op words.now) }
{
    let [first, rest @ ..] = words else {
        return Err(Stop::NotOfForm);
    };
    if first.as_slice() != b"interface".as_slice() {
        return method_operand(alloc, op, words);
    }
    let method = two_words(alloc, rest)?;
    Ok(using_constant(op, Constant::InterfaceMethod(method), Text::new(alloc)))
}

/// The slots that the parameters of a descriptor take, where they are fewer than 255: halving takes eight tests.
#[tactic(auto, using(crate::proofs::Slots::halved))]
fn slots_of(desc: &[u8]) -> Option<u8>
    ensures slots { result ≡ slots_from 255 0 desc.now }
    ensures few { IfSome result (λ n. n < 255) }
{
    if !is_method_descriptor(desc, 254) {
        return None;
    }
    let mut low = 0;
    let mut high = 254;
    while low < high {
        let middle = low + (high - low) / 2;
        if is_method_descriptor(desc, middle) {
            high = middle;
        } else {
            low = middle + 1;
        }
    }
    Some(low)
}

pub fn interface_call(alloc: Global, words: &[Text]) -> Result<Step, Stop>
    ensures { Says result (one_member interface_call words.now) }
{
    let method = two_words(alloc, words)?;
    let Some(slots) = slots_of(method.desc.as_slice()) else {
        return Err(Stop::NotOfForm);
    };
    let rest = Text::from_slice(alloc, &[slots + 1, 0])?;
    Ok(using_constant(0xB9, Constant::InterfaceMethod(method), rest))
}

pub fn arrays_said(alloc: Global, words: &[Text]) -> Result<Step, Stop>
    ensures { Says result (arrays_said words.now) }
{
    let [name, dimensions] = words else {
        return Err(Stop::NotOfForm);
    };
    let name = name_said(alloc, name.as_slice())?;
    let Some(dimensions) = u1_said(dimensions.as_slice()) else {
        return Err(Stop::NotOfForm);
    };
    let rest = Text::from_slice(alloc, &dimensions)?;
    Ok(using_constant(0xC5, Constant::Class(name), rest))
}
