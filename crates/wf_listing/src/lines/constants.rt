//! The constants of `ldc` and its wide forms.

ghost use Rattle.std.specs.Prelude.{◌≡◌};
ghost use Rattle.wf_listing.specs.Lines.{is_quoted_byte, quoted, narrow_said, long_said, wide_load, load_said, wide_load_said};
ghost use Rattle.std.specs.List.{list_all};
ghost use Rattle.wf_listing.specs.Saying.{Says};

use crate::lines::operands;
use crate::lines::words::name_said;
use crate::listing::{Constant, Step, Use};
use crate::stop::Stop;
use std::alloc::Global;
use wf_base::Text;

fn is_quoted_byte(b: u8) -> bool
    ensures { result ≡ is_quoted_byte b }
{
    0 < b && b < 128 && b != b'"' && b != b'\\'
}

fn all_quoted(text: &[u8]) -> bool
    ensures { result ≡ list_all is_quoted_byte text.now }
{
    text.iter().all(|b| is_quoted_byte(*b))
}

/// The text of what stands behind an opening quote.
pub fn quoted(alloc: Global, bytes: &[u8]) -> Result<Text, Stop>
    ensures { Says result (quoted bytes.now) }
{
    if !bytes.ends_with(b"\"") {
        return Err(Stop::NotOfForm);
    }
    let text = &bytes[..bytes.len() - 1];
    if !all_quoted(text) {
        return Err(Stop::NotOfForm);
    }
    Ok(Text::from_slice(alloc, text)?)
}

/// A constant of one place.
fn narrow_said(alloc: Global, words: &[Text]) -> Result<Constant, Stop>
    ensures { Says result (narrow_said words.now) }
{
    let [sort, word] = words else {
        return Err(Stop::NotOfForm);
    };
    if sort.as_slice() == b"int".as_slice() {
        return match operands::int_said(word.as_slice()) {
            Some(n) => Ok(Constant::Int(n)),
            None => Err(Stop::NotOfForm),
        };
    }
    if sort.as_slice() == b"class".as_slice() {
        return Ok(Constant::Class(name_said(alloc, word.as_slice())?));
    }
    Err(Stop::NotOfForm)
}

/// `ldc2_w` of a Long.
pub fn long_said(alloc: Global, words: &[Text]) -> Result<Step, Stop>
    ensures { Says result (long_said words.now) }
{
    let [sort, word] = words else {
        return Err(Stop::NotOfForm);
    };
    if sort.as_slice() != b"long".as_slice() {
        return Err(Stop::NotOfForm);
    }
    match operands::long_said(word.as_slice()) {
        Some(n) => Ok(Step::Use(Use {
            op: 0x14,
            constant: Constant::Long(n),
            rest: Text::new(alloc),
        })),
        None => Err(Stop::NotOfForm),
    }
}

/// `ldc_w` of a constant.
pub fn wide_load(alloc: Global, constant: Constant) -> Step
    ensures { result ≡ wide_load constant }
{
    Step::Use(Use {
        op: 0x13,
        constant,
        rest: Text::new(alloc),
    })
}

/// `ldc` of each constant, in the shortest form.
pub fn load_said(alloc: Global, words: &[Text]) -> Result<Step, Stop>
    ensures { Says result (load_said words.now) }
{
    match narrow_said(alloc, words) {
        Ok(constant) => Ok(Step::Load(constant)),
        Err(Stop::NotOfForm) => long_said(alloc, words),
        Err(Stop::NoMemory) => Err(Stop::NoMemory),
    }
}

pub fn wide_load_said(alloc: Global, words: &[Text]) -> Result<Step, Stop>
    ensures { Says result (wide_load_said words.now) }
{
    Ok(wide_load(alloc, narrow_said(alloc, words)?))
}
