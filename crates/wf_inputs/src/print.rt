//! Summaries and roots, printed.

ghost use Rattle.std.specs.Prelude.{◌≡◌, ◌++◌, ◌∷◌, [], ℕ, List, codes, OnOk, IfOk, Ok};
ghost use Rattle.std.specs.List.{flat_map};
ghost use Rattle.std.specs.Fmt.{decimal, signed_decimal};
ghost use Rattle.wf_names.specs.NameForm.{escaped};
ghost use Rattle.wf_lines.specs.Lines.{line, spaced, joined};
ghost use Rattle.wf_lines.specs.Members.{member_words};
ghost use Rattle.wf_inputs.specs.declared.said.Said.TheVariants.{Opens};
ghost use Rattle.wf_inputs.specs.Printing.{value_words, setting_words, effect_words, block_word, said_text, root_text, effect_text, block_text, literal_text, summary_text, root_line, roots_text};
ghost use Rattle.wf_inputs.specs.Reading.{summary_of, roots_of};
ghost use Rattle.wf_inputs.specs.Unnumbered.{unnumbered, unnumbered_roots, IsReadAsSummary, IsReadAsRoots};
ghost use Rattle.wf_inputs.specs.declared.roots.Roots.{Roots};
ghost use Rattle.wf_inputs.specs.declared.summary.Summary.{Summary};

use crate::laws::inputs_are_read_back;
use crate::roots::{RootLine, Roots};
use crate::summary::{Block, Effect, EffectLine, Literal, Summary, Value};
use std::alloc::{AllocError, Global};
use wf_base::Text;
use wf_names::{MemberName, Root, member_text, name_text};

/// A space and a word.
fn push_word(out: &mut Text, word: &[u8]) -> Result<(), AllocError>
    ensures { OnOk result (out.new ≡ out.old ++ spaced (word.now ∷ [])) }
{
    out.push_slice(b" ")?;
    out.push_slice(word)
}

fn push_name(alloc: Global, out: &mut Text, name: &Text) -> Result<(), AllocError>
    ensures { OnOk result (out.new ≡ out.old ++ spaced (escaped name.now ∷ [])) }
{
    push_word(out, name_text(alloc, name.as_slice())?.as_slice())
}

#[tactic(auto, using(crate::proofs::Printed::spaced_member))]
fn push_member(alloc: Global, out: &mut Text, member: &MemberName) -> Result<(), AllocError>
    ensures { OnOk result (out.new ≡ out.old ++ spaced (member_words member.now)) }
{
    push_word(out, member_text(alloc, member)?.as_slice())
}

fn push_place(alloc: Global, out: &mut Text, place: u8) -> Result<(), AllocError>
    ensures { OnOk result (out.new ≡ out.old ++ spaced (decimal place ∷ [])) }
{
    let digits = place.to_string(alloc)?;
    push_word(out, digits.as_bytes())
}

fn push_int(alloc: Global, out: &mut Text, n: i32) -> Result<(), AllocError>
    ensures { OnOk result (out.new ≡ out.old ++ spaced (signed_decimal n ∷ [])) }
{
    let digits = n.to_string(alloc)?;
    push_word(out, digits.as_bytes())
}

/// A value, each of its words behind a space.
fn push_value(alloc: Global, out: &mut Text, value: &Value) -> Result<(), AllocError>
    ensures { OnOk result (out.new ≡ out.old ++ spaced (value_words value.now)) }
{
    match value {
        Value::Null => push_word(out, b"null"),
        Value::Any => push_word(out, b"any"),
        Value::Int(n) => {
            push_word(out, b"int")?;
            push_int(alloc, out, *n)
        }
        Value::New(name) => {
            push_word(out, b"new")?;
            push_name(alloc, out, name)
        }
        Value::OneOf(name) => {
            push_word(out, b"some")?;
            push_name(alloc, out, name)
        }
        Value::Arg(place) => {
            push_word(out, b"arg")?;
            push_place(alloc, out, *place)
        }
    }
}

#[tactic(auto, using(crate::proofs::Printed::spaced_setting))]
/// A field and a value.
fn push_setting(
    alloc: Global,
    out: &mut Text,
    field: &MemberName,
    value: &Value,
) -> Result<(), AllocError>
    ensures { OnOk result (out.new ≡ out.old ++ spaced (setting_words field.now value.now)) }
{
    push_member(alloc, out, field)?;
    push_value(alloc, out, value)
}

fn push_copy(alloc: Global, out: &mut Text, from: u8, to: u8) -> Result<(), AllocError>
    ensures { OnOk result (out.new ≡ out.old ++ joined (codes "copies" ∷ decimal from ∷ decimal to ∷ [])) }
{
    out.push_slice(b"copies")?;
    push_place(alloc, out, from)?;
    push_place(alloc, out, to)
}

fn push_effect(alloc: Global, out: &mut Text, effect: &Effect) -> Result<(), AllocError>
    ensures { OnOk result (out.new ≡ out.old ++ joined (effect_words effect.now)) }
{
    match effect {
        Effect::ReturnsVoid => out.push_slice(b"returns void"),
        Effect::Returns(value) => {
            out.push_slice(b"returns")?;
            push_value(alloc, out, value)
        }
        Effect::Makes(name) => {
            out.push_slice(b"makes")?;
            push_name(alloc, out, name)
        }
        Effect::Writes(field, value) => {
            out.push_slice(b"writes")?;
            push_setting(alloc, out, field, value)
        }
        Effect::Copies(from, to) => push_copy(alloc, out, *from, *to),
    }
}

fn end_line(out: &mut Text) -> Result<(), AllocError>
    ensures { OnOk result (out.new ≡ out.old ++ 10 ∷ []) }
{
    out.push_slice(b"\n")
}

fn push_effect_line(alloc: Global, out: &mut Text, effect: &EffectLine) -> Result<(), AllocError>
    ensures { OnOk result (out.new ≡ out.old ++ effect_text effect.now) }
{
    push_effect(alloc, out, &effect.effect)?;
    end_line(out)
}

fn push_effects(alloc: Global, out: &mut Text, effects: &[EffectLine]) -> Result<(), AllocError>
    ensures { OnOk result (out.new ≡ out.old ++ flat_map effect_text effects.now) }
{
    for effect in effects {
        push_effect_line(alloc, out, effect)?;
    }
    Ok(())
}

fn block_word(replace: bool) -> &'static [u8]
    ensures { result.now ≡ block_word replace }
{
    if replace { b"replace" } else { b"method" }
}

/// The line that begins a block.
fn push_head(
    alloc: Global,
    out: &mut Text,
    replace: bool,
    method: &MemberName,
) -> Result<(), AllocError>
    ensures { OnOk result (out.new ≡ out.old ++ line (said_text (Opens replace method.now))) }
{
    out.push_slice(block_word(replace))?;
    push_member(alloc, out, method)?;
    end_line(out)
}

fn push_block(alloc: Global, out: &mut Text, block: &Block) -> Result<(), AllocError>
    ensures { OnOk result (out.new ≡ out.old ++ block_text block.now) }
{
    push_head(alloc, out, block.replace, &block.method)?;
    push_effects(alloc, out, block.effects.as_slice())
}

fn push_blocks(alloc: Global, out: &mut Text, blocks: &[Block]) -> Result<(), AllocError>
    ensures { OnOk result (out.new ≡ out.old ++ flat_map block_text blocks.now) }
{
    for block in blocks {
        push_block(alloc, out, block)?;
    }
    Ok(())
}

fn push_literal(alloc: Global, out: &mut Text, literal: &Literal) -> Result<(), AllocError>
    ensures { OnOk result (out.new ≡ out.old ++ literal_text literal.now) }
{
    out.push_slice(b"literal")?;
    push_setting(alloc, out, &literal.field, &literal.value)?;
    end_line(out)
}

fn push_literals(alloc: Global, out: &mut Text, literals: &[Literal]) -> Result<(), AllocError>
    ensures { OnOk result (out.new ≡ out.old ++ flat_map literal_text literals.now) }
{
    for literal in literals {
        push_literal(alloc, out, literal)?;
    }
    Ok(())
}

fn push_root(alloc: Global, out: &mut Text, root: &Root) -> Result<(), AllocError>
    ensures { OnOk result (out.new ≡ out.old ++ root_text root.now) }
{
    match root {
        Root::StaticCall(method) => {
            out.push_slice(b"static")?;
            push_member(alloc, out, method)
        }
        Root::Inst(name) => {
            out.push_slice(b"inst")?;
            push_name(alloc, out, name)
        }
        Root::Make(name) => {
            out.push_slice(b"make")?;
            push_name(alloc, out, name)
        }
    }
}

fn push_root_line(alloc: Global, out: &mut Text, root: &RootLine) -> Result<(), AllocError>
    ensures { OnOk result (out.new ≡ out.old ++ root_line root.now) }
{
    push_root(alloc, out, &root.root)?;
    end_line(out)
}

fn push_roots(alloc: Global, out: &mut Text, roots: &[RootLine]) -> Result<(), AllocError>
    ensures { OnOk result (out.new ≡ out.old ++ flat_map root_line roots.now) }
{
    for root in roots {
        push_root_line(alloc, out, root)?;
    }
    Ok(())
}

/// The text of a summary: its blocks, and then its literals. Own rule.
pub fn print_summary(alloc: Global, summary: &Summary) -> Result<Text, AllocError>
    ensures text { IfOk result (λ text. text ≡ summary_text summary.now) }
    // A summary that was read is read back from it in all but the line numbers.
    ensures read_back { (bytes : List ℕ) (read : Summary) → summary_of bytes ≡ Ok read → unnumbered summary.now ≡ unnumbered read → IfOk result (λ text. IsReadAsSummary text summary.now) }
{
    inputs_are_read_back();
    let mut out = Text::new(alloc);
    push_blocks(alloc, &mut out, summary.blocks.as_slice())?;
    push_literals(alloc, &mut out, summary.literals.as_slice())?;
    Ok(out)
}

/// The text of a list of roots. Own rule.
pub fn print_roots(alloc: Global, roots: &Roots) -> Result<Text, AllocError>
    ensures text { IfOk result (λ text. text ≡ roots_text roots.now) }
    // Roots that were read are read back from it in all but the line numbers.
    ensures read_back { (bytes : List ℕ) (read : Roots) → roots_of bytes ≡ Ok read → unnumbered_roots roots.now ≡ unnumbered_roots read → IfOk result (λ text. IsReadAsRoots text roots.now) }
{
    inputs_are_read_back();
    let mut out = Text::new(alloc);
    push_roots(alloc, &mut out, roots.lines.as_slice())?;
    Ok(out)
}
