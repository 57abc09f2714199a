//! The report of a world, written.

ghost use Rattle.std.specs.Prelude.{◌≡◌, ◌++◌, ◌∷◌, [], List, ℕ, length, codes, OnOk, IfOk};
ghost use Rattle.std.specs.List.{flat_map};
ghost use Rattle.std.specs.Fmt.{decimal};
ghost use Rattle.wf_names.specs.NameForm.{escaped, member_text};
ghost use Rattle.wf_lines.specs.Lines.{line};
ghost use Rattle.wf_report.specs.Report.{unresolved_text, count_line, section, report_text, brief_text, text_of};

use std::alloc::{AllocError, Global};
use wf_base::Text;
use wf_names::{MemberName, Unresolved, World, member_text, name_text};

fn push_line(out: &mut Text, text: &[u8]) -> Result<(), AllocError>
    ensures { OnOk result (out.new ≡ out.old ++ line text.now) }
{
    out.push_slice(text)?;
    out.push_slice(b"\n")
}

/// The line that begins a part of the report.
fn push_title(alloc: Global, out: &mut Text, title: &[u8], count: usize) -> Result<(), AllocError>
    ensures { OnOk result (out.new ≡ out.old ++ count_line title.now count) }
{
    let digits = count.to_string(alloc)?;
    out.push_slice(title)?;
    out.push_slice(b" ")?;
    push_line(out, digits.as_bytes())
}

fn push_types(alloc: Global, out: &mut Text, types: &[Text]) -> Result<(), AllocError>
    ensures { OnOk result (out.new ≡ out.old ++ flat_map (λ t. line (escaped t)) types.now) }
{
    for name in types {
        push_line(out, name_text(alloc, name.as_slice())?.as_slice())?;
    }
    Ok(())
}

fn push_members(alloc: Global, out: &mut Text, members: &[MemberName]) -> Result<(), AllocError>
    ensures { OnOk result (out.new ≡ out.old ++ flat_map (λ m. line (member_text m)) members.now) }
{
    for member in members {
        push_line(out, member_text(alloc, member)?.as_slice())?;
    }
    Ok(())
}

/// A part of the report whose lines are members.
fn push_member_section(
    alloc: Global,
    out: &mut Text,
    title: &[u8],
    members: &[MemberName],
) -> Result<(), AllocError>
    ensures { OnOk result (out.new ≡ out.old ++ section title.now member_text members.now) }
{
    push_title(alloc, out, title, members.len())?;
    push_members(alloc, out, members)
}

/// The part of the report whose lines are types.
fn push_type_section(alloc: Global, out: &mut Text, types: &[Text]) -> Result<(), AllocError>
    ensures { OnOk result (out.new ≡ out.old ++ section (codes "types") escaped types.now) }
{
    push_title(alloc, out, b"types", types.len())?;
    push_types(alloc, out, types)
}

fn push_place(alloc: Global, out: &mut Text, place: &Unresolved) -> Result<(), AllocError>
    ensures { OnOk result (out.new ≡ out.old ++ line (unresolved_text place.now)) }
{
    let digits = place.pc.to_string(alloc)?;
    out.push_slice(member_text(alloc, &place.method)?.as_slice())?;
    out.push_slice(b" ")?;
    out.push_slice(digits.as_bytes())?;
    out.push_slice(b" ")?;
    push_line(out, place.error.word())
}

fn push_places(alloc: Global, out: &mut Text, places: &[Unresolved]) -> Result<(), AllocError>
    ensures { OnOk result (out.new ≡ out.old ++ flat_map (λ u. line (unresolved_text u)) places.now) }
{
    for place in places {
        push_place(alloc, out, place)?;
    }
    Ok(())
}

/// The part of the report whose lines are places that fail to link.
fn push_place_section(
    alloc: Global,
    out: &mut Text,
    places: &[Unresolved],
) -> Result<(), AllocError>
    ensures { OnOk result (out.new ≡ out.old ++ section (codes "unresolved") unresolved_text places.now) }
{
    push_title(alloc, out, b"unresolved", places.len())?;
    push_places(alloc, out, places)
}

/// The full form: each list with the number of its lines, and these.
fn full(alloc: Global, world: &World) -> Result<Text, AllocError>
    ensures { IfOk result (λ text. text ≡ report_text world.now) }
{
    let mut out = Text::from_slice(alloc, b"world 1\n")?;
    push_type_section(alloc, &mut out, world.types.as_slice())?;
    push_member_section(alloc, &mut out, b"methods", world.methods.as_slice())?;
    push_member_section(alloc, &mut out, b"fields", world.fields.as_slice())?;
    push_place_section(alloc, &mut out, world.unresolved.as_slice())?;
    out.push_slice(b"end\n")?;
    Ok(out)
}

/// The brief form: the numbers of lines alone.
fn brief(alloc: Global, world: &World) -> Result<Text, AllocError>
    ensures { IfOk result (λ text. text ≡ brief_text world.now) }
{
    let mut out = Text::from_slice(alloc, b"world 1\n")?;
    push_title(alloc, &mut out, b"types", world.types.len())?;
    push_title(alloc, &mut out, b"methods", world.methods.len())?;
    push_title(alloc, &mut out, b"fields", world.fields.len())?;
    push_title(alloc, &mut out, b"unresolved", world.unresolved.len())?;
    out.push_slice(b"end\n")?;
    Ok(out)
}

/// The report of a world, in the full or in the brief form. Own rule.
pub fn write_world(alloc: Global, world: &World, is_brief: bool) -> Result<Text, AllocError>
    ensures { IfOk result (λ text. text ≡ text_of is_brief world.now) }
{
    if is_brief {
        return brief(alloc, world);
    }
    full(alloc, world)
}
