//! A report, read line after line.

ghost use Rattle.std.specs.Prelude.{◌≡◌, ◌<◌, ◌^◌, ℕ, [], ◌∷◌, ◌++◌, List, Ok, codes, length, OnOk, IfErr, IfOk};
ghost use Rattle.wf_names.specs.declared.world.World.{World};
ghost use Rattle.wf_report.specs.declared.fault.WorldFault.TheVariants.{NoMemory};
ghost use Rattle.wf_report.specs.Giving.{Begins, Gives, GivesAt};
ghost use Rattle.wf_report.specs.Reading.{spot, say, exactly, count_said, type_said, method_said, field_said, place_said, entries, section_at, lists_at, end_at, world_of};
ghost use Rattle.wf_report.specs.Report.{report_text};
ghost use Rattle.wf_report.specs.Worlds.{HasText, IsOfBytes};

use crate::fault::WorldFault;
use crate::laws::reports_are_read_back;
use crate::lines::{Lines, cut};
use crate::said::{count_said, field_said, method_said, place_said, type_said};
use std::alloc::Global;
use wf_base::{Items, Text};
use wf_names::{MemberName, Unresolved, World};

/// The line that says how many lines follow.
fn count_at(alloc: Global, lines: &mut Lines<'_>, title: &[u8]) -> Result<u64, WorldFault>
    ensures { GivesAt lines.new result (say (count_said title.now) lines.old) }
{
    let line = lines.line();
    let Some(text) = lines.next() else {
        return Err(WorldFault::BadLine { line });
    };
    match count_said(alloc, title, text)? {
        Some(count) => Ok(count),
        None => Err(WorldFault::BadLine { line }),
    }
}

fn type_at(alloc: Global, lines: &mut Lines<'_>, before: &[Text]) -> Result<Text, WorldFault>
    ensures { GivesAt lines.new result (say (type_said before.now) lines.old) }
{
    let line = lines.line();
    let Some(text) = lines.next() else {
        return Err(WorldFault::BadLine { line });
    };
    match type_said(alloc, before, text)? {
        Some(name) => Ok(name),
        None => Err(WorldFault::BadLine { line }),
    }
}

fn method_at(
    alloc: Global,
    lines: &mut Lines<'_>,
    before: &[MemberName],
) -> Result<MemberName, WorldFault>
    ensures { GivesAt lines.new result (say (method_said before.now) lines.old) }
{
    let line = lines.line();
    let Some(text) = lines.next() else {
        return Err(WorldFault::BadLine { line });
    };
    match method_said(alloc, before, text)? {
        Some(method) => Ok(method),
        None => Err(WorldFault::BadLine { line }),
    }
}

fn field_at(
    alloc: Global,
    lines: &mut Lines<'_>,
    before: &[MemberName],
) -> Result<MemberName, WorldFault>
    ensures { GivesAt lines.new result (say (field_said before.now) lines.old) }
{
    let line = lines.line();
    let Some(text) = lines.next() else {
        return Err(WorldFault::BadLine { line });
    };
    match field_said(alloc, before, text)? {
        Some(field) => Ok(field),
        None => Err(WorldFault::BadLine { line }),
    }
}

fn place_at(
    alloc: Global,
    lines: &mut Lines<'_>,
    before: &[Unresolved],
) -> Result<Unresolved, WorldFault>
    ensures { GivesAt lines.new result (say (place_said before.now) lines.old) }
{
    let line = lines.line();
    let Some(text) = lines.next() else {
        return Err(WorldFault::BadLine { line });
    };
    match place_said(alloc, before, text)? {
        Some(place) => Ok(place),
        None => Err(WorldFault::BadLine { line }),
    }
}

fn types_at(alloc: Global, lines: &mut Lines<'_>) -> Result<Items<Text>, WorldFault>
    ensures { GivesAt lines.new result (section_at (codes "types") type_said lines.old) }
{
    let count = count_at(alloc, lines, b"types")?;
    type_entries(alloc, lines, count)
}

fn type_entries(alloc: Global, lines: &mut Lines<'_>, count: u64) -> Result<Items<Text>, WorldFault>
    ensures { GivesAt lines.new result (entries type_said count [] lines.old) }
{
    let mut found = Vec::new(alloc);
    for _ in 0..count {
        found.push(type_at(alloc, lines, found.as_slice())?)?;
    }
    Ok(Items::from_vec(found))
}

fn methods_at(alloc: Global, lines: &mut Lines<'_>) -> Result<Items<MemberName>, WorldFault>
    ensures { GivesAt lines.new result (section_at (codes "methods") method_said lines.old) }
{
    let count = count_at(alloc, lines, b"methods")?;
    method_entries(alloc, lines, count)
}

fn method_entries(
    alloc: Global,
    lines: &mut Lines<'_>,
    count: u64,
) -> Result<Items<MemberName>, WorldFault>
    ensures { GivesAt lines.new result (entries method_said count [] lines.old) }
{
    let mut found = Vec::new(alloc);
    for _ in 0..count {
        found.push(method_at(alloc, lines, found.as_slice())?)?;
    }
    Ok(Items::from_vec(found))
}

fn fields_at(alloc: Global, lines: &mut Lines<'_>) -> Result<Items<MemberName>, WorldFault>
    ensures { GivesAt lines.new result (section_at (codes "fields") field_said lines.old) }
{
    let count = count_at(alloc, lines, b"fields")?;
    field_entries(alloc, lines, count)
}

fn field_entries(
    alloc: Global,
    lines: &mut Lines<'_>,
    count: u64,
) -> Result<Items<MemberName>, WorldFault>
    ensures { GivesAt lines.new result (entries field_said count [] lines.old) }
{
    let mut found = Vec::new(alloc);
    for _ in 0..count {
        found.push(field_at(alloc, lines, found.as_slice())?)?;
    }
    Ok(Items::from_vec(found))
}

fn places_at(alloc: Global, lines: &mut Lines<'_>) -> Result<Items<Unresolved>, WorldFault>
    ensures { GivesAt lines.new result (section_at (codes "unresolved") place_said lines.old) }
{
    let count = count_at(alloc, lines, b"unresolved")?;
    place_entries(alloc, lines, count)
}

fn place_entries(
    alloc: Global,
    lines: &mut Lines<'_>,
    count: u64,
) -> Result<Items<Unresolved>, WorldFault>
    ensures { GivesAt lines.new result (entries place_said count [] lines.old) }
{
    let mut found = Vec::new(alloc);
    for _ in 0..count {
        found.push(place_at(alloc, lines, found.as_slice())?)?;
    }
    Ok(Items::from_vec(found))
}

fn lists_at(alloc: Global, lines: &mut Lines<'_>) -> Result<World, WorldFault>
    ensures { GivesAt lines.new result (lists_at lines.old) }
{
    let types = types_at(alloc, lines)?;
    let methods = methods_at(alloc, lines)?;
    let fields = fields_at(alloc, lines)?;
    let unresolved = places_at(alloc, lines)?;
    Ok(World {
        types,
        methods,
        fields,
        unresolved,
    })
}

/// Behind the first line of a report.
fn begun(text: &[u8]) -> Result<Lines<'_>, WorldFault>
    requires { length text.now < 2 ^ 32 }
    ensures { Begins result (say (exactly (codes "world 1")) (spot 1 text.now)) }
{
    match cut(text) {
        Some((first, left)) if first == b"world 1".as_slice() => Ok(Lines::new(2, left)),
        _ => Err(WorldFault::BadLine { line: 1 }),
    }
}

/// The last line, behind which nothing stands.
fn ended(lines: &mut Lines<'_>, world: World) -> Result<World, WorldFault>
    ensures { Gives result (end_at world lines.old) }
{
    let line = lines.line();
    match lines.next() {
        Some(last) if last == b"end".as_slice() => {}
        _ => return Err(WorldFault::BadLine { line }),
    }
    if !lines.is_done() {
        return Err(WorldFault::BadLine { line: lines.line() });
    }
    Ok(world)
}

fn world_in(alloc: Global, text: &[u8]) -> Result<World, WorldFault>
    requires { length text.now < 2 ^ 32 }
    ensures { Gives result (world_of text.now) }
{
    let mut lines = begun(text)?;
    let world = lists_at(alloc, &mut lines)?;
    ended(&mut lines, world)
}

/// Reads a report in the full form. Own rule.
pub fn read_world(alloc: Global, text: &[u8]) -> Result<World, WorldFault>
    requires { length text.now < 2 ^ 32 }
    ensures exact { Gives result (world_of text.now) }
    // What is read is the full text of the world.
    ensures found { IfOk result (λ world. HasText world × (text.now ≡ report_text world)) }
    // The full text of a world is read as that world.
    ensures only { (world : World) → HasText world → IsOfBytes world → text.now ≡ report_text world → Gives result (Ok world) }
{
    reports_are_read_back();
    world_in(alloc, text)
}
