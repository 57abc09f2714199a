//! The code of a method as places: what stands at each, and where it leads.

ghost use Rattle.std.specs.Prelude.{◌≡◌, ◌≤◌};
ghost use Rattle.std.specs.List.{list_any};
ghost use Rattle.std.specs.Option.{option_copied};
ghost use Rattle.wf_blocks.specs.Bodies.{locals_of, covers, caught_by, catcher_fails, same_return, returns_well, fails_with, step_fails, operation_at, targets_at, graph_of};

use wf_base::{Items, Kind};
use wf_operation::{Next, Operation, SlotKind, locals_used, put, taken};

/// An instruction at its place.
#[derive(Debug, Drop)]
pub struct Step {
    /// Its place in the code, in bytes.
    pub pc: u16,
    /// None where an operand is wrong.
    pub operation: Option<Operation>,
    /// The places to which it leads, by their numbers and in the order of its edges; None where one of them is
    /// no instruction of the code.
    pub targets: Option<Items<usize>>,
}

/// An entry of the exception table, by the numbers of places.
#[derive(Clone, Copy, Debug, PartialEq, Eq)]
pub struct Catcher {
    /// The first place that it covers.
    pub first: usize,
    /// The place behind the last one.
    pub end: usize,
    /// The handler; None where no instruction stands there.
    pub target: Option<usize>,
}

/// The code of a method. Its places are numbered from 0 in the order of the code.
#[derive(Debug, Drop)]
pub struct Body {
    /// What stands in each local at the entry.
    pub entry: Items<SlotKind>,
    /// Which parameter stands in each of the locals that they take. The receiver is one.
    pub params: Items<u16>,
    pub max_stack: usize,
    /// The kind of the result, or None where there is none.
    pub returns: Option<Kind>,
    pub steps: Items<Step>,
    /// In the order of the exception table.
    pub catchers: Items<Catcher>,
}

/// Whether an entry of the exception table covers a place.
pub fn covers(place: usize, catcher: &Catcher) -> bool
    ensures { result ≡ covers place catcher.now }
{
    catcher.first <= place && place < catcher.end
}

fn catcher_fails(max_stack: usize, place: usize, catcher: &Catcher) -> bool
    ensures { result ≡ catcher_fails max_stack place catcher.now }
{
    covers(place, catcher) && (catcher.target.is_none() || max_stack == 0)
}

fn same_return(a: Option<Kind>, b: Option<Kind>) -> bool
    ensures { result ≡ same_return a b }
{
    match (a, b) {
        (None, None) => true,
        (Some(a), Some(b)) => a == b,
        _ => false,
    }
}

fn returns_well(gives: Option<Kind>, next: &Next) -> bool
    ensures { result ≡ returns_well gives next.now }
{
    match next {
        Next::Returns { kind } => same_return(gives, *kind),
        Next::Falls
        | Next::Jumps { .. }
        | Next::Branches { .. }
        | Next::Switches { .. }
        | Next::Throws => true,
    }
}

/// Whether an instruction fails where so many slots stand in front of it, whatever they hold.
fn fails_with(body: &Body, operation: &Operation, slots: usize) -> bool
    requires { locals_of body.now ≤ 65535 × body.now.max_stack ≤ 65535 }
    ensures { result ≡ fails_with body.now operation.now slots }
{
    let locals = body.entry.len();
    let taken = taken(&operation.effect);
    if slots < locals || slots - locals < taken {
        return true;
    }
    let kept = slots - taken;
    let limit = locals + body.max_stack;
    if kept > limit || put(&operation.effect) > limit - kept {
        return true;
    }
    locals < locals_used(&operation.effect) || !returns_well(body.returns, &operation.next)
}

fn step_fails(body: &Body, step: Option<&Step>, slots: usize) -> bool
    requires { locals_of body.now ≤ 65535 × body.now.max_stack ≤ 65535 }
    ensures { result ≡ step_fails body.now (option_copied step.entry) slots }
{
    let Some(step) = step else {
        return true;
    };
    let Some(operation) = &step.operation else {
        return true;
    };
    fails_with(body, operation, slots) || step.targets.is_none()
}

fn any_catcher_fails(catchers: &[Catcher], max_stack: usize, place: usize) -> bool
    ensures { result ≡ list_any (catcher_fails max_stack place) catchers.now }
{
    for catcher in catchers {
        if catcher_fails(max_stack, place, catcher) {
            return true;
        }
    }
    false
}

/// Whether a path fails at a place where so many slots stand in front of it, whatever they hold.
#[tactic(auto, unfolding(crate::specs::Bodies::graph_of))]
pub fn fails(body: &Body, place: usize, slots: usize) -> bool
    requires { locals_of body.now ≤ 65535 × body.now.max_stack ≤ 65535 }
    ensures { result ≡ (graph_of body.now).fails place slots }
{
    step_fails(body, body.steps.as_slice().get(place), slots)
        || any_catcher_fails(body.catchers.as_slice(), body.max_stack, place)
}

/// What the instruction at a place does, if an operand isn't wrong.
pub fn operation_at(body: &Body, place: usize) -> Option<&Operation>
    ensures { option_copied result ≡ operation_at body.now place }
{
    body.steps.as_slice().get(place)?.operation.as_ref()
}

/// The places to which the instruction at a place leads.
pub fn targets_at(body: &Body, place: usize) -> &[usize]
    ensures { result.now ≡ targets_at body.now place }
{
    match body.steps.as_slice().get(place) {
        Some(
            Step {
                targets: Some(targets),
                ..
            },
        ) => targets.as_slice(),
        _ => &[],
    }
}

/// The handler that a place leads to by an entry of the exception table.
pub fn caught_by(place: usize, catcher: &Catcher) -> Option<usize>
    ensures { result ≡ caught_by place catcher.now }
{
    if covers(place, catcher) {
        catcher.target
    } else {
        None
    }
}
