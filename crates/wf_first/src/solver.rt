ghost use Rattle.std.specs.Prelude.{◌≡◌, ◌<◌, Contains, length};
ghost use Rattle.wf_sys.specs.System.{Least, value_in};
ghost use Rattle.wf_sys.specs.Assignments.{value_at, IsSeedOf, TargetsFit};
ghost use Rattle.wf_first.specs.Passes.{guard_holds, is_met, raised, passed, is_quiet};

use wf_sys::{
    Flow, Guard, Inequality, ValueOp, join_is_least, systems_are_monotone, tests_decide,
    values_are_ordered,
};

/// The value of a node.
pub fn value_at(values: &[Flow], node: usize) -> Flow
    ensures { result ≡ value_at values.now node }
{
    match values.get(node) {
        Some(value) => *value,
        None => Flow::Empty,
    }
}

/// Whether the guard holds.
fn guard_holds(guard: Guard<usize>, values: &[Flow]) -> bool
    ensures { result ≡ guard_holds guard values.now }
{
    match guard {
        Guard::Always => true,
        Guard::NonEmpty(node) => !value_at(values, node).is_empty(),
    }
}

/// What is joined into the target.
fn value_in(value: ValueOp<usize>, values: &[Flow]) -> Flow
    ensures { result ≡ value_in value (value_at values.now) }
{
    match value {
        ValueOp::Token => Flow::Set,
        ValueOp::IntIs(constant) => Flow::Is(constant),
        ValueOp::Copy(node) => value_at(values, node),
    }
}

/// Raises the target, unless the inequality is met: answers whether it is.
fn raise(q: &Inequality<usize>, values: &mut [Flow]) -> bool
    requires { q.now.target < length values.old }
    ensures met { result ≡ is_met q.now values.old }
    ensures raised { values.new ≡ raised q.now values.old }
{
    if !guard_holds(q.guard, values) {
        return true;
    }
    let value = value_in(q.value, values);
    let old = values[q.target];
    if value.is_below(old) {
        return true;
    }
    values[q.target] = old.join(value);
    false
}

/// Goes once over the system: answers whether nothing was raised.
fn pass(system: &[Inequality<usize>], values: &mut [Flow]) -> bool
    requires { TargetsFit (length values.old) system.now }
    ensures quiet { result ≡ is_quiet system.now values.old }
    ensures passed { values.new ≡ passed system.now values.old }
{
    let mut quiet = true;
    for q in system {
        if !raise(q, values) {
            quiet = false;
        }
    }
    quiet
}

/// Raises the values to the least solution of the system above them: node `n` has the value at `n`, and
/// every other node is empty. It goes over the system until nothing rises.
pub fn solve(system: &[Inequality<usize>], values: &mut [Flow])
    requires { TargetsFit (length values.old) system.now }
    ensures { Least (Contains system.now) (IsSeedOf values.old) (value_at values.new) }
{
    // The laws that the proof stands on.
    values_are_ordered();
    tests_decide();
    join_is_least();
    systems_are_monotone();
    while !pass(system, values) {}
}

#[cfg(test)]
mod tests;
