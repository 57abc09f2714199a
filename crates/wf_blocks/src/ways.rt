//! How many ways lead into each place.

ghost use Rattle.std.specs.Prelude.{◌≡◌, ℕ, ◌+◌, ◌<◌, ◌==◌, length, map, min, is_some, count_by, slice_index, replicate, IfOk, if◌then◌else◌};
ghost use Rattle.wf_blocks.specs.Answers.{most, ways_from, ways_to, entry_ways, AreWaysIn};

use crate::body::{Body, Step};
use crate::marks::targets_in;
use std::alloc::{AllocError, Global};
use wf_base::Items;

fn add_way(ways: &mut [u32], to: usize)
    ensures { (p : ℕ) → p < length ways.old → slice_index ways.new p ≡ min most (slice_index ways.old p + (if to == p then 1 else 0)) }
{
    if to < ways.len() {
        ways[to] = ways[to].saturating_add(1);
    }
}

fn add_ways(ways: &mut [u32], targets: &[usize])
    ensures { (p : ℕ) → p < length ways.old → slice_index ways.new p ≡ min most (slice_index ways.old p + count_by (λ t. t == p) targets.now) }
{
    for to in targets {
        add_way(ways, *to);
    }
}

fn add_step(ways: &mut [u32], step: &Step, count: Option<u32>)
    ensures { (p : ℕ) → p < length ways.old → slice_index ways.new p ≡ min most (slice_index ways.old p + ways_from p step.now (is_some count)) }
{
    if count.is_some() {
        add_ways(ways, targets_in(step));
    }
}

fn count_ways(ways: &mut [u32], steps: &[Step], counts: &[Option<u32>])
    requires count { length counts.now ≡ length steps.now }
    requires none { ways.old ≡ replicate (length steps.now) 0 }
    ensures { (p : ℕ) → p < length steps.now → slice_index ways.new p ≡ min most (entry_ways p + ways_to p steps.now (map is_some counts.now)) }
{
    add_way(ways, 0);
    for place in 0..steps.len() {
        add_step(ways, &steps[place], counts[place]);
    }
}

/// How many ways lead into each place from places in front of which these are the counts of slots.
pub fn ways_of(alloc: Global, body: &Body, counts: &[Option<u32>]) -> Result<Items<u32>, AllocError>
    requires { length counts.now ≡ length body.now.steps }
    ensures { IfOk result (AreWaysIn body.now counts.now) }
{
    let mut ways = vec![in alloc; 0u32; body.steps.len()]?;
    count_ways(&mut ways, body.steps.as_slice(), counts);
    Ok(Items::from_vec(ways))
}
