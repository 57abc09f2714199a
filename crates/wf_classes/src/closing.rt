ghost use Rattle.std.specs.Prelude.{◌≡◌, ℕ, ◌<◌, ◌≤◌, ◌^◌, [], List, length, IfOk, OnOk, vec_len, slice_index};
ghost use Rattle.std.specs.List.Sorted.{IsNonDecreasingBy};
ghost use Rattle.wf_classes.specs.declared.waits.Wait.{Wait};
ghost use Rattle.wf_classes.specs.Closing.{AreInside, AreCounted, ListsZeros, IsReleasing, IsReleased, Closes, waits_for, count_of};
ghost use Rattle.wf_classes.specs.World.{IsAscending, names_of};

use crate::waits::{Wait, waits_of};
use std::alloc::{AllocError, Global};
use wf_data::ClassInfo;

/// What is left of a worklist that has come to its end.
#[derive(Drop)]
pub struct Released {
    /// The classes that are loadable, each behind all that it waits for.
    pub order: Vec<u32>,
    /// How many classes that aren't loadable each class waits for.
    pub waiting: Vec<usize>,
}

/// The classes that wait for nothing.
#[tactic(auto, using(crate::proofs::Worklist::zeros_none))]
fn ready(alloc: Global, waiting: &[usize]) -> Result<Vec<u32>, AllocError>
    requires { length waiting.now ≤ 65536 }
    ensures { IfOk result (λ order. ListsZeros waiting.now (length waiting.now) order.items) }
{
    let mut order = Vec::new(alloc);
    for (i, left) in waiting.iter().enumerate() {
        if *left == 0 {
            order.push(i as u32)?;
        }
    }
    Ok(order)
}

/// The waits for one class, of waits that are sorted by that class.
fn waits_for(waits: &[Wait], above: u32) -> &[Wait]
    requires { IsNonDecreasingBy (λ (w : Wait). w.above) waits.now }
    ensures { result.now ≡ waits_for waits.now above }
{
    let first = waits.partition_point(|wait| wait.above < above);
    let waits = &waits[first..];
    let end = waits.partition_point(|wait| wait.above <= above);
    &waits[..end]
}

/// Tells the classes of these waits that one wait of each is over, and appends those for which it was the last.
fn release(waiting: &mut [usize], order: &mut Vec<u32>, told: &[Wait]) -> Result<(), AllocError>
    requires inside { AreInside (length waiting.old) told.now }
    requires counted { AreCounted waiting.old told.now }
    ensures { (waits : List Wait) (start done : List ℕ) → IsReleasing waits start done told.now waiting.old order.old.items →
        OnOk result (IsReleasing waits start done [] waiting.new order.new.items) }
{
    for wait in told {
        let left = waiting[wait.below as usize] - 1;
        waiting[wait.below as usize] = left;
        if left == 0 {
            order.push(wait.below)?;
        }
    }
    Ok(())
}

/// Goes from the classes that wait for nothing downwards to all that wait for loadable classes alone.
pub fn released_in_order(
    alloc: Global,
    mut waiting: Vec<usize>,
    waits: &[Wait],
) -> Result<Released, AllocError>
    requires sorted { IsNonDecreasingBy (λ (w : Wait). w.above) waits.now }
    requires inside { AreInside (vec_len waiting) waits.now }
    requires counted { AreCounted waiting.items waits.now }
    requires few { vec_len waiting ≤ 65536 }
    ensures { IfOk result (λ released. IsReleased waits.now waiting.items released.waiting.items released.order.items) }
{
    let mut order = ready(alloc, waiting.as_slice())?;
    let mut next = 0;
    while next < order.len() {
        let told = waits_for(waits, order[next]);
        release(waiting.as_mut_slice(), &mut order, told)?;
        next += 1;
    }
    Ok(Released { order, waiting })
}

/// Finds which of the classes are loadable.
pub fn close(alloc: Global, files: &[ClassInfo]) -> Result<Released, AllocError>
    requires ascending { IsAscending (names_of files.now) }
    requires few { length files.now ≤ 65536 }
    ensures { IfOk result (λ released. Closes files.now released.waiting.items released.order.items) }
{
    let all = waits_of(alloc, files)?;
    let released = released_in_order(alloc, all.waiting, all.waits.as_slice())?;
    Ok(released)
}
