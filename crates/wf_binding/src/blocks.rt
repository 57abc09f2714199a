//! The blocks of a summary.

ghost use Rattle.std.specs.Prelude.{◌≡◌, ◌<◌, ◌++◌, ◌∷◌, [], List, Some, true, false, length, slice_index_or, slice_set, IfOk, OnOk};
ghost use Rattle.wf_classes.specs.Members.{member_count, method_keys};
ghost use Rattle.wf_inputs.specs.declared.summary.Block.{Block};
ghost use Rattle.wf_binding.specs.First.{IsFirst};
ghost use Rattle.wf_binding.specs.Marks.{AreMarked};
ghost use Rattle.wf_binding.specs.Named.{flags_of_method};
ghost use Rattle.wf_binding.specs.Validity.{Somewhere, IsBadInside, IsBadInBlock, IsBadBlock, is_of_block, method_word};

use crate::described::descriptor_of;
use crate::effects::{Shape, argument_kinds, first_bad_effect};
use crate::first::{BadLine, at_line, earlier_of};
use crate::named::method_of;
use std::alloc::{AllocError, Global};
use wf_base::MethodId;
use wf_classes::Classes;
use wf_data::{is_abstract, is_native};
use wf_descriptor::one_descriptor;
use wf_inputs::Block;
use wf_names::InputWhy;

/// Marks a method, and says whether it was marked before.
fn mark(marks: &mut [bool], method: MethodId) -> bool
    requires { method.0 < length marks.old }
    ensures before { result ≡ slice_index_or marks.old method.0 false }
    ensures marked { marks.new ≡ slice_set marks.old method.0 true }
{
    let before = marks[method.0 as usize];
    marks[method.0 as usize] = true;
    before
}

fn is_of_block(replace: bool, flags: u16) -> bool
    ensures { result ≡ is_of_block replace flags }
{
    if replace {
        !is_native(flags) && !is_abstract(flags)
    } else {
        is_native(flags)
    }
}

fn method_word(replace: bool, flags: u16, second: bool) -> Option<InputWhy>
    ensures { result ≡ method_word replace flags second }
{
    if !is_of_block(replace, flags) {
        return Some(InputWhy::Kind);
    }
    if second { Some(InputWhy::Twice) } else { None }
}

/// The first bad effect in a block of a method with these flags.
fn first_bad_inside(
    alloc: Global,
    classes: &Classes,
    block: &Block,
    flags: u16,
) -> Result<Option<BadLine>, AllocError>
    requires { flags_of_method classes.now block.now.method ≡ Some flags }
    ensures { IfOk result (IsFirst (IsBadInside classes.now block.now)) }
{
    one_descriptor();
    let desc = descriptor_of(alloc, classes, &block.method, flags)?;
    let args = argument_kinds(alloc, flags, desc.params.as_slice())?;
    let shape = Shape {
        args: args.as_slice(),
        ret: &desc.ret,
    };
    Ok(first_bad_effect(classes, shape, block.effects.as_slice()))
}

/// The first bad line of a block. Its method is marked.
fn first_bad_in_block(
    alloc: Global,
    classes: &Classes,
    block: &Block,
    marks: &mut [bool],
) -> Result<Option<BadLine>, AllocError>
    requires { length marks.old ≡ member_count (method_keys classes.now) }
    ensures first { (earlier : List Block) → AreMarked classes.now earlier marks.old → IfOk result (IsFirst (IsBadInBlock classes.now earlier block.now)) }
    ensures marked { (earlier : List Block) → AreMarked classes.now earlier marks.old → OnOk result (AreMarked classes.now (earlier ++ block.now ∷ []) marks.new) }
{
    match method_of(classes, &block.method) {
        Some(method) => {
            let second = mark(marks, method.id);
            let word = method_word(block.replace, method.flags, second);
            let inside = first_bad_inside(alloc, classes, block, method.flags)?;
            Ok(earlier_of(at_line(block.line, word), inside))
        }
        None => Ok(at_line(block.line, Some(InputWhy::Absent))),
    }
}

/// The first bad line of all blocks, where no method is marked yet.
fn first_bad_of(
    alloc: Global,
    classes: &Classes,
    blocks: &[Block],
    marks: &mut [bool],
) -> Result<Option<BadLine>, AllocError>
    requires { AreMarked classes.now [] marks.old }
    ensures { IfOk result (IsFirst (Somewhere (IsBadBlock classes.now blocks.now))) }
{
    let mut found = None;
    for block in blocks {
        let here = first_bad_in_block(alloc, classes, block, marks)?;
        found = earlier_of(found, here);
    }
    Ok(found)
}

/// The first bad line of all blocks. It takes a byte for each method of the classes.
pub fn first_bad_block(
    alloc: Global,
    classes: &Classes,
    blocks: &[Block],
) -> Result<Option<BadLine>, AllocError>
    ensures { IfOk result (IsFirst (Somewhere (IsBadBlock classes.now blocks.now))) }
{
    let mut marks = vec![in alloc; false; classes.methods() as usize]?;
    let found = first_bad_of(alloc, classes, blocks, marks.as_mut_slice())?;
    Ok(found)
}
