//! The nodes that the places of a body have.

ghost use Rattle.std.specs.Prelude.{◌≡◌, ◌++◌, OnOk};
ghost use Rattle.wf_rows.specs.Each.{each_from};
ghost use Rattle.wf_rows.specs.OwnNodes.{field_gives, array_gives, gives, result_nodes, links_nodes, left_nodes, along_nodes, case_nodes, refined_nodes, own_at, merged_nodes, block_nodes, caught_nodes};

use crate::nodes::OwnNodes;
use std::alloc::AllocError;
use wf_data::Case;
use wf_operation::{Left, Next, SlotKind, left_of};
use wf_rows::{Action, ArrayUse, FieldUse, HandlerEntry, Own};

fn field_gives(field: &FieldUse) -> bool
    ensures { result ≡ field_gives field.now }
{
    match field {
        FieldUse::GetStatic(_) | FieldUse::Get(_) => true,
        FieldUse::PutStatic(_, _) | FieldUse::Put(_, _) => false,
    }
}

fn array_gives(array: ArrayUse) -> bool
    ensures { result ≡ array_gives array }
{
    match array {
        ArrayUse::Length | ArrayUse::LoadInt | ArrayUse::LoadLong | ArrayUse::LoadRef => true,
        ArrayUse::StoreNumber | ArrayUse::StoreRef => false,
    }
}

/// Whether there is a node of what an instruction gives.
fn gives(action: &Action) -> bool
    ensures { result ≡ gives action.now }
{
    match action {
        Action::Field(field) => field_gives(field),
        Action::Array(array) => array_gives(*array),
        Action::Computes(_)
        | Action::Literal(_)
        | Action::Makes(_)
        | Action::Tests(_)
        | Action::CallsStatic(_)
        | Action::Calls(_) => true,
        Action::Moves | Action::Returns(_) | Action::Throws | Action::Monitors => false,
    }
}

fn push_result(nodes: &mut OwnNodes, pc: u16, action: &Action) -> Result<(), AllocError>
    ensures { OnOk result (nodes.new ≡ nodes.old ++ result_nodes pc (gives action.now)) }
{
    if gives(action) {
        nodes.push(Own::Result(pc))
    } else {
        Ok(())
    }
}

fn push_links(nodes: &mut OwnNodes, pc: u16, action: &Action) -> Result<(), AllocError>
    ensures { OnOk result (nodes.new ≡ nodes.old ++ links_nodes pc action.now) }
{
    match action {
        Action::Calls(_) => nodes.push(Own::Links(pc)),
        _ => Ok(()),
    }
}

fn push_left(
    nodes: &mut OwnNodes,
    pc: u16,
    edge: usize,
    operand: u8,
    left: Option<Left>,
) -> Result<(), AllocError>
    ensures { OnOk result (nodes.new ≡ nodes.old ++ left_nodes pc edge operand left) }
{
    match left {
        Some(_) => nodes.push(Own::Refined { pc, edge, operand }),
        None => Ok(()),
    }
}

fn push_along(nodes: &mut OwnNodes, pc: u16, next: &Next, edge: usize) -> Result<(), AllocError>
    ensures { OnOk result (nodes.new ≡ nodes.old ++ along_nodes pc next.now edge) }
{
    push_left(nodes, pc, edge, 1, left_of(next, edge, 1))?;
    push_left(nodes, pc, edge, 2, left_of(next, edge, 2))
}

fn push_cases(nodes: &mut OwnNodes, pc: u16, next: &Next, cases: &[Case]) -> Result<(), AllocError>
    ensures { OnOk result (nodes.new ≡ nodes.old ++ each_from (case_nodes pc next.now) 0 cases.now) }
{
    for (edge, _case) in cases.iter().enumerate() {
        push_along(nodes, pc, next, edge)?;
    }
    Ok(())
}

/// What is left of the operands of a branch or a switch, along each edge.
fn push_refined(nodes: &mut OwnNodes, pc: u16, next: &Next) -> Result<(), AllocError>
    ensures { OnOk result (nodes.new ≡ nodes.old ++ refined_nodes pc next.now) }
{
    match next {
        Next::Branches { .. } => {
            push_along(nodes, pc, next, 0)?;
            push_along(nodes, pc, next, 1)
        }
        Next::Switches { cases, .. } => {
            push_cases(nodes, pc, next, cases.as_slice())?;
            push_along(nodes, pc, next, cases.len())
        }
        Next::Falls | Next::Jumps { .. } | Next::Returns { .. } | Next::Throws => Ok(()),
    }
}

fn push_slot(nodes: &mut OwnNodes, pc: u16, slot: usize, kind: SlotKind) -> Result<(), AllocError>
    ensures { OnOk result (nodes.new ≡ nodes.old ++ merged_nodes pc slot kind) }
{
    if kind == SlotKind::Unused {
        Ok(())
    } else {
        nodes.push(Own::Merged { pc, slot })
    }
}

fn push_slots(nodes: &mut OwnNodes, pc: u16, kinds: &[SlotKind]) -> Result<(), AllocError>
    ensures { OnOk result (nodes.new ≡ nodes.old ++ each_from (merged_nodes pc) 0 kinds.now) }
{
    for (slot, kind) in kinds.iter().enumerate() {
        push_slot(nodes, pc, slot, *kind)?;
    }
    Ok(())
}

impl OwnNodes {
    /// Puts in the nodes of a reached place, but those of a block that starts there.
    pub fn push_place(&mut self, pc: u16, next: &Next, action: &Action) -> Result<(), AllocError>
        ensures { OnOk result (self.new ≡ self.old ++ own_at pc next.now action.now) }
    {
        push_result(self, pc, action)?;
        push_links(self, pc, action)?;
        push_refined(self, pc, next)
    }

    /// Puts in the nodes of a block that starts at a reached place, by the kinds of the slots there.
    pub fn push_block(&mut self, pc: u16, kinds: &[SlotKind]) -> Result<(), AllocError>
        ensures { OnOk result (self.new ≡ self.old ++ block_nodes pc kinds.now) }
    {
        self.push(Own::Block(pc))?;
        push_slots(self, pc, kinds)
    }

    /// Puts in the node of an entry of the exception table whose handler is reached.
    pub fn push_caught(&mut self, handler: HandlerEntry) -> Result<(), AllocError>
        ensures { OnOk result (self.new ≡ self.old ++ caught_nodes handler) }
    {
        self.push(Own::Caught(handler.entry))
    }
}
