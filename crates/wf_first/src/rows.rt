//! The rows of a program's system, over the numbers of its nodes.

ghost use Rattle.std.specs.Prelude.{◌≡◌, ◌++◌, ◌∷◌, [], Some, None, codes, OnOk, IfOk, if◌then◌else◌};
ghost use Rattle.std.specs.Str.{bytes_eq};
ghost use Rattle.wf_names.specs.Members.{named_by};
ghost use Rattle.wf_sys.specs.Program.{top_of};
ghost use Rattle.wf_first.specs.Nodes.{place_of};
ghost use Rattle.wf_first.specs.Rows.{token_row, constant_row, copy_row, call_rows, return_rows, rows_at, behind, found_rows, code_rows, method_rows, super_rows, rows_of};

use crate::code::{Operation, Placed, operations};
use crate::nodes::{NodeKey, Nodes};
use crate::program::method_ref;
use std::alloc::{AllocError, Global};
use std::marker::Model;
use wf_constpool::method_at;
use wf_data::{ClassInfo, CodeInfo, PoolEntry, is_interface};
use wf_names::MemberRef;
use wf_sys::{Guard, Inequality, ValueOp};

/// What is known before a place of a code, by the numbers of the nodes.
#[derive(Drop)]
struct Known {
    /// What has to flow for the instruction to be carried out.
    predicate: usize,
    /// The flows on the stack, the last pushed at the end.
    stack: Vec<usize>,
}

impl Model for Known {
    ghost use Rattle.std.specs.Prelude.{ℕ};
    ghost use Rattle.wf_first.specs.Rows.{At};

    ghost Value = { At ℕ };

    ghost view = { λ k. record { predicate = k.predicate; stack = k.stack.items } };
}

/// A method whose code is gone along.
#[derive(Clone, Copy)]
struct Body<'p, 'n> {
    nodes: &'n Nodes<'p>,
    /// The pool of its class.
    pool: &'p [PoolEntry],
    name: MemberRef<'p>,
}

/// Where the guard flows, the target is a token that is set.
fn token_row(guard: usize, target: usize) -> Inequality<usize>
    ensures { result ≡ token_row guard target }
{
    Inequality {
        target,
        guard: Guard::NonEmpty(guard),
        value: ValueOp::Token,
    }
}

/// Where the guard flows, the target is a constant.
fn constant_row(guard: usize, constant: i32, target: usize) -> Inequality<usize>
    ensures { result ≡ constant_row guard constant target }
{
    Inequality {
        target,
        guard: Guard::NonEmpty(guard),
        value: ValueOp::IntIs(constant),
    }
}

/// Where the guard flows, the target has the value of the source.
fn copy_row(guard: usize, source: usize, target: usize) -> Inequality<usize>
    ensures { result ≡ copy_row guard source target }
{
    Inequality {
        target,
        guard: Guard::NonEmpty(guard),
        value: ValueOp::Copy(source),
    }
}

/// Adds the rows of a call.
fn push_call<'p>(
    body: &Body<'p, '_>,
    predicate: usize,
    pc: u16,
    callee: MemberRef<'p>,
    rows: &mut Vec<Inequality<usize>>,
) -> Result<(), AllocError>
    ensures { OnOk result (rows.new.items ≡ rows.old.items ++ call_rows (place_of body.now.nodes.now) predicate (named_by body.now.name) pc (Some (named_by callee.entry))) }
{
    let nodes = body.nodes;
    let initialized = nodes.number(NodeKey::Initialized(callee.class));
    let entered = nodes.number(NodeKey::Entered(callee));
    let returned = nodes.number(NodeKey::Returned(callee));
    let given = nodes.number(NodeKey::Result(body.name, pc));
    rows.push(token_row(predicate, initialized))?;
    rows.push(token_row(predicate, entered))?;
    rows.push(copy_row(predicate, returned, given))?;
    Ok(())
}

/// Goes behind a call whose result is the node `given`: what follows is carried out where the call returns.
fn go_behind_call(known: &mut Known, given: usize, callee: MemberRef<'_>) -> Result<(), AllocError>
    ensures predicate { OnOk result (known.new.predicate ≡ given) }
    ensures stack { OnOk result (known.new.stack ≡ (if bytes_eq callee.entry.desc.now (codes "()V") then known.old.stack else known.old.stack ++ given ∷ [])) }
{
    known.predicate = given;
    if callee.desc != b"()V".as_slice() {
        known.stack.push(given)?;
    }
    Ok(())
}

/// Adds the row of a return of the value on the top of the stack.
fn push_int_return(
    body: &Body<'_, '_>,
    known: &Known,
    rows: &mut Vec<Inequality<usize>>,
) -> Result<(), AllocError>
    ensures { OnOk result (rows.new.items ≡ rows.old.items ++ return_rows (place_of body.now.nodes.now) known.now.predicate (named_by body.now.name) (top_of known.now.stack)) }
{
    if let Some(top) = known.stack.last() {
        let returned = body.nodes.number(NodeKey::Returned(body.name));
        rows.push(copy_row(known.predicate, *top, returned))?;
    }
    Ok(())
}

/// Adds the rows of an instruction that is reached. Whether the path goes on behind it.
fn step(
    body: &Body<'_, '_>,
    known: &mut Known,
    placed: &Placed,
    rows: &mut Vec<Inequality<usize>>,
) -> Result<bool, AllocError>
    ensures rows { OnOk result (rows.new.items ≡ rows.old.items ++ rows_at (place_of body.now.nodes.now) body.now.pool.now (named_by body.now.name) known.old placed.now.pc placed.now.operation) }
    ensures behind { IfOk result (λ on. (if on then Some known.new else None) ≡ behind (place_of body.now.nodes.now) body.now.pool.now (named_by body.now.name) known.old placed.now.pc placed.now.operation) }
{
    let given = body.nodes.number(NodeKey::Result(body.name, placed.pc));
    match placed.operation {
        Operation::IntConstant(constant) => {
            rows.push(constant_row(known.predicate, constant, given))?;
            known.stack.push(given)?;
            Ok(true)
        }
        Operation::InvokeStatic(place) => match method_at(body.pool, place) {
            Some(callee) => {
                push_call(body, known.predicate, placed.pc, callee, rows)?;
                go_behind_call(known, given, callee)?;
                Ok(true)
            }
            None => Ok(false),
        },
        Operation::IntReturn => {
            push_int_return(body, known, rows)?;
            Ok(false)
        }
        Operation::Return => {
            let returned = body.nodes.number(NodeKey::Returned(body.name));
            rows.push(token_row(known.predicate, returned))?;
            Ok(false)
        }
    }
}

/// Adds the rows of the instructions that the path through a code reaches.
fn push_along(
    alloc: Global,
    body: &Body<'_, '_>,
    operations: &[Placed],
    rows: &mut Vec<Inequality<usize>>,
) -> Result<(), AllocError>
    ensures { OnOk result (rows.new.items ≡ rows.old.items ++ found_rows (place_of body.now.nodes.now) body.now.pool.now (named_by body.now.name) (Some operations.now)) }
{
    let mut known = Known {
        predicate: body.nodes.number(NodeKey::Entered(body.name)),
        stack: Vec::new(alloc),
    };
    for placed in operations {
        if !step(body, &mut known, placed, rows)? {
            return Ok(());
        }
    }
    Ok(())
}

/// Adds the rows of a method's code.
fn push_code(
    alloc: Global,
    body: &Body<'_, '_>,
    code: &Option<CodeInfo>,
    rows: &mut Vec<Inequality<usize>>,
) -> Result<(), AllocError>
    ensures { OnOk result (rows.new.items ≡ rows.old.items ++ code_rows (place_of body.now.nodes.now) body.now.pool.now (named_by body.now.name) code.now) }
{
    let Some(code) = code else {
        return Ok(());
    };
    match operations(alloc, code.code.as_slice())? {
        Some(operations) => push_along(alloc, body, &operations, rows),
        None => Ok(()),
    }
}

/// Adds the rows of the methods of a class.
fn push_methods<'p>(
    alloc: Global,
    nodes: &Nodes<'p>,
    class: &'p ClassInfo,
    rows: &mut Vec<Inequality<usize>>,
) -> Result<(), AllocError>
    ensures { OnOk result (rows.new.items ≡ rows.old.items ++ method_rows (place_of nodes.now) class.now class.now.methods) }
{
    for method in class.methods.as_slice() {
        let body = Body {
            nodes,
            pool: class.pool.as_slice(),
            name: method_ref(class, method),
        };
        push_code(alloc, &body, &method.code, rows)?;
    }
    Ok(())
}

/// Adds the row of a class's superclass, if it has one.
fn push_super<'p>(
    nodes: &Nodes<'p>,
    class: &'p ClassInfo,
    rows: &mut Vec<Inequality<usize>>,
) -> Result<(), AllocError>
    ensures { OnOk result (rows.new.items ≡ rows.old.items ++ super_rows (place_of nodes.now) class.now class.now.superclass) }
{
    match &class.superclass {
        Some(superclass) if !is_interface(class.flags) => {
            let initialized = nodes.number(NodeKey::Initialized(class.name.as_slice()));
            let super_initialized = nodes.number(NodeKey::Initialized(superclass.as_slice()));
            rows.push(token_row(initialized, super_initialized))?;
        }
        _ => {}
    }
    Ok(())
}

/// The rows of a program's system, over the numbers of its nodes.
pub fn rows_of<'p>(
    alloc: Global,
    nodes: &Nodes<'p>,
    classes: &'p [ClassInfo],
) -> Result<Vec<Inequality<usize>>, AllocError>
    ensures { IfOk result (λ rows. rows.items ≡ rows_of (place_of nodes.now) classes.now) }
{
    let mut rows = Vec::new(alloc);
    for class in classes {
        push_super(nodes, class, &mut rows)?;
        push_methods(alloc, nodes, class, &mut rows)?;
    }
    Ok(rows)
}
