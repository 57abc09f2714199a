//! The first form of classes.

ghost use Rattle.std.specs.Prelude.{◌≡◌, ◌==◌, ◌<◌, Some, length, codes, IfOk};
ghost use Rattle.std.specs.List.{list_all};
ghost use Rattle.std.specs.Str.{bytes_eq};
ghost use Rattle.wf_data.specs.Pool.{method_at};
ghost use Rattle.wf_first.specs.FirstForm.{is_ordinary, is_kind_of_form, is_step_of_form, pushed_by, depth_after, is_rest_of_form, are_of_form, is_code_of_form, is_method_of_form, is_super_of_form, is_class_of_form, is_first_form};

use crate::code::{Operation, Placed, operations};
use std::alloc::{AllocError, Global};
use wf_base::Text;
use wf_constpool::method_at;
use wf_data::{ClassInfo, CodeInfo, MethodInfo, PoolEntry, is_interface, is_static};
use wf_names::{is_constructor_name, is_initializer_name, is_object_name};

/// Whether no method of a class of this name is refused by its name.
fn is_ordinary(name: &[u8]) -> bool
    ensures { result ≡ is_ordinary name.now }
{
    name != b"java/lang/Class".as_slice()
        && name != b"java/lang/Thread".as_slice()
        && !name.starts_with(b"java/lang/reflect/")
        && !name.starts_with(b"java/lang/invoke/")
}

fn is_kind_of_form(method: &MethodInfo, code: &CodeInfo) -> bool
    ensures { result ≡ is_kind_of_form method.now code.now }
{
    let name = method.name.as_slice();
    if is_static(method.flags) {
        !is_constructor_name(name) && !is_initializer_name(name)
    } else {
        is_constructor_name(name) && is_void(method.desc.as_slice()) && code.max_locals >= 1
    }
}

/// Whether a method with this descriptor returns nothing.
fn is_void(desc: &[u8]) -> bool
    ensures { result ≡ bytes_eq desc.now (codes "()V") }
{
    desc == b"()V".as_slice()
}

/// Whether a method with this descriptor returns an int.
fn is_int(desc: &[u8]) -> bool
    ensures { result ≡ bytes_eq desc.now (codes "()I") }
{
    desc == b"()I".as_slice()
}

/// A path through the code of a method: it has no jumps, so there is one, up to the first return.
#[derive(Clone, Copy)]
struct Path<'p> {
    pool: &'p [PoolEntry],
    /// The method's descriptor.
    desc: &'p [u8],
    /// How many ints the stack has room for.
    room: u16,
}

/// Whether an instruction that is reached with so many ints on the stack is of the form.
fn is_step_of_form(path: &Path<'_>, depth: usize, operation: Operation) -> bool
    ensures { result ≡ is_step_of_form path.now.pool.now path.now.desc.now path.now.room depth operation }
{
    let has_room = depth < path.room as usize;
    match operation {
        Operation::IntConstant(_) => has_room,
        Operation::InvokeStatic(place) => match method_at(path.pool, place) {
            Some(callee) => is_void(callee.desc) || is_int(callee.desc) && has_room,
            None => false,
        },
        Operation::IntReturn => is_int(path.desc) && depth > 0,
        Operation::Return => is_void(path.desc),
    }
}

/// How many ints a call leaves on the stack.
fn pushed_by(pool: &[PoolEntry], place: u16) -> usize
    ensures { result ≡ pushed_by (method_at pool.now place) }
{
    match method_at(pool, place) {
        Some(callee) if !is_void(callee.desc) => 1,
        _ => 0,
    }
}

/// How many ints are on the stack behind an instruction, where the path goes on.
fn depth_after(pool: &[PoolEntry], depth: usize, operation: Operation) -> Option<usize>
    requires { depth < 65536 }
    ensures { result ≡ depth_after pool.now depth operation }
{
    match operation {
        Operation::IntConstant(_) => Some(depth + 1),
        Operation::InvokeStatic(place) => Some(depth + pushed_by(pool, place)),
        Operation::IntReturn | Operation::Return => None,
    }
}

/// Whether an instruction that no path reaches is of the form.
fn is_rest_of_form(pool: &[PoolEntry], operation: Operation) -> bool
    ensures { result ≡ is_rest_of_form pool.now operation }
{
    match operation {
        Operation::InvokeStatic(place) => method_at(pool, place).is_some(),
        _ => true,
    }
}

/// Whether the instructions of a code are of the form.
fn are_of_form(path: &Path<'_>, operations: &[Placed]) -> bool
    ensures { result ≡ are_of_form path.now.pool.now path.now.desc.now path.now.room (Some 0) operations.now }
{
    let mut reached = Some(0);
    for placed in operations {
        match reached {
            Some(depth) => {
                if !is_step_of_form(path, depth, placed.operation) {
                    return false;
                }
                reached = depth_after(path.pool, depth, placed.operation);
            }
            None => {
                if !is_rest_of_form(path.pool, placed.operation) {
                    return false;
                }
            }
        }
    }
    reached.is_none()
}

fn is_code_of_form(
    alloc: Global,
    pool: &[PoolEntry],
    desc: &[u8],
    code: &CodeInfo,
) -> Result<bool, AllocError>
    ensures { IfOk result (λ of_form. of_form ≡ is_code_of_form pool.now desc.now code.now) }
{
    if !code.table.is_empty() {
        return Ok(false);
    }
    let Some(operations) = operations(alloc, code.code.as_slice())? else {
        return Ok(false);
    };
    let path = Path {
        pool,
        desc,
        room: code.max_stack,
    };
    Ok(are_of_form(&path, &operations))
}

fn is_method_of_form(
    alloc: Global,
    pool: &[PoolEntry],
    method: &MethodInfo,
) -> Result<bool, AllocError>
    ensures { IfOk result (λ of_form. of_form ≡ is_method_of_form pool.now method.now) }
{
    match &method.code {
        Some(code) if is_kind_of_form(method, code) => {
            is_code_of_form(alloc, pool, method.desc.as_slice(), code)
        }
        _ => Ok(false),
    }
}

fn is_super_of_form(superclass: &Option<Text>) -> bool
    ensures { result ≡ is_super_of_form superclass.now }
{
    match superclass {
        Some(name) => is_object_name(name.as_slice()),
        None => true,
    }
}

fn is_class_of_form(class: &ClassInfo) -> bool
    ensures { result ≡ is_class_of_form class.now }
{
    !is_interface(class.flags)
        && class.interfaces.is_empty()
        && class.fields.is_empty()
        && is_super_of_form(&class.superclass)
        && is_ordinary(class.name.as_slice())
}

fn are_methods_of_form(
    alloc: Global,
    pool: &[PoolEntry],
    methods: &[MethodInfo],
) -> Result<bool, AllocError>
    ensures { IfOk result (λ of_form. of_form ≡ list_all (is_method_of_form pool.now) methods.now) }
{
    for method in methods {
        if !is_method_of_form(alloc, pool, method)? {
            return Ok(false);
        }
    }
    Ok(true)
}

/// Whether a class is of the first form.
pub fn is_first_form(alloc: Global, class: &ClassInfo) -> Result<bool, AllocError>
    ensures { IfOk result (λ of_form. of_form ≡ is_first_form class.now) }
{
    if !is_class_of_form(class) {
        return Ok(false);
    }
    are_methods_of_form(alloc, class.pool.as_slice(), class.methods.as_slice())
}
