//! Which classes are initialized before a class (JVMS 5.5).
#![tactic(auto)]

ghost use Rattle.std.specs.Prelude.{◌≡◌, ◌<◌, ◌∷◌, ◌++◌, length, map, reverse, IfOk};
ghost use Rattle.std.specs.List.{list_any};
ghost use Rattle.wf_classes.specs.World.{number};
ghost use Rattle.wf_init.specs.Order.{is_default, has_default, IsInitOrder};

mod laws;
mod own;

pub use laws::orders_are_single;
pub use own::initializer;
use std::alloc::{AllocError, Global};
use wf_base::{ClassId, Items};
use wf_classes::Classes;
use wf_data::{MethodInfo, is_abstract, is_interface, is_static};

/// What is left to do with an interface.
#[derive(Clone, Copy)]
enum Task {
    /// To go to its superinterfaces, unless it was begun.
    Begin(ClassId),
    /// To give it, behind them.
    Give(ClassId),
}

fn is_default(m: &MethodInfo) -> bool
    ensures { result ≡ is_default m.now }
{
    !is_abstract(m.flags) && !is_static(m.flags)
}

fn has_default_among(methods: &[MethodInfo]) -> bool
    ensures { result ≡ list_any is_default methods.now }
{
    methods.iter().any(|m| is_default(m))
}

/// Whether an interface declares a method that is neither abstract nor static.
fn has_default(classes: &Classes, c: ClassId) -> bool
    requires { c.0 < length classes.now }
    ensures { result ≡ has_default classes.now c.0 }
{
    has_default_among(classes.list().as_slice()[c.0 as usize].methods.as_slice())
}

/// Puts interfaces on the stack, so that the first is begun first.
fn push_all(tasks: &mut Vec<Task>, interfaces: &[ClassId]) -> Result<(), AllocError>
    ensures { IfOk result (λ _. reverse tasks.new.items ≡ map (λ i. Task.Begin i) interfaces.now ++ reverse tasks.old.items) }
{
    for i in interfaces.iter().rev() {
        tasks.push(Task::Begin(*i))?;
    }
    Ok(())
}

/// Puts an interface that is begun on the stack, behind its superinterfaces.
fn push_begun(
    tasks: &mut Vec<Task>,
    i: ClassId,
    superinterfaces: &[ClassId],
) -> Result<(), AllocError>
    ensures { IfOk result (λ _. reverse tasks.new.items ≡ map (λ s. Task.Begin s) superinterfaces.now ++ Task.Give i ∷ reverse tasks.old.items) }
{
    tasks.push(Task::Give(i))?;
    push_all(tasks, superinterfaces)
}

/// The classes and interfaces that are initialized before a class, in this order: its superclass, and then those of its
/// superinterfaces, direct and indirect, that declare a method neither abstract nor static, in the order of the lists, each
/// once, behind its own superinterfaces. Nothing before an interface.
pub fn init_order(
    alloc: Global,
    classes: &Classes,
    c: ClassId,
) -> Result<Items<ClassId>, AllocError>
    requires { c.0 < length classes.now }
    ensures { IfOk result (λ order. IsInitOrder classes.now c.0 (map number order)) }
{
    let mut order = Vec::new(alloc);
    if is_interface(classes.list().as_slice()[c.0 as usize].flags) {
        return Ok(Items::from_vec(order));
    }
    if let Some(superclass) = classes.superclass(c) {
        order.push(superclass)?;
    }
    let mut begun = vec![in alloc; false; classes.list().as_slice().len()]?;
    let mut tasks = Vec::new(alloc);
    push_all(&mut tasks, classes.superinterfaces(c))?;
    while let Some(task) = tasks.pop() {
        match task {
            Task::Begin(i) if begun[i.0 as usize] => {}
            Task::Begin(i) => {
                begun[i.0 as usize] = true;
                push_begun(&mut tasks, i, classes.superinterfaces(i))?;
            }
            Task::Give(i) if has_default(classes, i) => order.push(i)?,
            Task::Give(_) => {}
        }
    }
    Ok(Items::from_vec(order))
}
