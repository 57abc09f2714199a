//! What a call site calls.

ghost use Rattle.std.specs.Prelude.{◌≡◌, ◌<◌, IfSome, length};
ghost use Rattle.wf_classes.specs.Members.{method_keys, member_count};
ghost use Rattle.wf_names.specs.Members.{named_by};
ghost use Rattle.wf_subtype.specs.References.{target_count};
ghost use Rattle.wf_linking.specs.Symbolic.{symbolic_of};
ghost use Rattle.wf_linking.specs.Linking.{IsAmongClasses};
ghost use Rattle.wf_linking.specs.declared.linked.Linked.TheVariants as linked;
ghost use Rattle.wf_links.specs.Callees.{selected_method, by_object, called, known, IsCalleeOf, IsCalleeNamed, IsCalleeBy};
ghost use Rattle.wf_links.specs.Candidates.{IsThereIfAny};

use wf_base::{ClassId, MethodId, TargetId};
use wf_data::{Instr, PoolEntry};
use wf_linking::{Linked, LinkedMethod, SymbolicRef, link, symbolic_of};
use wf_names::MemberRef;
use wf_resolve::Calling;
use wf_select::{Selected, special};
use wf_subtype::Types;

/// How the method that runs is found.
#[derive(Clone, Copy, Debug, PartialEq, Eq, Hash)]
pub enum Selection {
    /// From the class of the receiver, as invokevirtual does.
    Virtual,
    /// From the class of the receiver, as invokeinterface does.
    Interface,
    /// It is the method itself.
    Known,
}

/// What a call site calls: of the receivers under a target the method that is found so. Both are numbers, so that equal
/// ones are found fast.
#[derive(Clone, Copy, Debug, PartialEq, Eq, Hash)]
pub struct Callee {
    pub receivers: u32,
    pub method: u32,
    pub by: Selection,
}

/// The method that runs, if one does.
pub fn selected_method(selected: Selected) -> Option<MethodId>
    ensures { result ≡ selected_method selected }
{
    match selected {
        Selected::Method(m) => Some(m),
        Selected::AbstractMethod | Selected::Incompatible => None,
    }
}

/// How the method is found that is called by the tag of an interface's method, or of a class's.
fn by_object(of_interface: bool) -> Selection
    ensures { result ≡ by_object of_interface }
{
    if of_interface {
        Selection::Interface
    } else {
        Selection::Virtual
    }
}

fn called(u: TargetId, method: MethodId, by: Selection) -> Callee
    ensures { result ≡ called u.0 method by }
{
    Callee {
        receivers: u.0,
        method: method.0,
        by,
    }
}

fn known(u: TargetId, method: Option<MethodId>) -> Option<Callee>
    ensures { result ≡ known u.0 method }
{
    match method {
        Some(m) => Some(called(u, m, Selection::Known)),
        None => None,
    }
}

/// What is called of the receivers under a target, where a method is resolved.
fn callee_of(
    types: &Types,
    current: ClassId,
    call: Calling,
    of_interface: bool,
    u: TargetId,
    resolved: LinkedMethod,
) -> Option<Callee>
    requires current_in { current.0 < length types.now.classes }
    requires target_in { u.0 < target_count (length types.now.classes) types.now.deepest }
    requires resolved_in { IsAmongClasses types.now.classes (linked.Method resolved) }
    ensures is { IsCalleeOf types.now current.0 call of_interface u.0 resolved result }
    ensures within { IsThereIfAny types.now result }
{
    match call {
        Calling::Object => Some(called(u, resolved.method, by_object(of_interface))),
        Calling::Static => None,
        Calling::Special => {
            let selected = special(types.classes(), current, resolved.named, resolved.method);
            known(u, selected_method(selected))
        }
    }
}

/// What is called by the name of a method.
fn callee_named(
    types: &Types,
    current: ClassId,
    call: Calling,
    of_interface: bool,
    member: &MemberRef<'_>,
) -> Option<Callee>
    requires { current.0 < length types.now.classes }
    ensures is { IsCalleeNamed types.now current.0 call of_interface (named_by member.now) result }
    ensures within { IsThereIfAny types.now result }
{
    let symbolic = SymbolicRef::MethodName {
        call,
        of_interface,
        member: *member,
    };
    let linked = match link(types.classes(), &symbolic) {
        Ok(linked) => linked,
        Err(_) => return None,
    };
    match linked {
        Linked::Method(resolved) => {
            let u = types.target(member.class)?;
            callee_of(types, current, call, of_interface, u, resolved)
        }
        _ => None,
    }
}

/// What the instruction of a site calls, in a method of the class `current`, which has this pool.
pub fn callee_at(
    types: &Types,
    current: ClassId,
    pool: &[PoolEntry],
    instr: &Instr,
) -> Option<Callee>
    requires { current.0 < length types.now.classes }
    ensures is { IsCalleeBy types.now current.0 (symbolic_of pool.now instr.now) result }
    ensures within { IsThereIfAny types.now result }
{
    match symbolic_of(pool, instr)? {
        SymbolicRef::MethodName {
            call,
            of_interface,
            member,
        } => callee_named(types, current, call, of_interface, &member),
        _ => None,
    }
}
