//! Which methods the calls of a program name.

ghost use Rattle.std.specs.Prelude.{◌≡◌, ◌++◌, ◌∷◌, [], OnOk, IfOk, if◌then◌else◌};
ghost use Rattle.std.specs.List.{list_all};
ghost use Rattle.wf_names.specs.Members.{named_by};
ghost use Rattle.wf_first.specs.Calls.{statics_in, statics_of, has_member, calls_known, code_calls_known, class_calls_known, calls_are_known};
ghost use Rattle.wf_first.specs.Statics.{HaveSame};

use crate::code::{Operation, Placed, operations};
use crate::program::method_ref;
use indexmap::IndexSet;
use std::alloc::{AllocError, Global};
use std::marker::Model;
use wf_constpool::method_at;
use wf_data::{ClassInfo, CodeInfo, MethodInfo, PoolEntry, is_static};
use wf_names::MemberRef;

/// The static methods of a program, each once.
#[derive(Drop)]
struct Statics<'p> {
    methods: IndexSet<MemberRef<'p>>,
}

impl<'p> Model for Statics<'p> {
    ghost use Rattle.std.specs.Prelude.{List, map};
    ghost use Rattle.wf_names.specs.declared.member.MemberName.{MemberName};
    ghost use Rattle.wf_names.specs.Members.{named_by};

    ghost Value = { List MemberName };

    ghost view = { λ s. map named_by s.methods.keys };
}

impl<'p> Statics<'p> {
    fn new(alloc: Global) -> Statics<'p>
        ensures { result ≡ [] }
    {
        Statics {
            methods: IndexSet::new(alloc),
        }
    }

    /// Adds a method, if it isn't there.
    fn add(&mut self, method: MemberRef<'p>) -> Result<(), AllocError>
        ensures { OnOk result (self.new ≡ (if has_member self.old (named_by method.entry) then self.old else self.old ++ named_by method.entry ∷ [])) }
    {
        self.methods.insert(method)?;
        Ok(())
    }

    fn has(&self, method: MemberRef<'p>) -> bool
        ensures { result ≡ has_member self.now (named_by method.entry) }
    {
        self.methods.contains(&method)
    }
}

/// Adds a method of a class, if it is static.
#[tactic(auto, using(crate::proofs::StaticLaws::static_added))]
fn add_static<'p>(
    statics: &mut Statics<'p>,
    class: &'p ClassInfo,
    method: &'p MethodInfo,
) -> Result<(), AllocError>
    ensures { OnOk result (HaveSame statics.new (statics.old ++ statics_in class.now (method.now ∷ []))) }
{
    if is_static(method.flags) {
        statics.add(method_ref(class, method))?;
    }
    Ok(())
}

/// Adds the static methods of a class.
fn add_statics<'p>(statics: &mut Statics<'p>, class: &'p ClassInfo) -> Result<(), AllocError>
    ensures { OnOk result (HaveSame statics.new (statics.old ++ statics_in class.now class.now.methods)) }
{
    for method in class.methods.as_slice() {
        add_static(statics, class, method)?;
    }
    Ok(())
}

/// The static methods of the classes.
fn statics_of<'p>(alloc: Global, classes: &'p [ClassInfo]) -> Result<Statics<'p>, AllocError>
    ensures { IfOk result (λ statics. HaveSame statics (statics_of classes.now)) }
{
    let mut statics = Statics::new(alloc);
    for class in classes {
        add_statics(&mut statics, class)?;
    }
    Ok(statics)
}

/// Whether the call of an instruction, if it has one, names one of the methods.
fn calls_known<'p>(statics: &Statics<'p>, pool: &'p [PoolEntry], placed: &Placed) -> bool
    ensures { result ≡ calls_known statics.now pool.now placed.now }
{
    match placed.operation {
        Operation::InvokeStatic(place) => match method_at(pool, place) {
            Some(callee) => statics.has(callee),
            None => false,
        },
        _ => true,
    }
}

/// Whether the calls of the instructions name methods of these.
fn are_known<'p>(statics: &Statics<'p>, pool: &'p [PoolEntry], operations: &[Placed]) -> bool
    ensures { result ≡ list_all (calls_known statics.now pool.now) operations.now }
{
    operations
        .iter()
        .all(|placed| calls_known(statics, pool, placed))
}

/// The same of a code that a method may have.
fn code_calls_known<'p>(
    alloc: Global,
    statics: &Statics<'p>,
    pool: &'p [PoolEntry],
    code: &Option<CodeInfo>,
) -> Result<bool, AllocError>
    ensures { IfOk result (λ known. known ≡ code_calls_known statics.now pool.now code.now) }
{
    let Some(code) = code else {
        return Ok(true);
    };
    match operations(alloc, code.code.as_slice())? {
        Some(operations) => Ok(are_known(statics, pool, &operations)),
        None => Ok(true),
    }
}

/// The same of the methods of a class.
fn class_calls_known<'p>(
    alloc: Global,
    statics: &Statics<'p>,
    class: &'p ClassInfo,
) -> Result<bool, AllocError>
    ensures { IfOk result (λ known. known ≡ class_calls_known statics.now class.now) }
{
    for method in class.methods.as_slice() {
        if !code_calls_known(alloc, statics, class.pool.as_slice(), &method.code)? {
            return Ok(false);
        }
    }
    Ok(true)
}

/// The same of all classes.
fn all_calls_known<'p>(
    alloc: Global,
    statics: &Statics<'p>,
    classes: &'p [ClassInfo],
) -> Result<bool, AllocError>
    ensures { IfOk result (λ known. known ≡ list_all (class_calls_known statics.now) classes.now) }
{
    for class in classes {
        if !class_calls_known(alloc, statics, class)? {
            return Ok(false);
        }
    }
    Ok(true)
}

/// Whether each call of the program names a static method that the named class itself declares, be it
/// reached or not.
#[tactic(auto, using(crate::proofs::StaticLaws::calls_same))]
pub fn calls_are_known(alloc: Global, classes: &[ClassInfo]) -> Result<bool, AllocError>
    ensures { IfOk result (λ known. known ≡ calls_are_known classes.now) }
{
    let statics = statics_of(alloc, classes)?;
    all_calls_known(alloc, &statics, classes)
}
