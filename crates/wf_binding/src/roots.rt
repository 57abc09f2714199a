//! Lists of roots that are bound.

ghost use Rattle.std.specs.Prelude.{◌≡◌, ◌↔◌, IfOk, OnOk, OnErr, IfErr, IsTrue};
ghost use Rattle.wf_binding.specs.Adding.{root_stands, IsValidRoot, IsListed, Adds};
ghost use Rattle.wf_binding.specs.First.{IsFirst};
ghost use Rattle.wf_binding.specs.Numbering.{NumbersRoots, RootsStand};
ghost use Rattle.wf_binding.specs.Validity.{Somewhere, IsBadRootLine, HasNoBad, Tells};

use crate::first::{BadLine, at_line, earlier_of};
use crate::numbering::{each_once, roots_numbers};
use crate::numbers::RootNumbers;
use crate::starts::root_word;
use std::alloc::{AllocError, Global};
use std::marker::Model;
use wf_base::Items;
use wf_classes::Classes;
use wf_inputs::{InputFault, RootLine, Roots};
use wf_names::Root;
use wf_subtype::Types;

/// What became of a root that was asked for.
#[derive(Clone, Copy, Debug, PartialEq, Eq)]
pub enum Added {
    /// What it names isn't there, or is of the wrong kind.
    Invalid,
    /// The list has it already.
    There,
    New,
}

/// Roots that were bound, so that what they name was found in some classes. A contract sees the list of roots.
#[derive(Debug, Drop)]
pub struct BoundRoots {
    roots: Roots,
}

impl Model for BoundRoots {
    ghost use Rattle.wf_inputs.specs.declared.roots.Roots.{Roots};

    ghost Value = { Roots };

    ghost view = { λ b. b.roots };
}

impl BoundRoots {
    pub fn get(&self) -> &Roots
        ensures { result.now ≡ self.now }
    {
        &self.roots
    }

    /// The numbers of what its lines name, each root once, for types in whose classes no line is bad and that have
    /// each type of which a root has objects. They are sorted, so a list of n lines takes n log n steps.
    pub fn numbers(&self, alloc: Global, types: &Types) -> Result<Items<RootNumbers>, AllocError>
        requires valid { HasNoBad (Somewhere (IsBadRootLine types.now.classes self.now.lines)) }
        requires stands { RootsStand types.now self.now.lines }
        ensures { IfOk result (NumbersRoots types.now self.now.lines) }
    {
        lines_numbers(alloc, types, self.get())
    }

    /// Adds a root that is asked for, with line 0, unless the list has it. The list is gone through each time. Own rule.
    pub fn add(&mut self, alloc: Global, types: &Types, root: Root) -> Result<Added, AllocError>
        ensures ok { IfOk result (Adds types.now root self.old self.new) }
        ensures err { OnErr result (self.new ≡ self.old) }
    {
        if !is_valid(alloc, types, &root)? {
            return Ok(Added::Invalid);
        }
        if is_listed(self.roots.lines.as_slice(), &root) {
            return Ok(Added::There);
        }
        match self.roots.lines.push(RootLine { line: 0, root }) {
            Ok(()) => Ok(Added::New),
            Err(_) => Err(AllocError),
        }
    }
}

fn lines_numbers(
    alloc: Global,
    types: &Types,
    roots: &Roots,
) -> Result<Items<RootNumbers>, AllocError>
    requires valid { HasNoBad (Somewhere (IsBadRootLine types.now.classes roots.now.lines)) }
    requires stands { RootsStand types.now roots.now.lines }
    ensures { IfOk result (NumbersRoots types.now roots.now.lines) }
{
    let of_lines = roots_numbers(alloc, types, roots.lines.as_slice())?;
    let once = each_once(of_lines)?;
    Ok(once)
}

fn root_stands(types: &Types, root: &Root) -> bool
    ensures { result ≡ root_stands types.now root.now }
{
    match root {
        Root::Inst(name) => types.find(name.as_slice()).is_some(),
        Root::StaticCall(_) | Root::Make(_) => true,
    }
}

fn is_valid(alloc: Global, types: &Types, root: &Root) -> Result<bool, AllocError>
    ensures { IfOk result (λ valid. IsTrue valid ↔ IsValidRoot types.now root.now) }
{
    match root_word(alloc, types.classes(), root)? {
        Some(_) => Ok(false),
        None => Ok(root_stands(types, root)),
    }
}

fn is_same(a: &Root, b: &Root) -> bool
    ensures { IsTrue result ↔ (a.now ≡ b.now) }
{
    match (a, b) {
        (Root::StaticCall(x), Root::StaticCall(y)) => {
            x.class.as_slice() == y.class.as_slice()
                && x.name.as_slice() == y.name.as_slice()
                && x.desc.as_slice() == y.desc.as_slice()
        }
        (Root::Inst(x), Root::Inst(y)) => x.as_slice() == y.as_slice(),
        (Root::Make(x), Root::Make(y)) => x.as_slice() == y.as_slice(),
        _ => false,
    }
}

fn is_listed(lines: &[RootLine], root: &Root) -> bool
    ensures { IsTrue result ↔ IsListed lines.now root.now }
{
    for line in lines {
        if is_same(&line.root, root) {
            return true;
        }
    }
    false
}

/// The first bad line of a list of roots.
fn first_bad_root(
    alloc: Global,
    classes: &Classes,
    lines: &[RootLine],
) -> Result<Option<BadLine>, AllocError>
    ensures { IfOk result (IsFirst (Somewhere (IsBadRootLine classes.now lines.now))) }
{
    let mut found = None;
    for line in lines {
        let word = root_word(alloc, classes, &line.root)?;
        found = earlier_of(found, at_line(line.line, word));
    }
    Ok(found)
}

/// Finds what the lines of a list of roots name, as `bind_summary` does. Own rule.
pub fn bind_roots(alloc: Global, classes: &Classes, roots: Roots) -> Result<BoundRoots, InputFault>
    ensures same { IfOk result (λ bound. bound ≡ roots) }
    ensures valid { OnOk result (HasNoBad (Somewhere (IsBadRootLine classes.now roots.lines))) }
    ensures bad { IfErr result (Tells (Somewhere (IsBadRootLine classes.now roots.lines))) }
{
    match first_bad_root(alloc, classes, roots.lines.as_slice())? {
        Some(bad) => Err(InputFault::Bad {
            line: bad.line,
            why: bad.why,
        }),
        None => Ok(BoundRoots { roots }),
    }
}
