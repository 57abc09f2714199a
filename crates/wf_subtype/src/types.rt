ghost use Rattle.std.specs.Prelude.{◌≡◌, ◌+◌, ◌-◌, ◌<◌, ◌≤◌, ◌↔◌, ℕ, List, Some, option_map, position, length, slice_get, slice_index_or, IfOk, IfSome, IsTrue};
ghost use Rattle.std.specs.Cmp.Lexicographic.{slice_cmp};
ghost use Rattle.std.specs.Ordering.{nat_cmp};
ghost use Rattle.std.specs.Str.{bytes_eq};
ghost use Rattle.wf_classes.specs.World.{IsClosedWorld, IsAscending};
ghost use Rattle.wf_subtype.specs.declared.reference.Reference.{Reference};
ghost use Rattle.wf_subtype.specs.References.{component_of, target_count};
ghost use Rattle.wf_subtype.specs.Universe.{IsUniverse, type_of};
ghost use Rattle.wf_subtype.specs.Subtypes.{AreReferences, IsNameOfSome, IsDeepest, IsTargetFound, IsNumberOf, IsSubtype, IsClassOfType};
ghost use Rattle.wf_subtype.specs.Rows.{IsMask};

use crate::reference::{Reference, class_of_objects, component_of, reference_of, target_number};
use crate::rows::{Rows, rows_of};
use crate::universe::type_names;
use std::alloc::{AllocError, Global};
use std::cmp::Ordering;
use std::marker::Model;
use wf_base::{ClassId, Items, TargetId, Text, TypeId};
use wf_classes::Classes;
use wf_classes::heights::has;

/// The types of a run. A contract sees the classes, the names of the types in their order, what these are names of,
/// and the greatest number of dimensions among them. Type 0 is null, and the others are numbered from 1 on.
#[derive(Drop)]
pub struct Types {
    classes: Classes,
    names: Vec<Text>,
    references: Vec<Reference>,
    deepest: u32,
    rows: Rows,
}

impl Model for Types {
    ghost use Rattle.wf_subtype.specs.Subtypes.{AllTypes};
    ghost use Rattle.wf_subtype.specs.Rows.{AreTypesKept};

    ghost Value = { AllTypes };

    ghost view = { λ t. record { classes = t.classes; names = t.names.items; references = t.references.items; deepest = t.deepest } };

    ghost invariant = { λ t. AreTypesKept (record { classes = t.classes; names = t.names.items; references = t.references.items; deepest = t.deepest }) t.rows };
}

/// What the types are, by their names.
fn references_of(
    alloc: Global,
    classes: &Classes,
    names: &[Text],
) -> Result<Vec<Reference>, AllocError>
    requires world { IsClosedWorld classes.now }
    requires named { (i : ℕ) (name : List ℕ) → slice_get names.now i ≡ Some name → IsNameOfSome classes.now name }
    ensures { IfOk result (λ references. AreReferences classes.now names.now references.items) }
{
    let mut references = Vec::new(alloc);
    for name in names {
        references.push(reference_of(classes, name.as_slice()).unwrap())?;
    }
    Ok(references)
}

/// The greatest number of dimensions.
fn deepest_of(references: &[Reference]) -> u32
    ensures { IsDeepest references.now result }
{
    let mut deepest = 0;
    for r in references {
        if deepest < r.dims {
            deepest = r.dims;
        }
    }
    deepest
}

/// A name against another.
fn compared(own: &Text, name: &[u8]) -> Ordering
    ensures { result ≡ slice_cmp nat_cmp own.now name.now }
{
    own.as_slice().cmp(&name)
}

/// The place of a name, by binary search.
fn name_place(names: &[Text], name: &[u8]) -> Option<usize>
    requires { IsAscending names.now }
    ensures { result ≡ position (λ n. bytes_eq n name.now) names.now }
{
    match names.binary_search_by(|own| compared(own, name)) {
        Ok(i) => Some(i),
        Err(_) => None,
    }
}

/// The types of a run: null, the classes that have objects, the arrays that instructions make and those among some
/// names.
pub fn types_of(alloc: Global, classes: Classes, named: &Items<Text>) -> Result<Types, AllocError>
    ensures classes { IfOk result (λ types. types.classes ≡ classes) }
    ensures universe { IfOk result (λ types. IsUniverse classes named.now types.names) }
{
    let names = type_names(alloc, &classes, named.as_slice())?;

    // There are no more than 256 times 65,544 names, which no proof counts here.
    if names.len() >= 4294967295 {
        return Err(AllocError);
    }
    let references = references_of(alloc, &classes, names.as_slice())?;
    let deepest = deepest_of(references.as_slice());
    let rows = rows_of(
        alloc,
        &classes,
        names.as_slice(),
        references.as_slice(),
        deepest,
    )?;
    Ok(Types {
        classes,
        names,
        references,
        deepest,
        rows,
    })
}

impl Types {
    /// How many types there are beside null.
    pub fn len(&self) -> u32
        ensures { result ≡ length self.now.names }
    {
        self.names.len() as u32
    }

    pub fn classes(&self) -> &Classes
        ensures { result.now ≡ self.now.classes }
    {
        &self.classes
    }

    pub fn into_classes(self) -> Classes
        ensures { result ≡ self.classes }
    {
        self.classes
    }

    /// The type of a name. None exactly where the universe has no type of this name.
    pub fn find(&self, name: &[u8]) -> Option<TypeId>
        ensures found { option_map (λ t. t.0) result ≡ type_of self.now.names name.now }
        ensures within { IfSome result (λ t. t.0 ≤ length self.now.names) }
    {
        match name_place(self.names.as_slice(), name) {
            Some(i) => Some(TypeId(i as u32 + 1)),
            None => None,
        }
    }

    /// The number of the class or the array of a name. None exactly where no class that is there and no array of one
    /// has the name.
    pub fn target(&self, name: &[u8]) -> Option<TargetId>
        ensures found { IsTargetFound self.now name.now (option_map (λ u. u.0) result) }
        ensures within { IfSome result (λ u. u.0 < target_count (length self.now.classes) self.now.deepest) }
    {
        let classes = self.classes.list().as_slice().len() as u32;
        match reference_of(&self.classes, name) {
            Some(r) => Some(TargetId(target_number(classes, self.deepest, r))),
            None => None,
        }
    }

    /// The number of the component of a type other than null, where it is an array of a class or of arrays.
    pub fn component(&self, t: TypeId) -> Option<TargetId>
        requires some { 0 < t.0 }
        requires there { t.0 ≤ length self.now.names }
        ensures number { (r : Reference) → slice_get self.now.references (t.0 - 1) ≡ Some r → IsNumberOf self.now (component_of r) (option_map (λ u. u.0) result) }
        ensures within { IfSome result (λ u. u.0 < target_count (length self.now.classes) self.now.deepest) }
    {
        let classes = self.classes.list().as_slice().len() as u32;
        match component_of(self.references[t.0 as usize - 1]) {
            Some(r) => Some(TargetId(target_number(classes, self.deepest, r))),
            None => None,
        }
    }

    /// How many numbers targets have.
    pub fn targets(&self) -> u32
        ensures { result ≡ target_count (length self.now.classes) self.now.deepest }
    {
        self.rows.targets()
    }

    /// The types under a target, as a row of bits: bit t + 1 is type t, and bit 0 is never set. It has a bit for each
    /// type.
    pub fn mask(&self, u: TargetId) -> &[u64]
        requires { u.0 < target_count (length self.now.classes) self.now.deepest }
        ensures { IsMask self.now u.0 result.now }
    {
        self.rows.row(u)
    }

    /// Whether a type is under a target (JVMS 6.5, instanceof). Null is under all.
    pub fn is_subtype(&self, t: TypeId, u: TargetId) -> bool
        requires there { t.0 ≤ length self.now.names }
        requires inside { u.0 < target_count (length self.now.classes) self.now.deepest }
        ensures { IsTrue result ↔ IsSubtype self.now t.0 u.0 }
    {
        has(self.rows.row(u), t.0 + 1)
    }

    /// The name of a type other than null.
    pub fn name(&self, t: TypeId) -> &[u8]
        requires some { 0 < t.0 }
        requires there { t.0 ≤ length self.now.names }
        ensures { slice_get self.now.names (t.0 - 1) ≡ Some result.now }
    {
        self.names[t.0 as usize - 1].as_slice()
    }

    /// What class or array each type other than null is, in the order of their names.
    pub fn references(&self) -> &[Reference]
        ensures is { result.now ≡ self.now.references }
        ensures world { IsClosedWorld self.now.classes }
        ensures named { AreReferences self.now.classes self.now.names self.now.references }
        ensures depth { IsDeepest self.now.references self.now.deepest }
    {
        self.references.as_slice()
    }

    /// What class or array a type other than null is.
    pub fn reference(&self, t: TypeId) -> Reference
        requires some { 0 < t.0 }
        requires there { t.0 ≤ length self.now.names }
        ensures there { slice_get self.now.references (t.0 - 1) ≡ Some result }
    {
        self.references[t.0 as usize - 1]
    }

    /// The class whose members the objects of a type other than null have: of an array those of `java/lang/Object`
    /// (JVMS 6.5, invokevirtual).
    pub fn class_of(&self, t: TypeId) -> ClassId
        requires some { 0 < t.0 }
        requires there { t.0 ≤ length self.now.names }
        ensures class { IsClassOfType self.now t.0 result.0 }
        ensures within { result.0 < length self.now.classes }
    {
        class_of_objects(&self.classes, self.references[t.0 as usize - 1]).unwrap()
    }
}
