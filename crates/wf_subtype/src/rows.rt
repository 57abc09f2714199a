//! Rows of bits, one for each target: which types are under it.

ghost use Rattle.std.specs.Prelude.{◌≡◌, ℕ, ◌+◌, ◌-◌, ◌*◌, ◌/◌, ◌<◌, ◌≤◌, ◌^◌, List, Some, IfOk, OnOk, length, slice_get};
ghost use Rattle.wf_classes.specs.World.{IsClosedWorld, class_of, number_in};
ghost use Rattle.wf_classes.specs.Above.{IsAbove};
ghost use Rattle.wf_subtype.specs.declared.reference.Reference.{Reference};
ghost use Rattle.wf_subtype.specs.References.{inner_number, target_count};
ghost use Rattle.wf_subtype.specs.Subtypes.{AllTypes, AreReferences, IsDeepest, IsAboveArrays};
ghost use Rattle.wf_subtype.specs.Rows.{AreRows, AreArrayClasses, HaveMasks, IsNullRow, AreFresh, Owns, Marks, Puts, IsBit, IsClassBit, IsArraysBit, IsInnerBit, IsTypeBit, IsBitBelow, IsThere, row_at, row_words, words_at};

use crate::reference::{Inner, Reference};
use std::alloc::{AllocError, Global};
use wf_base::{ClassId, Items, TargetId, Text};
use wf_classes::Classes;
use wf_classes::heights::add;

/// The rows of all targets: bit t + 1 of a target's row is set where type t is under it. Null is type 0.
#[derive(Drop)]
pub struct Rows {
    /// How many words a row has.
    width: usize,
    /// The place of each target's row. Targets that null alone is under have the first row.
    places: Vec<u32>,
    rows: Vec<Items<u64>>,
}

/// The classes that every array is under, where they are loadable.
#[derive(Clone, Copy)]
struct ArrayClasses {
    object: Option<ClassId>,
    cloneable: Option<ClassId>,
    serializable: Option<ClassId>,
}

fn array_classes(classes: &Classes) -> ArrayClasses
    ensures { AreArrayClasses classes.now result }
{
    ArrayClasses {
        object: classes.find(b"java/lang/Object".as_slice()),
        cloneable: classes.find(b"java/lang/Cloneable".as_slice()),
        serializable: classes.find(b"java/io/Serializable".as_slice()),
    }
}

/// A row that null alone is in.
fn null_row(alloc: Global, width: usize) -> Result<Items<u64>, AllocError>
    requires { 0 < width }
    ensures { IfOk result (IsNullRow width) }
{
    let mut words = vec![in alloc; 0u64; width]?;
    add(words.as_mut_slice(), 1);
    Ok(Items::from_vec(words))
}

/// Rows that null alone is in.
fn fresh_rows(alloc: Global, width: usize, targets: u32) -> Result<Rows, AllocError>
    requires { 0 < width }
    ensures { IfOk result (λ rows. AreFresh width targets rows) }
{
    let places = vec![in alloc; 0u32; targets as usize]?;
    let mut rows = Vec::new(alloc);
    rows.push(null_row(alloc, width)?)?;
    Ok(Rows {
        width,
        places,
        rows,
    })
}

/// The place of a target's own row, which is made where there is none.
fn own_row(alloc: Global, rows: &mut Rows, u: u32) -> Result<usize, AllocError>
    requires kept { AreRows rows.old }
    requires inside { u < length rows.old.places.items }
    ensures { IfOk result (λ i. Owns rows.old rows.new u i) }
{
    let place = rows.places[u as usize];
    if place != 0 {
        return Ok(place as usize);
    }
    let count = rows.rows.len();

    // As many rows don't fit into memory.
    if count >= 4294967295 {
        return Err(AllocError);
    }
    let row = null_row(alloc, rows.width)?;
    rows.rows.push(row)?;
    rows.places[u as usize] = count as u32;
    Ok(count)
}

/// Sets a bit of a row.
fn mark(rows: &mut [Items<u64>], i: usize, b: u32)
    requires there { i < length rows.old }
    requires room { b / 64 < length (words_at rows.old i) }
    ensures { Marks rows.old rows.new i b }
{
    add(rows[i].as_mut_slice(), b);
}

/// Sets a bit of a target's row.
fn put(alloc: Global, rows: &mut Rows, u: u32, b: u32) -> Result<(), AllocError>
    requires kept { AreRows rows.old }
    requires inside { u < length rows.old.places.items }
    requires room { b / 64 < rows.old.width }
    ensures { OnOk result (Puts rows.old rows.new (IsBit u b)) }
{
    let i = own_row(alloc, rows, u)?;
    mark(rows.rows.as_mut_slice(), i, b);
    Ok(())
}

/// Sets a bit of the row of a class, if it is there. The numbers of classes follow a first one.
fn put_class(
    alloc: Global,
    rows: &mut Rows,
    first: u32,
    class: Option<ClassId>,
    b: u32,
) -> Result<(), AllocError>
    requires kept { AreRows rows.old }
    requires inside { (c : ℕ) → number_in class ≡ Some c → first + c < length rows.old.places.items }
    requires room { b / 64 < rows.old.width }
    ensures { OnOk result (Puts rows.old rows.new (IsClassBit first b (λ c. number_in class ≡ Some c))) }
{
    match class {
        Some(c) => put(alloc, rows, first + c.0, b),
        None => Ok(()),
    }
}

/// Sets a bit of the rows of the classes above arrays.
fn put_array_classes(
    alloc: Global,
    rows: &mut Rows,
    classes: &Classes,
    above: ArrayClasses,
    first: u32,
    b: u32,
) -> Result<(), AllocError>
    requires above { AreArrayClasses classes.now above }
    requires kept { AreRows rows.old }
    requires inside { first + length classes.now ≤ length rows.old.places.items }
    requires room { b / 64 < rows.old.width }
    ensures { OnOk result (Puts rows.old rows.new (IsClassBit first b (IsAboveArrays classes.now))) }
{
    put_class(alloc, rows, first, above.object, b)?;
    put_class(alloc, rows, first, above.cloneable, b)?;
    put_class(alloc, rows, first, above.serializable, b)
}

/// Sets a bit of the rows of the classes above arrays, and of their arrays below a number of dimensions.
fn put_above_arrays(
    alloc: Global,
    rows: &mut Rows,
    classes: &Classes,
    above: ArrayClasses,
    dims: u32,
    b: u32,
) -> Result<(), AllocError>
    requires above { AreArrayClasses classes.now above }
    requires kept { AreRows rows.old }
    requires inside { dims * (length classes.now + 8) ≤ length rows.old.places.items }
    requires room { b / 64 < rows.old.width }
    ensures { OnOk result (Puts rows.old rows.new (IsArraysBit classes.now dims b)) }
{
    let step = classes.list().as_slice().len() as u32 + 8;
    for n in 0..dims {
        put_array_classes(alloc, rows, classes, above, n * step, b)?;
    }
    Ok(())
}

/// Sets a bit of the rows of the classes above a class.
fn put_classes_above(
    alloc: Global,
    rows: &mut Rows,
    classes: &Classes,
    class: ClassId,
    first: u32,
    b: u32,
) -> Result<(), AllocError>
    requires class { class.0 < length classes.now }
    requires kept { AreRows rows.old }
    requires inside { first + length classes.now ≤ length rows.old.places.items }
    requires room { b / 64 < rows.old.width }
    ensures { OnOk result (Puts rows.old rows.new (IsClassBit first b (IsAbove classes.now class.0))) }
{
    let above = classes.above(class);
    let heights = above.heights().heights;
    let mut bound = classes.list().as_slice().len() as u32;
    while let Some(d) = above.highest_below(bound) {
        put(alloc, rows, first + d.0, b)?;
        bound = heights[d.0 as usize];
    }
    Ok(())
}

/// Sets a bit of the rows of what is above an inner type.
fn put_inner(
    alloc: Global,
    rows: &mut Rows,
    classes: &Classes,
    inner: Inner,
    first: u32,
    b: u32,
) -> Result<(), AllocError>
    requires class { IsThere (length classes.now) inner }
    requires kept { AreRows rows.old }
    requires inside { first + (length classes.now + 8) ≤ length rows.old.places.items }
    requires room { b / 64 < rows.old.width }
    ensures { OnOk result (Puts rows.old rows.new (IsInnerBit classes.now inner first b)) }
{
    match inner {
        Inner::Class(c) => put_classes_above(alloc, rows, classes, c, first, b),
        Inner::Primitive(p) => {
            let count = classes.list().as_slice().len() as u32;
            put(alloc, rows, first + (count + p), b)
        }
    }
}

/// Sets the bit of a type in the rows of what it is under.
fn put_type(
    alloc: Global,
    rows: &mut Rows,
    classes: &Classes,
    above: ArrayClasses,
    r: Reference,
    b: u32,
) -> Result<(), AllocError>
    requires above { AreArrayClasses classes.now above }
    requires class { IsThere (length classes.now) r.inner }
    requires kept { AreRows rows.old }
    requires inside { (r.dims + 1) * (length classes.now + 8) ≤ length rows.old.places.items }
    requires room { b / 64 < rows.old.width }
    ensures { OnOk result (Puts rows.old rows.new (IsTypeBit classes.now r b)) }
{
    let step = classes.list().as_slice().len() as u32 + 8;
    put_above_arrays(alloc, rows, classes, above, r.dims, b)?;
    put_inner(alloc, rows, classes, r.inner, r.dims * step, b)
}

/// Sets the bits of the types in the rows of what they are under.
fn put_types(
    alloc: Global,
    rows: &mut Rows,
    classes: &Classes,
    references: &[Reference],
) -> Result<(), AllocError>
    requires few { length references.now < 2 ^ 32 - 1 }
    requires there { (i : ℕ) (r : Reference) → slice_get references.now i ≡ Some r → IsThere (length classes.now) r.inner }
    requires kept { AreRows rows.old }
    requires inside { (i : ℕ) (r : Reference) → slice_get references.now i ≡ Some r → (r.dims + 1) * (length classes.now + 8) ≤ length rows.old.places.items }
    requires room { rows.old.width ≡ row_words (length references.now) }
    ensures { OnOk result (Puts rows.old rows.new (IsBitBelow classes.now references.now (length references.now))) }
{
    let above = array_classes(classes);
    for i in 0..references.len() {
        put_type(alloc, rows, classes, above, references[i], i as u32 + 2)?;
    }
    Ok(())
}

/// The rows of the types of a run.
pub fn rows_of(
    alloc: Global,
    classes: &Classes,
    names: &[Text],
    references: &[Reference],
    deepest: u32,
) -> Result<Rows, AllocError>
    requires few { length names.now < 2 ^ 32 - 1 }
    requires named { AreReferences classes.now names.now references.now }
    requires depth { IsDeepest references.now deepest }
    ensures { IfOk result (λ rows. HaveMasks (record { classes = classes.now; names = names.now; references = references.now; deepest = deepest }) rows) }
{
    let count = classes.list().as_slice().len() as u32;
    let targets = (deepest + 1) * (count + 8) + 1;
    let mut rows = fresh_rows(alloc, (names.len() + 1) / 64 + 1, targets)?;
    put_types(alloc, &mut rows, classes, references)?;
    Ok(rows)
}

impl Rows {
    /// How many targets there are.
    pub fn targets(&self) -> u32
        requires { AreRows self.now }
        ensures { result ≡ length self.now.places.items }
    {
        self.places.len() as u32
    }

    /// The row of a target.
    pub fn row(&self, u: TargetId) -> &[u64]
        requires kept { AreRows self.now }
        requires inside { u.0 < length self.now.places.items }
        ensures { result.now ≡ row_at self.now u.0 }
    {
        self.rows[self.places[u.0 as usize] as usize].as_slice()
    }
}
