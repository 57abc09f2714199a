ghost use Rattle.std.specs.Prelude.{◌≡◌, ◌+◌, ◌^◌, ◌<◌, ◌≤◌, ◌==◌, position};
ghost use Rattle.std.specs.Option.{option_copied};
ghost use Rattle.wf_classes.specs.World.{IsClosedWorld, number_in};
ghost use Rattle.wf_subtype.specs.References.{is_primitive, component_of, letters, brackets, IsClassText, IsPrimitiveOf, IsReferenceOf, IsInnerOf, inner_number, target_number, class_of_objects};

use wf_base::ClassId;
use wf_classes::Classes;

/// A class, or what an array has below its dimensions.
#[derive(Clone, Copy, Debug, PartialEq, Eq)]
pub enum Inner {
    Class(ClassId),
    /// A primitive type, by its place among the letters B, C, D, F, I, J, S and Z.
    Primitive(u32),
}

/// A class or an array.
#[derive(Clone, Copy, Debug, PartialEq, Eq)]
pub struct Reference {
    /// How many dimensions an array has; 0 for a class.
    pub dims: u32,
    pub inner: Inner,
}

fn is_primitive(inner: Inner) -> bool
    ensures { result ≡ is_primitive inner }
{
    match inner {
        Inner::Class(_) => false,
        Inner::Primitive(_) => true,
    }
}

/// The component of an array, where that is a class or an array. None for a class, and for an array of a primitive
/// type.
pub fn component_of(r: Reference) -> Option<Reference>
    ensures { result ≡ component_of r }
{
    if r.dims == 0 {
        return None;
    }
    if r.dims == 1 && is_primitive(r.inner) {
        return None;
    }
    Some(Reference {
        dims: r.dims - 1,
        inner: r.inner,
    })
}

/// How many `[` a name begins with.
pub fn brackets(name: &[u8]) -> usize
    ensures { result ≡ brackets name.now }
{
    name.iter().take_while(|b| **b == b'[').count()
}

/// What stands between an `L` and a `;`.
fn class_text(text: &[u8]) -> Option<&[u8]>
    ensures { IsClassText text.now (option_copied result) }
{
    match text.strip_prefix(b"L".as_slice()) {
        Some(rest) => rest.strip_suffix(b";".as_slice()),
        None => None,
    }
}

fn letter_place(letter: u8) -> Option<usize>
    ensures { result ≡ position (λ l. l == letter) letters }
{
    [66, 67, 68, 70, 73, 74, 83, 90]
        .iter()
        .position(|l| *l == letter)
}

/// The primitive type of a letter that stands alone.
fn primitive_of(text: &[u8]) -> Option<u32>
    ensures { IsPrimitiveOf text.now result }
{
    match text {
        [letter] => match letter_place(*letter) {
            Some(p) => Some(p as u32),
            None => None,
        },
        _ => None,
    }
}

/// What stands behind the `[` of an array's name.
fn inner_of(classes: &Classes, text: &[u8]) -> Option<Inner>
    requires { IsClosedWorld classes.now }
    ensures { IsInnerOf classes.now text.now result }
{
    match class_text(text) {
        Some(name) => match classes.find(name) {
            Some(c) => Some(Inner::Class(c)),
            None => None,
        },
        None => match primitive_of(text) {
            Some(p) => Some(Inner::Primitive(p)),
            None => None,
        },
    }
}

/// The class or the array of a name. None exactly where no class that is there and no array of one has the name.
pub fn reference_of(classes: &Classes, name: &[u8]) -> Option<Reference>
    requires { IsClosedWorld classes.now }
    ensures { IsReferenceOf classes.now name.now result }
{
    let dims = brackets(name);
    if dims == 0 {
        return match classes.find(name) {
            Some(c) => Some(Reference {
                dims: 0,
                inner: Inner::Class(c),
            }),
            None => None,
        };
    }
    if dims > 255 {
        return None;
    }
    match inner_of(classes, &name[dims..]) {
        Some(inner) => Some(Reference {
            dims: dims as u32,
            inner,
        }),
        None => None,
    }
}

fn inner_number(classes: u32, inner: Inner) -> u32
    requires { inner_number classes inner < 2 ^ 32 }
    ensures { result ≡ inner_number classes inner }
{
    match inner {
        Inner::Class(c) => c.0,
        Inner::Primitive(p) => classes + p,
    }
}

/// The number of a class or an array, where there are so many classes.
pub fn target_number(classes: u32, deepest: u32, r: Reference) -> u32
    requires few { classes ≤ 65536 }
    requires shallow { deepest ≤ 255 }
    requires inside { inner_number classes r.inner < classes + 8 }
    ensures { result ≡ target_number classes deepest r }
{
    if r.dims <= deepest {
        r.dims * (classes + 8) + inner_number(classes, r.inner)
    } else {
        (deepest + 1) * (classes + 8)
    }
}

/// The class whose members the objects of a class or an array have: of an array those of `java/lang/Object`.
pub fn class_of_objects(classes: &Classes, r: Reference) -> Option<ClassId>
    ensures { number_in result ≡ class_of_objects classes.now r.dims r.inner }
{
    if r.dims != 0 {
        return classes.find(b"java/lang/Object".as_slice());
    }
    match r.inner {
        Inner::Class(c) => Some(c),
        Inner::Primitive(_) => None,
    }
}
