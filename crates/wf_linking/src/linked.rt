//! What a symbolic reference resolves to.

ghost use Rattle.std.specs.Prelude.{◌≡◌, ◌<◌, length, IfOk, IfSome, codes};
ghost use Rattle.wf_classes.specs.Members.{field_keys, method_keys, member_count};
ghost use Rattle.wf_classes.specs.World.{number};
ghost use Rattle.wf_linking.specs.Symbolic.{StringConstant, ClassConstant, NewObject, TypeName, FieldName, MethodName, symbolic_by};
ghost use Rattle.wf_linking.specs.Linking.{FoundPlain, Links, Resolves, IsAmongClasses};
ghost use Rattle.wf_names.specs.Members.{named_by};

use crate::symbolic::{SymbolicRef, symbolic_of};
use wf_base::{ClassId, FieldId, MethodId};
use wf_classes::{Classes, declared_field, declared_method};
use wf_data::{Instr, PoolEntry};
use wf_names::{LinkError, MemberRef};
use wf_resolve::{Calling, class_with, field_for, is_plain_at, method_for, new_class};

/// What a symbolic reference resolves to.
#[derive(Clone, Copy, Debug)]
pub enum Linked {
    /// The class of the object that `ldc` gives or `new` makes.
    Object(ClassId),
    /// A class or an array that is loadable: the class whose members it has, `java/lang/Object` for an array.
    Type(ClassId),
    Field(LinkedField),
    Method(LinkedMethod),
}

/// A field, and the class that declares it.
#[derive(Clone, Copy, Debug)]
pub struct LinkedField {
    pub class: ClassId,
    pub field: FieldId,
}

/// A method.
#[derive(Clone, Copy, Debug)]
pub struct LinkedMethod {
    /// The class whose members the class or the array has that the instruction names.
    pub named: ClassId,
    /// The class that declares the method.
    pub class: ClassId,
    pub method: MethodId,
}

/// A class by its name, where it can have objects.
fn plain_class(classes: &Classes, name: &[u8]) -> Option<ClassId>
    ensures found { FoundPlain classes.now name.now result }
    ensures within { IfSome result (λ c. c.0 < length classes.now) }
{
    let c = classes.find(name)?;
    if is_plain_at(classes, c) {
        Some(c)
    } else {
        None
    }
}

fn link_string(classes: &Classes) -> Result<Linked, LinkError>
    ensures is { Links classes.now StringConstant result }
    ensures within { IfOk result (IsAmongClasses classes.now) }
{
    match plain_class(classes, b"java/lang/String") {
        Some(c) => Ok(Linked::Object(c)),
        None => Err(LinkError::NoClassDefFound),
    }
}

fn link_class(classes: &Classes, name: &[u8]) -> Result<Linked, LinkError>
    ensures is { Links classes.now (ClassConstant name.now) result }
    ensures within { IfOk result (IsAmongClasses classes.now) }
{
    let c = match plain_class(classes, b"java/lang/Class") {
        Some(c) => c,
        None => return Err(LinkError::NoClassDefFound),
    };
    match class_with(classes, name) {
        Some(_) => Ok(Linked::Object(c)),
        None => Err(LinkError::NoClassDefFound),
    }
}

fn link_new(classes: &Classes, name: &[u8]) -> Result<Linked, LinkError>
    ensures is { Links classes.now (NewObject name.now) result }
    ensures within { IfOk result (IsAmongClasses classes.now) }
{
    match new_class(classes, name) {
        Ok(c) => Ok(Linked::Object(c)),
        Err(error) => Err(error),
    }
}

fn link_type(classes: &Classes, name: &[u8]) -> Result<Linked, LinkError>
    ensures is { Links classes.now (TypeName name.now) result }
    ensures within { IfOk result (IsAmongClasses classes.now) }
{
    match class_with(classes, name) {
        Some(c) => Ok(Linked::Type(c)),
        None => Err(LinkError::NoClassDefFound),
    }
}

fn link_field(
    classes: &Classes,
    of_class: bool,
    member: &MemberRef<'_>,
) -> Result<Linked, LinkError>
    ensures is { Links classes.now (FieldName of_class (named_by member.now)) result }
    ensures within { IfOk result (IsAmongClasses classes.now) }
{
    match field_for(classes, of_class, member.class, member.name, member.desc) {
        Ok(field) => Ok(Linked::Field(LinkedField {
            class: declared_field(classes, field).class,
            field,
        })),
        Err(error) => Err(error),
    }
}

fn link_method(
    classes: &Classes,
    call: Calling,
    of_interface: bool,
    member: &MemberRef<'_>,
) -> Result<Linked, LinkError>
    ensures is { Links classes.now (MethodName call of_interface (named_by member.now)) result }
    ensures within { IfOk result (IsAmongClasses classes.now) }
{
    let named = match class_with(classes, member.class) {
        Some(c) => c,
        None => return Err(LinkError::NoClassDefFound),
    };
    match method_for(
        classes,
        call,
        of_interface,
        member.class,
        member.name,
        member.desc,
    ) {
        Ok(method) => Ok(Linked::Method(LinkedMethod {
            named,
            class: declared_method(classes, method).class,
            method,
        })),
        Err(error) => Err(error),
    }
}

/// What a symbolic reference resolves to, or the error with which a place that has it fails to link. No call takes
/// memory.
pub fn link(classes: &Classes, symbolic: &SymbolicRef<'_>) -> Result<Linked, LinkError>
    ensures is { Links classes.now (symbolic_by symbolic.now) result }
    ensures within { IfOk result (IsAmongClasses classes.now) }
{
    match symbolic {
        SymbolicRef::StringConstant => link_string(classes),
        SymbolicRef::ClassConstant(name) => link_class(classes, name),
        SymbolicRef::NewObject(name) => link_new(classes, name),
        SymbolicRef::TypeName(name) => link_type(classes, name),
        SymbolicRef::FieldName { of_class, member } => link_field(classes, *of_class, member),
        SymbolicRef::MethodName {
            call,
            of_interface,
            member,
        } => link_method(classes, *call, *of_interface, member),
    }
}

/// What an instruction resolves to, where its class has this constant pool. None where it names nothing that is resolved:
/// no other instruction fails to link.
pub fn resolve(
    classes: &Classes,
    pool: &[PoolEntry],
    instr: &Instr,
) -> Option<Result<Linked, LinkError>>
    ensures is { Resolves classes.now pool.now instr.now result }
    ensures within { IfSome result (λ r. IfOk r (IsAmongClasses classes.now)) }
{
    match symbolic_of(pool, instr) {
        Some(symbolic) => Some(link(classes, &symbolic)),
        None => None,
    }
}
