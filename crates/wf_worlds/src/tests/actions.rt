//! What instructions do, by what they name.

use super::made::closed;
use std::alloc::{AllocError, Global};
use std::test::Fail;
use wf_actions::{Instruction, action_of};
use wf_base::{ClassId, FieldId, Items, Kind, MethodId};
use wf_binding::{LiteralNumbers, ValueNumbers};
use wf_data::{ClassInfo, Placed};
use wf_opcode::decode;
use wf_operation::operation_of;
use wf_rows::{Action, Computation, FieldUse, Making, TypeTest};
use wf_subtype::{Types, types_of};

const LISTING: &[u8] = b"class java/lang/Object
class java/lang/String
field value I
class A
field static f I
field static l J
field o LA;
method static main ()V
iconst_1
ldc \"x\"
ldc int 70000
getstatic A.f I
putstatic A.l J
getfield A.o LA;
putfield A.o LA;
new A
newarray int
anewarray A
multianewarray [[LA; 2
checkcast A
instanceof Missing
invokestatic A.s (IJLA;)V
invokevirtual A.v (J)I
invokespecial A.v (J)I
getstatic A.none I
new Missing
return
end
method static s (IJLA;)V
return
end
method v (J)I
iconst_0
ireturn
end
";

/// An action as a word and two numbers: of the field, the type, the target or the depth, and of the kind, the class or the
/// length of a list.
type Said = (&'static [u8], usize, usize);

/// A kind as a number.
fn of_kind(kind: Kind) -> usize {
    match kind {
        Kind::Int => 1,
        Kind::Long => 2,
        Kind::Ref => 3,
        Kind::Float | Kind::Double => 4,
    }
}

fn said_of_field(field: &FieldUse) -> Said {
    match field {
        FieldUse::GetStatic(Ok(f)) => (b"get_static", f.field.0 as usize, f.class.0 as usize),
        FieldUse::PutStatic(Ok(f), kind) => (b"put_static", f.field.0 as usize, of_kind(*kind)),
        FieldUse::Get(Ok(f)) => (b"get", f.0 as usize, 0),
        FieldUse::Put(Ok(f), kind) => (b"put", f.0 as usize, of_kind(*kind)),
        FieldUse::GetStatic(Err(error))
        | FieldUse::PutStatic(Err(error), _)
        | FieldUse::Get(Err(error))
        | FieldUse::Put(Err(error), _) => (error.word(), 0, 0),
    }
}

fn said_of_making(making: &Making) -> Said {
    match making {
        Making::Object(Ok(object)) => (b"new", object.made.0 as usize, object.class.0 as usize),
        Making::Array(Ok(t)) => (b"array", t.0 as usize, 0),
        Making::ManyArray(Ok(many)) => (b"arrays", many.array.0 as usize, many.components.len()),
        Making::Object(Err(error)) | Making::Array(Err(error)) | Making::ManyArray(Err(error)) => {
            (error.word(), 0, 0)
        }
    }
}

fn said_of_test(test: &TypeTest) -> Said {
    match test {
        TypeTest::Cast(Ok(u)) => (b"cast", u.0 as usize, 0),
        TypeTest::InstanceOf(Ok(u)) => (b"instance_of", u.0 as usize, 0),
        TypeTest::Cast(Err(error)) | TypeTest::InstanceOf(Err(error)) => (error.word(), 0, 0),
    }
}

/// A depth, where it is there.
fn first_of(depths: &Items<usize>) -> usize {
    match depths.as_slice().first() {
        Some(depth) => *depth,
        None => 99,
    }
}

fn said(action: &Action) -> Said {
    match action {
        Action::Computes(Computation::Int(n)) => (b"int", n.unsigned_abs() as usize, 0),
        Action::Literal(Ok(literal)) => {
            (b"literal", literal.class.0 as usize, literal.fields.len())
        }
        Action::Literal(Err(error)) => (error.word(), 0, 0),
        Action::Field(field) => said_of_field(field),
        Action::Makes(making) => said_of_making(making),
        Action::Tests(test) => said_of_test(test),
        Action::CallsStatic(Ok(call)) => {
            (b"static", first_of(&call.arguments), call.arguments.len())
        }
        Action::Calls(Ok(call)) => (b"call", call.receiver, call.arguments.len()),
        Action::CallsStatic(Err(error)) | Action::Calls(Err(error)) => (error.word(), 0, 0),
        Action::Returns(None) => (b"return", 0, 0),
        _ => (b"other", 0, 0),
    }
}

/// What an instruction of a class does, where the summary says that values of strings are any ints.
fn said_at(
    alloc: Global,
    types: &Types,
    class: &ClassInfo,
    placed: &Placed,
) -> Result<Said, AllocError> {
    let value = LiteralNumbers {
        field: FieldId(3),
        value: ValueNumbers::AnyInt,
    };
    if types.classes().fields() != 4 {
        return Ok((b"fields", 0, 0));
    }
    let Some(operation) = operation_of(alloc, class.pool.as_slice(), &placed.instr)? else {
        return Ok((b"refused", 0, 0));
    };
    let at = Instruction {
        pool: class.pool.as_slice(),
        instr: &placed.instr,
        operation: &operation,
        site: 7,
        candidates: &[MethodId(2)],
    };
    match action_of(alloc, types, &[value], &at)? {
        Some(action) => Ok(said(&action)),
        None => Ok((b"none", 0, 0)),
    }
}

/// The instructions of the first method of a class.
fn instructions(alloc: Global, class: &ClassInfo) -> Result<Items<Placed>, Fail> {
    match class.methods.as_slice().first() {
        Some(method) => match &method.code {
            Some(code) if code.code.as_slice().len() <= 65535 => {
                Ok(decode(alloc, code.code.as_slice())?)
            }
            _ => Ok(Items::new(alloc)),
        },
        None => Ok(Items::new(alloc)),
    }
}

/// Fields, methods and types have numbers by the bytes of their names, and targets those of classes.
#[test]
fn actions_of_instructions(rt: HostRuntime) -> Result<(), Fail> {
    let alloc = rt.alloc();
    let expected: [Said; 19] = [
        (b"int", 1, 0),
        (b"literal", 6, 1),
        (b"int", 70000, 0),
        (b"get_static", 0, 0),
        (b"put_static", 1, 2),
        (b"get", 2, 0),
        (b"put", 2, 3),
        (b"new", 1, 0),
        (b"array", 2, 0),
        (b"array", 3, 0),
        (b"arrays", 4, 1),
        (b"cast", 0, 0),
        (b"NoClassDefFoundError", 0, 0),
        (b"static", 3, 3),
        (b"call", 2, 1),
        (b"call", 2, 1),
        (b"NoSuchFieldError", 0, 0),
        (b"NoClassDefFoundError", 0, 0),
        (b"return", 0, 0),
    ];
    let Some(classes) = closed(alloc, LISTING)? else {
        assert!(rt; false);
        return Ok(());
    };
    let types = types_of(alloc, classes, &Items::new(alloc))?;
    let Some(class) = types.classes().list().as_slice().first() else {
        assert!(rt; false);
        return Ok(());
    };
    let placed = instructions(alloc, class)?;
    assert_eq!(rt; placed.len(), expected.len());
    for (place, wanted) in placed.as_slice().iter().zip(expected) {
        let found = said_at(alloc, &types, class, place)?;
        assert!(rt; found.0 == wanted.0);
        assert!(rt; found.1 == wanted.1 && found.2 == wanted.2);
    }
    Ok(())
}
