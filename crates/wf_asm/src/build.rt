//! The classes that listings say.

ghost use Rattle.std.specs.Prelude.{◌≡◌, ◌≤◌, length, map, option_map, option_and_then, IfOk};
ghost use Rattle.std.specs.Option.{option_map_or};
ghost use Rattle.wf_listing.specs.declared.listing.Constant.TheVariants as constant;
ghost use Rattle.wf_asm.specs.Building.{body_on, class_of, class_with, classes_of, code_in, code_of, field_of, handler_of, item_on, method_of, methods_of, nothing_yet, short_enough, statement_on, step_bytes, with_bytes, with_handler};
ghost use Rattle.wf_asm.specs.Constants.{place_of};
ghost use Rattle.wf_asm.specs.Giving.{Gives, GivesAs};
ghost use Rattle.wf_asm.specs.Putting.{Puts};
ghost use Rattle.wf_listing.specs.Saying.{Says};

use crate::code::CodeSoFar;
use crate::emit::put_step;
use crate::fault::AsmFault;
use crate::labels::{Labels, labels_of};
use crate::pool::Pool;
use crate::uses::constants_of;
use std::alloc::{AllocError, Global};
use wf_base::{Items, Text};
use wf_data::{ClassInfo, CodeInfo, FieldInfo, Handler, MethodInfo};
use wf_listing::{
    Constant, Item, Listed, ListedCatch, ListedField, ListedMethod, Statement, Step, Stop,
};

/// How many constants a pool has places for, besides place 0.
const PLACES: usize = 65534;

/// How many bytes a code may have (JVMS 4.7.3).
const LONGEST: usize = 65535;

/// The version of the class files, that of Java 8.
const MAJOR: u16 = 52;

/// How many places a method has for its stack, and for its locals.
const PLACES_OF_METHOD: u16 = 32;

/// The place of the class that is caught, or 0 where everything is.
fn catch_class(pool: &Pool, name: &Option<Text>) -> Result<u16, AllocError>
    requires { length pool.now ≤ 65534 }
    ensures { IfOk result (λ place. place ≡ option_map_or (λ n. place_of pool.now (constant.Class n)) name.now 0) }
{
    match name {
        Some(name) => pool.class_place(name),
        None => Ok(0),
    }
}

/// The entry of the exception table that a catch line makes.
#[tactic(auto, unfolding(crate::specs::Building::handler_of))]
fn handler_of(pool: &Pool, labels: &Labels<'_>, catch: &ListedCatch) -> Result<Handler, Stop>
    requires { length pool.now ≤ 65534 }
    ensures { Says result (handler_of pool.now labels.now catch.now) }
{
    let start = labels
        .short_place(catch.from.as_slice())
        .ok_or(Stop::NotOfForm)?;
    let end = labels
        .short_place(catch.to.as_slice())
        .ok_or(Stop::NotOfForm)?;
    let target = labels
        .short_place(catch.handler.as_slice())
        .ok_or(Stop::NotOfForm)?;
    Ok(Handler {
        start,
        end,
        target,
        catch_class: catch_class(pool, &catch.class)?,
    })
}

fn put_handler(
    pool: &Pool,
    labels: &Labels<'_>,
    catch: &ListedCatch,
    so_far: &mut CodeSoFar,
) -> Result<(), Stop>
    requires { length pool.now ≤ 65534 }
    ensures { Puts result so_far.new (option_map (with_handler so_far.old) (handler_of pool.now labels.now catch.now)) }
{
    let handler = handler_of(pool, labels, catch)?;
    match so_far.table.push(handler) {
        Ok(()) => Ok(()),
        Err(_) => Err(Stop::NoMemory),
    }
}

fn put_code(
    pool: &Pool,
    labels: &Labels<'_>,
    step: &Step,
    so_far: &mut CodeSoFar,
) -> Result<(), Stop>
    requires { length pool.now ≤ 65534 }
    ensures { Puts result so_far.new (option_map (with_bytes so_far.old) (step_bytes pool.now labels.now (length so_far.old.code) step.now)) }
{
    let at = so_far.code.as_slice().len();
    put_step(pool, labels, at, step, &mut so_far.code)
}

/// Puts what an item adds. A label has no bytes, and is given once.
fn put_item(
    pool: &Pool,
    labels: &Labels<'_>,
    line: u32,
    item: &Item,
    so_far: &mut CodeSoFar,
) -> Result<(), Stop>
    requires { length pool.now ≤ 65534 }
    ensures { Puts result so_far.new (item_on pool.now labels.now line so_far.old item.now) }
{
    match item {
        Item::Label(name) if !labels.is_first(name.as_slice(), line) => Err(Stop::NotOfForm),
        Item::Label(_) => Ok(()),
        Item::Step(step) => put_code(pool, labels, step, so_far),
        Item::Catch(catch) => put_handler(pool, labels, catch, so_far),
    }
}

/// Puts what an item adds, where the code gets no longer than a code may be.
fn put_short(
    pool: &Pool,
    labels: &Labels<'_>,
    line: u32,
    item: &Item,
    so_far: &mut CodeSoFar,
) -> Result<(), Stop>
    requires { length pool.now ≤ 65534 }
    ensures { Puts result so_far.new (option_and_then short_enough (item_on pool.now labels.now line so_far.old item.now)) }
{
    put_item(pool, labels, line, item, so_far)?;
    if so_far.code.as_slice().len() > LONGEST {
        return Err(Stop::NotOfForm);
    }
    Ok(())
}

/// Puts what a statement adds, which goes wrong at its line.
fn put_statement(
    pool: &Pool,
    labels: &Labels<'_>,
    statement: &Statement,
    so_far: &mut CodeSoFar,
) -> Result<(), AsmFault>
    requires { length pool.now ≤ 65534 }
    ensures { GivesAs (λ _. so_far.new) result (statement_on pool.now labels.now so_far.old statement.now) }
{
    match put_short(pool, labels, statement.line, &statement.says, so_far) {
        Ok(()) => Ok(()),
        Err(Stop::NotOfForm) => Err(AsmFault::BadLine {
            line: statement.line,
        }),
        Err(Stop::NoMemory) => Err(AsmFault::NoMemory),
    }
}

/// Puts the statements of a body.
#[tactic(auto, using(crate::proofs::BodyLaws::statements))]
fn put_statements(
    alloc: Global,
    pool: &Pool,
    labels: &Labels<'_>,
    body: &[Statement],
) -> Result<CodeSoFar, AsmFault>
    requires { length pool.now ≤ 65534 }
    ensures { Gives result (body_on pool.now labels.now nothing_yet body.now) }
{
    let mut so_far = CodeSoFar {
        code: Text::new(alloc),
        table: Items::new(alloc),
    };
    for statement in body {
        put_statement(pool, labels, statement, &mut so_far)?;
    }
    Ok(so_far)
}

/// The code of a body.
#[tactic(auto, unfolding(crate::specs::Building::code_of))]
fn code_of(alloc: Global, pool: &Pool, body: &[Statement]) -> Result<CodeInfo, AsmFault>
    requires { length pool.now ≤ 65534 }
    ensures { Gives result (code_of pool.now body.now) }
{
    let labels = labels_of(alloc, pool, body)?;
    let so_far = put_statements(alloc, pool, &labels, body)?;
    Ok(CodeInfo {
        max_stack: PLACES_OF_METHOD,
        max_locals: PLACES_OF_METHOD,
        code: so_far.code,
        table: so_far.table,
    })
}

fn code_in(
    alloc: Global,
    pool: &Pool,
    body: &Option<Items<Statement>>,
) -> Result<Option<CodeInfo>, AsmFault>
    requires { length pool.now ≤ 65534 }
    ensures { Gives result (code_in pool.now body.now) }
{
    match body {
        Some(body) => Ok(Some(code_of(alloc, pool, body.as_slice())?)),
        None => Ok(None),
    }
}

fn method_of(alloc: Global, pool: &Pool, method: &ListedMethod) -> Result<MethodInfo, AsmFault>
    requires { length pool.now ≤ 65534 }
    ensures { Gives result (method_of pool.now method.now) }
{
    Ok(MethodInfo {
        name: method.name.clone()?,
        desc: method.desc.clone()?,
        flags: method.flags,
        code: code_in(alloc, pool, &method.body)?,
    })
}

/// The methods of a class.
#[tactic(auto, using(crate::proofs::ClassLaws::methods))]
fn methods_of(
    alloc: Global,
    pool: &Pool,
    listed: &[ListedMethod],
) -> Result<Items<MethodInfo>, AsmFault>
    requires { length pool.now ≤ 65534 }
    ensures { Gives result (methods_of pool.now listed.now) }
{
    let mut methods = Vec::new(alloc);
    for method in listed {
        methods.push(method_of(alloc, pool, method)?)?;
    }
    Ok(Items::from_vec(methods))
}

/// The place of a field's constant, where it has one.
fn value_place(pool: &Pool, value: Option<i32>) -> Option<u16>
    requires { length pool.now ≤ 65534 }
    ensures { result ≡ option_map (λ n. place_of pool.now (constant.Int n)) value }
{
    match value {
        Some(value) => Some(pool.place(&Constant::Int(value))),
        None => None,
    }
}

fn field_of(pool: &Pool, field: &ListedField) -> Result<FieldInfo, AllocError>
    requires { length pool.now ≤ 65534 }
    ensures { IfOk result (λ f. f ≡ field_of pool.now field.now) }
{
    Ok(FieldInfo {
        name: field.name.clone()?,
        desc: field.desc.clone()?,
        flags: field.flags,
        constant: value_place(pool, field.constant),
    })
}

/// The fields of a class.
fn fields_of(
    alloc: Global,
    pool: &Pool,
    listed: &[ListedField],
) -> Result<Items<FieldInfo>, AllocError>
    requires { length pool.now ≤ 65534 }
    ensures { IfOk result (λ fields. fields ≡ map (field_of pool.now) listed.now) }
{
    let mut fields = Vec::new(alloc);
    for field in listed {
        fields.push(field_of(pool, field)?)?;
    }
    Ok(Items::from_vec(fields))
}

fn interfaces_of(alloc: Global, names: &[Text]) -> Result<Items<Text>, AllocError>
    ensures { IfOk result (λ interfaces. interfaces ≡ names.now) }
{
    let mut interfaces = Vec::new(alloc);
    for name in names {
        interfaces.push(name.clone()?)?;
    }
    Ok(Items::from_vec(interfaces))
}

/// The class around its methods.
#[tactic(auto, unfolding(crate::specs::Building::class_with))]
fn class_with(
    alloc: Global,
    listed: &Listed,
    pool: &Pool,
    methods: Items<MethodInfo>,
) -> Result<ClassInfo, AllocError>
    requires { length pool.now ≤ 65534 }
    ensures { IfOk result (λ class. class ≡ class_with listed.now pool.now methods) }
{
    Ok(ClassInfo {
        name: listed.name.clone()?,
        superclass: listed.superclass.clone()?,
        interfaces: interfaces_of(alloc, listed.interfaces.as_slice())?,
        flags: listed.flags,
        major: MAJOR,
        pool: pool.entries(alloc)?,
        fields: fields_of(alloc, pool, listed.fields.as_slice())?,
        methods,
    })
}

/// The class that a listing says; or the line that is wrong, which is the class's own where its constants are more
/// than a pool has places.
#[tactic(auto, unfolding(crate::specs::Building::class_of))]
pub fn class_of(alloc: Global, listed: &Listed) -> Result<ClassInfo, AsmFault>
    ensures { Gives result (class_of listed.now) }
{
    let pool = constants_of(alloc, listed)?;
    if pool.len() > PLACES {
        return Err(AsmFault::BadLine { line: listed.line });
    }
    let methods = methods_of(alloc, &pool, listed.methods.as_slice())?;
    Ok(class_with(alloc, listed, &pool, methods)?)
}

/// The classes that a listing says; or the first line that is wrong.
#[tactic(auto, using(crate::proofs::ClassLaws::classes))]
pub fn classes_of(alloc: Global, listed: &[Listed]) -> Result<Items<ClassInfo>, AsmFault>
    ensures { Gives result (classes_of listed.now) }
{
    let mut classes = Vec::new(alloc);
    for class in listed {
        classes.push(class_of(alloc, class)?)?;
    }
    Ok(Items::from_vec(classes))
}
