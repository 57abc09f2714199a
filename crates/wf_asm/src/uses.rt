//! The constants that a class of a listing uses, in the order of its lines.

ghost use Rattle.std.specs.Prelude.{◌≡◌, ◌∷◌, [], codes, IfOk, OnOk};
ghost use Rattle.std.specs.List.{flat_map};
ghost use Rattle.std.specs.Option.{option_map_or};
ghost use Rattle.wf_asm.specs.Constants.{class_parts, with_constants, uses_of_step, uses_of_item, uses_of_statement, uses_of_body, uses_of_method, uses_of_value, uses_of_field, uses_of_head, uses_of, constants_of};

use crate::pool::Pool;
use std::alloc::{AllocError, Global};
use wf_base::Text;
use wf_listing::{Constant, Item, Listed, ListedField, ListedMethod, Statement, Step};

/// The attribute that holds a method's code.
pub const CODE: &[u8] = b"Code";

/// The attribute that holds a static field's constant.
pub const CONSTANT_VALUE: &[u8] = b"ConstantValue";

/// Adds a class, where one is named.
fn add_named(pool: &mut Pool, name: &Option<Text>) -> Result<(), AllocError>
    ensures { OnOk result (pool.new ≡ with_constants pool.old (option_map_or class_parts name.now [])) }
{
    match name {
        Some(name) => pool.add_class(name),
        None => Ok(()),
    }
}

fn add_step(pool: &mut Pool, step: &Step) -> Result<(), AllocError>
    ensures { OnOk result (pool.new ≡ with_constants pool.old (uses_of_step step.now)) }
{
    match step {
        Step::Use(used) => pool.add_parts(&used.constant),
        Step::Load(constant) => pool.add_parts(constant),
        _ => Ok(()),
    }
}

fn add_item(pool: &mut Pool, item: &Item) -> Result<(), AllocError>
    ensures { OnOk result (pool.new ≡ with_constants pool.old (uses_of_item item.now)) }
{
    match item {
        Item::Label(_) => Ok(()),
        Item::Step(step) => add_step(pool, step),
        Item::Catch(catch) => add_named(pool, &catch.class),
    }
}

fn add_statements(pool: &mut Pool, body: &[Statement]) -> Result<(), AllocError>
    ensures { OnOk result (pool.new ≡ with_constants pool.old (flat_map uses_of_statement body.now)) }
{
    for statement in body {
        add_item(pool, &statement.says)?;
    }
    Ok(())
}

fn add_body(alloc: Global, pool: &mut Pool, body: &[Statement]) -> Result<(), AllocError>
    ensures { OnOk result (pool.new ≡ with_constants pool.old (uses_of_body body.now)) }
{
    pool.add(Constant::Text(Text::from_slice(alloc, CODE)?))?;
    add_statements(pool, body)
}

fn add_method(alloc: Global, pool: &mut Pool, method: &ListedMethod) -> Result<(), AllocError>
    ensures { OnOk result (pool.new ≡ with_constants pool.old (uses_of_method method.now)) }
{
    pool.add_text(&method.name)?;
    pool.add_text(&method.desc)?;
    match &method.body {
        Some(body) => add_body(alloc, pool, body.as_slice()),
        None => Ok(()),
    }
}

fn add_value(alloc: Global, pool: &mut Pool, value: i32) -> Result<(), AllocError>
    ensures { OnOk result (pool.new ≡ with_constants pool.old (uses_of_value value)) }
{
    pool.add(Constant::Text(Text::from_slice(alloc, CONSTANT_VALUE)?))?;
    pool.add(Constant::Int(value))
}

fn add_field(alloc: Global, pool: &mut Pool, field: &ListedField) -> Result<(), AllocError>
    ensures { OnOk result (pool.new ≡ with_constants pool.old (uses_of_field field.now)) }
{
    pool.add_text(&field.name)?;
    pool.add_text(&field.desc)?;
    match field.constant {
        Some(value) => add_value(alloc, pool, value),
        None => Ok(()),
    }
}

fn add_classes(pool: &mut Pool, names: &[Text]) -> Result<(), AllocError>
    ensures { OnOk result (pool.new ≡ with_constants pool.old (flat_map class_parts names.now)) }
{
    for name in names {
        pool.add_class(name)?;
    }
    Ok(())
}

fn add_fields(alloc: Global, pool: &mut Pool, fields: &[ListedField]) -> Result<(), AllocError>
    ensures { OnOk result (pool.new ≡ with_constants pool.old (flat_map uses_of_field fields.now)) }
{
    for field in fields {
        add_field(alloc, pool, field)?;
    }
    Ok(())
}

fn add_methods(alloc: Global, pool: &mut Pool, methods: &[ListedMethod]) -> Result<(), AllocError>
    ensures { OnOk result (pool.new ≡ with_constants pool.old (flat_map uses_of_method methods.now)) }
{
    for method in methods {
        add_method(alloc, pool, method)?;
    }
    Ok(())
}

/// Adds what the line of the class names.
#[tactic(auto, using(crate::proofs::ConstantLaws::with_both))]
fn add_head(pool: &mut Pool, listed: &Listed) -> Result<(), AllocError>
    ensures { OnOk result (pool.new ≡ with_constants pool.old (uses_of_head listed.now)) }
{
    pool.add_class(&listed.name)?;
    add_named(pool, &listed.superclass)?;
    add_classes(pool, listed.interfaces.as_slice())
}

/// The constants of a class.
#[tactic(auto, using(crate::proofs::ConstantLaws::with_both), unfolding(crate::specs::Constants::constants_of))]
pub fn constants_of(alloc: Global, listed: &Listed) -> Result<Pool, AllocError>
    ensures { IfOk result (λ pool. pool ≡ constants_of listed.now) }
{
    let mut pool = Pool::new(alloc);
    add_head(&mut pool, listed)?;
    add_fields(alloc, &mut pool, listed.fields.as_slice())?;
    add_methods(alloc, &mut pool, listed.methods.as_slice())?;
    Ok(pool)
}
