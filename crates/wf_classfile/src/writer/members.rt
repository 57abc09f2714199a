//! Fields, methods and their attributes (JVMS 4.5, 4.6, 4.7).

ghost use Rattle.std.specs.Prelude.{◌≡◌, ◌-◌, ◌^◌, ◌++◌, ◌∷◌, [], not, ◌&&◌, ◌==◌, nat_lt, nat_le, length, min, IfOk, Some};
ghost use Rattle.std.specs.Int.{w32};
ghost use Rattle.wf_data.specs.Flags.{is_static, is_native_or_abstract};
ghost use Rattle.wf_grammar.specs.ClassFile.{has_constant_of, parameter_slots};
ghost use Rattle.wf_grammar.specs.Writing.{put_constant, put_field_attributes, put_member, put_field, put_fields, put_handler, put_handlers, put_number, put_code, code_size, put_code_attribute, put_method_attributes, put_method, put_methods};
ghost use Rattle.wf_classfile.specs.Writers.{Writes};

use super::items::{put, put_count, put_length, put_u2, put_u4};
use super::places::put_text_place;
use crate::constants::has_constant_of;
use crate::fault::SpellFault;
use crate::keys::Keys;
use wf_data::{
    CodeInfo, FieldInfo, Handler, MethodInfo, PoolEntry, is_native_or_abstract, is_static,
};
use wf_descriptor::{is_field_descriptor, is_method_descriptor};
use wf_names::{is_field_name, is_method_name};

/// A ConstantValue with its count.
#[tactic(auto, unfolding(wf_grammar::specs::Writing::put_constant))]
fn put_constant(
    out: &mut Vec<u8>,
    pool: &[PoolEntry],
    field: &FieldInfo,
    place: u16,
) -> Result<(), SpellFault>
    ensures { Writes out.new.items result (put_constant pool.now field.now place out.old.items) }
{
    if !is_static(field.flags) || !has_constant_of(pool, field.desc.as_slice(), place) {
        return Err(SpellFault::NotSpellable);
    }
    put_u2(out, 1)?;
    put_text_place(out, pool, b"ConstantValue")?;
    put_u4(out, 2)?;
    put_u2(out, place)
}

#[tactic(auto, unfolding(wf_grammar::specs::Writing::put_field_attributes))]
fn put_field_attributes(
    out: &mut Vec<u8>,
    pool: &[PoolEntry],
    field: &FieldInfo,
) -> Result<(), SpellFault>
    ensures { Writes out.new.items result (put_field_attributes pool.now field.now field.now.constant out.old.items) }
{
    match field.constant {
        Some(place) => put_constant(out, pool, field, place),
        None => put_u2(out, 0),
    }
}

/// The flags, the name and the descriptor of a member, whose key none before it has.
#[tactic(auto, unfolding(wf_grammar::specs::Writing::put_member))]
fn put_member<'c>(
    out: &mut Vec<u8>,
    pool: &[PoolEntry],
    met: &mut Keys<'c>,
    flags: u16,
    name: &'c [u8],
    desc: &'c [u8],
) -> Result<(), SpellFault>
    ensures bytes { Writes out.new.items result (put_member pool.now met.old flags name.now desc.now out.old.items) }
    ensures keys { IfOk result (λ _. met.new ≡ met.old ++ (name.now, desc.now) ∷ []) }
{
    if !met.insert(name, desc)? {
        return Err(SpellFault::NotSpellable);
    }
    put_u2(out, flags)?;
    put_text_place(out, pool, name)?;
    put_text_place(out, pool, desc)
}

#[tactic(auto, unfolding(wf_grammar::specs::Writing::put_field))]
fn put_field<'c>(
    out: &mut Vec<u8>,
    pool: &[PoolEntry],
    met: &mut Keys<'c>,
    field: &'c FieldInfo,
) -> Result<(), SpellFault>
    ensures bytes { Writes out.new.items result (put_field pool.now met.old field.now out.old.items) }
    ensures keys { IfOk result (λ _. met.new ≡ met.old ++ (field.now.name, field.now.desc) ∷ []) }
{
    let name = field.name.as_slice();
    let desc = field.desc.as_slice();
    if !is_field_name(name) || !is_field_descriptor(desc) {
        return Err(SpellFault::NotSpellable);
    }
    put_member(out, pool, met, field.flags, name, desc)?;
    put_field_attributes(out, pool, field)
}

#[tactic(auto, using(crate::proofs::WriteLoops::fields_stop))]
pub fn put_fields<'c>(
    out: &mut Vec<u8>,
    pool: &[PoolEntry],
    met: &mut Keys<'c>,
    fields: &'c [FieldInfo],
) -> Result<(), SpellFault>
    ensures { Writes out.new.items result (put_fields pool.now met.old fields.now out.old.items) }
{
    for field in fields {
        put_field(out, pool, met, field)?;
    }
    Ok(())
}

/// An entry of the exception table (JVMS 4.7.3).
#[tactic(auto, unfolding(wf_grammar::specs::Writing::put_handler))]
fn put_handler(out: &mut Vec<u8>, handler: &Handler) -> Result<(), SpellFault>
    ensures { Writes out.new.items result (put_handler handler.now out.old.items) }
{
    put_u2(out, handler.start)?;
    put_u2(out, handler.end)?;
    put_u2(out, handler.target)?;
    put_u2(out, handler.catch_class)
}

#[tactic(auto, using(crate::proofs::WriteLoops::handlers_go_on, crate::proofs::WriteLoops::handlers_stop))]
fn put_handlers(out: &mut Vec<u8>, table: &[Handler]) -> Result<(), SpellFault>
    ensures { Writes out.new.items result (put_handlers table.now out.old.items) }
{
    for handler in table {
        put_handler(out, handler)?;
    }
    Ok(())
}

fn is_code_size(size: usize) -> bool
    ensures { result ≡ (not (size == 0) && nat_lt size 65536) }
{
    size != 0 && size < 65536
}

/// The inside of a Code attribute (JVMS 4.7.3).
#[tactic(auto, unfolding(wf_grammar::specs::Writing::put_code))]
fn put_code(out: &mut Vec<u8>, code: &CodeInfo) -> Result<(), SpellFault>
    ensures { Writes out.new.items result (put_code code.now out.old.items) }
{
    let bytes = code.code.as_slice();
    let table = code.table.as_slice();
    if !is_code_size(bytes.len()) {
        return Err(SpellFault::NotSpellable);
    }
    put_u2(out, code.max_stack)?;
    put_u2(out, code.max_locals)?;
    put_length(out, bytes.len())?;
    put(out, bytes)?;
    put_count(out, table.len())?;
    put_handlers(out, table)?;
    put_u2(out, 0)
}

/// How many bytes the inside of a Code attribute has, or the greatest number of the type.
fn code_size(code: &CodeInfo) -> usize
    ensures { result ≡ min (code_size code.now) (2 ^ 64 - 1) }
{
    let table = code.table.as_slice().len().saturating_mul(8);
    let bytes = code.code.as_slice().len().saturating_add(12);
    bytes.saturating_add(table)
}

#[tactic(auto, unfolding(wf_grammar::specs::Writing::put_number))]
fn put_code_length(out: &mut Vec<u8>, code: &CodeInfo) -> Result<(), SpellFault>
    ensures { Writes out.new.items result (put_number w32 (code_size code.now) out.old.items) }
{
    put_length(out, code_size(code))
}

/// A Code attribute with its count.
#[tactic(auto, unfolding(wf_grammar::specs::Writing::put_code_attribute))]
fn put_code_attribute(
    out: &mut Vec<u8>,
    pool: &[PoolEntry],
    code: &CodeInfo,
) -> Result<(), SpellFault>
    ensures { Writes out.new.items result (put_code_attribute pool.now code.now out.old.items) }
{
    put_u2(out, 1)?;
    put_text_place(out, pool, b"Code")?;
    put_code_length(out, code)?;
    put_code(out, code)
}

#[tactic(auto, unfolding(wf_grammar::specs::Writing::put_method_attributes))]
fn put_method_attributes(
    out: &mut Vec<u8>,
    pool: &[PoolEntry],
    method: &MethodInfo,
) -> Result<(), SpellFault>
    ensures { Writes out.new.items result (put_method_attributes pool.now (is_native_or_abstract method.now.flags) method.now.code out.old.items) }
{
    match &method.code {
        None if is_native_or_abstract(method.flags) => put_u2(out, 0),
        Some(code) if !is_native_or_abstract(method.flags) => put_code_attribute(out, pool, code),
        _ => Err(SpellFault::NotSpellable),
    }
}

/// How many slots the parameters of a method with these flags may take: 255, and the object of an instance
/// method takes one (JVMS 4.3.3).
fn parameter_slots(flags: u16) -> u8
    ensures { result ≡ parameter_slots flags }
{
    if is_static(flags) { 255 } else { 254 }
}

#[tactic(auto, unfolding(wf_grammar::specs::Writing::put_method))]
fn put_method<'c>(
    out: &mut Vec<u8>,
    pool: &[PoolEntry],
    met: &mut Keys<'c>,
    method: &'c MethodInfo,
) -> Result<(), SpellFault>
    ensures bytes { Writes out.new.items result (put_method pool.now met.old method.now out.old.items) }
    ensures keys { IfOk result (λ _. met.new ≡ met.old ++ (method.now.name, method.now.desc) ∷ []) }
{
    let name = method.name.as_slice();
    let desc = method.desc.as_slice();
    if !is_method_name(name) || !is_method_descriptor(desc, parameter_slots(method.flags)) {
        return Err(SpellFault::NotSpellable);
    }
    put_member(out, pool, met, method.flags, name, desc)?;
    put_method_attributes(out, pool, method)
}

#[tactic(auto, using(crate::proofs::WriteLoops::methods_stop))]
pub fn put_methods<'c>(
    out: &mut Vec<u8>,
    pool: &[PoolEntry],
    met: &mut Keys<'c>,
    methods: &'c [MethodInfo],
) -> Result<(), SpellFault>
    ensures { Writes out.new.items result (put_methods pool.now met.old methods.now out.old.items) }
{
    for method in methods {
        put_method(out, pool, met, method)?;
    }
    Ok(())
}
