//! Valid lines, numbered.

ghost use Rattle.std.specs.Prelude.{◌≡◌, Some, true, IfOk};
ghost use Rattle.wf_names.specs.Names.{object_name};
ghost use Rattle.wf_subtype.specs.Subtypes.{IsTargetFound};
ghost use Rattle.wf_subtype.specs.Universe.{type_of};
ghost use Rattle.wf_binding.specs.Adding.{is_standing};
ghost use Rattle.wf_binding.specs.Named.{is_type, field_of};
ghost use Rattle.wf_binding.specs.Numbering.{AreNumbered, NumbersAny, NumbersValue, NumbersReturn, NumbersWrite, NumbersEffect, NumbersLine, NumbersBlock, NumbersLiteral, NumbersStart, NumbersMade, NumbersRoot, NumbersRootLine, AreEachOnce};
ghost use Rattle.wf_binding.specs.Valid.{IsValidValue, IsValidEffect, AreValidEffects, IsValidBlock, AreValidBlocks, IsValidLiteral, AreValidLiterals, IsSoundRoot, AreSoundRoots};
ghost use Rattle.wf_binding.specs.Validity.{is_followed, has_constructor};

use crate::described::descriptor_of;
use crate::named::{field_kind, field_of, method_of};
use crate::numbers::{BlockNumbers, EffectNumbers, LiteralNumbers, RootNumbers, ValueNumbers};
use std::alloc::{AllocError, Global};
use wf_base::{Items, Kind, TargetId, TypeId};
use wf_classes::own_method;
use wf_descriptor::FieldDesc;
use wf_inputs::{Block, Effect, EffectLine, Literal, RootLine, Value};
use wf_names::{MemberName, Root};
use wf_subtype::Types;

/// The type of a name, which stands in the universe.
fn type_number(types: &Types, name: &[u8]) -> TypeId
    requires { is_standing types.now name.now ≡ true }
    ensures { type_of types.now.names name.now ≡ Some result.0 }
{
    match types.find(name) {
        Some(t) => t,
        None => unreachable!(),
    }
}

/// The class or array of a name, which is there.
fn target_number(types: &Types, name: &[u8]) -> TargetId
    requires { is_type types.now.classes name.now ≡ true }
    ensures { IsTargetFound types.now name.now (Some result.0) }
{
    match types.target(name) {
        Some(u) => u,
        None => unreachable!(),
    }
}

/// What is under `java/lang/Object`.
fn object_number(types: &Types) -> TargetId
    ensures { IsTargetFound types.now object_name (Some result.0) }
{
    let _ = types.classes().list();
    target_number(types, b"java/lang/Object".as_slice())
}

fn any_numbers(types: &Types, kind: Kind) -> ValueNumbers
    requires { is_followed kind ≡ true }
    ensures { NumbersAny types.now kind result }
{
    match kind {
        Kind::Int => ValueNumbers::AnyInt,
        Kind::Long => ValueNumbers::AnyLong,
        Kind::Ref => ValueNumbers::Under(object_number(types)),
        Kind::Float | Kind::Double => unreachable!(),
    }
}

fn value_numbers(types: &Types, kind: Kind, value: &Value) -> ValueNumbers
    requires { IsValidValue types.now kind value.now }
    ensures { NumbersValue types.now kind value.now result }
{
    match value {
        Value::Null => ValueNumbers::Null,
        Value::Any => any_numbers(types, kind),
        Value::Int(i) => ValueNumbers::Int(*i),
        Value::New(name) => ValueNumbers::New(type_number(types, name.as_slice())),
        Value::OneOf(name) => ValueNumbers::Under(target_number(types, name.as_slice())),
        Value::Arg(n) => ValueNumbers::Arg(*n),
    }
}

fn return_numbers(types: &Types, ret: &Option<FieldDesc>, value: &Value) -> EffectNumbers
    requires { IsValidEffect types.now ret.now (Effect.Returns value.now) }
    ensures { NumbersReturn types.now ret.now value.now result }
{
    match ret {
        Some(desc) => EffectNumbers::Returns(value_numbers(types, desc.kind, value)),
        None => unreachable!(),
    }
}

fn write_numbers(
    types: &Types,
    ret: &Option<FieldDesc>,
    field: &MemberName,
    value: &Value,
) -> EffectNumbers
    requires { IsValidEffect types.now ret.now (Effect.Writes field.now value.now) }
    ensures { NumbersWrite types.now field.now value.now result }
{
    match field_of(types.classes(), field) {
        Some(own) => {
            EffectNumbers::Writes(own.id, value_numbers(types, field_kind(field), value))
        }
        None => unreachable!(),
    }
}

fn effect_numbers(types: &Types, ret: &Option<FieldDesc>, effect: &Effect) -> EffectNumbers
    requires { IsValidEffect types.now ret.now effect.now }
    ensures { NumbersEffect types.now ret.now effect.now result }
{
    match effect {
        Effect::ReturnsVoid => EffectNumbers::ReturnsVoid,
        Effect::Returns(value) => return_numbers(types, ret, value),
        Effect::Makes(name) => EffectNumbers::Makes(type_number(types, name.as_slice())),
        Effect::Writes(field, value) => write_numbers(types, ret, field, value),
        Effect::Copies(from, to) => EffectNumbers::Copies(*from, *to),
    }
}

fn effects_numbers(
    alloc: Global,
    types: &Types,
    ret: &Option<FieldDesc>,
    effects: &[EffectLine],
) -> Result<Items<EffectNumbers>, AllocError>
    requires { AreValidEffects types.now ret.now effects.now }
    ensures { IfOk result (AreNumbered (NumbersLine types.now ret.now) effects.now) }
{
    let mut numbers = Vec::new(alloc);
    for line in effects {
        numbers.push(effect_numbers(types, ret, &line.effect))?;
    }
    Ok(Items::from_vec(numbers))
}

fn block_numbers(alloc: Global, types: &Types, block: &Block) -> Result<BlockNumbers, AllocError>
    requires { IsValidBlock types.now block.now }
    ensures { IfOk result (NumbersBlock types.now block.now) }
{
    match method_of(types.classes(), &block.method) {
        Some(method) => {
            let desc = descriptor_of(alloc, types.classes(), &block.method, method.flags)?;
            let effects = effects_numbers(alloc, types, &desc.ret, block.effects.as_slice())?;
            Ok(BlockNumbers {
                method: method.id,
                replace: block.replace,
                effects,
            })
        }
        None => unreachable!(),
    }
}

/// The numbers of blocks that are valid.
pub fn blocks_numbers(
    alloc: Global,
    types: &Types,
    blocks: &[Block],
) -> Result<Items<BlockNumbers>, AllocError>
    requires { AreValidBlocks types.now blocks.now }
    ensures { IfOk result (AreNumbered (NumbersBlock types.now) blocks.now) }
{
    let mut numbers = Vec::new(alloc);
    for block in blocks {
        numbers.push(block_numbers(alloc, types, block)?)?;
    }
    Ok(Items::from_vec(numbers))
}

fn literal_numbers(types: &Types, literal: &Literal) -> LiteralNumbers
    requires { IsValidLiteral types.now literal.now }
    ensures { NumbersLiteral types.now literal.now result }
{
    match field_of(types.classes(), &literal.field) {
        Some(own) => LiteralNumbers {
            field: own.id,
            value: value_numbers(types, field_kind(&literal.field), &literal.value),
        },
        None => unreachable!(),
    }
}

/// The numbers of literals that are valid.
pub fn literals_numbers(
    alloc: Global,
    types: &Types,
    literals: &[Literal],
) -> Result<Items<LiteralNumbers>, AllocError>
    requires { AreValidLiterals types.now literals.now }
    ensures { IfOk result (AreNumbered (NumbersLiteral types.now) literals.now) }
{
    let mut numbers = Vec::new(alloc);
    for literal in literals {
        numbers.push(literal_numbers(types, literal))?;
    }
    Ok(Items::from_vec(numbers))
}

fn start_numbers(types: &Types, method: &MemberName) -> RootNumbers
    requires { IsSoundRoot types.now (Root.StaticCall method.now) }
    ensures { NumbersStart types.now method.now result }
{
    match method_of(types.classes(), method) {
        Some(own) => RootNumbers::StaticCall(own.id),
        None => unreachable!(),
    }
}

fn made_numbers(types: &Types, name: &[u8]) -> RootNumbers
    requires constructor { has_constructor types.now.classes name.now ≡ true }
    requires stands { is_standing types.now name.now ≡ true }
    ensures { NumbersMade types.now name.now result }
{
    let Some(class) = types.classes().find(name) else {
        unreachable!()
    };
    match own_method(
        types.classes(),
        class,
        b"<init>".as_slice(),
        b"()V".as_slice(),
    ) {
        Some(own) => RootNumbers::Make {
            class,
            made: type_number(types, name),
            constructor: own.id,
        },
        None => unreachable!(),
    }
}

fn root_numbers(types: &Types, root: &Root) -> RootNumbers
    requires { IsSoundRoot types.now root.now }
    ensures { NumbersRoot types.now root.now result }
{
    match root {
        Root::StaticCall(method) => start_numbers(types, method),
        Root::Inst(name) => RootNumbers::Inst(type_number(types, name.as_slice())),
        Root::Make(name) => made_numbers(types, name.as_slice()),
    }
}

/// The numbers of roots that are sound, a line at a time.
pub fn roots_numbers(
    alloc: Global,
    types: &Types,
    lines: &[RootLine],
) -> Result<Vec<RootNumbers>, AllocError>
    requires { AreSoundRoots types.now lines.now }
    ensures { IfOk result (λ numbers. AreNumbered (NumbersRootLine types.now) lines.now numbers.items) }
{
    let mut numbers = Vec::new(alloc);
    for line in lines {
        numbers.push(root_numbers(types, &line.root))?;
    }
    Ok(numbers)
}

/// The same numbers, each once.
pub fn each_once(mut numbers: Vec<RootNumbers>) -> Result<Items<RootNumbers>, AllocError>
    ensures { IfOk result (AreEachOnce numbers.items) }
{
    numbers.sort()?;
    numbers.dedup();
    Ok(Items::from_vec(numbers))
}
