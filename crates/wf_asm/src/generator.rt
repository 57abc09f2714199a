//! Programs of any size whose classes call one another.

ghost use Rattle.std.specs.Prelude.{◌≡◌, ◌++◌, ◌∷◌, [], ◌<◌, All, Ok, codes, IfOk, IsOk, OnOk};
ghost use Rattle.wf_names.specs.NameForm.{member_of};
ghost use Rattle.wf_grammar.specs.Writing.{HasSpelling};
ghost use Rattle.wf_listing.specs.declared.listing.Constant.TheVariants as constant;
ghost use Rattle.wf_listing.specs.declared.listing.Item.TheVariants as item;
ghost use Rattle.wf_listing.specs.declared.listing.Step.TheVariants as step;
ghost use Rattle.wf_asm.specs.Building.{class_of};
ghost use Rattle.wf_asm.specs.Generating.{HaveOwnNames, IsProgramOf, body_of, branches, class_at, class_listed, class_name, generated_class, label_name, main_of, makes, method, next_state, number_of, object_class, returns, state_behind, statement, super_of, void_desc};
ghost use Rattle.wf_listing.specs.Lines.{using_constant};

use crate::build::class_of;
use crate::fault::AsmFault;
use std::alloc::{AllocError, Global};
use wf_base::{Items, Text};
use wf_data::ClassInfo;
use wf_listing::{Constant, Item, Listed, ListedMethod, Statement, Step, Use};
use wf_names::MemberName;

/// The state after a number is drawn.
pub fn next_state(state: u32) -> u32
    ensures { result ≡ next_state state }
{
    ((state as u64 * 1103515245 + 12345) % 2147483648) as u32
}

/// The number that a state gives.
pub fn number_of(state: u32) -> u32
    ensures { result ≡ number_of state }
{
    state / 65536
}

/// The name of class i.
fn class_name(alloc: Global, i: u32) -> Result<Text, AllocError>
    ensures { IfOk result (λ name. name ≡ class_name i) }
{
    let name = format!(in alloc; "G{i}")?;
    Text::from_slice(alloc, name.as_bytes())
}

/// A statement that no listing has: its line doesn't count.
fn statement(step: Step) -> Statement
    ensures { result ≡ statement step }
{
    Statement {
        line: 0,
        says: Item::Step(step),
    }
}

fn using_constant(alloc: Global, op: u8, constant: Constant) -> Statement
    ensures { result ≡ statement (using_constant op constant []) }
{
    statement(Step::Use(Use {
        op,
        constant,
        rest: Text::new(alloc),
    }))
}

fn fixed(alloc: Global, bytes: &[u8]) -> Result<Statement, AllocError>
    ensures { IfOk result (λ s. s ≡ statement (step.Fixed bytes.now)) }
{
    Ok(statement(Step::Fixed(Text::from_slice(alloc, bytes)?)))
}

fn returns(alloc: Global) -> Result<Statement, AllocError>
    ensures { IfOk result (λ s. s ≡ returns) }
{
    fixed(alloc, &[0xB1])
}

/// The method of class i with this name and no arguments.
fn member(alloc: Global, i: u32, name: &[u8]) -> Result<MemberName, AllocError>
    ensures { IfOk result (λ m. m ≡ member_of (class_name i) name.now void_desc) }
{
    Ok(MemberName {
        class: class_name(alloc, i)?,
        name: Text::from_slice(alloc, name)?,
        desc: Text::from_slice(alloc, b"()V")?,
    })
}

/// Adds the new of a class, and the call of G0.m on it.
fn add_makes(alloc: Global, body: &mut Vec<Statement>, i: u32) -> Result<(), AllocError>
    ensures { OnOk result (body.new.items ≡ body.old.items ++ makes i) }
{
    let class = Constant::Class(class_name(alloc, i)?);
    body.push(using_constant(alloc, 0xBB, class))?;
    let called = Constant::Method(member(alloc, 0, b"m")?);
    body.push(using_constant(alloc, 0xB6, called))?;
    Ok(())
}

fn label_name(alloc: Global) -> Result<Text, AllocError>
    ensures { IfOk result (λ name. name ≡ label_name) }
{
    Text::from_slice(alloc, b"L")
}

fn jump(alloc: Global) -> Result<Statement, AllocError>
    ensures { IfOk result (λ s. s ≡ statement (step.Jump 0x99 label_name)) }
{
    Ok(statement(Step::Jump(0x99, label_name(alloc)?)))
}

fn call(alloc: Global, b: u32) -> Result<Statement, AllocError>
    ensures { IfOk result (λ s. s ≡ statement (using_constant 0xB8 (constant.Method (member_of (class_name b) (codes "s") void_desc)) [])) }
{
    let called = Constant::Method(member(alloc, b, b"s")?);
    Ok(using_constant(alloc, 0xB8, called))
}

fn label(alloc: Global) -> Result<Statement, AllocError>
    ensures { IfOk result (λ s. s ≡ record { line = 0; says = item.Label label_name }) }
{
    Ok(Statement {
        line: 0,
        says: Item::Label(label_name(alloc)?),
    })
}

/// Adds the call of a class's static method, which the constant 0 passes over.
fn add_branches(
    alloc: Global,
    body: &mut Vec<Statement>,
    constant: u8,
    b: u32,
) -> Result<(), AllocError>
    ensures { OnOk result (body.new.items ≡ body.old.items ++ branches constant b) }
{
    body.push(fixed(alloc, &[0x10, constant])?)?;
    body.push(jump(alloc)?)?;
    body.push(call(alloc, b)?)?;
    body.push(label(alloc)?)?;
    body.push(returns(alloc)?)?;
    Ok(())
}

/// The body of class i's method m, for two numbers.
fn body_of(alloc: Global, size: u32, i: u32, y: u32, z: u32) -> Result<Items<Statement>, AllocError>
    requires { i < size }
    ensures { IfOk result (λ body. body ≡ body_of size i y z) }
{
    let mut body = Vec::new(alloc);
    if i < size - 1 {
        add_makes(alloc, &mut body, i + 1 + y % (size - i - 1))?;
    }
    add_branches(alloc, &mut body, (z % 2) as u8, z % size)?;
    Ok(Items::from_vec(body))
}

/// The body that returns.
fn returning(alloc: Global) -> Result<Items<Statement>, AllocError>
    ensures { IfOk result (λ body. body ≡ returns ∷ []) }
{
    let mut body = Vec::new(alloc);
    body.push(returns(alloc)?)?;
    Ok(Items::from_vec(body))
}

/// A public method with no arguments.
fn method(
    alloc: Global,
    is_static: bool,
    name: &[u8],
    body: Items<Statement>,
) -> Result<ListedMethod, AllocError>
    ensures { IfOk result (λ m. m ≡ method is_static name.now body) }
{
    Ok(ListedMethod {
        flags: if is_static { 9 } else { 1 },
        name: Text::from_slice(alloc, name)?,
        desc: Text::from_slice(alloc, b"()V")?,
        body: Some(body),
    })
}

/// Adds where the program begins, in class 0 alone.
fn add_main(alloc: Global, methods: &mut Vec<ListedMethod>, i: u32) -> Result<(), AllocError>
    ensures { OnOk result (methods.new.items ≡ methods.old.items ++ main_of i) }
{
    if i != 0 {
        return Ok(());
    }
    let mut body = Vec::new(alloc);
    add_makes(alloc, &mut body, 0)?;
    body.push(returns(alloc)?)?;
    methods.push(method(alloc, true, b"main", Items::from_vec(body))?)?;
    Ok(())
}

/// The superclass of class i, for a number.
fn super_of(alloc: Global, i: u32, x: u32) -> Result<Text, AllocError>
    ensures { IfOk result (λ name. name ≡ super_of i x) }
{
    if i == 0 {
        Text::from_slice(alloc, b"java/lang/Object")
    } else {
        class_name(alloc, x % i)
    }
}

fn class_listed(
    alloc: Global,
    name: Text,
    superclass: Option<Text>,
    methods: Vec<ListedMethod>,
) -> Listed
    ensures { result ≡ class_listed name superclass methods.items }
{
    Listed {
        line: 0,
        flags: 0x0021,
        name,
        superclass,
        interfaces: Items::new(alloc),
        fields: Items::new(alloc),
        methods: Items::from_vec(methods),
    }
}

/// Class i, for three numbers.
#[tactic(auto, unfolding(crate::specs::Generating::generated_class))]
fn generated_class(
    alloc: Global,
    size: u32,
    i: u32,
    x: u32,
    y: u32,
    z: u32,
) -> Result<Listed, AllocError>
    requires { i < size }
    ensures { IfOk result (λ listed. listed ≡ generated_class size i x y z) }
{
    let mut methods = Vec::new(alloc);
    methods.push(method(alloc, true, b"s", returning(alloc)?)?)?;
    let body = body_of(alloc, size, i, y, z)?;
    methods.push(method(alloc, false, b"m", body)?)?;
    add_main(alloc, &mut methods, i)?;
    let name = class_name(alloc, i)?;
    let superclass = super_of(alloc, i, x)?;
    Ok(class_listed(alloc, name, Some(superclass), methods))
}

/// The class without superclass, with its constructor.
#[tactic(auto, unfolding(crate::specs::Generating::object_class))]
fn object_class(alloc: Global) -> Result<Listed, AllocError>
    ensures { IfOk result (λ listed. listed ≡ object_class) }
{
    let mut methods = Vec::new(alloc);
    methods.push(method(alloc, false, b"<init>", returning(alloc)?)?)?;
    let name = Text::from_slice(alloc, b"java/lang/Object")?;
    Ok(class_listed(alloc, name, None, methods))
}

/// The class of a listing that is right.
fn built(alloc: Global, listed: &Listed) -> Result<ClassInfo, AllocError>
    requires { IsOk (class_of listed.now) }
    ensures { IfOk result (λ class. class_of listed.now ≡ Ok class) }
{
    match class_of(alloc, listed) {
        Ok(class) => Ok(class),
        Err(AsmFault::BadLine { .. }) => unreachable!(),
        Err(AsmFault::NoMemory) => Err(AllocError),
    }
}

/// Class i, for the state before it.
#[tactic(auto, unfolding(crate::specs::Generating::class_at))]
fn class_at(alloc: Global, size: u32, i: u32, state: u32) -> Result<Listed, AllocError>
    requires { i < size }
    ensures { IfOk result (λ listed. listed ≡ class_at size i state) }
{
    let x = next_state(state);
    let y = next_state(x);
    let z = next_state(y);
    generated_class(alloc, size, i, number_of(x), number_of(y), number_of(z))
}

/// The state behind the three numbers of a class.
#[tactic(auto, unfolding(crate::specs::Generating::state_behind))]
fn state_behind(state: u32) -> u32
    ensures { result ≡ state_behind state }
{
    next_state(next_state(next_state(state)))
}

/// A program of java/lang/Object and this many classes. Their superclasses and calls are drawn by a generator of
/// numbers that begins at the seed.
#[tactic(auto, using(crate::proofs::GeneratedLaws::program))]
pub fn make_program(alloc: Global, seed: u32, size: u32) -> Result<Items<ClassInfo>, AllocError>
    ensures program { IfOk result (IsProgramOf seed size) }
    ensures names { IfOk result HaveOwnNames }
    ensures spelled { IfOk result (All HasSpelling) }
{
    let mut classes = Vec::new(alloc);
    let object = object_class(alloc)?;
    classes.push(built(alloc, &object)?)?;
    let mut state = seed;
    for i in 0..size {
        let listed = class_at(alloc, size, i, state)?;
        classes.push(built(alloc, &listed)?)?;
        state = state_behind(state);
    }
    Ok(Items::from_vec(classes))
}
