//! The numbers of the nodes of a program's system.

ghost use Rattle.std.specs.Prelude.{◌≡◌, ◌+◌, min, [], ◌∷◌, not, nat_lt, length, slice_set, IfOk, OnOk};
ghost use Rattle.wf_names.specs.declared.member.MemberName.{MemberName};
ghost use Rattle.wf_data.specs.Flags.{is_static};
ghost use Rattle.wf_names.specs.Members.{named_by};
ghost use Rattle.wf_sys.specs.declared.flow.Flow.TheVariants.{Set};
ghost use Rattle.wf_first.specs.Nodes.{node_of, place_of, with_node, with_nodes, receiver_nodes, method_nodes, shared_nodes, result_nodes, code_nodes, own_method_nodes, own_nodes, nodes_of};
ghost use Rattle.wf_first.specs.Solution.{seeded};

use crate::code::{Operation, Placed, operations};
use crate::limits::MAX_NODES;
use crate::program::method_ref;
use indexmap::IndexSet;
use std::alloc::{AllocError, Global};
use std::marker::Model;
use wf_data::{ClassInfo, CodeInfo, MethodInfo, is_static};
use wf_names::{MemberName, MemberRef};
use wf_sys::Flow;

/// A node of the system, by borrowed names.
#[derive(Clone, Copy, Debug, PartialEq, Eq, Hash)]
pub enum NodeKey<'p> {
    Inst,
    Start,
    Nothing,
    Initialized(&'p [u8]),
    Entered(MemberRef<'p>),
    Parameter(MemberRef<'p>, u16),
    Returned(MemberRef<'p>),
    Result(MemberRef<'p>, u16),
}

/// The nodes of a program's system; the number of a node is its place.
#[derive(Drop)]
pub struct Nodes<'p> {
    keys: IndexSet<NodeKey<'p>>,
}

impl<'p> Model for Nodes<'p> {
    ghost use Rattle.std.specs.Prelude.{List, map};
    ghost use Rattle.wf_sys.specs.Nodes.{Node};
    ghost use Rattle.wf_first.specs.Nodes.{node_of};

    ghost Value = { List Node };

    ghost view = { λ k. map node_of k.keys.keys };
}

impl<'p> Nodes<'p> {
    pub fn new(alloc: Global) -> Nodes<'p>
        ensures { result ≡ [] }
    {
        Nodes {
            keys: IndexSet::new(alloc),
        }
    }

    /// Adds a node, if it isn't there.
    pub fn add(&mut self, node: NodeKey<'p>) -> Result<(), AllocError>
        ensures { OnOk result (self.new ≡ with_node self.old (node_of node.entry)) }
    {
        self.keys.insert(node)?;
        Ok(())
    }

    /// The number of a node, or past the end where it isn't there.
    pub fn number(&self, node: NodeKey<'p>) -> usize
        ensures { result ≡ place_of self.now (node_of node.entry) }
    {
        match self.keys.get_index_of(&node) {
            Some(number) => number,
            None => self.keys.len(),
        }
    }

    pub fn len(&self) -> usize
        ensures { result ≡ length self.now }
    {
        self.keys.len()
    }
}

/// Adds the node of the receiver of a method that isn't static.
fn add_receiver<'p>(
    nodes: &mut Nodes<'p>,
    method: MemberRef<'p>,
    flags: u16,
) -> Result<(), AllocError>
    ensures { OnOk result (nodes.new ≡ with_nodes nodes.old (receiver_nodes (is_static flags) (named_by method.entry))) }
{
    if is_static(flags) {
        return Ok(());
    }
    nodes.add(NodeKey::Parameter(method, 0))
}

/// Adds the nodes that the methods of a class share with others.
#[tactic(auto, using(crate::proofs::NodeLaws::with_nodes_both))]
fn add_methods<'p>(nodes: &mut Nodes<'p>, class: &'p ClassInfo) -> Result<(), AllocError>
    ensures { OnOk result (nodes.new ≡ with_nodes nodes.old (method_nodes class.now class.now.methods)) }
{
    for method in class.methods.as_slice() {
        let name = method_ref(class, method);
        nodes.add(NodeKey::Entered(name))?;
        nodes.add(NodeKey::Returned(name))?;
        add_receiver(nodes, name, method.flags)?;
    }
    Ok(())
}

/// Adds the nodes that the classes and their methods share.
fn add_shared<'p>(nodes: &mut Nodes<'p>, classes: &'p [ClassInfo]) -> Result<(), AllocError>
    ensures { OnOk result (nodes.new ≡ with_nodes nodes.old (shared_nodes classes.now)) }
{
    for class in classes {
        nodes.add(NodeKey::Initialized(class.name.as_slice()))?;
        add_methods(nodes, class)?;
    }
    Ok(())
}

/// Adds the results of the instructions that are reached: no path goes on behind a return.
fn add_results<'p>(
    nodes: &mut Nodes<'p>,
    method: MemberRef<'p>,
    operations: &[Placed],
) -> Result<(), AllocError>
    ensures { OnOk result (nodes.new ≡ with_nodes nodes.old (result_nodes (named_by method.entry) operations.now)) }
{
    for placed in operations {
        match placed.operation {
            Operation::IntConstant(_) | Operation::InvokeStatic(_) => {
                nodes.add(NodeKey::Result(method, placed.pc))?;
            }
            Operation::IntReturn | Operation::Return => return Ok(()),
        }
    }
    Ok(())
}

/// Adds a method's own nodes.
fn add_code<'p>(
    alloc: Global,
    nodes: &mut Nodes<'p>,
    method: MemberRef<'p>,
    code: &Option<CodeInfo>,
) -> Result<(), AllocError>
    ensures { OnOk result (nodes.new ≡ with_nodes nodes.old (code_nodes (named_by method.entry) code.now)) }
{
    let Some(code) = code else {
        return Ok(());
    };
    match operations(alloc, code.code.as_slice())? {
        Some(operations) => add_results(nodes, method, &operations),
        None => Ok(()),
    }
}

/// Adds the own nodes of the methods of a class.
fn add_own_methods<'p>(
    alloc: Global,
    nodes: &mut Nodes<'p>,
    class: &'p ClassInfo,
) -> Result<(), AllocError>
    ensures { OnOk result (nodes.new ≡ with_nodes nodes.old (own_method_nodes class.now class.now.methods)) }
{
    for method in class.methods.as_slice() {
        add_code(alloc, nodes, method_ref(class, method), &method.code)?;
    }
    Ok(())
}

/// Adds each method's own nodes.
fn add_own<'p>(
    alloc: Global,
    nodes: &mut Nodes<'p>,
    classes: &'p [ClassInfo],
) -> Result<(), AllocError>
    ensures { OnOk result (nodes.new ≡ with_nodes nodes.old (own_nodes classes.now)) }
{
    for class in classes {
        add_own_methods(alloc, nodes, class)?;
    }
    Ok(())
}

/// The nodes of a program's system: those that are shared first, and then each method's own.
#[tactic(auto, using(crate::proofs::NodeLaws::with_nodes_both))]
pub fn nodes_of<'p>(alloc: Global, classes: &'p [ClassInfo]) -> Result<Nodes<'p>, AllocError>
    ensures { IfOk result (λ nodes. nodes ≡ with_nodes [] (nodes_of classes.now)) }
{
    let mut nodes = Nodes::new(alloc);
    nodes.add(NodeKey::Inst)?;
    nodes.add(NodeKey::Start)?;
    nodes.add(NodeKey::Nothing)?;
    add_shared(&mut nodes, classes)?;
    add_own(alloc, &mut nodes, classes)?;
    Ok(nodes)
}

/// The sum of two numbers, or `MAX_NODES + 1` where it is more.
fn plus(a: usize, b: usize) -> usize
    ensures { result ≡ min (a + b) (MAX_NODES + 1) }
{
    a.saturating_add(b).min(MAX_NODES + 1)
}

/// How many nodes the methods of a class share with others, up to `MAX_NODES + 1`.
fn count_methods(class: &ClassInfo) -> usize
    ensures { result ≡ min (length (method_nodes class.now class.now.methods)) (MAX_NODES + 1) }
{
    let mut count = 0;
    for method in class.methods.as_slice() {
        let more = if is_static(method.flags) { 2 } else { 3 };
        count = plus(count, more);
    }
    count
}

/// How many nodes the classes and their methods share, up to `MAX_NODES + 1`.
fn count_shared(classes: &[ClassInfo]) -> usize
    ensures { result ≡ min (length (shared_nodes classes.now)) (MAX_NODES + 1) }
{
    let mut count = 0;
    for class in classes {
        count = plus(count, plus(1, count_methods(class)));
    }
    count
}

/// How many instructions are reached that have a result.
fn count_results(operations: &[Placed]) -> usize
    ensures { (name : MemberName) → result ≡ length (result_nodes name operations.now) }
{
    let mut count = 0;
    for placed in operations {
        match placed.operation {
            Operation::IntConstant(_) | Operation::InvokeStatic(_) => count += 1,
            Operation::IntReturn | Operation::Return => return count,
        }
    }
    count
}

/// How many nodes of its own a method has.
fn count_code(alloc: Global, code: &Option<CodeInfo>) -> Result<usize, AllocError>
    ensures { IfOk result (λ count. (name : MemberName) → count ≡ length (code_nodes name code.now)) }
{
    let Some(code) = code else {
        return Ok(0);
    };
    match operations(alloc, code.code.as_slice())? {
        Some(operations) => Ok(count_results(&operations)),
        None => Ok(0),
    }
}

/// How many nodes of their own the methods of a class have, up to `MAX_NODES + 1`.
fn count_own_methods(alloc: Global, class: &ClassInfo) -> Result<usize, AllocError>
    ensures { IfOk result (λ count. count ≡ min (length (own_method_nodes class.now class.now.methods)) (MAX_NODES + 1)) }
{
    let mut count = 0;
    for method in class.methods.as_slice() {
        count = plus(count, count_code(alloc, &method.code)?);
    }
    Ok(count)
}

/// How many nodes of their own the methods have, up to `MAX_NODES + 1`.
fn count_own(alloc: Global, classes: &[ClassInfo]) -> Result<usize, AllocError>
    ensures { IfOk result (λ count. count ≡ min (length (own_nodes classes.now)) (MAX_NODES + 1)) }
{
    let mut count = 0;
    for class in classes {
        count = plus(count, count_own_methods(alloc, class)?);
    }
    Ok(count)
}

/// Whether the system of the program has no more than `MAX_NODES` nodes.
pub fn has_few_nodes(alloc: Global, classes: &[ClassInfo]) -> Result<bool, AllocError>
    ensures { IfOk result (λ few. few ≡ not (nat_lt MAX_NODES (length (nodes_of classes.now)))) }
{
    let shared = count_shared(classes);
    let own = count_own(alloc, classes)?;
    Ok(plus(3, plus(shared, own)) <= MAX_NODES)
}

/// Sets a node, if it is there.
fn set(values: &mut [Flow], node: usize)
    ensures { values.new ≡ slice_set values.old node Set }
{
    if node < values.len() {
        values[node] = Flow::Set;
    }
}

/// The seeds of a root, by number: `Start`, its entry and the initialization of its class.
pub fn seeds<'p>(
    alloc: Global,
    nodes: &Nodes<'p>,
    root: &'p MemberName,
) -> Result<Vec<Flow>, AllocError>
    ensures { IfOk result (λ values. values.items ≡ seeded nodes.now root.now) }
{
    let entered = MemberRef {
        class: root.class.as_slice(),
        name: root.name.as_slice(),
        desc: root.desc.as_slice(),
    };
    let mut values = vec![in alloc; Flow::Empty; nodes.len()]?;
    set(&mut values, nodes.number(NodeKey::Start));
    set(&mut values, nodes.number(NodeKey::Entered(entered)));
    set(
        &mut values,
        nodes.number(NodeKey::Initialized(entered.class)),
    );
    Ok(values)
}
