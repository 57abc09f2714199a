//! The world of the least solution.

ghost use Rattle.std.specs.Prelude.{◌≡◌, ◌++◌, [], Contains, OnOk, IfOk};
ghost use Rattle.wf_sys.specs.System.{Least};
ghost use Rattle.wf_sys.specs.Names.{Lists, member_cmp};
ghost use Rattle.wf_sys.specs.Program.{Row, Seed};
ghost use Rattle.wf_sys.specs.WorldOf.{IsLeastWorld};
ghost use Rattle.wf_first.specs.Form.{IsOfForm};
ghost use Rattle.wf_first.specs.Nodes.{with_nodes, nodes_of};
ghost use Rattle.wf_first.specs.Solution.{by_name, entered_among, entered_in};

use crate::nodes::{NodeKey, Nodes, nodes_of, seeds};
use crate::program::{Program, method_ref};
use crate::rows::rows_of;
use crate::solver::{solve, value_at};
use std::alloc::{AllocError, Global};
use wf_base::Items;
use wf_data::ClassInfo;
use wf_names::{MemberName, World};
use wf_sys::{Flow, tests_decide};

/// The least solution for a program, as the values of its numbered nodes.
fn solution<'p>(
    alloc: Global,
    nodes: &Nodes<'p>,
    program: &'p Program,
) -> Result<Vec<Flow>, AllocError>
    requires form { IsOfForm program.now.classes program.now.root }
    requires nodes { nodes.now ≡ with_nodes [] (nodes_of program.now.classes) }
    ensures { IfOk result (λ values. Least (Row program.now.classes) (Seed program.now.root) (by_name nodes.now values.items)) }
{
    let rows = rows_of(alloc, nodes, program.classes.as_slice())?;
    let mut values = seeds(alloc, nodes, &program.root)?;
    solve(&rows, &mut values);
    Ok(values)
}

/// Adds the methods of a class that are entered.
fn push_entered<'p>(
    alloc: Global,
    nodes: &Nodes<'p>,
    values: &[Flow],
    class: &'p ClassInfo,
    entered: &mut Vec<MemberName>,
) -> Result<(), AllocError>
    ensures { OnOk result (entered.new.items ≡ entered.old.items ++ entered_among (by_name nodes.now values.now) class.now class.now.methods) }
{
    for method in class.methods.as_slice() {
        let name = method_ref(class, method);
        if !value_at(values, nodes.number(NodeKey::Entered(name))).is_empty() {
            entered.push(name.to_name(alloc)?)?;
        }
    }
    Ok(())
}

/// The methods that are entered, in the order of the classes.
fn entered_in<'p>(
    alloc: Global,
    nodes: &Nodes<'p>,
    values: &[Flow],
    classes: &'p [ClassInfo],
) -> Result<Vec<MemberName>, AllocError>
    ensures { IfOk result (λ entered. entered.items ≡ entered_in (by_name nodes.now values.now) classes.now) }
{
    let mut entered = Vec::new(alloc);
    for class in classes {
        push_entered(alloc, nodes, values, class, &mut entered)?;
    }
    Ok(entered)
}

/// The members in the order of their names, each once.
fn sorted(mut members: Vec<MemberName>) -> Result<Items<MemberName>, AllocError>
    ensures { IfOk result (Lists member_cmp (Contains members.items)) }
{
    members.sort()?;
    members.dedup();
    Ok(Items::from_vec(members))
}

/// The world of the least solution for a program of the first form. Nothing in it makes an object, touches a
/// field or fails to link.
pub fn least_world(alloc: Global, program: &Program) -> Result<World, AllocError>
    requires { IsOfForm program.now.classes program.now.root }
    ensures { IfOk result (λ world. IsLeastWorld program.now.classes program.now.root world) }
{
    tests_decide();
    let nodes = nodes_of(alloc, program.classes.as_slice())?;
    let values = solution(alloc, &nodes, program)?;
    let methods = sorted(entered_in(alloc, &nodes, &values, program.classes.as_slice())?)?;
    Ok(World {
        types: Items::new(alloc),
        methods,
        fields: Items::new(alloc),
        unresolved: Items::new(alloc),
    })
}
