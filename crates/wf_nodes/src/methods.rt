//! The methods of a program with their nodes.

ghost use Rattle.std.specs.Prelude.{◌≡◌, ◌+◌, ◌^◌, ◌<◌, ◌≤◌, not, length, slice_index_or, IfOk};
ghost use Rattle.std.specs.List.{list_any};
ghost use Rattle.wf_classes.specs.Members.{method_keys, member_count};
ghost use Rattle.wf_nodes.specs.Numbering.{method_count};
ghost use Rattle.wf_nodes.specs.Sharing.{follows, returns_well, receivers, nodes_of_method};
ghost use Rattle.wf_nodes.specs.Tables.{nodes_in, no_method, method_begins, count_at_method, ArePlaced, AreMethods, IsMethodWith};

use std::alloc::{AllocError, Global};
use wf_base::MethodId;
use wf_classes::declared_method;
use wf_data::{is_abstract, is_static};
use wf_descriptor::{DescFault, FieldDesc, MethodDesc, read_descriptor};
use wf_operation::is_followed;
use wf_subtype::Types;

/// Which nodes a method has.
#[derive(Clone, Copy)]
pub struct NodesOfMethod {
    pub entered: bool,
    /// How many parameters have nodes, the receiver among them.
    pub parameters: u16,
    pub returned: bool,
}

/// The nodes of a method, and the number at which they begin.
#[derive(Clone, Copy)]
pub struct MethodPlace {
    pub first: u64,
    pub nodes: NodesOfMethod,
}

/// The methods of a program.
#[derive(Drop)]
pub struct MethodPlaces {
    pub places: Vec<MethodPlace>,
    /// The number behind those of their nodes.
    pub next: u64,
}

const NO_NODES: NodesOfMethod = NodesOfMethod {
    entered: false,
    parameters: 0,
    returned: false,
};

const NO_METHOD: MethodPlace = MethodPlace {
    first: 0,
    nodes: NO_NODES,
};

impl NodesOfMethod {
    /// How many nodes these are.
    pub fn count(self) -> u64
        ensures gives { result ≡ method_count (nodes_in self) }
        ensures few { result ≤ 131072 }
    {
        if self.entered {
            1 + u64::from(self.parameters) + u64::from(self.returned)
        } else {
            0
        }
    }
}

fn follows(desc: &FieldDesc) -> bool
    ensures { result ≡ follows desc.now }
{
    is_followed(desc.kind)
}

fn has_unfollowed(params: &[FieldDesc]) -> bool
    ensures { result ≡ list_any (λ d. not (follows d)) params.now }
{
    params.iter().any(|d| !follows(d))
}

fn returns_well(ret: &Option<FieldDesc>) -> bool
    ensures { result ≡ returns_well ret.now }
{
    match ret {
        Some(desc) => follows(desc),
        None => true,
    }
}

fn receivers(flags: u16) -> u16
    ensures { result ≡ receivers flags }
{
    if is_static(flags) { 0 } else { 1 }
}

fn nodes_of_method(flags: u16, desc: &MethodDesc) -> NodesOfMethod
    requires { length desc.now.params ≤ 255 }
    ensures { nodes_in result ≡ nodes_of_method flags desc.now }
{
    if is_abstract(flags) || has_unfollowed(desc.params.as_slice()) {
        return NO_NODES;
    }
    NodesOfMethod {
        entered: true,
        parameters: receivers(flags) + desc.params.len() as u16,
        returned: returns_well(&desc.ret),
    }
}

/// The nodes of a method by its number. One that is there has a descriptor.
fn nodes_at(alloc: Global, types: &Types, m: MethodId) -> Result<NodesOfMethod, AllocError>
    requires { m.0 < member_count (method_keys types.now.classes) }
    ensures { IfOk result (λ nodes. IsMethodWith types.now m.0 (nodes_in nodes)) }
{
    let classes = types.classes();
    let _ = classes.list();
    let info = declared_method(classes, m).info;
    match read_descriptor(alloc, info.desc.as_slice()) {
        Ok(desc) => Ok(nodes_of_method(info.flags, &desc)),
        Err(DescFault::NoMemory) => Err(AllocError),
        Err(DescFault::NotADescriptor { .. }) => unreachable!(),
    }
}

/// The methods of a program, whose nodes have the numbers from `first` on.
pub fn method_places(alloc: Global, types: &Types, first: u64) -> Result<MethodPlaces, AllocError>
    requires { first ≤ 2 ^ 32 }
    ensures are { IfOk result (λ m. AreMethods types.now (member_count (method_keys types.now.classes)) m.places.items) }
    ensures placed { IfOk result (λ m. ArePlaced method_begins count_at_method first m.places.items m.next) }
    ensures few { IfOk result (λ m. m.next ≤ 2 ^ 50) }
{
    let mut places = Vec::new(alloc);
    let mut next = first;
    for m in 0..types.classes().methods() {
        let nodes = nodes_at(alloc, types, MethodId(m))?;
        places.push(MethodPlace { first: next, nodes })?;
        next += nodes.count();
    }
    Ok(MethodPlaces { places, next })
}

/// The method with a number, or one without nodes.
pub fn method_in(places: &[MethodPlace], m: MethodId) -> MethodPlace
    ensures { result ≡ slice_index_or places.now m.0 no_method }
{
    places.get(m.0 as usize).copied().unwrap_or(NO_METHOD)
}
