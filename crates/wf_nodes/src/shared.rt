ghost use Rattle.std.specs.Prelude.{◌≡◌, ◌+◌, ◌^◌, ◌<◌, true, false, slice_index_or, IfOk};
ghost use Rattle.wf_rows.specs.declared.node.Node.TheVariants as node;
ghost use Rattle.wf_rows.specs.Nodes.{method_nodes};
ghost use Rattle.wf_nodes.specs.Numbering.{shared_number, shared_count, method_first, field_first};
ghost use Rattle.wf_nodes.specs.Sharing.{IsShared};
ghost use Rattle.wf_nodes.specs.Tables.{nodes_at};

use crate::arrays::{arrays_of, place_in};
use crate::fields::{FieldPlace, field_in, field_places};
use crate::methods::{MethodPlace, method_in, method_places};
use std::alloc::{AllocError, Global};
use std::marker::Model;
use wf_base::{ClassId, FieldId, MethodId, TypeId};
use wf_rows::{ArrayType, Node, Own};
use wf_subtype::Types;

/// Which nodes bodies share, and where the numbers of each kind begin. A contract sees it as `Shared`.
#[derive(Drop)]
pub struct SharedNodes {
    classes: u32,
    methods: Vec<MethodPlace>,
    fields: Vec<FieldPlace>,
    arrays: Vec<ArrayType>,
    array_places: Vec<Option<u32>>,
    copies: u32,
    first_array: u64,
    first_copy: u64,
}

impl Model for SharedNodes {
    ghost use Rattle.std.specs.Prelude.{map};
    ghost use Rattle.wf_rows.specs.Nodes.{Shared};
    ghost use Rattle.wf_nodes.specs.Tables.{nodes_at, followed_at, AreKept};

    ghost Value = { Shared };

    ghost view = { λ n. record { classes = n.classes; methods = map nodes_at n.methods.items; fields = map followed_at n.fields.items; arrays = n.arrays.items; copies = n.copies } };

    ghost invariant = { λ n. AreKept n.classes n.methods.items n.fields.items n.arrays.items n.array_places.items n.copies n.first_array n.first_copy };
}

/// The number of the first class.
const FIRST_CLASS: u64 = 3;

/// The nodes that the bodies of a program share, where so many lines of its summary copy elements.
pub fn shared_nodes(alloc: Global, types: &Types, copies: u32) -> Result<SharedNodes, AllocError>
    ensures { IfOk result (λ s. IsShared types.now copies s) }
{
    let classes = types.classes().list().len() as u32;
    let methods = method_places(alloc, types, FIRST_CLASS + u64::from(classes))?;
    let fields = field_places(alloc, types, methods.next)?;
    let arrays = arrays_of(alloc, types)?;
    let first_copy = fields.next + arrays.list.len() as u64;
    Ok(SharedNodes {
        classes,
        methods: methods.places,
        fields: fields.places,
        arrays: arrays.list,
        array_places: arrays.places,
        copies,
        first_array: fields.next,
        first_copy,
    })
}

impl SharedNodes {
    /// The number of a node that bodies share. None of one that isn't there, and of a node of a body.
    pub fn number(&self, node: Node<Own>) -> Option<u64>
        ensures { result ≡ shared_number self.now node }
    {
        match node {
            Node::Inst => Some(0),
            Node::Start => Some(1),
            Node::Nothing => Some(2),
            Node::Initialized(class) => self.initialized(class),
            Node::Entered(m) => self.entered(m),
            Node::Parameter(m, i) => self.parameter(m, i),
            Node::Returned(m) => self.returned(m),
            Node::Held(f) => self.held(f),
            Node::Touched(f) => self.touched(f),
            Node::Element(t) => self.element(t),
            Node::Copied(line) => self.copied(line),
            Node::In(_) => None,
        }
    }

    /// How many nodes these are. Their numbers are below this.
    pub fn count(&self) -> u64
        ensures { result ≡ shared_count self.now }
    {
        self.first_copy + u64::from(self.copies)
    }

    /// The array types whose components are references.
    pub fn arrays(&self) -> &[ArrayType]
        ensures { result.now ≡ self.now.arrays }
    {
        self.arrays.as_slice()
    }

    /// The nodes of a method.
    fn method(&self, m: MethodId) -> MethodPlace
        ensures nodes { nodes_at result ≡ method_nodes self.now m }
        ensures first { (method_nodes self.now m).entered ≡ true → result.first ≡ method_first self.now m }
        ensures small { result.first < 2 ^ 62 }
    {
        method_in(self.methods.as_slice(), m)
    }

    /// The nodes of a field.
    fn field(&self, f: FieldId) -> FieldPlace
        ensures followed { result.followed ≡ slice_index_or self.now.fields f.0 false }
        ensures first { slice_index_or self.now.fields f.0 false ≡ true → result.first ≡ field_first self.now f.0 }
        ensures small { result.first < 2 ^ 62 }
    {
        field_in(self.fields.as_slice(), f)
    }

    fn initialized(&self, class: ClassId) -> Option<u64>
        ensures { result ≡ shared_number self.now (node.Initialized class) }
    {
        if class.0 < self.classes {
            Some(FIRST_CLASS + u64::from(class.0))
        } else {
            None
        }
    }

    fn entered(&self, m: MethodId) -> Option<u64>
        ensures { result ≡ shared_number self.now (node.Entered m) }
    {
        let place = self.method(m);
        if place.nodes.entered {
            Some(place.first)
        } else {
            None
        }
    }

    fn parameter(&self, m: MethodId, i: usize) -> Option<u64>
        ensures { result ≡ shared_number self.now (node.Parameter m i) }
    {
        let place = self.method(m);
        if place.nodes.entered && i < place.nodes.parameters as usize {
            Some(place.first + 1 + i as u64)
        } else {
            None
        }
    }

    fn returned(&self, m: MethodId) -> Option<u64>
        ensures { result ≡ shared_number self.now (node.Returned m) }
    {
        let place = self.method(m);
        if place.nodes.entered && place.nodes.returned {
            Some(place.first + 1 + u64::from(place.nodes.parameters))
        } else {
            None
        }
    }

    fn held(&self, f: FieldId) -> Option<u64>
        ensures { result ≡ shared_number self.now (node.Held f) }
    {
        let place = self.field(f);
        if place.followed {
            Some(place.first)
        } else {
            None
        }
    }

    fn touched(&self, f: FieldId) -> Option<u64>
        ensures { result ≡ shared_number self.now (node.Touched f) }
    {
        let place = self.field(f);
        if place.followed {
            Some(place.first + 1)
        } else {
            None
        }
    }

    fn element(&self, t: TypeId) -> Option<u64>
        ensures { result ≡ shared_number self.now (node.Element t) }
    {
        match place_in(self.array_places.as_slice(), t) {
            Some(place) => Some(self.first_array + u64::from(place)),
            None => None,
        }
    }

    fn copied(&self, line: u32) -> Option<u64>
        ensures { result ≡ shared_number self.now (node.Copied line) }
    {
        if line < self.copies {
            Some(self.first_copy + u64::from(line))
        } else {
            None
        }
    }
}
