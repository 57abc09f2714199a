ghost use Rattle.std.specs.Prelude.{◌≡◌};
ghost use Rattle.wf_rows.specs.declared.throwable.Throwable.{Throwable};
ghost use Rattle.wf_nodes.specs.Sharing.{thrown_type};
ghost use Rattle.wf_nodes.specs.Thrown.{place_of, type_in};

use std::marker::Model;
use wf_base::TypeId;
use wf_rows::Throwable;
use wf_subtype::Types;

/// The type of each of what the machine throws. A contract sees it as a table, in which `type_in`
/// finds them.
#[derive(Drop)]
pub struct Thrown {
    types: [Option<TypeId>; 13],
}

impl Model for Thrown {
    ghost use Rattle.std.specs.Prelude.{List, Option};
    ghost use Rattle.wf_base.specs.declared.ids.TypeId.{TypeId};

    ghost Value = { List (Option TypeId) };

    ghost view = { λ t. t.types };
}

/// The place of each in the table.
fn place_of(error: Throwable) -> usize
    ensures { result ≡ place_of error }
{
    match error {
        Throwable::NullPointer => 0,
        Throwable::ArrayIndexOutOfBounds => 1,
        Throwable::ArrayStore => 2,
        Throwable::NegativeArraySize => 3,
        Throwable::ClassCast => 4,
        Throwable::Arithmetic => 5,
        Throwable::AbstractMethod => 6,
        Throwable::IncompatibleClassChange => 7,
        Throwable::NoClassDefFound => 8,
        Throwable::NoSuchField => 9,
        Throwable::NoSuchMethod => 10,
        Throwable::Instantiation => 11,
        Throwable::ExceptionInInitializer => 12,
    }
}

fn thrown_type(types: &Types, error: Throwable) -> Option<TypeId>
    ensures { result ≡ thrown_type types.now error }
{
    types.find(error.class_name())
}

/// The types of what the machine throws.
pub fn thrown_types(types: &Types) -> Thrown
    ensures { (error : Throwable) → type_in result error ≡ thrown_type types.now error }
{
    Thrown {
        types: [
            thrown_type(types, Throwable::NullPointer),
            thrown_type(types, Throwable::ArrayIndexOutOfBounds),
            thrown_type(types, Throwable::ArrayStore),
            thrown_type(types, Throwable::NegativeArraySize),
            thrown_type(types, Throwable::ClassCast),
            thrown_type(types, Throwable::Arithmetic),
            thrown_type(types, Throwable::AbstractMethod),
            thrown_type(types, Throwable::IncompatibleClassChange),
            thrown_type(types, Throwable::NoClassDefFound),
            thrown_type(types, Throwable::NoSuchField),
            thrown_type(types, Throwable::NoSuchMethod),
            thrown_type(types, Throwable::Instantiation),
            thrown_type(types, Throwable::ExceptionInInitializer),
        ],
    }
}

impl Thrown {
    /// The type of one of them. None where its class isn't loadable, or is abstract.
    pub fn of(&self, error: Throwable) -> Option<TypeId>
        ensures { result ≡ type_in self.now error }
    {
        self.types[place_of(error)]
    }
}
