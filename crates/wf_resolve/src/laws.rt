//! What holds of the answers, as the contract of a function that does nothing.

ghost use Rattle.std.specs.Prelude.{◌≡◌, ℕ, List, Option, Result};
ghost use Rattle.wf_base.specs.declared.ids.FieldId.{FieldId};
ghost use Rattle.wf_base.specs.declared.ids.MethodId.{MethodId};
ghost use Rattle.wf_data.specs.declared.class_info.ClassInfo.{ClassInfo};
ghost use Rattle.wf_grammar.specs.ClassFile.{Key};
ghost use Rattle.wf_names.specs.declared.world.LinkError.{LinkError};
ghost use Rattle.wf_resolve.specs.Resolution.{Field, Method, InterfaceMethod};

/// A class, a name and a descriptor mean at most one field, one method of a class and one method of an interface, or
/// at most one error. That they mean one is what `field`, `method` and `interface_method` show.
pub fn names_mean_one()
    ensures field { (classes : List ClassInfo) (class : List ℕ) (key : Key) (a b : Result FieldId LinkError) → Field classes class key a → Field classes class key b → a ≡ b }
    ensures method { (classes : List ClassInfo) (class : List ℕ) (key : Key) (a b : Result MethodId LinkError) → Method classes class key a → Method classes class key b → a ≡ b }
    ensures interface_method { (classes : List ClassInfo) (class : List ℕ) (key : Key) (a b : Result MethodId LinkError) → InterfaceMethod classes class key a → InterfaceMethod classes class key b → a ≡ b }
{}
