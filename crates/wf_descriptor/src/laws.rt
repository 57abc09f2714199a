ghost use Rattle.std.specs.Prelude.{◌≡◌, ◌↔◌, ℕ, List, true};
ghost use Rattle.wf_descriptor.specs.declared.descriptor.FieldDesc.{FieldDesc};
ghost use Rattle.wf_descriptor.specs.declared.descriptor.MethodDesc.{MethodDesc};
ghost use Rattle.wf_descriptor.specs.Descriptors.{SpellsField, SpellsMethod, IsFieldDescriptor, IsMethodDescriptor, is_field_descriptor, is_method_descriptor};

/// The law between the grammar of descriptors and the tests: bytes pass a test exactly where some
/// descriptor is spelled by them.
pub fn tests_are_the_grammar()
    ensures field { (bytes : List ℕ) → (is_field_descriptor bytes ≡ true) ↔ IsFieldDescriptor bytes }
    ensures method { (slots : ℕ) (bytes : List ℕ) → (is_method_descriptor slots bytes ≡ true) ↔ IsMethodDescriptor slots bytes }
{}

/// Bytes spell at most one descriptor, whatever the slots.
pub fn one_descriptor()
    ensures field { (bytes : List ℕ) (a b : FieldDesc) → SpellsField bytes a → SpellsField bytes b → a ≡ b }
    ensures method { (m n : ℕ) (bytes : List ℕ) (a b : MethodDesc) → SpellsMethod m bytes a → SpellsMethod n bytes b → a ≡ b }
{}
