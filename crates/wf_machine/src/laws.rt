//! The machine tried on small programs: the states that are given for each follow one another.

ghost use Rattle.std.specs.Prelude.{◌≡◌, ◌≢◌, ◌↔◌, ◌^◌, ℤ, pos, negsuc, [], ◌∷◌, Some, None, int_div, int_rem};
ghost use Rattle.std.specs.Int.{Width, w32, w64, int_wrap, int_div_euclid};
ghost use Rattle.std.specs.Int.RustNames.{FitsSigned};
ghost use lib.IntN.{◌+ℤ◌, ◌-ℤ◌, ◌*ℤ◌, neg_ℤ};
ghost use Rattle.wf_base.specs.declared.ids.FieldId.{FieldId};
ghost use Rattle.wf_base.specs.declared.ids.TypeId.{TypeId};
ghost use Rattle.wf_operation.specs.declared.sort.Arithmetic.TheVariants as arithmetic;
ghost use Rattle.wf_operation.specs.declared.sort.Shift.TheVariants as shift;
ghost use Rattle.wf_operation.specs.declared.sort.Sort.{Sort};
ghost use Rattle.wf_machine.specs.Arithmetic.{combined, shifted, negative, distance, int_op_value, long_op_value};
ghost use Rattle.wf_machine.specs.At.{At, Outcome};
ghost use Rattle.wf_machine.specs.Computing.{Computes};
ghost use Rattle.wf_machine.specs.Pieces.{AreInts, AreLongs, int_outcome, long_outcome};
ghost use Rattle.wf_machine.specs.Executions.{Exec, Entered, Made, Touched};
ghost use Rattle.wf_machine.specs.Failing as failing;
ghost use Rattle.wf_machine.specs.Programs as program;
ghost use Rattle.wf_machine.specs.Rooting as rooting;
ghost use Rattle.wf_machine.specs.Starting as starting;
ghost use Rattle.wf_machine.specs.Working as working;

/// Arithmetic is exact, and where a result is too large its lowest bits are left: a number of the width. A quotient is rounded
/// toward 0, and only the least number by -1 has none that fits. A shift to the left multiplies by a power of 2, and one to the
/// right divides by it, rounded down.
pub fn arithmetic_is_exact()
    ensures sum { (w : Width) (a b : ℤ) → FitsSigned w a → FitsSigned w b → combined w arithmetic.Add a b ≡ Some (int_wrap w (a +ℤ b)) }
    ensures difference { (w : Width) (a b : ℤ) → FitsSigned w a → FitsSigned w b → combined w arithmetic.Subtract a b ≡ Some (int_wrap w (a -ℤ b)) }
    ensures product { (w : Width) (a b : ℤ) → FitsSigned w a → FitsSigned w b → combined w arithmetic.Multiply a b ≡ Some (int_wrap w (a *ℤ b)) }
    ensures quotient { (w : Width) (a b : ℤ) → b ≢ pos 0 → FitsSigned w (int_div a b) → combined w arithmetic.Divide a b ≡ Some (int_div a b) }
    ensures remainder { (w : Width) (a b : ℤ) → b ≢ pos 0 → combined w arithmetic.Remainder a b ≡ Some (int_rem a b) }
    ensures no_quotient { (w : Width) (a : ℤ) → combined w arithmetic.Divide a (pos 0) ≡ None }
    ensures no_remainder { (w : Width) (a : ℤ) → combined w arithmetic.Remainder a (pos 0) ≡ None }
    ensures least_int { combined w32 arithmetic.Divide (negsuc 2147483647) (negsuc 0) ≡ Some (negsuc 2147483647) }
    ensures least_long { combined w64 arithmetic.Divide (negsuc 9223372036854775807) (negsuc 0) ≡ Some (negsuc 9223372036854775807) }
    ensures negation { (w : Width) (a : ℤ) → FitsSigned w a → negative w a ≡ int_wrap w (neg_ℤ a) }
    ensures left { (w : Width) (a b : ℤ) → FitsSigned w a → shifted w shift.Left a b ≡ int_wrap w (a *ℤ pos (2 ^ distance w b)) }
    ensures right { (w : Width) (a b : ℤ) → shifted w shift.Right a b ≡ int_div_euclid a (pos (2 ^ distance w b)) }
{}

/// What `int_op` and `long_op` give is what the machine's arithmetic leads to, and it leads to nothing else.
pub fn pieces_are_of_the_machine()
    ensures ints { (k : At) (s : Sort) (a b : ℤ) (out : Outcome) → AreInts k s a b → Computes k s out ↔ (out ≡ int_outcome k (int_op_value (Some s) a b)) }
    ensures longs { (k : At) (s : Sort) (a b : ℤ) (out : Outcome) → AreLongs k s a b → Computes k s out ↔ (out ≡ long_outcome k (long_op_value (Some s) a b)) }
{}

/// Constants, arithmetic, moves, branches and switches.
pub fn numbers_are_worked_out()
    ensures adds { Exec program.adds (program.calls_0 ∷ []) program.adds_states }
    ensures adds_longs { Exec program.adds_longs (program.calls_0 ∷ []) program.adds_longs_states }
    ensures moves { Exec program.moves (program.calls_0 ∷ []) program.moves_states }
    ensures branches { Exec program.branches (program.calls_0 ∷ []) program.branches_states }
    ensures switches { Exec program.switches (program.calls_0 ∷ []) program.switches_states }
{}

/// Fields, arrays, tests of types and literals; the execution ends where an error is no class that is there.
pub fn objects_are_used()
    ensures uses_field { Exec program.uses_field (program.calls_0 ∷ []) program.uses_field_states }
    ensures gets_of_null { Exec program.gets_of_null (program.calls_0 ∷ []) program.gets_of_null_states }
    ensures uses_array { Exec program.uses_array (program.calls_0 ∷ []) program.uses_array_states }
    ensures makes_arrays { Exec program.makes_arrays (program.calls_0 ∷ []) program.makes_arrays_states }
    ensures tests_null { Exec program.tests_null (program.calls_0 ∷ []) program.tests_null_states }
    ensures loads_literals { Exec program.loads_literals (program.calls_0 ∷ []) program.loads_literals_states }
{}

/// A call that returns, one that ends the execution, and an exception that is carried through two frames to its
/// handler.
pub fn calls_return_or_throw()
    ensures calls_virtual { Exec program.calls_virtual (program.calls_0 ∷ []) program.calls_virtual_states }
    ensures calls_abstract { Exec program.calls_abstract (program.calls_0 ∷ []) program.calls_abstract_states }
    ensures throws_through_two { Exec program.throws_through_two (program.calls_0 ∷ []) program.throws_through_two_states }
{}

/// A ring of initializers, one that fails, and a root that makes an object.
pub fn classes_are_initialized()
    ensures ring { Exec program.ring (program.calls_0 ∷ []) program.ring_states }
    ensures fails { Exec program.fails (program.calls_0 ∷ []) program.fails_states }
    ensures makes_root { Exec program.makes_root (program.makes_0 ∷ []) program.makes_root_states }
{}

/// A native method that makes, writes, copies and returns, and one that throws.
pub fn natives_do_what_the_summary_says()
    ensures calls_native { Exec program.calls_native (program.calls_0 ∷ []) program.calls_native_states }
    ensures native_throws { Exec program.native_throws (program.calls_0 ∷ []) program.native_throws_states }
{}

/// What the machine throws itself: an index outside an array, an element that an array may not hold, a length below 0, a cast
/// that is refused or that doesn't resolve, a call of null or of a type that selects nothing, and a field that doesn't resolve.
pub fn errors_are_thrown()
    ensures loads_outside { Exec failing.loads_outside (program.calls_0 ∷ []) failing.loads_outside_states }
    ensures stores_below { Exec failing.stores_below (program.calls_0 ∷ []) failing.stores_below_states }
    ensures stores_other { Exec failing.stores_other (program.calls_0 ∷ []) failing.stores_other_states }
    ensures makes_below { Exec failing.makes_below (program.calls_0 ∷ []) failing.makes_below_states }
    ensures casts_other { Exec failing.casts_other (program.calls_0 ∷ []) failing.casts_other_states }
    ensures casts_to_nothing { Exec failing.casts_to_nothing (program.calls_0 ∷ []) failing.casts_to_nothing_states }
    ensures calls_null { Exec failing.calls_null (program.calls_0 ∷ []) failing.calls_null_states }
    ensures calls_nothing { Exec failing.calls_nothing (program.calls_0 ∷ []) failing.calls_nothing_states }
    ensures gets_nothing { Exec failing.gets_nothing (program.calls_0 ∷ []) failing.gets_nothing_states }
{}

/// A root that initializes a class, a root behind another, one whose class failed before, one with arguments, and a native
/// method that returns nothing.
pub fn roots_are_started()
    ensures initializes { Exec rooting.returns (rooting.has_0 ∷ []) rooting.initializes_states }
    ensures starts_twice { Exec rooting.returns (program.calls_0 ∷ rooting.has_0 ∷ []) rooting.starts_twice_states }
    ensures fails_again { Exec program.fails (program.calls_0 ∷ []) rooting.fails_again_states }
    ensures takes { Exec rooting.takes (rooting.calls_with ∷ []) rooting.takes_states }
    ensures calls_void { Exec rooting.calls_void (program.calls_0 ∷ []) rooting.calls_void_states }
{}

/// The families of instructions that the other programs leave out: shifts, negations, conversions, comparisons, jumps, static
/// fields, lengths, monitors, tests of an object, a thrown object, and a native method that writes and returns its argument.
/// The execution ends where an object hasn't the field, or is no array.
pub fn families_are_worked_out()
    ensures works_out { Exec working.works_out (program.calls_0 ∷ []) working.works_out_states }
    ensures compares { Exec working.compares (program.calls_0 ∷ []) working.compares_states }
    ensures uses_static { Exec working.uses_static (program.calls_0 ∷ []) working.uses_static_states }
    ensures measures { Exec working.measures (program.calls_0 ∷ []) working.measures_states }
    ensures measures_object { Exec working.measures_object (program.calls_0 ∷ []) working.measures_object_states }
    ensures gets_elsewhere { Exec working.gets_elsewhere (program.calls_0 ∷ []) working.gets_elsewhere_states }
    ensures locks { Exec working.locks (program.calls_0 ∷ []) working.locks_states }
    ensures tests_object { Exec working.tests_object (program.calls_0 ∷ []) working.tests_object_states }
    ensures throws_object { Exec working.throws_object (program.calls_0 ∷ []) working.throws_object_states }
    ensures writes_argument { Exec working.writes_argument (program.calls_0 ∷ []) working.writes_argument_states }
{}

/// Initializations that fail: of a superclass, by an error, and where ExceptionInInitializerError isn't there; a class that is
/// passed over; an initializer and a root without a body.
pub fn classes_fail()
    ensures fails_below { Exec starting.fails_below (starting.has_1 ∷ program.calls_0 ∷ []) starting.fails_below_states }
    ensures passes { Exec starting.passes (program.calls_0 ∷ []) starting.passes_states }
    ensures fails_as_error { Exec starting.fails_as_error (program.calls_0 ∷ []) starting.fails_as_error_states }
    ensures fails_ended { Exec starting.fails_ended (program.calls_0 ∷ []) starting.fails_ended_states }
    ensures initializes_nothing { Exec starting.initializes_nothing (program.calls_0 ∷ []) starting.initializes_nothing_states }
    ensures starts_nothing { Exec rooting.returns (starting.calls_5 ∷ []) starting.starts_nothing_states }
{}

/// What some of these executions enter, make and touch: a method that is called, an error of the machine, and fields by an
/// instruction, by a native method and by a literal; a program on numbers makes and touches nothing.
pub fn executions_do_things()
    ensures entered { Entered program.calls_virtual_states (program.method_id 1) }
    ensures made { Made program.throws_through_two_states (program.type_id 1) }
    ensures touched { Touched program.uses_field program.uses_field_states (program.field_id 0) }
    ensures touched_by_native { Touched program.calls_native program.calls_native_states (program.field_id 5) }
    ensures touched_by_literal { Touched program.loads_literals program.loads_literals_states (program.field_id 0) }
    ensures nothing_made { (t : TypeId) → Made program.adds_states t → ⊥ }
    ensures nothing_touched { (f : FieldId) → Touched program.adds program.adds_states f → ⊥ }
{}
