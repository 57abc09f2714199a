ghost use Rattle.std.specs.Prelude.{◌≡◌, ℕ, List, Some, length};
ghost use Rattle.wf_listing.specs.declared.listing.Constant.{Constant};
ghost use Rattle.wf_listing.specs.declared.listing.Step.{Step};
ghost use Rattle.wf_asm.specs.Building.{Label, step_bytes, size_of_step};

/// The size of an instruction, by which the labels behind it get their places, is how many bytes it has.
pub fn sizes_are_lengths()
    ensures { (cs : List Constant) (labels : List Label) (at : ℕ) (s : Step) (bytes : List ℕ) → step_bytes cs labels at s ≡ Some bytes → length bytes ≡ size_of_step cs at s }
{}
