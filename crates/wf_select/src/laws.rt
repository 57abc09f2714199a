//! What holds of the answers, as the contract of a function that does nothing.

ghost use Rattle.std.specs.Prelude.{◌≡◌, ℕ, List};
ghost use Rattle.wf_data.specs.declared.class_info.ClassInfo.{ClassInfo};
ghost use Rattle.wf_select.specs.Selection.{Selects, Special};
ghost use Rattle.wf_select.specs.declared.outcome.Invoke.{Invoke};
ghost use Rattle.wf_select.specs.declared.outcome.Selected.{Selected};

/// A call has at most one answer: one method, AbstractMethod or Incompatible. That it has one is what `select` and
/// `special` show.
pub fn calls_run_one()
    ensures selected { (classes : List ClassInfo) (t m : ℕ) (by : Invoke) (a b : Selected) → Selects classes t m by a → Selects classes t m by b → a ≡ b }
    ensures special { (classes : List ClassInfo) (current named m : ℕ) (a b : Selected) → Special classes current named m a → Special classes current named m b → a ≡ b }
{}
