//! A class has one order of initialization.

ghost use Rattle.std.specs.Prelude.{◌≡◌, ℕ, List};
ghost use Rattle.wf_data.specs.declared.class_info.ClassInfo.{ClassInfo};
ghost use Rattle.wf_init.specs.Order.{IsInitOrder};

/// What is initialized before a class is one list.
pub fn orders_are_single()
    ensures { (classes : List ClassInfo) (c : ℕ) (xs ys : List ℕ) → IsInitOrder classes c xs → IsInitOrder classes c ys → xs ≡ ys }
{}
