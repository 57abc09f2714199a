//! Two worlds of one run answer alike.

ghost use Rattle.std.specs.Prelude.{◌≡◌, ◌<◌, ℕ, List, length, map};
ghost use Rattle.wf_base.specs.declared.ids.ClassId.{ClassId};
ghost use Rattle.wf_base.specs.declared.ids.FieldId.{FieldId};
ghost use Rattle.wf_base.specs.declared.ids.MethodId.{MethodId};
ghost use Rattle.wf_base.specs.declared.ids.TargetId.{TargetId};
ghost use Rattle.wf_base.specs.declared.ids.TypeId.{TypeId};
ghost use Rattle.wf_data.specs.declared.class_info.FieldInfo.{FieldInfo};
ghost use Rattle.wf_data.specs.declared.class_info.MethodInfo.{MethodInfo};
ghost use Rattle.wf_operation.specs.declared.sort.Element.{Element};
ghost use Rattle.wf_classes.specs.Own.{IsField, IsMethod};
ghost use Rattle.wf_classes.specs.World.{number};
ghost use Rattle.wf_init.specs.Order.{IsInitOrder};
ghost use Rattle.wf_rows.specs.declared.throwable.Throwable.{Throwable};
ghost use Rattle.wf_machine.specs.World.{World};
ghost use Rattle.wf_runtime.specs.Roots.{IsExecution};
ghost use Rattle.wf_runtime.specs.Runtime.{IsWorldOf};
ghost use Rattle.wf_runtime.specs.Smallest as smallest;
ghost use Rattle.wf_runtime.specs.Summaries.{Run};

use wf_init::orders_are_single;

/// Two worlds of one run have the same types, the same elements and arrays, the same initializers in the same order, the same
/// effects of methods, and the same errors; frames of their methods begin alike.
pub fn look_ups_are_single()
    ensures under { (p : Run) (w v : World) → IsWorldOf p w → IsWorldOf p v → (t : TypeId) (u : TargetId) → w.is_under t u ≡ v.is_under t u }
    ensures arrays { (p : Run) (w v : World) → IsWorldOf p w → IsWorldOf p v → (t : TypeId) → w.is_array t ≡ v.is_array t }
    ensures elements { (p : Run) (w v : World) → IsWorldOf p w → IsWorldOf p v → (t : TypeId) (e : Element) → w.has_elements t e ≡ v.has_elements t e }
    ensures stores { (p : Run) (w v : World) → IsWorldOf p w → IsWorldOf p v → (array t : TypeId) → w.may_hold array t ≡ v.may_hold array t }
    ensures first_elements { (p : Run) (w v : World) → IsWorldOf p w → IsWorldOf p v → (t : TypeId) → w.first_element t ≡ v.first_element t }
    ensures statics { (p : Run) (w v : World) → IsWorldOf p w → IsWorldOf p v → (f : FieldId) (c : ℕ) (info : FieldInfo) → IsField p.types.classes f.0 c info → w.is_static f ≡ v.is_static f }
    ensures initializers { (p : Run) (w v : World) → IsWorldOf p w → IsWorldOf p v → (c : ClassId) → w.initializer c ≡ v.initializer c }
    ensures before { (p : Run) (w v : World) → IsWorldOf p w → IsWorldOf p v → (c : ClassId) → c.0 < length p.types.classes → w.before c ≡ v.before c }
    ensures errors { (p : Run) (w v : World) → IsWorldOf p w → IsWorldOf p v → (t : TypeId) → w.is_error t ≡ v.is_error t }
    ensures thrown { (p : Run) (w v : World) → IsWorldOf p w → IsWorldOf p v → (e : Throwable) → w.thrown e ≡ v.thrown e }
    ensures summaries { (p : Run) (w v : World) → IsWorldOf p w → IsWorldOf p v → (m : MethodId) → w.summary m ≡ v.summary m }
    ensures entries { (p : Run) (w v : World) → IsWorldOf p w → IsWorldOf p v → (m : MethodId) (c : ℕ) (info : MethodInfo) → IsMethod p.types.classes m.0 c info → w.entry m ≡ v.entry m }
{
    orders_are_single();
}

/// What `init_order` gives is what the machine requests.
pub fn init_order_is_the_machines()
    ensures { (p : Run) (w : World) → IsWorldOf p w → (c : ClassId) (order : List ClassId) → c.0 < length p.types.classes → IsInitOrder p.types.classes c.0 (map number order) → w.before c ≡ order }
{
    orders_are_single();
}

/// The smallest program has a world: nothing that is said of look-ups is at odds with the rest.
pub fn a_world_stands()
    ensures { IsWorldOf smallest.smallest smallest.world }
{}

/// The smallest program is executed: its root initializes java/lang/Object.
pub fn an_execution_stands()
    ensures { IsExecution smallest.smallest smallest.roots smallest.states }
{}
