//! What holds of the table, as the contracts of functions that do nothing.

ghost use Rattle.std.specs.Prelude.{ℕ, ◌+◌, ◌<◌, ◌≡◌, ◌↔◌, false, List, [], Contains, Option, Some, Ok, slice_get};
ghost use Rattle.wf_base.specs.declared.ids.MethodId.{MethodId};
ghost use Rattle.wf_base.specs.declared.ids.NodeId.{NodeId};
ghost use Rattle.wf_base.specs.declared.ids.TargetId.{TargetId};
ghost use Rattle.wf_base.specs.declared.ids.TypeId.{TypeId};
ghost use Rattle.wf_names.specs.declared.world.LinkError.{LinkError};
ghost use Rattle.wf_operation.specs.declared.next.Next.{Next};
ghost use Rattle.wf_operation.specs.declared.slot.SlotKind.{SlotKind};
ghost use Rattle.wf_operation.specs.declared.slot.SlotKind.TheVariants.{Unused};
ghost use Rattle.wf_operation.specs.Nexts.{edge_count};
ghost use Rattle.wf_operation.specs.Slots.{same_kind};
ghost use Rattle.wf_system.specs.declared.inequality.Guard.TheVariants.{Linked};
ghost use Rattle.wf_system.specs.declared.inequality.ValueOp.TheVariants.{Copy, OneType, IfHolds};
ghost use Rattle.wf_system.specs.declared.inequality.Inequality.{Inequality};
ghost use Rattle.wf_system.specs.Numbers.{NumberedRow};
ghost use Rattle.wf_rows.specs.declared.action.Action.{Action};
ghost use Rattle.wf_rows.specs.declared.action.Action.TheVariants as action;
ghost use Rattle.wf_rows.specs.declared.action.ArrayUse.TheVariants as array;
ghost use Rattle.wf_rows.specs.declared.action.SelectedCall.{SelectedCall};
ghost use Rattle.wf_rows.specs.declared.action.StaticCall.{StaticCall};
ghost use Rattle.wf_rows.specs.declared.classes.InstanceFields.{InstanceFields};
ghost use Rattle.wf_rows.specs.declared.classes.Initialization.{Initialization};
ghost use Rattle.wf_rows.specs.declared.context.ArrayType.{ArrayType};
ghost use Rattle.wf_rows.specs.declared.joins.HandlerEntry.{HandlerEntry};
ghost use Rattle.wf_rows.specs.declared.node.Node.{Node};
ghost use Rattle.wf_rows.specs.declared.node.Node.TheVariants.{Inst, Parameter, Element, In};
ghost use Rattle.wf_rows.specs.declared.node.Own.{Own};
ghost use Rattle.wf_rows.specs.declared.node.Own.TheVariants.{Block, Merged};
ghost use Rattle.wf_rows.specs.declared.summaries.SummaryEffect.{SummaryEffect};
ghost use Rattle.wf_rows.specs.declared.throwable.Throwable.{Throwable};
ghost use Rattle.wf_rows.specs.Before.{Before, links, operand, row, row_under};
ghost use Rattle.wf_rows.specs.Branches.{along_rows, branch_rows};
ghost use Rattle.wf_rows.specs.Classes.{initialization_rows, instances_rows, elements_rows};
ghost use Rattle.wf_rows.specs.Summaries.{effect_rows};
ghost use Rattle.wf_rows.specs.Calls.{candidate_rows, selected_rows, static_rows};
ghost use Rattle.wf_rows.specs.Errors.{throwable_of, own_errors, link_error, machine_rows};
ghost use Rattle.wf_rows.specs.Joins.{edge_rows, covered_rows};
ghost use Rattle.wf_rows.specs.Nodes.{Shared, TargetsThere, IsNamed, InitializationNamed, InstancesNamed, EffectNamed};
ghost use Rattle.wf_rows.specs.OwnNodes.{own_at, block_nodes};
ghost use Rattle.wf_rows.specs.Renaming.{all_renamed};
ghost use Rattle.wf_rows.specs.Table.{rows_at, place_rows};

/// No row of a place is left out for want of its target: where what its instruction names has nodes, each
/// target is one of the program's or of the place's.
pub fn rows_have_their_targets()
    ensures { (s : Shared) (k : Before) (thrown : Throwable → Option TypeId) (keys : ℕ) (next : Next) (action : Action) →
        IsNamed s k.method action → TargetsThere s (own_at k.pc next action) (place_rows k s.arrays thrown keys next action) }
{}

/// Nor is a row without a place.
pub fn rows_without_a_place_have_their_targets()
    ensures classes { (s : Shared) (thrown : Throwable → Option TypeId) (c : Initialization) →
        InitializationNamed s c → TargetsThere s [] (initialization_rows thrown c) }
    ensures instances { (s : Shared) (c : InstanceFields) → InstancesNamed s c → TargetsThere s [] (instances_rows c) }
    ensures elements { (s : Shared) → TargetsThere s [] (elements_rows s.arrays) }
    ensures effects { (s : Shared) (m : MethodId) (e : SummaryEffect) → EffectNamed s m e → TargetsThere s [] (effect_rows m s.arrays e) }
{}

/// The rows of a place are what is left of its operands along its edges, what it does, and what it throws.
pub fn places_have_their_rows()
    ensures edges { (k : Before) (arrays : List ArrayType) (thrown : Throwable → Option TypeId) (keys : ℕ) (next : Next) (action : Action) (edge : ℕ) (q : Inequality (Node Own)) →
        edge < edge_count next → Contains (along_rows k next keys edge) q → Contains (place_rows k arrays thrown keys next action) q }
    ensures acts { (k : Before) (arrays : List ArrayType) (thrown : Throwable → Option TypeId) (keys : ℕ) (next : Next) (action : Action) (q : Inequality (Node Own)) →
        Contains (rows_at k arrays action) q → Contains (place_rows k arrays thrown keys next action) q }
    ensures errors { (k : Before) (arrays : List ArrayType) (thrown : Throwable → Option TypeId) (keys : ℕ) (next : Next) (action : Action) (i : ℕ) (error : Throwable) (t : TypeId) →
        slice_get (own_errors action) i ≡ Some error → thrown error ≡ Some t → Contains (place_rows k arrays thrown keys next action) (row k Inst (OneType t)) }
    ensures failures { (k : Before) (arrays : List ArrayType) (thrown : Throwable → Option TypeId) (keys : ℕ) (next : Next) (action : Action) (error : LinkError) (t : TypeId) →
        link_error action ≡ Some error → thrown (throwable_of error) ≡ Some t → Contains (place_rows k arrays thrown keys next action) (row k Inst (OneType t)) }
{}

/// Each candidate, each argument and each array type has its rows.
pub fn lists_have_their_rows()
    ensures candidates { (k : Before) (c : SelectedCall) (j : ℕ) (m : MethodId) (q : Inequality (Node Own)) →
        slice_get c.candidates j ≡ Some m → Contains (candidate_rows k c j m) q → Contains (selected_rows k (Ok c)) q }
    ensures arguments { (k : Before) (c : SelectedCall) (j i depth : ℕ) (m : MethodId) →
        slice_get c.arguments i ≡ Some depth → Contains (candidate_rows k c j m) (row_under (Linked (links k) j) (Parameter m (1 + i)) (Copy (operand k depth))) }
    ensures static_arguments { (k : Before) (c : StaticCall) (i depth : ℕ) →
        slice_get c.arguments i ≡ Some depth → Contains (static_rows k (Ok c)) (row k (Parameter c.method i) (Copy (operand k depth))) }
    ensures stores { (k : Before) (arrays : List ArrayType) (i : ℕ) (t : ArrayType) →
        slice_get arrays i ≡ Some t → Contains (rows_at k arrays (action.Array array.StoreRef)) (row k (Element t.array) (IfHolds (operand k 2) t.array (operand k 0) t.component)) }
{}

/// What slots hold flows into the block that an edge or a handler leads to, and the used slots there are nodes.
pub fn blocks_have_their_rows()
    ensures edges { (edge : Before) (slot : ℕ) (flow : Node Own) →
        slice_get edge.slots slot ≡ Some flow → Contains (edge_rows edge) (row edge (In (Merged edge.pc slot)) (Copy flow)) }
    ensures handlers { (k : Before) (h : HandlerEntry) (u : TargetId) (slot : ℕ) (flow : Node Own) →
        h.catches ≡ Some u → slot < h.locals → slice_get k.slots slot ≡ Some flow → Contains (covered_rows k h) (row k (In (Merged h.target slot)) (Copy flow)) }
    ensures block { (pc : ℕ) (kinds : List SlotKind) → Contains (block_nodes pc kinds) (Block pc) }
    ensures slots { (pc slot : ℕ) (kind : SlotKind) (kinds : List SlotKind) →
        slice_get kinds slot ≡ Some kind → same_kind kind Unused ≡ false → Contains (block_nodes pc kinds) (Merged pc slot) }
{}

/// Of rows by numbers, those that are not left out are those by names whose nodes all have numbers.
pub fn numbered_rows_are_named_rows()
    ensures { (number : Node Own → Option NodeId) (rows : List (Inequality (Node Own))) (r : Inequality NodeId) →
        Contains (all_renamed number rows) r ↔ NumberedRow number (λ q. Contains rows q) r }
{}
