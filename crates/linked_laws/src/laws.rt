//! What is linked, and what is marked for it.

ghost use Rattle.std.specs.Prelude.{◌≡◌, ◌≤◌, ◌↔◌, ◌==◌, ◌++◌, ℕ, true, false, length, slice_get, slice_index_or, Option, Some, List as Listed};
ghost use Rattle.std.specs.List.{All, Contains, filter_map};
ghost use Rattle.ds_base.specs.DwarfNumbers.{DW_AT_decl_file};
ghost use Rattle.dwarf_types.specs.declared.entry.Attr.{Attr};
ghost use Rattle.dwarf_types.specs.declared.entry.Entry.{Entry};
ghost use Rattle.dwarf_types.specs.declared.expr.Base.TheVariants as bases;
ghost use Rattle.dwarf_types.specs.declared.expr.Op.{Op};
ghost use Rattle.dwarf_types.specs.declared.expr.PlainOp.{PlainOp};
ghost use Rattle.dwarf_types.specs.declared.graph.Graph.{Graph};
ghost use Rattle.dwarf_types.specs.declared.graph.OutUnit.{OutUnit};
ghost use Rattle.dwarf_types.specs.declared.graph.OutValue.TheVariants as out;
ghost use Rattle.dwarf_types.specs.declared.graph.Target.{Target};
ghost use Rattle.dwarf_types.specs.declared.operands.Operands.TheVariants as operands;
ghost use Rattle.dwarf_types.specs.declared.parts.ExprPart.TheVariants as parts;
ghost use Rattle.dwarf_types.specs.declared.parts.PlainPart.{PlainPart};
ghost use Rattle.dwarf_types.specs.declared.parts.PlainPart.TheVariants as plain;
ghost use Rattle.dwarf_types.specs.declared.shape.Origin.{Origin};
ghost use Rattle.dwarf_types.specs.declared.shape.ShapeUnit.{ShapeUnit};
ghost use Rattle.dwarf_types.specs.declared.value.Value.TheVariants as values;
ghost use Rattle.dwarf_types.specs.LinkedExpressions.{parts_of};
ghost use Rattle.dwarf_types.specs.LinkedGraph.{linked, linked_behind};
ghost use Rattle.dwarf_types.specs.LinkedShape.{shape_in};
ghost use Rattle.dwarf_types.specs.LinkedUnits.{Object, is_kept, plain_target, sources};
ghost use Rattle.dwarf_types.specs.LinkedValues.{FileNumbers, attrs_written, is_left_out};
ghost use Rattle.dwarf_types.specs.Live.{IsLive, Needs, bases_of};
ghost use Rattle.dwarf_types.specs.Operations.{operands_of};
ghost use Rattle.dwarf_types.specs.Sound.{IsSound};
ghost use Rattle.dwarf_types.specs.Well.{IsWell, IsWellAlone, IsWellUnit};
ghost use Rattle.dwarf_types.specs.WellValues.{IsTarget};
ghost use Rattle.linked_laws.specs.Ends.{Ends};
ghost use Rattle.linked_laws.specs.Kept.{IsWhole, Leads};
ghost use Rattle.linked_laws.specs.Nodes.{HasNode, HasOrigin, IsKeptEntry, IsNodeOfEntry, origin_at};

/// What is linked of objects is well, in versions 4 and 5.
///
/// Each object is sound and given, and its entries that are written keep to each other (`specs/Kept.antt`).
pub fn linked_is_well()
    ensures { (objects : Listed Object) → All IsWhole objects → IsWell (linked objects) }
{}

/// So it is behind some units that are well, where references lead to nodes, and base types keep their own.
pub fn linked_behind_is_well()
    ensures { (units : Listed OutUnit) (image : ℕ → ℕ → Option Target) (objects : Listed Object) → All IsWhole objects → ((i : ℕ) (o : Object) → slice_get objects i ≡ Some o → Leads units image objects i o)
        → All (IsWellUnit (IsTarget (linked_behind units image objects))) units → IsWell (linked_behind units image objects) }
{}

/// An entry that is written has its own node: references to it lead there, and the node says what the entry says, and stands
/// for it and below the node of its parent. References to other entries lead to no node.
///
/// The node of a base type that an expression of the entry names stands in the entry's unit.
pub fn written_entries_have_nodes()
    ensures node { (units : Listed OutUnit) (image : ℕ → ℕ → Option Target) (objects : Listed Object) (i k : ℕ) (o : Object) (e : Entry) → IsSound o.seen → IsKeptEntry objects i k o e → HasNode objects i k units image o e }
    ensures origin { (before : Listed ShapeUnit) (objects : Listed Object) (i k : ℕ) (o : Object) (e : Entry) → IsSound o.seen → IsKeptEntry objects i k o e → HasOrigin objects i k before }
    ensures base { (first : ℕ) (objects : Listed Object) (i k j : ℕ) (o : Object) (e : Entry) → IsWhole o → IsKeptEntry objects i k o e → Contains (bases_of e) j
        → (target : Target) × (base : Target) × (plain_target first objects i k ≡ Some target) × (plain_target first objects i j ≡ Some base) × (base.unit ≡ target.unit) }
    ensures only { (first : ℕ) (objects : Listed Object) (i k : ℕ) (target : Target) → plain_target first objects i k ≡ Some target → (o : Object) × (e : Entry) × IsKeptEntry objects i k o e }
{}

/// Each node stands for an entry that is written, and references to that entry lead to it, behind other units too. So no two
/// of these nodes stand for one entry.
pub fn nodes_stand_for_written_entries()
    ensures { (before : Listed ShapeUnit) (objects : Listed Object) (target : Target) (origin : Origin) → All (λ o. IsSound o.seen) objects → length before ≤ target.unit
        → origin_at (before ++ filter_map (shape_in objects) (sources objects)) target ≡ Some origin → IsNodeOfEntry objects (length before) target origin }
{}

/// A reference to an entry that has a node is written, unless its attribute is one that is left out. An operation names the
/// node of its base type, if that has one, and so does an operation inside an entry value.
pub fn references_are_written()
    ensures reference { (image : ℕ → Option Target) (files : FileNumbers) (e : Entry) (a : Attr) (j : ℕ) (target : Target) → Contains e.attrs a → a.value ≡ values.Ref j → is_left_out image e a.name ≡ false → (a.name == DW_AT_decl_file) ≡ false → image j ≡ Some target
        → Contains (attrs_written image files e) (record { name = a.name; value = out.Ref target }) }
    ensures base { (image : ℕ → Option Target) (ops : Listed Op) (op : Op) (j : ℕ) (target : Target) → Contains ops op → (operands_of op.code ≡ Some operands.Expression → ⊥) → op.base ≡ Some (bases.Entry j) → image j ≡ Some target
        → (before : Listed ℕ) × (after : Listed ℕ) × Contains (parts_of image ops) (parts.Typed op.code before (Some target.node) after) }
    ensures inner { (image : ℕ → Option Target) (ops : Listed Op) (op : Op) (one : PlainOp) (j : ℕ) (target : Target) → Contains ops op → operands_of op.code ≡ Some operands.Expression → Contains op.inner one → one.base ≡ Some (bases.Entry j) → image j ≡ Some target
        → (inner : Listed PlainPart) × (before : Listed ℕ) × (after : Listed ℕ) × Contains (parts_of image ops) (parts.Nested op.code inner) × Contains inner (plain.Typed one.code before (Some target.node) after) }
{}

/// The live entries of an object keep to each other: what a live entry needs is live.
pub fn live_entries_are_closed()
    ensures { (o : Object) → ((k : ℕ) → (slice_index_or o.kept k false ≡ true) ↔ IsLive o.seen.entries k)
        → (k j : ℕ) → is_kept o k ≡ true → Needs o.seen.entries k j → is_kept o j ≡ true }
{}

/// Behind a node of a well unit the lists of siblings end that the next node doesn't stand in.
pub fn lists_end_by_ancestors()
    ensures { (graph : Graph) (unit : OutUnit) (k : ℕ) → IsWellUnit (IsTarget graph) unit → Ends unit.nodes k }
{}

/// A unit of a well graph is well by itself, without a word on where its references lead.
pub fn well_units_are_well_alone()
    ensures { (graph : Graph) (unit : OutUnit) → IsWellUnit (IsTarget graph) unit → IsWellAlone unit }
{}
