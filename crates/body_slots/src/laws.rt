//! The laws speak of definitions alone: no call is made.
ghost use Rattle.std.specs.Prelude.{◌≡◌, ◌<◌, ◌+◌, ◌∷◌, ℕ, length, replicate, Some, None, IfSome};
ghost use Rattle.std.specs.FinMap.{get};
ghost use Rattle.table_covers.specs.tm_lattice.Tables.{Table};
ghost use Rattle.table_covers.specs.Solutions.{NodeTable, IsLeastSolution};
ghost use Rattle.sparse_tables.specs.Fronts.{IsExpanded};
ghost use Rattle.sparse_rows.specs.StateParts.{states};
ghost use Rattle.sparse_rows.specs.Looked.{Agree};
ghost use Rattle.sparse_rows.specs.Traces.{AreCopies, IsTraced};
ghost use Rattle.least_assignments.specs.Constraints.{Assignment, AreLawful};
ghost use Rattle.least_assignments.specs.Solutions.{IsLeast, AreAllowed};
ghost use Rattle.front_constraints.specs.declared.standings.Standing.{Standing};
ghost use Rattle.front_constraints.specs.Standings.{fronted, standings, HasParts, IsStandingBelow};
ghost use Rattle.front_constraints.specs.Standings.{joined_standing};
ghost use Rattle.front_constraints.specs.Systems.{edges, entered, row, from};
ghost use Rattle.front_constraints.specs.Rules.{front_constraints, FitsVariable, fronts_of, small_at};
ghost use Rattle.edge_actions.specs.transfer_rows.StateForms.{Temp, Cell, State};
ghost use Rattle.body_systems.specs.Systems.{body_of, system_of};
ghost use Rattle.task_equations.specs.Premises.{FitsBody};
ghost use Rattle.body_fronts.specs.FrontForms.{fronts, cells, FitsFront, FitsCellAt, is_seen};
ghost use Rattle.body_fronts.specs.Choices.{IsChosen};
ghost use Rattle.row_checks.specs.TracedCells.{may_copy, may_be_fresh, may_pend};
ghost use Rattle.body_slots.specs.Placed.{seen_placing};
ghost use Rattle.body_slots.specs.Slots.{SlotSystemOf, IsSlotSystem, chosen_of, sparse_of, carrying_parts};
ghost use Rattle.body_slots.specs.Slots.{PassesRow, AllowsSlots};
ghost use Rattle.body_slots.specs.Rows.{Values, brought_by, held_in, row_parts, state_parts_at};

/// The slots of a body are what is to be chosen for it, and its constraints are lawful. The table that is made of their
/// least assignment, where each row was allowed, is the least solution of the body's equations, where its states have
/// no copies, fresh cells and pending mutexes but those that they may have.
pub fn slots_solve_bodies()
    ensures chosen { (v : SlotSystemOf) → IsSlotSystem v → (let w = v.system in
        let b = body_of w in IsChosen b w.entry w.store (chosen_of b v.entry v.slots)) }
    ensures lawful { (v : SlotSystemOf) → IsSlotSystem v
        → AreLawful (HasParts fronts.is_value cells.is_value) (IsStandingBelow fronts.leq cells.leq)
        (joined_standing fronts.joined cells.joined)
        (FitsVariable (sparse_of v) (FitsFront (body_of v.system)) (FitsCellAt (body_of v.system))) (AllowsSlots v)
        (front_constraints (sparse_of v)) }
    ensures solves { (v : SlotSystemOf) → IsSlotSystem v → (a : Assignment (Standing (Table Temp) Cell))
        → IsLeast (standings fronts cells)
        (FitsVariable (sparse_of v) (FitsFront (body_of v.system)) (FitsCellAt (body_of v.system))) (AllowsSlots v)
        (front_constraints (sparse_of v)) a
        → AreAllowed (standings fronts cells)
        (FitsVariable (sparse_of v) (FitsFront (body_of v.system)) (FitsCellAt (body_of v.system))) (AllowsSlots v)
        (front_constraints (sparse_of v)) a
        → (table : NodeTable State)
        → (let s = v.slots in IsExpanded states (FitsBody (body_of v.system)) (system_of v.system) (carrying_parts v)
        (seen_placing (is_seen (body_of v.system)) s.graph s.tree) (is_seen (body_of v.system))
        (fronts_of (sparse_of v) a) table)
        → (let s = v.slots in IsTraced (may_copy s.traces) (may_be_fresh s.traces) (may_pend s.traces) v.entry)
        → (let s = v.slots in (n : ℕ) → n < (system_of v.system).node_count
        → IfSome (table n) (IsTraced (may_copy s.traces) (may_be_fresh s.traces) (may_pend s.traces)))
        → IsLeastSolution states (FitsBody (body_of v.system)) (system_of v.system) table }
{}

/// What is to be computed: a row brings nothing, or a state's front and touched cells; from states with the same
/// temporaries, which are copies of no cells but those of which they may be, and with the same at the cells at which
/// its edge looks it brings the same; the entry brings its front and all its cells.
pub fn slots_are_read()
    ensures alike { (v : SlotSystemOf) → IsSlotSystem v → (e : ℕ) → e < edges (sparse_of v) → (s part : State)
        → FitsBody (body_of v.system) (from (sparse_of v) e) s
        → (let k = v.slots in (u : ℕ)
        → AreCopies (may_copy k.traces) (may_be_fresh k.traces) (may_pend k.traces) u (get s.temps u))
        → PassesRow v e s → (let sys = sparse_of v in Agree (sys.place.looks e) s part)
        → row_parts v e part ≡ row_parts v e s }
    ensures entered { (v : SlotSystemOf) → IsSlotSystem v → (a : Values) → (let s = v.slots in
        brought_by v entered a ≡ Some (fronted (let t = v.entry in t.temps)) ∷ held_in v.entry s.cells) }
    ensures unreached { (v : SlotSystemOf) → (e : ℕ) → (a : Values) → (let sys = sparse_of v in
        small_at sys e a ≡ None → brought_by v (row e) a ≡ replicate (length (sys.touched e) + 2) None) }
    ensures applied { (v : SlotSystemOf) → (e : ℕ) → (a : Values) → (s : State) → (let sys = sparse_of v in
        small_at sys e a ≡ Some s → brought_by v (row e) a ≡ row_parts v e s) }
    ensures led { (v : SlotSystemOf) → (e : ℕ) → (r s : State) → (let sys = sparse_of v in
        sys.equations.after e s ≡ Some r → row_parts v e s ≡ state_parts_at r (sys.touched e)) }
    ensures stopped { (v : SlotSystemOf) → (e : ℕ) → (s : State) → (let sys = sparse_of v in
        sys.equations.after e s ≡ None → row_parts v e s ≡ replicate (length (sys.touched e) + 2) None) }
{}
