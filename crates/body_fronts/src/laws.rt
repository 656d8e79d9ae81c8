//! The law speaks of definitions alone: no call is made.
ghost use Rattle.std.specs.Prelude.{◌≡◌, ◌<◌, ℕ, Bool, true, List, Option, IfSome};
ghost use Rattle.sparse_rows.specs.StateParts.{states, state_parts};
ghost use Rattle.sparse_rows.specs.Traces.{IsTraced};
ghost use Rattle.sparse_rows.specs.transfer_rows.interfere_set.Stores.{Interferences};
ghost use Rattle.sparse_rows.specs.transfer_rows.StateForms.{Cell, State, Temp};
ghost use Rattle.sparse_bodies.specs.sparse_tables.Fronts.{IsExpanded};
ghost use Rattle.sparse_bodies.specs.Carries.{carry_along};
ghost use Rattle.sparse_bodies.specs.task_equations.state_fits.temporary_types.Sorts.{Sort};
ghost use Rattle.sparse_bodies.specs.task_equations.state_fits.Fits.{FitsStore};
ghost use Rattle.sparse_bodies.specs.task_equations.table_covers.Solutions.{NodeTable, IsLeastSolution};
ghost use Rattle.sparse_bodies.specs.task_equations.table_covers.tm_lattice.Tables.{Table};
ghost use Rattle.sparse_bodies.specs.task_equations.Bodies.{Body};
ghost use Rattle.sparse_bodies.specs.task_equations.Equations.{equations_of};
ghost use Rattle.sparse_bodies.specs.task_equations.Premises.{IsBody, FitsBody};
ghost use Rattle.front_constraints.specs.least_assignments.Constraints.{Assignment};
ghost use Rattle.front_constraints.specs.least_assignments.Solutions.{IsLeast, AreAllowed};
ghost use Rattle.front_constraints.specs.declared.standings.Standing.{Standing};
ghost use Rattle.front_constraints.specs.Standings.{standings};
ghost use Rattle.front_constraints.specs.Systems.{edges, nodes};
ghost use Rattle.front_constraints.specs.Rules.{front_constraints, FitsVariable, Allows, fronts_of};
ghost use Rattle.front_constraints.specs.Premises.{IsSparseSystem};
ghost use Rattle.body_fronts.specs.FrontForms.{fronts, cells, FitsFront, FitsCellAt, is_seen};
ghost use Rattle.body_fronts.specs.BodySystems.{Chosen, system_of};
ghost use Rattle.body_fronts.specs.Choices.{IsChosen, ChecksEdge};

/// With what code chose, the equations of a body are a system with fronts and slots. A table that is made of the least
/// assignment of its constraints, each of which was allowed, is the least solution of the equations, where its states
/// have no copies, fresh cells and pending mutexes but those that they may have.
pub fn bodies_are_sparse()
    ensures sparse { (b : Body) (sorts : List Sort) → IsBody b sorts → (tasks : ℕ) (store : Interferences)
        → FitsStore b.laid tasks store → (entry : Option State) → IfSome entry (FitsBody b 0) → (chosen : Chosen)
        → IsChosen b entry store chosen
        → IsSparseSystem states fronts cells (FitsBody b) (FitsFront b) (FitsCellAt b) (system_of b entry store chosen) }
    ensures solves { (b : Body) (sorts : List Sort) → IsBody b sorts → (tasks : ℕ) (store : Interferences)
        → FitsStore b.laid tasks store → (entry : Option State) → IfSome entry (FitsBody b 0) → (chosen : Chosen)
        → IsChosen b entry store chosen → (copies : ℕ → ℕ → Bool) (fresh : ℕ → Bool) (pending : ℕ → ℕ)
        (a : Assignment (Standing (Table Temp) Cell))
        → IsLeast (standings fronts cells) (FitsVariable (system_of b entry store chosen) (FitsFront b) (FitsCellAt b))
        (Allows (system_of b entry store chosen) (ChecksEdge b store chosen copies fresh pending))
        (front_constraints (system_of b entry store chosen)) a
        → AreAllowed (standings fronts cells)
        (FitsVariable (system_of b entry store chosen) (FitsFront b) (FitsCellAt b))
        (Allows (system_of b entry store chosen) (ChecksEdge b store chosen copies fresh pending))
        (front_constraints (system_of b entry store chosen)) a
        → (table : NodeTable State)
        → IsExpanded states (FitsBody b) (equations_of b entry store) (state_parts (carry_along b store))
        chosen.place (is_seen b) (fronts_of (system_of b entry store chosen) a) table
        → IfSome entry (IsTraced copies fresh pending)
        → ((n : ℕ) → n < nodes (system_of b entry store chosen) → IfSome (table n) (IsTraced copies fresh pending))
        → IsLeastSolution states (FitsBody b) (equations_of b entry store) table }
{}
