//! The law speaks of definitions alone: no call is made.
ghost use Rattle.std.specs.Prelude.{ℕ, Bool, List, Option, IfSome};
ghost use Rattle.sparse_rows.specs.transfer_rows.interfere_set.Stores.{Interferences};
ghost use Rattle.sparse_rows.specs.transfer_rows.StateForms.{State};
ghost use Rattle.task_equations.specs.state_fits.temporary_types.Sorts.{Sort};
ghost use Rattle.task_equations.specs.state_fits.Fits.{FitsStore};
ghost use Rattle.task_equations.specs.table_covers.Solutions.{NodeTable, IsLeastSolution};
ghost use Rattle.task_equations.specs.Bodies.{Body, copy_at};
ghost use Rattle.task_equations.specs.Equations.{action_along, around_along, equations_of};
ghost use Rattle.task_equations.specs.Premises.{IsBody, FitsBody};
ghost use Rattle.sparse_rows.specs.sparse_tables.Sparse.{Placing, IsPlaced, IsSparseLeast};
ghost use Rattle.sparse_rows.specs.StateParts.{states, state_parts};
ghost use Rattle.sparse_rows.specs.Traces.{IsTraced};
ghost use Rattle.sparse_rows.specs.Checks.{AreChecked};
ghost use Rattle.sparse_bodies.specs.Carries.{carry_along};

/// A thin table of a body that is closed in what nodes own, lies there below every closed table in which cells flow,
/// and each edge of which was checked, is the least solution of the equations of the body.
pub fn sparse_tables_are_least()
    ensures { (b : Body) (sorts : List Sort) → IsBody b sorts → (tasks : ℕ) (store : Interferences)
        → FitsStore b.laid tasks store → (entry : Option State) → IfSome entry (FitsBody b 0)
        → (place : Placing) (copies : ℕ → ℕ → Bool) (fresh : ℕ → Bool) (pending : ℕ → ℕ) (table : NodeTable State)
        → IsPlaced states (FitsBody b) (equations_of b entry store) (state_parts (carry_along b store)) place
        → AreChecked (FitsBody b) (equations_of b entry store) (λ e. around_along b (copy_at b e))
        (λ e. action_along b (copy_at b e)) store place copies fresh pending table
        → IfSome entry (IsTraced copies fresh pending)
        → IsSparseLeast states (FitsBody b) (equations_of b entry store) (state_parts (carry_along b store)) place table
        → IsLeastSolution states (FitsBody b) (equations_of b entry store) table }
{}
