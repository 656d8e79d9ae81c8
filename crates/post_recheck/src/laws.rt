//! The laws of checks. They speak of definitions alone: no call is made.
ghost use Rattle.std.specs.Prelude.{◌≡◌, ◌<◌, ℕ};
ghost use Rattle.tm_lattice.specs.Rounds.{IsClosed};
ghost use Rattle.table_covers.specs.Solutions.{IsLeastSolution};
ghost use Rattle.shared_programs.specs.program_equations.Programs.{ProgramBodies, body_at, IsProgram};
ghost use Rattle.shared_programs.specs.program_equations.Systems.{states, stores, FitsBody, task_system};
ghost use Rattle.shared_programs.specs.program_equations.Systems.{IsLeastSection};
ghost use Rattle.shared_programs.specs.program_equations.Solutions.{passing, table_at, tables_of};
ghost use Rattle.post_recheck.specs.Pairs.{Pair, FitsPair};
ghost use Rattle.post_recheck.specs.Checks.{IsAnswer};
ghost use Rattle.post_recheck.specs.declared.solutions.Checked.{Checked as AChecked};
ghost use Rattle.post_recheck.specs.declared.solutions.Checked.TheVariants as Answers;

/// For one pair there is one answer, so that of several threads is that of one.
pub fn checks_are_one()
    ensures { (p : ProgramBodies) → IsProgram p → (pair : Pair) → FitsPair p pair → (one other : AChecked)
        → IsAnswer p pair one → IsAnswer p pair other → one ≡ other }
{}

/// Least tables, of the initial section and of each task after it, over a store that is its own rounding and that no
/// task's pass raises, are a solution: that is the answer for them.
pub fn least_tables_are_solutions()
    ensures { (p : ProgramBodies) → IsProgram p → (pair : Pair) → FitsPair p pair
        → IsClosed stores passing p pair.store → IsLeastSection p (table_at pair.tables p.tasks)
        → ((t : ℕ) → t < p.tasks → IsLeastSolution states (FitsBody (body_at p t))
        (task_system p (table_at pair.tables p.tasks) pair.store t) (tables_of pair.tables t))
        → IsAnswer p pair (Answers.Solution pair) }
{}
