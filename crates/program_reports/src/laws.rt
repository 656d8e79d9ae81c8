//! The laws. They speak of definitions alone: no call is made.
ghost use Rattle.std.specs.Prelude.{◌≡◌, ℕ, List};
ghost use Rattle.tm_terms.specs.declared.alarms.Alarm.{Alarm};
ghost use Rattle.post_recheck.specs.transfer_rows.StateForms.{State};
ghost use Rattle.post_recheck.specs.table_covers.Solutions.{NodeTable};
ghost use Rattle.post_recheck.specs.program_equations.Programs.{ProgramBodies, IsProgram};
ghost use Rattle.program_reports.specs.Reports.{IsReport};
ghost use Rattle.program_reports.specs.Laws.{Agree};

/// Tables that agree at each node of each body of a program have one report.
pub fn reports_are_one()
    ensures { (p : ProgramBodies) → IsProgram p → (tables other : ℕ → NodeTable State) → Agree p tables other
        → (report same : List Alarm) → IsReport p tables report → IsReport p other same → report ≡ same }
{}
