//! The law. It speaks of definitions alone: no call is made.
ghost use Rattle.std.specs.Prelude.{◌≡◌, ℕ, List};
ghost use Rattle.tm_terms.specs.declared.places.Place.{Place};
ghost use Rattle.program_reports.specs.post_recheck.transfer_rows.StateForms.{State};
ghost use Rattle.program_reports.specs.post_recheck.table_covers.Solutions.{NodeTable};
ghost use Rattle.program_reports.specs.post_recheck.program_equations.Programs.{ProgramBodies};
ghost use Rattle.lock_waits.specs.Waits.{AreWaits};

/// The tables of a program have one list of waits.
pub fn waits_are_one()
    ensures { (p : ProgramBodies) (tables : ℕ → NodeTable State) (one other : List Place) → AreWaits p tables one
        → AreWaits p tables other → one ≡ other }
{}
