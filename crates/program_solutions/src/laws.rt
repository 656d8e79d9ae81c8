//! The laws of least solutions and their reports. They speak of definitions alone: no call is made.
ghost use Rattle.std.specs.Prelude.{◌≡◌, List};
ghost use Rattle.tm_terms.specs.declared.alarms.Alarm.{Alarm as AnAlarm};
ghost use Rattle.store_limits.specs.program_equations.Programs.{ProgramBodies, IsProgram};
ghost use Rattle.program_solutions.specs.LeastReports.{IsLeastReport};

/// A program has one report, whichever least solution it is the report of.
pub fn least_reports_are_one()
    ensures { (p : ProgramBodies) (one other : List AnAlarm) → IsProgram p → IsLeastReport p one
        → IsLeastReport p other → one ≡ other }
{}
