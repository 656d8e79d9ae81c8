//! Laws of what the contexts of alarms say, each the contract of a function that does nothing.
ghost use Rattle.std.specs.Prelude.{ℕ, ◌≤◌, ◌^◌, List, length, Option};
ghost use Rattle.sound_tables.specs.tm_laid.Layouts.{LaidTree};
ghost use Rattle.sound_tables.specs.interfere_set.Stores.{Interferences};
ghost use Rattle.sound_tables.specs.transfer_rows.StateForms.{State};
ghost use Rattle.sound_tables.specs.program_equations.Programs.{ProgramBodies, IsProgram};
ghost use Rattle.sound_tables.specs.program_equations.Solutions.{tables_of, IsPair};
ghost use Rattle.alarm_contexts.specs.declared.alarm_context.AlarmContexts.{AlarmContexts};
ghost use Rattle.alarm_contexts.specs.Contexts.{AreContexts};
ghost use Rattle.sound_core.specs.Sound.{IsProgramFrom};
ghost use Rattle.sound_notes.specs.Passes.{ListsOperands, EndsAlways, StopsThere};

/// Each time that a run comes before a copy of an edge that does not exclude the class of an alarm, at its place, the
/// values of the operation lie in the operands of the alarm, whether or not it stops there, and whichever solution the
/// contexts are of.
pub fn operands_are_listed()
    ensures { (laid : LaidTree) (p : ProgramBodies) → IsProgramFrom laid p → (is : IsProgram p)
        → length laid.objects ≤ 2 ^ 32 → (tables : List (List (Option State))) (store : Interferences)
        → IsPair p tables store → (alarms : List AlarmContexts) → AreContexts p (tables_of tables) alarms
        → ListsOperands laid p (tables_of tables) alarms }
{}

/// Where the alarm is one of always, no run goes on by itself along such an edge.
pub fn always_ends()
    ensures { (laid : LaidTree) (p : ProgramBodies) → IsProgramFrom laid p → (is : IsProgram p)
        → length laid.objects ≤ 2 ^ 32 → (tables : List (List (Option State))) (store : Interferences)
        → IsPair p tables store → (alarms : List AlarmContexts) → AreContexts p (tables_of tables) alarms
        → EndsAlways laid p (tables_of tables) alarms }
{}

/// Where such an edge waits for an answer, no step gives it: whoever comes there stops.
pub fn locks_stop()
    ensures { (laid : LaidTree) (p : ProgramBodies) → IsProgramFrom laid p → (is : IsProgram p)
        → length laid.objects ≤ 2 ^ 32 → (tables : List (List (Option State))) (store : Interferences)
        → IsPair p tables store → (told : AlarmContexts) → StopsThere laid p (tables_of tables) told }
{}
