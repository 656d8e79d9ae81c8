//! The laws. They speak of definitions alone: no call is made.
ghost use Rattle.std.specs.Prelude.{◌≡◌, ◌↔◌, ℕ, List, Contains};
ghost use Rattle.tm_cint.specs.declared.Class.{Class};
ghost use Rattle.tm_cint.specs.declared.Class.TheVariants.{Race};
ghost use Rattle.tm_terms.specs.declared.alarms.Alarm.{Alarm};
ghost use Rattle.tm_terms.specs.declared.places.Place.{Place};
ghost use Rattle.program_reports.specs.post_recheck.transfer_rows.StateForms.{State};
ghost use Rattle.program_reports.specs.post_recheck.table_covers.Solutions.{NodeTable};
ghost use Rattle.program_reports.specs.post_recheck.program_equations.Programs.{ProgramBodies};
ghost use Rattle.program_reports.specs.Reports.{IsReport};
ghost use Rattle.alarm_contexts.specs.declared.alarm_context.AlarmContexts.{AlarmContexts};
ghost use Rattle.alarm_contexts.specs.Contexts.{AreContexts, HasAlarm, contents};

/// An alarm of a class other than that of races is in the report of the tables exactly where it is one of these, and
/// none of these is one of races.
pub fn contexts_are_alarms()
    ensures alarms { (p : ProgramBodies) (tables : ℕ → NodeTable State) (report : List Alarm)
        (alarms : List AlarmContexts) → IsReport p tables report → AreContexts p tables alarms → (place : Place)
        (class : Class) → (class ≡ Race → ⊥)
        → Contains report (record { place = place; class = class }) ↔ HasAlarm alarms place class }
    ensures races { (p : ProgramBodies) (tables : ℕ → NodeTable State) (alarms : List AlarmContexts)
        → AreContexts p tables alarms → (place : Place) → HasAlarm alarms place Race → ⊥ }
{}

/// The tables of a program have one list of alarms with their contexts.
pub fn contexts_are_one()
    ensures { (p : ProgramBodies) (tables : ℕ → NodeTable State) (one other : List AlarmContexts)
        → AreContexts p tables one → AreContexts p tables other → contents one ≡ contents other }
{}
