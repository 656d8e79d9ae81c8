//! The laws. They speak of definitions alone: no call is made.
ghost use Rattle.std.specs.Prelude.{◌≡◌, ◌↔◌, ℕ, List, Contains};
ghost use Rattle.tm_cint.specs.declared.Class.TheVariants.{Race};
ghost use Rattle.tm_terms.specs.declared.alarms.Alarm.{Alarm};
ghost use Rattle.tm_terms.specs.declared.places.Place.{Place};
ghost use Rattle.program_reports.specs.post_recheck.transfer_rows.StateForms.{State};
ghost use Rattle.program_reports.specs.post_recheck.table_covers.Solutions.{NodeTable};
ghost use Rattle.program_reports.specs.post_recheck.program_equations.Programs.{ProgramBodies};
ghost use Rattle.program_reports.specs.Reports.{IsReport};
ghost use Rattle.access_groups.specs.declared.object_access.AccessGroup.{AccessGroup};
ghost use Rattle.access_groups.specs.Groups.{AreGroups, contents, HasRacingAt};

/// The tables of a program have one list of groups.
pub fn groups_are_one()
    ensures { (p : ProgramBodies) (tables : ℕ → NodeTable State) (one other : List AccessGroup)
        → AreGroups p tables one → AreGroups p tables other → contents one ≡ contents other }
{}

/// The report of the tables has a race at a place exactly where a group has an access there that races.
pub fn alarms_are_grouped()
    ensures { (p : ProgramBodies) (tables : ℕ → NodeTable State) (report : List Alarm) (groups : List AccessGroup)
        → IsReport p tables report → AreGroups p tables groups → (place : Place)
        → Contains report (record { place = place; class = Race }) ↔ HasRacingAt groups place }
{}
