//! The law of the report.
ghost use Rattle.std.specs.Prelude.{◌≡◌, ℕ, ◌<◌, ◌≤◌, ◌^◌, ℤ, List, [], length, Option, Some, None, Contains};
ghost use Rattle.sound_tables.specs.tm_cint.declared.Class.{Class};
ghost use Rattle.sound_tables.specs.tm_terms.declared.places.Place.{Place};
ghost use Rattle.sound_tables.specs.tm_laid.Layouts.{LaidTree};
ghost use Rattle.sound_tables.specs.concrete_steps.Worlds.{World, next_at};
ghost use Rattle.sound_tables.specs.concrete_steps.Occurring.{IsReached, Occurs};
ghost use Rattle.sound_tables.specs.interfere_set.Stores.{Interferences};
ghost use Rattle.sound_tables.specs.transfer_rows.StateForms.{State};
ghost use Rattle.sound_tables.specs.program_equations.Programs.{ProgramBodies, IsProgram};
ghost use Rattle.sound_tables.specs.program_equations.Solutions.{tables_of, IsPair};
ghost use Rattle.sound_tables.specs.program_reports.Reports.{IsAlarm};
ghost use Rattle.sound_addresses.specs.sound_runs.Programs.{first_memory};
ghost use Rattle.sound_addresses.specs.sound_runs.Known.{IsKnownIn, IsPlainlyKnownIn};
ghost use Rattle.sound_tables.specs.Programs.{parts_of};
ghost use Rattle.sound_tables.specs.Memberships.{tables_of as members_of, section_tables};
ghost use Rattle.sound_tables.specs.tm_soundness.Known.{Chain};
ghost use Rattle.sound_tables.specs.Premises.{LaysCells, IsGraphOf};
ghost use Rattle.sound_tables.specs.Starting.{IsStartMemory};
ghost use Rattle.sound_core.specs.Sound.{IsProgramFrom};
ghost use Rattle.lock_waits.specs.Waits.{AreWaits};
ghost use Rattle.value_ranges.specs.declared.object_bounds.ObjectBounds.{ObjectBounds};
ghost use Rattle.value_ranges.specs.Ranges.{IsIntegerCell, IsListed, AreRanges, AreCellRanges};
ghost use Rattle.value_ranges.specs.Places.{IsReachedPlace, AreDead};
ghost use Rattle.access_groups.specs.declared.object_access.AccessGroup.{AccessGroup};
ghost use Rattle.access_groups.specs.Groups.{AreGroups};
ghost use Rattle.alarm_contexts.specs.declared.alarm_context.AlarmContexts.{AlarmContexts};
ghost use Rattle.alarm_contexts.specs.Contexts.{AreContexts};
ghost use Rattle.sound_core.specs.Ranges.{HoldsNumber, IsWithin, StayWithinCells};
ghost use Rattle.sound_core.specs.Places.{ActsAt, MayAct};
ghost use Rattle.sound_core.specs.Known.{WaitsFor, HasCircular, HoldsAllTold};
ghost use Rattle.sound_core.specs.Rings.{IsRing, IsLockOfRing};
ghost use Rattle.sound_core.specs.Accesses.{ListsAccesses};
ghost use Rattle.sound_core.specs.Stops.{ListsStops};

/// The cells of a program's layout are laid out as its tables ask; and each of its graphs keeps what they
/// ask. At the start cells of static storage hold their initial values, which lie within their objects, and local cells
/// are cleared.
pub fn foundations_are_kept()
    ensures cells { (laid : LaidTree) (p : ProgramBodies) → IsProgramFrom laid p → LaysCells p.laid }
    ensures graphs { (laid : LaidTree) (p : ProgramBodies) → IsProgramFrom laid p → (t : ℕ)
        → t < length p.bodies → IsGraphOf p t }
    ensures memory { (laid : LaidTree) (p : ProgramBodies) → IsProgramFrom laid p → length laid.objects ≤ 2 ^ 32
        → IsStartMemory p.laid (first_memory laid) }
{}

/// For the program of a typed file that is laid out, of its graphs and their configured graphs: every error of its runs
/// is an alarm of every solution, where numbers of 32 bits are enough for the objects.
pub fn errors_are_alarms()
    ensures { (laid : LaidTree) (p : ProgramBodies) → IsProgramFrom laid p → (is : IsProgram p)
        → length laid.objects ≤ 2 ^ 32 → (tables : List (List (Option State))) (store : Interferences)
        → IsPair p tables store → (class : Class) (place : Place) → Occurs laid class place
        → IsAlarm p (tables_of tables) (record { place = place; class = class }) }
{}

/// The concurrent invariant holds in every world that a run reaches, for every solution: of the initial section while
/// it runs, where no task has left its start, and of the tasks after it, over what it has left.
pub fn worlds_are_known()
    ensures with_section { (laid : LaidTree) (p : ProgramBodies) → IsProgramFrom laid p → (is : IsProgram p)
        → length laid.objects ≤ 2 ^ 32 → (tables : List (List (Option State))) (store : Interferences)
        → IsPair p tables store → (main : ℕ) → laid.file.main ≡ Some main → (w : World) → IsReached laid w
        → IsKnownIn laid (parts_of p) (members_of p (tables_of tables) store)
        (section_tables p (tables_of tables)) w }
    ensures plain { (laid : LaidTree) (p : ProgramBodies) → IsProgramFrom laid p → (is : IsProgram p)
        → length laid.objects ≤ 2 ^ 32 → (tables : List (List (Option State))) (store : Interferences)
        → IsPair p tables store → laid.file.main ≡ None → (w : World) → IsReached laid w
        → IsPlainlyKnownIn laid (parts_of p) (members_of p (tables_of tables) store) w }
{}

/// Where tasks wait for each other in a circle, each of them asks for its mutex by a circular request of every
/// solution.
pub fn circles_are_requested()
    ensures { (laid : LaidTree) (p : ProgramBodies) → IsProgramFrom laid p → (is : IsProgram p)
        → length laid.objects ≤ 2 ^ 32 → (tables : List (List (Option State))) (store : Interferences)
        → IsPair p tables store → (w : World) → IsReached laid w → (i : ℕ) → Chain (WaitsFor laid w) i i
        → HasCircular p tables laid w i }
{}

/// What a cell of static storage holds in a world that a run reaches, every solution tells of its abstract cell.
pub fn contents_are_told()
    ensures { (laid : LaidTree) (p : ProgramBodies) → IsProgramFrom laid p → (is : IsProgram p)
        → length laid.objects ≤ 2 ^ 32 → (tables : List (List (Option State))) (store : Interferences)
        → IsPair p tables store → (w : World) → IsReached laid w → HoldsAllTold p tables store w }
{}

/// Whatever ring of tasks there is in a world that a run reaches, the place of the lock at which each of them is
/// blocked is one of the waits of every solution.
pub fn rings_are_listed()
    ensures { (laid : LaidTree) (p : ProgramBodies) → IsProgramFrom laid p → (is : IsProgram p)
        → length laid.objects ≤ 2 ^ 32 → (tables : List (List (Option State))) (store : Interferences)
        → IsPair p tables store → (places : List Place) → AreWaits p (tables_of tables) places → (w : World)
        → IsReached laid w → (tasks : List ℕ) → IsRing laid w tasks → IsLockOfRing laid w tasks places }
{}

/// Where a solution has no waits, no run reaches a ring.
pub fn none_listed_no_ring()
    ensures { (laid : LaidTree) (p : ProgramBodies) → IsProgramFrom laid p → (is : IsProgram p)
        → length laid.objects ≤ 2 ^ 32 → (tables : List (List (Option State))) (store : Interferences)
        → IsPair p tables store → AreWaits p (tables_of tables) [] → (w : World) → IsReached laid w
        → (tasks : List ℕ) → IsRing laid w tasks → ⊥ }
{}

/// A number that an integer cell of static storage holds in a world that a run reaches lies within the bounds that are
/// listed of its object, which has some, whichever solution they are of.
pub fn numbers_are_within()
    ensures { (laid : LaidTree) (p : ProgramBodies) → IsProgramFrom laid p → (is : IsProgram p)
        → length laid.objects ≤ 2 ^ 32 → (tables : List (List (Option State))) (store : Interferences)
        → IsPair p tables store → (list : List ObjectBounds) → AreRanges p (tables_of tables) store list → (w : World)
        → IsReached laid w → (object cell : ℕ) (n : ℤ) → HoldsNumber p w object cell n → IsWithin list object n }
{}

/// And it lies within the bounds of the abstract cell that stands for the cell, which has some: so the bounds of members
/// hold what is stored there.
pub fn numbers_are_within_cells()
    ensures { (laid : LaidTree) (p : ProgramBodies) → IsProgramFrom laid p → (is : IsProgram p)
        → length laid.objects ≤ 2 ^ 32 → (tables : List (List (Option State))) (store : Interferences)
        → IsPair p tables store → (bounds : List (Option ObjectBounds))
        → AreCellRanges p (tables_of tables) store bounds → StayWithinCells laid p bounds }
{}

/// Each object of static storage that has an integer cell is listed with its bounds, of every solution.
pub fn objects_are_listed()
    ensures { (laid : LaidTree) (p : ProgramBodies) → IsProgramFrom laid p → (is : IsProgram p)
        → length laid.objects ≤ 2 ^ 32 → (tables : List (List (Option State))) (store : Interferences)
        → IsPair p tables store → (list : List ObjectBounds) → AreRanges p (tables_of tables) store list
        → (object x : ℕ) → IsIntegerCell p.laid object x → IsListed list object }
{}

/// Where the initial section, or a task after it, is about to read, write, lock or unlock in a world that a run
/// reaches, every solution has a state at a node that a copy of such an operation leaves, at this place. So nobody ever
/// acts at a dead place.
pub fn places_are_reached()
    ensures reached { (laid : LaidTree) (p : ProgramBodies) → IsProgramFrom laid p → (is : IsProgram p)
        → length laid.objects ≤ 2 ^ 32 → (tables : List (List (Option State))) (store : Interferences)
        → IsPair p tables store → (w : World) → IsReached laid w → (body : ℕ) → MayAct laid w body → (place : Place)
        → ActsAt (next_at laid w body) place → IsReachedPlace p (tables_of tables) body place }
    ensures dead { (laid : LaidTree) (p : ProgramBodies) → IsProgramFrom laid p → (is : IsProgram p)
        → length laid.objects ≤ 2 ^ 32 → (tables : List (List (Option State))) (store : Interferences)
        → IsPair p tables store → (w : World) → IsReached laid w → (places : List Place)
        → AreDead p (tables_of tables) places → (place : Place) → Contains places place → (body : ℕ)
        → MayAct laid w body → ActsAt (next_at laid w body) place → ⊥ }
{}

/// Each access that a task is about to make, in a world that a run reaches, to an object that has a group stands in that
/// group, whichever solution the groups are of: at its place, as one of the task and of its kind, under exactly the
/// mutexes that the task holds; and the task has found those free that are told so. Where two race, their object has a
/// group, and both stand in it, as ones that race.
pub fn accesses_are_listed()
    ensures { (laid : LaidTree) (p : ProgramBodies) → IsProgramFrom laid p → (is : IsProgram p)
        → length laid.objects ≤ 2 ^ 32 → (tables : List (List (Option State))) (store : Interferences)
        → IsPair p tables store → (groups : List AccessGroup) → AreGroups p (tables_of tables) groups
        → ListsAccesses laid groups }
{}

/// Where a step stops with an error in a world that a run reaches, the contexts of a solution's alarms tell it: one is of
/// this class at this place, the body whose step it is stands before one of its edges, and the values with which it does
/// lie in its operands.
pub fn stops_are_listed()
    ensures { (laid : LaidTree) (p : ProgramBodies) → IsProgramFrom laid p → (is : IsProgram p)
        → length laid.objects ≤ 2 ^ 32 → (tables : List (List (Option State))) (store : Interferences)
        → IsPair p tables store → (alarms : List AlarmContexts) → AreContexts p (tables_of tables) alarms
        → ListsStops laid p alarms }
{}
