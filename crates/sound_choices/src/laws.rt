//! The law of what the list of assumptions says, the contract of a function that does nothing.
ghost use Rattle.std.specs.Prelude.{◌≡◌, ℕ, ◌≤◌, ◌^◌, List, length, Option, Contains};
ghost use Rattle.sound_tables.specs.tm_laid.Layouts.{LaidTree};
ghost use Rattle.sound_tables.specs.interfere_set.Stores.{Interferences};
ghost use Rattle.sound_tables.specs.transfer_rows.StateForms.{State};
ghost use Rattle.sound_tables.specs.program_equations.Programs.{ProgramBodies, IsProgram};
ghost use Rattle.sound_tables.specs.program_equations.Readings.{read_layout};
ghost use Rattle.sound_tables.specs.program_equations.Solutions.{tables_of, IsPair};
ghost use Rattle.edge_origins.specs.declared.origins.BodyOrigins.{BodyOrigins as Origins};
ghost use Rattle.text_choices.specs.declared.kinds.Choice.{Choice};
ghost use Rattle.open_choices.specs.Choices.{AreChoices};
ghost use Rattle.sound_core.specs.Sound.{IsProgramFrom};
ghost use Rattle.sound_choices.specs.Promises.{ListsChoices};
ghost use Rattle.sound_choices.specs.Accesses.{ListsAccessChoices};
ghost use Rattle.sound_choices.specs.Enumerations.{ListsEnumerations};
ghost use Rattle.sound_choices.specs.Beginnings.{ListsBeginnings};

/// Each time that a run comes before a copy of an edge at which it depends on a choice of one of these kinds, the place
/// is in the list, whichever solution that is of.
pub fn choices_are_listed()
    ensures { (laid : LaidTree) (p : ProgramBodies) → IsProgramFrom laid p → (is : IsProgram p)
        → length laid.objects ≤ 2 ^ 32 → (tables : List (List (Option State))) (store : Interferences)
        → IsPair p tables store → (seen : LaidTree) (origins : List Origins) (others choices : List Choice)
        → AreChoices seen p (tables_of tables) store origins (Contains others) choices
        → ListsChoices laid seen p (tables_of tables) store origins choices }
{}

/// The same of what runs load, store and compare, of operands that wait, and of where functions end whose value is used.
/// The layout of which the list is made is that which the program reads.
pub fn access_choices_are_listed()
    ensures { (laid : LaidTree) (p : ProgramBodies) → IsProgramFrom laid p → (is : IsProgram p)
        → length laid.objects ≤ 2 ^ 32 → (tables : List (List (Option State))) (store : Interferences)
        → IsPair p tables store → (seen : LaidTree) → p.laid ≡ read_layout seen → (origins : List Origins)
        (others choices : List Choice)
        → AreChoices seen p (tables_of tables) store origins (Contains others) choices
        → ListsAccessChoices laid seen p (tables_of tables) store origins choices }
{}

/// The same of negative numbers in enumerations that compilers may make unsigned, and beside them in operators.
pub fn enumerations_are_listed()
    ensures { (laid : LaidTree) (p : ProgramBodies) → IsProgramFrom laid p → (is : IsProgram p)
        → length laid.objects ≤ 2 ^ 32 → (tables : List (List (Option State))) (store : Interferences)
        → IsPair p tables store → (seen : LaidTree) → p.laid ≡ read_layout seen → (origins : List Origins)
        (others choices : List Choice)
        → AreChoices seen p (tables_of tables) store origins (Contains others) choices
        → ListsEnumerations laid seen p (tables_of tables) store origins choices }
{}

/// And of lives of objects: where a run comes to the beginning of one while a pointer to an earlier instance is left over
/// in an object that is open, in what another task stores, or in a value that is still in use, its place is in the list.
pub fn beginnings_are_listed()
    ensures { (laid : LaidTree) (p : ProgramBodies) → IsProgramFrom laid p → (is : IsProgram p)
        → length laid.objects ≤ 2 ^ 32 → (tables : List (List (Option State))) (store : Interferences)
        → IsPair p tables store → (seen : LaidTree) → p.laid ≡ read_layout seen → (origins : List Origins)
        (others choices : List Choice)
        → AreChoices seen p (tables_of tables) store origins (Contains others) choices
        → ListsBeginnings laid seen p (tables_of tables) store origins choices }
{}
