//! The laws. They speak of definitions alone: no call is made.
ghost use Rattle.program_reports.specs.program_equations.Programs.{ProgramBodies};
ghost use Rattle.sound_tables.specs.Laws.{ShapesAreLawful, PairsCover, ListedAreAlarms, TasksEnter, SectionsHandOver};
ghost use Rattle.sound_tables.specs.Laws.{HoldsNothing, OperationsMean};

/// The tasks of a program, and its initial section, have the shape that the soundness theorem asks: what is held is
/// followed along edges, and a task rests only where nothing but locks leaves.
pub fn shapes_are_lawful()
    ensures { ShapesAreLawful }
{}

/// The tables and the store of a solution cover each step that a task, or the initial section, can take.
pub fn pairs_cover()
    ensures { PairsCover }
{}

/// What the tables list is an alarm of the report: the classes that tasks and the initial section do not exclude, and
/// the races of two tasks.
pub fn listed_are_alarms()
    ensures { ListedAreAlarms }
{}

/// Where there is no initial section, the tasks enter with what memory holds before anything has run.
pub fn tasks_enter()
    ensures { TasksEnter }
{}

/// The initial section enters with what memory holds at first, and the tasks with what it leaves. Where it does not
/// end, tables that hold nothing stand for theirs.
pub fn sections_hand_over()
    ensures hands { SectionsHandOver }
    ensures nothing { (p : ProgramBodies) → HoldsNothing p }
{}

/// The operations of a body do what the rows of states say.
pub fn operations_mean()
    ensures { OperationsMean }
{}
