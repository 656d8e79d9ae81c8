//! Laws of layouts.
ghost use Rattle.cell_layout.specs.Laws.{ArePathsIntervals, CallsGoOn, ObjectsHaveCells};

/// The paths on which the objects of a path are alive are that path and those that go on from it by calls.
pub fn paths_are_intervals()
    ensures { ArePathsIntervals }
{}

/// Each cell of an object belongs to it, and has one of its abstract cells, of its type; one that is not smashed stands
/// for one cell.
pub fn objects_have_cells()
    ensures { ObjectsHaveCells }
{}

/// Each call of a path goes on along the path that it calls, in the function that it names.
pub fn calls_go_on()
    ensures { CallsGoOn }
{}
