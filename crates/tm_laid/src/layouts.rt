//! Whole layouts.
use crate::cells::{AbstractCell, LaidCell};
use crate::objects::{Initial, LaidObject};
use crate::paths::CallPath;
use tm_typed::TypedFile;

/// A typed file with its call paths, objects and cells.
pub struct Laid {
    pub file: TypedFile,
    /// The functions of the bodies: those of the tasks, then `main` where there is one.
    pub bodies: Vec<u32>,
    /// For each body its own call path.
    pub first_paths: Vec<u32>,
    pub paths: Vec<CallPath>,
    /// For each path those that go on from it, in the order of the calls of its function.
    pub callees: Vec<Vec<u32>>,
    /// For each path its first parameter or local object: the others stand behind it.
    pub first_objects: Vec<u32>,
    /// For each object of static storage of the file its number; one that is not defined has none, and counts as the
    /// next.
    pub statics: Vec<u32>,
    pub objects: Vec<LaidObject>,
    pub cells: Vec<LaidCell>,
    pub abstract_cells: Vec<AbstractCell>,
    /// For each cell of static storage, which are the first ones, what it holds before the program runs.
    pub initial: Vec<Initial>,
}

// By hand: a function that lets one go calls this, and its check does not go through the fields.
impl Drop for Laid {
    fn drop(self) {
        let Laid {
            file: _file,
            bodies: _bodies,
            first_paths: _first_paths,
            paths: _paths,
            callees: _callees,
            first_objects: _first_objects,
            statics: _statics,
            objects: _objects,
            cells: _cells,
            abstract_cells: _abstract_cells,
            initial: _initial,
        } = self;
    }
}
