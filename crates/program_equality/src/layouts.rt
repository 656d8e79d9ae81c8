//! Layouts.
ghost use Rattle.std.specs.Prelude.{◌≡◌, ◌↔◌, IsTrue};
ghost use Rattle.tm_laid.specs.Layouts.{laid_tree};
ghost use Rattle.program_equations.specs.Readings.{read_layout};

use crate::alike::{Alike, are_alike};
use crate::types::is_same_file;
use tm_laid::{AbstractCell, CallPath, Caller, Initial, Laid, LaidCell, LaidObject};

impl Alike for Caller {
    fn is_alike(&self, other: &Caller) -> bool {
        self.path == other.path && self.site == other.site
    }
}

// Whether two calls are equal, or there is none on both sides.
fn is_same_caller(one: Option<Caller>, other: Option<Caller>) -> bool
    ensures { IsTrue result ↔ (one ≡ other) }
{
    match (one, other) {
        (Some(one), Some(other)) => one.is_alike(&other),
        (None, None) => true,
        _ => false,
    }
}

impl Alike for CallPath {
    fn is_alike(&self, other: &CallPath) -> bool {
        self.body == other.body
            && self.function == other.function
            && is_same_caller(self.caller, other.caller)
            && self.paths == other.paths
    }
}

impl Alike for LaidObject {
    fn is_alike(&self, other: &LaidObject) -> bool {
        self.name == other.name
            && self.place == other.place
            && self.of == other.of
            && self.owner == other.owner
            && self.first_cell == other.first_cell
            && self.cells == other.cells
            && self.first_abstract == other.first_abstract
            && self.abstract_cells == other.abstract_cells
    }
}

impl Alike for LaidCell {
    fn is_alike(&self, other: &LaidCell) -> bool {
        self.object == other.object
            && self.scalar == other.scalar
            && self.abstract_cell == other.abstract_cell
    }
}

impl Alike for AbstractCell {
    fn is_alike(&self, other: &AbstractCell) -> bool {
        self.object == other.object
            && self.offset == other.offset
            && self.scalar == other.scalar
            && self.smashed == other.smashed
    }
}

impl Alike for Initial {
    fn is_alike(&self, other: &Initial) -> bool {
        match (*self, *other) {
            (Initial::Number(number), Initial::Number(other_number)) => number == other_number,
            (Initial::Null, Initial::Null) => true,
            (
                Initial::To { object, offset },
                Initial::To {
                    object: other_object,
                    offset: other_offset,
                },
            ) => object == other_object && offset == other_offset,
            _ => false,
        }
    }
}

/// Whether the equations read the same of two layouts.
pub fn is_same_layout(one: &Laid, other: &Laid) -> bool
    ensures { IsTrue result ↔ (read_layout (laid_tree one.now) ≡ read_layout (laid_tree other.now)) }
{
    is_same_file(&one.file, &other.file)
        && are_alike(&one.paths, &other.paths)
        && are_alike(&one.objects, &other.objects)
        && are_alike(&one.cells, &other.cells)
        && are_alike(&one.abstract_cells, &other.abstract_cells)
        && are_alike(&one.initial, &other.initial)
}
