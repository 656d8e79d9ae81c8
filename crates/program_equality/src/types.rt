//! Types, structures and mutexes of typed files.
ghost use Rattle.std.specs.Prelude.{◌≡◌, ◌↔◌, IsTrue, map};
ghost use Rattle.tm_typed.specs.Scopes.{structure_of};
ghost use Rattle.tm_typed.specs.TypedFiles.{typed_file_tree};
ghost use Rattle.program_equations.specs.Readings.{read_file};

use crate::alike::{Alike, are_alike};
use tm_typed::{CType, Member, MutexEntry, StructEntry, TypeEntry, TypedFile};

impl Alike for CType {
    fn is_alike(&self, other: &CType) -> bool {
        *self == *other
    }
}

impl Alike for TypeEntry {
    fn is_alike(&self, other: &TypeEntry) -> bool {
        self.ctype.is_alike(&other.ctype)
            && self.class == other.class
            && self.cells == other.cells
            && self.abstract_cells == other.abstract_cells
            && self.size == other.size
            && self.tight_size == other.tight_size
            && self.alignment == other.alignment
            && self.of_pointers == other.of_pointers
    }
}

impl Alike for MutexEntry {
    fn is_alike(&self, other: &MutexEntry) -> bool {
        self.name == other.name && self.place == other.place
    }
}

impl Alike for Member {
    fn is_alike(&self, other: &Member) -> bool {
        self.name == other.name
            && self.part.of == other.part.of
            && self.part.cell == other.part.cell
    }
}

// Whether two structures are the same.
fn is_same_structure(one: &StructEntry, other: &StructEntry) -> bool
    ensures { IsTrue result ↔ (structure_of one.now ≡ structure_of other.now) }
{
    one.opened == other.opened
        && one.complete == other.complete
        && are_alike(&one.members, &other.members)
        && one.cells == other.cells
        && one.abstract_cells == other.abstract_cells
        && one.size == other.size
        && one.tight_size == other.tight_size
        && one.alignment == other.alignment
}

// Whether two lists of structures are the same.
fn are_same_structures(one: &[StructEntry], other: &[StructEntry]) -> bool
    ensures { IsTrue result ↔ (map structure_of one.now ≡ map structure_of other.now) }
{
    if one.len() != other.len() {
        return false;
    }
    for index in 0..one.len() {
        if !is_same_structure(&one[index], &other[index]) {
            return false;
        }
    }
    true
}

/// Whether the equations read the same of two typed files.
pub(crate) fn is_same_file(one: &TypedFile, other: &TypedFile) -> bool
    ensures { IsTrue result ↔ (read_file (typed_file_tree one.now) ≡ read_file (typed_file_tree other.now)) }
{
    are_alike(&one.types, &other.types)
        && are_same_structures(&one.structs, &other.structs)
        && are_alike(&one.mutexes, &other.mutexes)
}
