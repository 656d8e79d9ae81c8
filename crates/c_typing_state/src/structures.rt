//! Structures, from their `{` to their `}`.
ghost use Rattle.std.specs.Prelude.{◌≡◌, true, cond, length, OnOk, IfOk};
ghost use Rattle.tm_typed.specs.Scopes.{structure, structure_of};
ghost use Rattle.tm_typed.specs.Specifiers.{new_structure};
ghost use Rattle.tm_typed.specs.States.{in_scope};
ghost use Rattle.tm_typed.specs.Structures.{opened, with_structure};

use crate::states::State;
use std::alloc::Global;
use tm_lattice::NoMemory;
use tm_typed::StructEntry;

impl State {
    /// A further structure, of which nothing is known, with its number.
    pub fn add_structure(&mut self, alloc: Global) -> Result<u32, NoMemory>
        ensures state { OnOk result (self.new ≡ in_scope self.old (new_structure self.old.scope)) }
        ensures number { IfOk result (λ k. k ≡ length self.old.scope.structs) }
    {
        self.scope.add_structure(alloc)
    }

    /// The `{` of a structure is read.
    pub fn open_structure(&mut self, number: u32)
        ensures { self.new ≡ opened number self.old }
    {
        self.scope.open_structure(number);
    }

    /// The `}` of a structure is read: it is the given one from now on, which is complete, as that of a layout is. A
    /// structure has one list of members.
    pub fn complete_structure(&mut self, number: u32, entry: StructEntry) -> Result<(), NoMemory>
        requires { entry.complete ≡ true }
        ensures { OnOk result (self.new ≡ cond (structure self.old.scope number).complete self.old
            (with_structure number (structure_of entry) self.old)) }
    {
        if self.scope.is_complete_structure(number) {
            return Ok(());
        }
        self.scope.complete_structure(number, entry)
    }
}
