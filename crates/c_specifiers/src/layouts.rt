//! The members of a structure, one behind the other (C99 6.7.2.1).
ghost use Rattle.std.specs.Prelude.{◌≡◌, ◌+◌, ◌++◌, [], ◌∷◌, true, false, OnOk};
ghost use Rattle.tm_typed.specs.Scopes.{structure_of};
ghost use Rattle.tm_typed.specs.TypeRows.{wrapped};
ghost use Rattle.tm_typed.specs.Structures.{no_layout, padding, aligned, tight, with_member, has_member};
ghost use Rattle.tm_typed.specs.Structures.{completed_structure};

use c_scope::{Scope, clipped_sum};
use std::alloc::Global;
use std::marker::Model;
use tm_lattice::NoMemory;
use tm_terms::{Name, Names};
use tm_typed::{Member, Part, Qualified, StructEntry};

/// The members so far, with a look-up of their names, and the cells and bytes that they take.
#[derive(Drop)]
pub(crate) struct Layout {
    names: Names,
    members: Vec<Member>,
    cells: u32,
    abstract_cells: u32,
    size: u32,
    tight_size: u32,
    alignment: u32,
}

impl Model for Layout {
    ghost use Rattle.std.specs.Prelude.{◌≡◌, map};
    ghost use Rattle.tm_typed.specs.Structures.{Layout as PlainLayout};

    ghost Value = { PlainLayout };

    ghost view = { λ l. record {
      members = l.members.items;
      cells = l.cells;
      abstract_cells = l.abstract_cells;
      size = l.size;
      tight_size = l.tight_size;
      alignment = l.alignment;
    } };

    ghost invariant = { λ l. l.names ≡ map (λ m. m.name) l.members.items };
}

impl Layout {
    /// No members.
    pub(crate) fn new(alloc: Global) -> Layout
        ensures { result ≡ no_layout }
    {
        Layout {
            names: Names::new(alloc),
            members: Vec::new(alloc),
            cells: 0,
            abstract_cells: 0,
            size: 0,
            tight_size: 0,
            alignment: 1,
        }
    }

    /// Whether there is a member of this name.
    pub(crate) fn has(&self, name: Name) -> bool
        ensures { result ≡ has_member self.now name }
    {
        self.names.contains(name)
    }

    /// One more member, of a name that none has: it begins at the next cell, and at the next byte that its alignment
    /// allows.
    pub(crate) fn add(&mut self, scope: &Scope, name: Name, of: Qualified) -> Result<(), NoMemory>
        requires { has_member self.old name ≡ false }
        ensures { OnOk result (self.new ≡ with_member scope.now self.old name of) }
    {
        let alignment = scope.alignment(of.number);
        let part = Part {
            of,
            cell: self.cells,
        };
        self.note(Member { name, part })?;
        self.cells = clipped_sum(self.cells, scope.cells(of.number));
        self.abstract_cells = clipped_sum(self.abstract_cells, scope.abstract_cells(of.number));
        self.size = wrapped_sum(aligned(self.size, alignment), scope.size(of.number));
        self.tight_size = wrapped_sum(
            aligned(self.tight_size, tight(alignment)),
            scope.tight_size(of.number),
        );
        self.alignment = self.alignment.max(alignment);
        Ok(())
    }

    // One more member, of a name that none has.
    fn note(&mut self, member: Member) -> Result<(), NoMemory>
        requires { has_member self.old member.name ≡ false }
        ensures { OnOk result (self.new ≡ record self.old { members = self.old.members ++ member ∷ [] }) }
    {
        match self.members.push(member) {
            Ok(()) => match self.names.add(member.name) {
                Ok(()) => Ok(()),
                Err(_) => {
                    let _ = self.members.pop();
                    Err(NoMemory)
                }
            },
            Err(_) => Err(NoMemory),
        }
    }

    /// The structure whose members these are.
    pub(crate) fn into_structure(self) -> StructEntry
        ensures structure { structure_of result ≡ completed_structure self }
        ensures complete { result.complete ≡ true }
    {
        let Layout {
            names: _names,
            members,
            cells,
            abstract_cells,
            size,
            tight_size,
            alignment,
        } = self;
        StructEntry {
            opened: true,
            complete: true,
            members,
            cells,
            abstract_cells,
            size: aligned(size, alignment),
            tight_size: aligned(tight_size, tight(alignment)),
            alignment,
        }
    }
}

// ## Numbers

// A number of bytes modulo 2^32.
fn wrapped_sum(left: u32, right: u32) -> u32
    ensures { result ≡ wrapped (left + right) }
{
    ((u64::from(left) + u64::from(right)) % 4294967296) as u32
}

// The bytes that are left out before a multiple of the alignment, at least 1.
fn padding(size: u32, alignment: u32) -> u32
    ensures { result ≡ padding size alignment }
{
    let step = alignment.max(1);
    (step - size % step) % step
}

// An alignment where that of `long long` is 4.
fn tight(alignment: u32) -> u32
    ensures { result ≡ tight alignment }
{
    alignment.min(4)
}

// The next multiple of the alignment, modulo 2^32.
fn aligned(size: u32, alignment: u32) -> u32
    ensures { result ≡ aligned size alignment }
{
    wrapped_sum(size, padding(size, alignment))
}
