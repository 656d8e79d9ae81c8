//! The ways from objects to their members.
ghost use Rattle.std.specs.Prelude.{◌≡◌, option_map};
ghost use Rattle.tm_typed.specs.TypedFiles.{typed_file_tree};
ghost use Rattle.tm_typed.specs.Scopes.{structure, cells_of};
ghost use Rattle.tm_laid.specs.TypeCells.{structure_in};
ghost use Rattle.tm_laid.specs.Layable.{tables_of};
ghost use Rattle.source_names.specs.Steps.{at_least_one, last_begun, to_member, to_element, step_down};

use tm_laid::{members_of, structure_cells, type_at};
use tm_terms::Name;
use tm_typed::{CType, Member, Qualified, TypedFile};

/// A part of an object: its type, and where a cell stands there.
#[derive(Clone, Copy, PartialEq, Eq)]
pub struct Inside {
    pub of: Qualified,
    pub cell: u32,
}

/// A step down from a part of an object: to an element of an array, or to a member of a structure.
#[derive(Clone, Copy)]
pub enum Down {
    Element {
        index: u32,
        length: u32,
        inside: Inside,
    },
    Member {
        name: Name,
        inside: Inside,
    },
}

// The scalar cells of a type.
fn cells_of(file: &TypedFile, number: u32) -> u32
    ensures { result ≡ cells_of (tables_of (typed_file_tree file.now)) number }
{
    match file.types.get(number as usize) {
        Some(entry) => match entry.ctype {
            CType::Struct(structure) => structure_cells(file, structure),
            _ => entry.cells,
        },
        None => 0,
    }
}

// The last member that begins at a cell or before it.
fn member_at(members: &[Member], cell: u32) -> Option<Member>
    ensures { result ≡ last_begun members.now cell }
{
    let mut found = None;
    for member in members {
        if member.part.cell <= cell {
            found = Some(*member);
        }
    }
    found
}

// The member in which a cell stands.
fn into_member(member: Member, inside: Inside) -> Down
    ensures { result ≡ to_member inside member }
{
    Down::Member {
        name: member.name,
        inside: Inside {
            of: member.part.of.qualified_as(inside.of),
            cell: inside.cell.saturating_sub(member.part.cell),
        },
    }
}

// The member in which a cell stands, if there is one.
fn to_member(file: &TypedFile, structure: u32, inside: Inside) -> Option<Down>
    ensures { result ≡ option_map (to_member inside)
        (last_begun (structure_in (typed_file_tree file.now) structure).members inside.cell) }
{
    match member_at(members_of(file, structure), inside.cell) {
        None => None,
        Some(member) => Some(into_member(member, inside)),
    }
}

// A number, but 1 in place of 0.
fn at_least_one(count: u32) -> u32
    ensures { result ≡ at_least_one count }
{
    if count == 0 { 1 } else { count }
}

// The element in which a cell stands.
fn to_element(file: &TypedFile, element: u32, length: u32, inside: Inside) -> Down
    ensures { result ≡ to_element (cells_of (tables_of (typed_file_tree file.now)) element) element length inside }
{
    let cells = at_least_one(cells_of(file, element));
    Down::Element {
        index: inside.cell / cells,
        length,
        inside: Inside {
            of: Qualified {
                number: element,
                constant: inside.of.constant,
                volatile: inside.of.volatile,
            },
            cell: inside.cell % cells,
        },
    }
}

/// The next step down to a cell, if there is one.
pub fn step_down(file: &TypedFile, inside: Inside) -> Option<Down>
    ensures { result ≡ step_down (typed_file_tree file.now) inside }
{
    match type_at(file, inside.of.number) {
        CType::Struct(structure) => to_member(file, structure, inside),
        CType::Array { element, length } => Some(to_element(file, element, length, inside)),
        CType::Void | CType::Int(_) | CType::Pointer(_) => None,
    }
}
