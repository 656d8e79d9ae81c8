//! The details of objects.
ghost use Rattle.std.specs.Prelude.{◌≡◌, ◌<◌, ◌≤◌, IfOk, IfSome, length};
ghost use Rattle.tm_typed.specs.TypedFiles.{typed_file_tree};
ghost use Rattle.source_names.specs.TypeWords.{type_words};

use source_names::{is_volatile, member_of, push_type};
use std::alloc::Global;
use tm_laid::{Laid, LaidObject, Scalar, abstract_at};
use tm_lattice::NoMemory;
use tm_terms::Name;
use value_ranges::ObjectBounds;

// How many members of an object are shown.
const SHOWN: usize = 32;

/// The least and the greatest number that a member holds: its cells in all elements of arrays together.
#[derive(Drop)]
pub struct MemberBounds {
    pub name: Vec<u8>,
    pub low: i128,
    pub high: i128,
    pub volatile: bool,
}

/// The details of an object: the words of its type, and the bounds of its first members that are integers.
#[derive(Drop)]
pub struct ObjectDetails {
    pub words: Vec<u8>,
    pub members: Vec<MemberBounds>,
}

// The member with a name, by its place among them.
fn named(members: &[MemberBounds], name: &[u8]) -> Option<usize>
    ensures { IfSome result (λ at. at < length members.now) }
{
    for at in 0..members.len() {
        if members[at].name.as_slice() == name {
            return Some(at);
        }
    }
    None
}

// Notes further bounds of a member.
fn widen(members: &mut Vec<MemberBounds>, at: usize, bounds: ObjectBounds)
    ensures { length members.new.items ≡ length members.old.items }
{
    if at < members.len() {
        members[at].low = members[at].low.min(bounds.low);
        members[at].high = members[at].high.max(bounds.high);
    }
}

// Notes the bounds of a cell with the member that it is of. At most 32 members are noted.
fn note_member(
    laid: &Laid,
    members: &mut Vec<MemberBounds>,
    name: Vec<u8>,
    cell: u32,
    bounds: ObjectBounds,
) -> Result<(), NoMemory>
    requires few { length members.old.items ≤ 32 }
    ensures few { length members.new.items ≤ 32 }
{
    if let Some(at) = named(members, &name) {
        widen(members, at, bounds);
        return Ok(());
    }
    if members.len() < SHOWN {
        members.push(MemberBounds {
            name,
            low: bounds.low,
            high: bounds.high,
            volatile: is_volatile(laid, cell),
        })?;
    }
    Ok(())
}

// Whether an abstract cell is of an integer type.
fn is_integer(laid: &Laid, cell: u32) -> bool {
    match abstract_at(laid, cell).scalar {
        Scalar::Int(_) => true,
        Scalar::Pointer(_) => false,
    }
}

// The bounds of an abstract cell of an integer type.
fn bounds_at(laid: &Laid, bounds: &[Option<ObjectBounds>], cell: u32) -> Option<ObjectBounds> {
    match bounds.get(cell as usize) {
        Some(found) => { if is_integer(laid, cell) { *found } else { None } }
        None => None,
    }
}

// Notes the bounds of an abstract cell, if it has some.
fn note_cell(
    alloc: Global,
    bytes: &[u8],
    laid: &Laid,
    bounds: Option<ObjectBounds>,
    cell: u32,
    members: &mut Vec<MemberBounds>,
) -> Result<(), NoMemory>
    requires few { length members.old.items ≤ 32 }
    ensures few { length members.new.items ≤ 32 }
{
    match bounds {
        Some(found) => {
            let name = member_of(alloc, bytes, laid, &[cell], true)?;
            note_member(laid, members, name, cell, found)
        }
        None => Ok(()),
    }
}

// The bounds of the members of an object.
fn members_of(
    alloc: Global,
    bytes: &[u8],
    laid: &Laid,
    bounds: &[Option<ObjectBounds>],
    object: LaidObject,
) -> Result<Vec<MemberBounds>, NoMemory>
    ensures { IfOk result (λ members. length members.items ≤ 32) }
{
    let mut members = Vec::new(alloc);
    for index in 0..object.abstract_cells {
        let cell = object.first_abstract.saturating_add(index);
        note_cell(
            alloc,
            bytes,
            laid,
            bounds_at(laid, bounds, cell),
            cell,
            &mut members,
        )?;
    }
    Ok(members)
}

// The bounds of the members of an object of static storage.
fn static_members(
    alloc: Global,
    bytes: &[u8],
    laid: &Laid,
    bounds: &[Option<ObjectBounds>],
    object: LaidObject,
) -> Result<Vec<MemberBounds>, NoMemory>
    ensures { IfOk result (λ members. length members.items ≤ 32) }
{
    match object.owner {
        None => members_of(alloc, bytes, laid, bounds, object),
        Some(_) => Ok(Vec::new(alloc)),
    }
}

/// The details of an object.
pub(crate) fn object_details(
    alloc: Global,
    bytes: &[u8],
    laid: &Laid,
    tags: &[Name],
    bounds: &[Option<ObjectBounds>],
    object: LaidObject,
) -> Result<ObjectDetails, NoMemory>
    ensures words { IfOk result (λ details. details.words.items
        ≡ type_words bytes.now tags.now (typed_file_tree laid.now.file) object.of) }
    ensures few { IfOk result (λ details. length details.members.items ≤ 32) }
{
    let mut words = Vec::new(alloc);
    push_type(alloc, &mut words, bytes, tags, &laid.file, object.of)?;
    let members = static_members(alloc, bytes, laid, bounds, object)?;
    Ok(ObjectDetails { words, members })
}
