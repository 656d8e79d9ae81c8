//! Spots in objects of static storage: where address constants point, and moves of pointers (C99 6.5.6p8).
ghost use Rattle.std.specs.Prelude.{◌≡◌, ◌++◌, ◌≤◌, [], ◌∷◌, IfOk, OnOk, Some, cond, length, map, option_map};
ghost use Rattle.std.specs.Prelude.{ℤ, pos, ◌+ℤ◌, ◌*ℤ◌};
ghost use Rattle.tm_typed.specs.TypedFiles.{typed_file_tree};
ghost use Rattle.tm_laid.specs.Layable.{IsLayable};
ghost use Rattle.tm_laid.specs.Layouts.{laid_tree};
ghost use Rattle.text_choices.specs.AddressConstants.{and_then, by_cast, part_of, member_named, members_at, member_of};
ghost use Rattle.text_choices.specs.AddressConstants.{first_element, target, is_outside, leaves, moved_by, moved_from};
ghost use Rattle.text_choices.specs.Initialisers.{named_at};
ghost use Rattle.text_choices.specs.reading.Files.{left_at};
ghost use Rattle.text_choices.specs.reading.Spots.{spot_of, offset_in, at_offset, IsLed};

use crate::kinds::{Choice, Kind};
use body_builder::more;
use cell_types::stands_at;
use part_extents::{Extent, array_at, cells_of_type, type_at};
use tm_laid::Laid;
use tm_lattice::NoMemory;
use tm_terms::{Name, Place};
use tm_typed::{CType, Member};

/// A place in an object, the number of the type that stands there, whether it is declared `const`; and whether the
/// pointer there is made by a cast.
#[derive(Clone, Copy)]
pub(crate) struct Spot {
    pub(crate) object: u32,
    pub(crate) offset: u32,
    pub(crate) of: u32,
    pub(crate) constant: bool,
    pub(crate) cast: bool,
}

/// The same pointer by a cast.
pub(crate) fn by_cast(found: Option<Spot>) -> Option<Spot>
    ensures { option_map spot_of result ≡ and_then (λ s. Some (by_cast s)) (option_map spot_of found) }
{
    match found {
        Some(spot) => Some(Spot {
            object: spot.object,
            offset: spot.offset,
            of: spot.of,
            constant: spot.constant,
            cast: true,
        }),
        None => None,
    }
}

// A member of what stands there.
fn part_of(whole: Spot, member: Member) -> Result<Spot, NoMemory>
    ensures { IfOk result (λ s. spot_of s ≡ part_of (spot_of whole) member) }
{
    let offset = more(whole.offset, member.part.cell)?;
    Ok(Spot {
        object: whole.object,
        offset,
        of: member.part.of.number,
        constant: whole.constant || member.part.of.constant,
        cast: false,
    })
}

// The first member with a name.
fn member_named(members: &[Member], name: Name) -> Option<Member>
    ensures { result ≡ member_named name members.now }
{
    for member in members {
        if member.name == name {
            return Some(*member);
        }
    }
    None
}

// The members of a type.
fn members_at(laid: &Laid, ctype: CType) -> &[Member]
    ensures { result.now ≡ members_at (laid_tree laid.now) (named_at (laid_tree laid.now)) ctype }
{
    match ctype {
        CType::Struct(structure) => match laid.file.structs.get(structure as usize) {
            Some(entry) => entry.members.as_slice(),
            None => &[],
        },
        CType::Void | CType::Int(_) | CType::Pointer(_) | CType::Array { .. } => &[],
    }
}

// The member with a name of what stands there.
fn member_of(laid: &Laid, name: Name, whole: Spot) -> Result<Option<Spot>, NoMemory>
    ensures { IfOk result (λ s. option_map spot_of s
        ≡ member_of (laid_tree laid.now) (named_at (laid_tree laid.now)) name (spot_of whole)) }
{
    let ctype = type_at(laid, whole.of);
    match member_named(members_at(laid, ctype), name) {
        Some(member) => {
            let part = part_of(whole, member)?;
            Ok(Some(part))
        }
        None => Ok(None),
    }
}

/// The same, where there is something.
pub(crate) fn member_if(
    laid: &Laid,
    name: Name,
    whole: Option<Spot>,
) -> Result<Option<Spot>, NoMemory>
    ensures { IfOk result (λ s. option_map spot_of s
        ≡ and_then (member_of (laid_tree laid.now) (named_at (laid_tree laid.now)) name) (option_map spot_of whole)) }
{
    match whole {
        Some(whole) => member_of(laid, name, whole),
        None => Ok(None),
    }
}

/// The pointer to the first element of an array (C99 6.3.2.1p3).
pub(crate) fn first_element(laid: &Laid, array: Option<Spot>) -> Option<Spot>
    ensures { option_map spot_of result
        ≡ and_then (first_element (laid_tree laid.now) (named_at (laid_tree laid.now))) (option_map spot_of array) }
{
    match array {
        Some(array) => match type_at(laid, array.of) {
            CType::Array { element, .. } => Some(Spot {
                object: array.object,
                offset: array.offset,
                of: element,
                constant: array.constant,
                cast: false,
            }),
            CType::Void | CType::Int(_) | CType::Pointer(_) | CType::Struct(_) => None,
        },
        None => None,
    }
}

// A number behind an offset.
fn behind(offset: u32, count: i64, cells: u32) -> Result<i128, NoMemory>
    ensures { IfOk result (λ z. z ≡ pos offset +ℤ (count *ℤ pos cells)) }
{
    match i128::from(count).checked_mul(i128::from(cells)) {
        Some(step) => match i128::from(offset).checked_add(step) {
            Some(to) => Ok(to),
            None => Err(NoMemory),
        },
        None => Err(NoMemory),
    }
}

// Where a pointer comes to stand that is moved by so many elements.
fn target(laid: &Laid, from: Spot, count: i64) -> Result<i128, NoMemory>
    ensures { IfOk result (λ z. z
        ≡ target (laid_tree laid.now) (named_at (laid_tree laid.now)) (spot_of from) count) }
{
    let cells = cells_of_type(laid, from.of)?;
    behind(from.offset, count, cells)
}

// Outside of an array, or at its end while the type stands there.
fn is_outside(laid: &Laid, from: Spot, to: i128, array: Extent) -> bool
    requires layable { IsLayable (typed_file_tree laid.now.file) laid.now.file.order.items }
    requires few { length laid.now.cells.items ≤ 65536 }
    ensures { result ≡ is_outside (laid_tree laid.now) (named_at (laid_tree laid.now)) (spot_of from) to (Some array) }
{
    to < i128::from(array.begin)
        || i128::from(array.end) < to
        || (i128::from(array.end) <= to && stands_at(laid, from.object, array.end, from.of))
}

// Whether a pointer that is moved there leaves its array.
fn leaves(laid: &Laid, from: Spot, to: i128) -> Result<bool, NoMemory>
    requires layable { IsLayable (typed_file_tree laid.now.file) laid.now.file.order.items }
    requires few { length laid.now.cells.items ≤ 65536 }
    ensures { IfOk result (λ b. b ≡ leaves (laid_tree laid.now) (named_at (laid_tree laid.now)) (spot_of from) to) }
{
    match array_at(laid, from.object, from.of, from.offset)? {
        Some(array) => Ok(is_outside(laid, from, to, array)),
        None => Ok(false),
    }
}

// The offset, if there is such a one in 32 bits.
fn offset_of(to: i128) -> Option<u32>
    ensures { result ≡ offset_in to }
{
    if 0 <= to && to <= 4_294_967_295 {
        Some(to as u32)
    } else {
        None
    }
}

// The same spot at another offset.
fn at(from: Spot, offset: Option<u32>) -> Option<Spot>
    ensures { option_map spot_of result ≡ option_map (at_offset (spot_of from)) offset }
{
    match offset {
        Some(offset) => Some(Spot {
            object: from.object,
            offset,
            of: from.of,
            constant: from.constant,
            cast: from.cast,
        }),
        None => None,
    }
}

// One more sign at which a pointer leaves its array, if it does.
fn push_left(choices: &mut Vec<Choice>, place: Place, leaves: bool) -> Result<(), NoMemory>
    ensures { OnOk result (choices.new.items ≡ choices.old.items ++ map left_at (cond leaves (place ∷ []) [])) }
{
    if leaves {
        let kind = Kind::Member;
        match choices.push(Choice { place, kind }) {
            Ok(()) => Ok(()),
            Err(_) => Err(NoMemory),
        }
    } else {
        Ok(())
    }
}

// A pointer is moved by a number, at a sign.
fn moved_by(
    laid: &Laid,
    place: Place,
    from: Spot,
    count: i64,
    choices: &mut Vec<Choice>,
) -> Result<Option<Spot>, NoMemory>
    requires layable { IsLayable (typed_file_tree laid.now.file) laid.now.file.order.items }
    requires few { length laid.now.cells.items ≤ 65536 }
    ensures { IfOk result (λ s. IsLed choices.old.items choices.new.items s
        (moved_by (laid_tree laid.now) (named_at (laid_tree laid.now)) place (spot_of from) count)) }
{
    let to = target(laid, from, count)?;
    let outside = leaves(laid, from, to)?;
    push_left(choices, place, outside)?;
    Ok(at(from, offset_of(to)))
}

/// The same, where there are a pointer and a number.
pub(crate) fn moved_from(
    laid: &Laid,
    place: Place,
    from: Option<Spot>,
    count: Option<i64>,
    choices: &mut Vec<Choice>,
) -> Result<Option<Spot>, NoMemory>
    requires layable { IsLayable (typed_file_tree laid.now.file) laid.now.file.order.items }
    requires few { length laid.now.cells.items ≤ 65536 }
    ensures { IfOk result (λ s. IsLed choices.old.items choices.new.items s
        (moved_from (laid_tree laid.now) (named_at (laid_tree laid.now)) place (option_map spot_of from) count)) }
{
    match from {
        Some(from) => match count {
            Some(count) => moved_by(laid, place, from, count, choices),
            None => Ok(None),
        },
        None => Ok(None),
    }
}
