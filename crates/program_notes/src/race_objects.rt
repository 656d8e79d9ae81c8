//! Races by object.
ghost use Rattle.std.specs.Prelude.{◌≡◌, ◌++◌, OnOk};
ghost use Rattle.std.specs.List.{enumerate_from};
ghost use Rattle.notes_json.specs.Pieces.{listed};
ghost use Rattle.program_notes.specs.GroupTexts.{member_at, access_object, members_at, group_text, groups_text};

use crate::guards::{guard_of, push_guard};
use crate::operand_objects::number_of;
use access_groups::{AccessGroup, ObjectAccess};
use notes_json::{push_access, push_comma, push_number};
use std::alloc::Global;
use tm_lattice::NoMemory;
use tm_terms::push_bytes;

/// The member that the access at this place reaches.
fn member_at(members: &[Vec<u8>], at: usize) -> &[u8]
    ensures { result.now ≡ member_at members.now at }
{
    match members.get(at) {
        None => &[],
        Some(member) => member.as_slice(),
    }
}

/// Appends an access with its place among them.
fn push_placed(
    alloc: Global,
    text: &mut Vec<u8>,
    members: &[Vec<u8>],
    at: usize,
    access: ObjectAccess,
) -> Result<(), NoMemory>
    ensures { OnOk result (text.new.items ≡ text.old.items ++ access_object members.now (at, access)) }
{
    push_access(
        alloc,
        text,
        access.place,
        access.free,
        access.held,
        access.stores,
        member_at(members, at),
        access.racing,
        access.task,
    )
}

/// Appends accesses.
fn push_accesses(
    alloc: Global,
    text: &mut Vec<u8>,
    accesses: &[ObjectAccess],
    members: &[Vec<u8>],
) -> Result<(), NoMemory>
    ensures { OnOk result (text.new.items ≡ text.old.items
        ++ listed (access_object members.now) (enumerate_from 0 accesses.now)) }
{
    for (at, access) in accesses.iter().enumerate() {
        push_comma(text, at)?;
        push_placed(alloc, text, members, at, *access)?;
    }
    Ok(())
}

/// Appends a group.
fn push_group(
    alloc: Global,
    text: &mut Vec<u8>,
    numbers: &[Option<u32>],
    group: &AccessGroup,
    members: &[Vec<u8>],
) -> Result<(), NoMemory>
    ensures { OnOk result (text.new.items ≡ text.old.items ++ group_text numbers.now members.now group.now) }
{
    push_bytes(text, b"{\"accesses\":[")?;
    push_accesses(alloc, text, &group.accesses, members)?;
    push_guard(alloc, text, guard_of(&group.accesses))?;
    push_number(
        alloc,
        text,
        b",\"object\":",
        number_of(numbers, group.object) as u64,
    )?;
    push_bytes(text, b"}")?;
    Ok(())
}

/// The members that the accesses of the group at this place reach.
fn members_at(members: &[Vec<Vec<u8>>], at: usize) -> &[Vec<u8>]
    ensures { result.now ≡ members_at members.now at }
{
    match members.get(at) {
        None => &[],
        Some(found) => found.as_slice(),
    }
}

/// Appends groups.
pub(crate) fn push_groups(
    alloc: Global,
    text: &mut Vec<u8>,
    numbers: &[Option<u32>],
    groups: &[AccessGroup],
    members: &[Vec<Vec<u8>>],
) -> Result<(), NoMemory>
    ensures { OnOk result (text.new.items ≡ text.old.items ++ groups_text numbers.now groups.now members.now) }
{
    for (at, group) in groups.iter().enumerate() {
        push_comma(text, at)?;
        push_group(alloc, text, numbers, group, members_at(members, at))?;
    }
    Ok(())
}
