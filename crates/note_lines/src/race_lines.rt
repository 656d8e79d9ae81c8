//! The lines of races by object.
ghost use Rattle.std.specs.Prelude.{◌≡◌, ◌++◌, IfOk, OnOk, string_bytes};
ghost use Rattle.note_lines.specs.RaceTexts.{kind_text, racing_text, races_text, object_at, access_front};
ghost use Rattle.note_lines.specs.RaceTexts.{access_back, access_line, group_head, group_text, groups_text};
ghost use Rattle.note_lines.specs.RaceTexts.{count_line};

use crate::names::{Names, ObjectName};
use crate::spelling::{name_at, push_names};
use access_groups::{AccessGroup, ObjectAccess};
use std::alloc::Global;
use tm_lattice::NoMemory;
use tm_terms::{Name, Place, place_head, push_bytes, text_of};

/// What an access does.
fn kind_text(stores: bool) -> &'static [u8]
    ensures { result.now ≡ kind_text stores }
{
    if stores { b" stores" } else { b" loads" }
}

/// Whether it races.
fn racing_text(racing: bool) -> &'static [u8]
    ensures { result.now ≡ racing_text racing }
{
    if racing { b" races" } else { b"" }
}

/// Appends what stands in the line of an access up to the mutexes that are held.
fn push_front(
    alloc: Global,
    text: &mut Vec<u8>,
    bytes: &[u8],
    names: &Names,
    access: ObjectAccess,
) -> Result<(), NoMemory>
    ensures { OnOk result (text.new.items ≡ text.old.items
        ++ access_front bytes.now names.now.tasks.items names.now.mutexes.items access) }
{
    let head = place_head(alloc, access.place)?;
    push_bytes(text, head.as_bytes())?;
    push_bytes(text, name_at(bytes, &names.tasks, access.task))?;
    push_bytes(text, kind_text(access.stores))?;
    push_bytes(text, b" holds")?;
    push_names(text, bytes, &names.mutexes, access.held)?;
    Ok(())
}

/// Appends what stands behind them.
fn push_back(
    text: &mut Vec<u8>,
    bytes: &[u8],
    names: &Names,
    access: ObjectAccess,
) -> Result<(), NoMemory>
    ensures { OnOk result (text.new.items ≡ text.old.items
        ++ access_back bytes.now names.now.mutexes.items access) }
{
    push_bytes(text, b" free")?;
    push_names(text, bytes, &names.mutexes, access.free)?;
    push_bytes(text, racing_text(access.racing))?;
    Ok(())
}

/// Appends the line of an access.
fn push_access(
    alloc: Global,
    text: &mut Vec<u8>,
    bytes: &[u8],
    names: &Names,
    access: ObjectAccess,
) -> Result<(), NoMemory>
    ensures { OnOk result (text.new.items ≡ text.old.items
        ++ access_line bytes.now names.now.tasks.items names.now.mutexes.items access) }
{
    push_front(alloc, text, bytes, names, access)?;
    push_back(text, bytes, names, access)?;
    push_bytes(text, b"\n")?;
    Ok(())
}

/// The object with this number.
pub(crate) fn object_at(names: &Names, object: u32) -> ObjectName
    ensures { result ≡ object_at names.now.objects.items object }
{
    match names.objects.get(object as usize) {
        None => ObjectName {
            name: Name {
                start: 0,
                length: 0,
            },
            place: Place { line: 0, col: 0 },
        },
        Some(found) => *found,
    }
}

/// What stands behind the name of an object.
fn races_text(alloc: Global, count: usize) -> Result<String, NoMemory>
    ensures { IfOk result (λ text. string_bytes text ≡ races_text count) }
{
    match format!(in alloc; " RACES {count}") {
        Ok(text) => Ok(text),
        Err(_) => Err(NoMemory),
    }
}

/// Appends the first line of a group.
fn push_head(
    alloc: Global,
    text: &mut Vec<u8>,
    bytes: &[u8],
    names: &Names,
    group: &AccessGroup,
) -> Result<(), NoMemory>
    ensures { OnOk result (text.new.items ≡ text.old.items ++ group_head bytes.now names.now.objects.items group.now) }
{
    let object = object_at(names, group.object);
    let head = place_head(alloc, object.place)?;
    let count = races_text(alloc, group.accesses.len())?;
    push_bytes(text, head.as_bytes())?;
    push_bytes(text, text_of(bytes, object.name))?;
    push_bytes(text, count.as_bytes())?;
    push_bytes(text, b"\n")?;
    Ok(())
}

/// Appends the lines of a group.
fn push_group(
    alloc: Global,
    text: &mut Vec<u8>,
    bytes: &[u8],
    names: &Names,
    group: &AccessGroup,
) -> Result<(), NoMemory>
    ensures { OnOk result (text.new.items ≡ text.old.items ++ group_text bytes.now names.now.objects.items
        names.now.tasks.items names.now.mutexes.items group.now) }
{
    push_head(alloc, text, bytes, names, group)?;
    for access in &group.accesses {
        push_access(alloc, text, bytes, names, *access)?;
    }
    Ok(())
}

/// The line that says how many groups there are.
fn count_line(alloc: Global, count: usize) -> Result<String, NoMemory>
    ensures { IfOk result (λ text. string_bytes text ≡ count_line count) }
{
    match format!(in alloc; "races {count}\n") {
        Ok(text) => Ok(text),
        Err(_) => Err(NoMemory),
    }
}

/// The lines of groups, and then their number.
pub fn groups_text(
    alloc: Global,
    bytes: &[u8],
    names: &Names,
    groups: &[AccessGroup],
) -> Result<Vec<u8>, NoMemory>
    ensures { IfOk result (λ text. text.items ≡ groups_text bytes.now names.now.objects.items names.now.tasks.items
        names.now.mutexes.items groups.now) }
{
    let mut text = Vec::new(alloc);
    for group in groups {
        push_group(alloc, &mut text, bytes, names, group)?;
    }
    let count = count_line(alloc, groups.len())?;
    push_bytes(&mut text, count.as_bytes())?;
    Ok(text)
}
