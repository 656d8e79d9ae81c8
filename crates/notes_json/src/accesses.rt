//! Accesses of objects, and requests for mutexes.
ghost use Rattle.std.specs.Prelude.{◌≡◌, ◌++◌, OnOk};
ghost use Rattle.notes_json.specs.Accesses.{set_text, kind_text, access_front, access_back, access_text};
ghost use Rattle.notes_json.specs.Accesses.{race_front, race_back, partner_text, request_text};
ghost use Rattle.notes_json.specs.reading.Marks.{member_if};

use crate::pieces::{push_comma_if, push_number, push_truth, push_word};
use request_circles::{Request, has_mutex};
use std::alloc::Global;
use tm_lattice::NoMemory;
use tm_terms::{Place, push_bytes};

/// Appends a mutex, if it is in the set, with a comma before it where others stand there.
fn push_member_if(
    alloc: Global,
    text: &mut Vec<u8>,
    set: u16,
    mutex: u32,
    others: bool,
) -> Result<(), NoMemory>
    ensures { OnOk result (text.new.items ≡ text.old.items ++ member_if set mutex others) }
{
    if !has_mutex(set, mutex) {
        return Ok(());
    }
    push_comma_if(text, others)?;
    push_number(alloc, text, b"", mutex as u64)
}

/// Appends the mutexes of a set, by rising numbers, behind bytes that open a list.
fn push_set(alloc: Global, text: &mut Vec<u8>, before: &[u8], set: u16) -> Result<(), NoMemory>
    ensures { OnOk result (text.new.items ≡ text.old.items ++ set_text before.now set) }
{
    push_bytes(text, before)?;
    let mut others = false;
    for mutex in 0..16 {
        push_member_if(alloc, text, set, mutex, others)?;
        others = others || has_mutex(set, mutex);
    }
    push_bytes(text, b"]")?;
    Ok(())
}

/// What an access does.
fn kind_text(stores: bool) -> &'static [u8]
    ensures { result.now ≡ kind_text stores }
{
    if stores { b"store" } else { b"load" }
}

/// Appends what stands of an access up to the mutexes that are held.
fn push_access_front(
    alloc: Global,
    text: &mut Vec<u8>,
    place: Place,
    free: u16,
    held: u16,
) -> Result<(), NoMemory>
    ensures { OnOk result (text.new.items ≡ text.old.items ++ access_front place free held) }
{
    push_number(alloc, text, b"{\"col\":", place.col as u64)?;
    push_set(alloc, text, b",\"free\":[", free)?;
    push_set(alloc, text, b",\"held\":[", held)
}

/// Appends what stands behind them.
fn push_access_back(
    alloc: Global,
    text: &mut Vec<u8>,
    place: Place,
    stores: bool,
    member: &[u8],
    racing: bool,
    task: u32,
) -> Result<(), NoMemory>
    ensures { OnOk result (text.new.items ≡ text.old.items ++ access_back place stores member.now racing task) }
{
    push_word(text, b",\"kind\":\"", kind_text(stores))?;
    push_number(alloc, text, b",\"line\":", place.line as u64)?;
    push_word(text, b",\"member\":\"", member)?;
    push_truth(text, b",\"racing\":", racing)?;
    push_number(alloc, text, b",\"task\":", task as u64)?;
    push_bytes(text, b"}")
}

/// Appends an access of a task at a place: a store or a load, the mutexes that the task has found free, those that it
/// holds, the member of the object, and whether it races.
pub fn push_access(
    alloc: Global,
    text: &mut Vec<u8>,
    place: Place,
    free: u16,
    held: u16,
    stores: bool,
    member: &[u8],
    racing: bool,
    task: u32,
) -> Result<(), NoMemory>
    ensures { OnOk result (text.new.items ≡ text.old.items
        ++ access_text place free held stores member.now racing task) }
{
    push_access_front(alloc, text, place, free, held)?;
    push_access_back(alloc, text, place, stores, member, racing, task)
}

/// Appends what stands of an access that races up to those with which it does.
pub fn push_race_front(
    alloc: Global,
    text: &mut Vec<u8>,
    held: u16,
    stores: bool,
    member: &[u8],
    partners: usize,
) -> Result<(), NoMemory>
    ensures { OnOk result (text.new.items ≡ text.old.items ++ race_front held stores member.now partners) }
{
    push_set(alloc, text, b"{\"held\":[", held)?;
    push_word(text, b",\"kind\":\"", kind_text(stores))?;
    push_word(text, b",\"member\":\"", member)?;
    push_number(alloc, text, b",\"partner_count\":", partners as u64)?;
    push_bytes(text, b",\"partners\":[")
}

/// Appends what stands behind these: the number of the object's races, and the task.
pub fn push_race_back(
    alloc: Global,
    text: &mut Vec<u8>,
    race: usize,
    task: u32,
) -> Result<(), NoMemory>
    ensures { OnOk result (text.new.items ≡ text.old.items ++ race_back race task) }
{
    push_number(alloc, text, b"],\"race\":", race as u64)?;
    push_number(alloc, text, b",\"task\":", task as u64)?;
    push_bytes(text, b"}")
}

/// Appends an access with which another one races.
pub fn push_partner(
    alloc: Global,
    text: &mut Vec<u8>,
    place: Place,
    held: u16,
    stores: bool,
    task: u32,
) -> Result<(), NoMemory>
    ensures { OnOk result (text.new.items ≡ text.old.items ++ partner_text place held stores task) }
{
    push_number(alloc, text, b"{\"col\":", place.col as u64)?;
    push_set(alloc, text, b",\"held\":[", held)?;
    push_word(text, b",\"kind\":\"", kind_text(stores))?;
    push_number(alloc, text, b",\"line\":", place.line as u64)?;
    push_number(alloc, text, b",\"task\":", task as u64)?;
    push_bytes(text, b"}")
}

/// Appends a request for a mutex.
pub fn push_request(alloc: Global, text: &mut Vec<u8>, request: Request) -> Result<(), NoMemory>
    ensures { OnOk result (text.new.items ≡ text.old.items ++ request_text request) }
{
    push_number(alloc, text, b"{\"col\":", request.place.col as u64)?;
    push_set(alloc, text, b",\"held\":[", request.held)?;
    push_number(alloc, text, b",\"line\":", request.place.line as u64)?;
    push_number(alloc, text, b",\"mutex\":", request.mutex as u64)?;
    push_number(alloc, text, b",\"task\":", request.task as u64)?;
    push_bytes(text, b"}")
}
