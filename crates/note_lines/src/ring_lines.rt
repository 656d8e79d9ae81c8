//! The lines of rings.
ghost use Rattle.std.specs.Prelude.{◌≡◌, ◌++◌, IfOk, OnOk, string_bytes};
ghost use Rattle.note_lines.specs.RingTexts.{request_line, ring_head, ring_text, rings_text, count_line};

use crate::names::Names;
use crate::spelling::{name_at, push_names};
use request_circles::{Request, Ring};
use std::alloc::Global;
use tm_lattice::NoMemory;
use tm_terms::{place_head, push_bytes};

/// Appends the line of a request.
fn push_request(
    alloc: Global,
    text: &mut Vec<u8>,
    bytes: &[u8],
    names: &Names,
    request: Request,
) -> Result<(), NoMemory>
    ensures { OnOk result (text.new.items ≡ text.old.items ++ request_line bytes.now names.now.tasks.items
        names.now.mutexes.items request) }
{
    let head = place_head(alloc, request.place)?;
    push_bytes(text, head.as_bytes())?;
    push_bytes(text, name_at(bytes, &names.tasks, request.task))?;
    push_bytes(text, b" holds")?;
    push_names(text, bytes, &names.mutexes, request.held)?;
    push_bytes(text, b" asks ")?;
    push_bytes(text, name_at(bytes, &names.mutexes, request.mutex))?;
    push_bytes(text, b"\n")?;
    Ok(())
}

/// The first line of a ring.
fn ring_head(alloc: Global, ring: &Ring) -> Result<String, NoMemory>
    ensures { IfOk result (λ text. string_bytes text ≡ ring_head ring.now) }
{
    let line = ring.place.line;
    let col = ring.place.col;
    let count = ring.requests.len();
    match format!(in alloc; "{line}:{col} RING {count}\n") {
        Ok(text) => Ok(text),
        Err(_) => Err(NoMemory),
    }
}

/// Appends the lines of a ring.
fn push_ring(
    alloc: Global,
    text: &mut Vec<u8>,
    bytes: &[u8],
    names: &Names,
    ring: &Ring,
) -> Result<(), NoMemory>
    ensures { OnOk result (text.new.items ≡ text.old.items ++ ring_text bytes.now names.now.tasks.items
        names.now.mutexes.items ring.now) }
{
    let head = ring_head(alloc, ring)?;
    push_bytes(text, head.as_bytes())?;
    for request in &ring.requests {
        push_request(alloc, text, bytes, names, *request)?;
    }
    Ok(())
}

/// The line that says how many rings there are.
fn count_line(alloc: Global, count: usize) -> Result<String, NoMemory>
    ensures { IfOk result (λ text. string_bytes text ≡ count_line count) }
{
    match format!(in alloc; "rings {count}\n") {
        Ok(text) => Ok(text),
        Err(_) => Err(NoMemory),
    }
}

/// The lines of rings, and then their number.
pub fn rings_text(
    alloc: Global,
    bytes: &[u8],
    names: &Names,
    rings: &[Ring],
) -> Result<Vec<u8>, NoMemory>
    ensures { IfOk result (λ text. text.items ≡ rings_text bytes.now names.now.tasks.items
        names.now.mutexes.items rings.now) }
{
    let mut text = Vec::new(alloc);
    for ring in rings {
        push_ring(alloc, &mut text, bytes, names, ring)?;
    }
    let count = count_line(alloc, rings.len())?;
    push_bytes(&mut text, count.as_bytes())?;
    Ok(text)
}
