//! Bounds of objects that are widened number by number.
ghost use Rattle.std.specs.Prelude.{◌≡◌, ◌⊎◌, ◌<◌, ◌≤ℤ◌, ℕ, length, IfOk};
ghost use Rattle.strided_dom.specs.Progression.{Has};
ghost use Rattle.value_ranges.specs.reading.Notes.{AreWidened, IsJoined, HasNoted, AreListed, IsNamed, noted_at};

use crate::object_bounds::ObjectBounds;
use std::alloc::Global;
use strided_dom::Strided;
use tm_lattice::NoMemory;

// The lesser of the least numbers of two bounds.
fn least_of(one: ObjectBounds, other: ObjectBounds) -> i128
    ensures one { result ≤ℤ one.low }
    ensures other { result ≤ℤ other.low }
    ensures is { (result ≡ one.low) ⊎ (result ≡ other.low) }
{
    if one.low < other.low {
        one.low
    } else {
        other.low
    }
}

// The greater of the greatest numbers of two bounds.
fn greatest_of(one: ObjectBounds, other: ObjectBounds) -> i128
    ensures one { one.high ≤ℤ result }
    ensures other { other.high ≤ℤ result }
    ensures is { (result ≡ one.high) ⊎ (result ≡ other.high) }
{
    if one.high < other.high {
        other.high
    } else {
        one.high
    }
}

// What is noted of an object, with further bounds of it.
fn joined(old: Option<ObjectBounds>, more: ObjectBounds) -> ObjectBounds
    ensures { IsJoined old more result }
{
    match old {
        None => more,
        Some(bounds) => ObjectBounds {
            object: more.object,
            low: least_of(bounds, more),
            high: greatest_of(bounds, more),
        },
    }
}

/// Notes further bounds of an object.
pub(crate) fn note(noted: &mut Vec<Option<ObjectBounds>>, more: ObjectBounds)
    requires { more.object < length noted.old.items }
    ensures { HasNoted more noted.old.items noted.new.items }
{
    let object = more.object as usize;
    noted[object] = Some(joined(noted[object], more));
}

/// Notes the numbers of a set, of which the least and the greatest decide.
pub(crate) fn note_numbers(noted: &mut Vec<Option<ObjectBounds>>, object: u32, numbers: Strided)
    requires { object < length noted.old.items }
    ensures { AreWidened (λ o n. (object ≡ o) × Has numbers n) noted.old.items noted.new.items }
{
    if !numbers.is_empty() {
        let low = numbers.lo();
        let high = numbers.hi();
        note(noted, ObjectBounds { object, low, high });
    }
}

/// What is noted of objects, in their order.
pub(crate) fn listed(
    alloc: Global,
    noted: &[Option<ObjectBounds>],
) -> Result<Vec<ObjectBounds>, NoMemory>
    requires { (o : ℕ) → IsNamed o (noted_at noted.now o) }
    ensures { IfOk result (λ list. AreListed noted.now (length noted.now) list.items) }
{
    let mut list = Vec::new(alloc);
    for object in 0..noted.len() {
        if let Some(bounds) = noted[object] {
            list.push(bounds)?;
        }
    }
    Ok(list)
}
