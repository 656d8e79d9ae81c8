//! Why units are not joined.

use std::alloc::{AllocError, AllocFailed, Global};
use tm_lattice::NoMemory;
use tm_terms::{Place, Refusal, refusal_line};

/// Why units are not joined.
#[derive(Clone, Copy)]
pub enum Cause {
    /// The first line does not tell how many lines `#pragma unit` follow, or they are more than 64.
    NotUnits,
    /// The text of the units, or the joined one, has more than 1,048,576 bytes.
    Long,
    /// The lexis refuses the text of the units.
    Lexis(Refusal),
    /// The line of the text with this number is a line mark that cannot be read.
    BrokenMark(usize),
    /// A unit ends in a declaration whose last token stands here.
    Open(Place),
    /// What the first place defines with external linkage, the second one defines in another unit.
    Twice(Place, Place),
    /// The name has external linkage before, and internal linkage here (C99 6.2.2).
    Linkage(Place, Place),
    /// What stands here has one name for several units, and one of these has the name for something else.
    Shared(Place, Place),
    /// In the units more than 30 `_` follow each other.
    LongRun,
    /// The joined text would not say what the units say.
    Unlike,
}

impl From<NoMemory> for JoinFail {
    ghost use Rattle.std.specs.Prelude.{◌≡◌};
    ghost use Rattle.unit_plans.specs.declared.causes.JoinFail.TheVariants.{NoMemory as OutOfMemory};

    ghost from_gives = { λ _ made. made ≡ OutOfMemory };

    fn from(_: NoMemory) -> JoinFail {
        JoinFail::NoMemory
    }
}

/// Why there is no joined text.
#[derive(Clone, Copy)]
pub enum JoinFail {
    /// The units are refused.
    Refused(Cause),
    /// Memory ran out.
    NoMemory,
}

impl From<AllocError> for JoinFail {
    ghost use Rattle.std.specs.Prelude.{◌≡◌};
    ghost use Rattle.unit_plans.specs.declared.causes.JoinFail.TheVariants.{NoMemory as OutOfMemory};

    ghost from_gives = { λ _ made. made ≡ OutOfMemory };

    fn from(_: AllocError) -> JoinFail {
        JoinFail::NoMemory
    }
}

impl<T: Drop> From<AllocFailed<T>> for JoinFail {
    ghost use Rattle.std.specs.Prelude.{◌≡◌};
    ghost use Rattle.unit_plans.specs.declared.causes.JoinFail.TheVariants.{NoMemory as OutOfMemory};

    ghost from_gives = { λ _ made. made ≡ OutOfMemory };

    fn from(_refused: AllocFailed<T>) -> JoinFail {
        JoinFail::NoMemory
    }
}

/// The line of a cause that has two places.
fn places_line(
    alloc: Global,
    kind: &str,
    first: Place,
    second: Place,
) -> Result<String, AllocError> {
    let line = second.line;
    let col = second.col;
    let other_line = first.line;
    let other_col = first.col;
    format!(in alloc; "{line}:{col} refused {kind} {other_line}:{other_col}\n")
}

/// The line of a cause that has a place.
fn place_line(alloc: Global, place: Place) -> Result<String, AllocError> {
    let line = place.line;
    let col = place.col;
    format!(in alloc; "{line}:{col} refused Syntax\n")
}

/// The line that tells a cause that is no refusal of the lexis but by its limit.
fn said(alloc: Global, cause: Cause) -> Result<String, AllocError> {
    match cause {
        Cause::NotUnits => String::from_str(alloc, "refused Units\n"),
        Cause::Long => String::from_str(alloc, "refused Limit source 16777216\n"),
        Cause::Lexis(_) => String::from_str(alloc, "refused Limit tokens 4000000\n"),
        Cause::BrokenMark(number) => format!(in alloc; "refused Mark {number}\n"),
        Cause::Open(place) => place_line(alloc, place),
        Cause::Twice(first, second) => places_line(alloc, "Twice", first, second),
        Cause::Linkage(first, second) => places_line(alloc, "Linkage", first, second),
        Cause::Shared(first, second) => places_line(alloc, "Shared", first, second),
        Cause::LongRun => String::from_str(alloc, "refused Limit underscores 30\n"),
        Cause::Unlike => String::from_str(alloc, "refused Unlike\n"),
    }
}

/// The line that tells a cause.
pub fn cause_line(alloc: Global, cause: Cause) -> Result<String, NoMemory> {
    if let Cause::Lexis(refusal) = cause {
        if refusal.limit.is_none() {
            return refusal_line(alloc, &refusal);
        }
    }
    match said(alloc, cause) {
        Ok(text) => Ok(text),
        Err(_) => Err(NoMemory),
    }
}
