//! Sets of numbers as rows have them, and lists of marks.
ghost use Rattle.std.specs.Prelude.{ℤ, pos, neg_ℤ, ◌≤ℤ◌, ◌^◌};
ghost use Rattle.strided_dom.specs.Progression.{Has};
ghost use Rattle.pointer_dom.specs.Advances.{IsInteger};

use std::alloc::Global;
use strided_dom::{Marks, Strided};
use tm_lattice::NoMemory;

/// The first, the last and the stride of a set of numbers; no number where the last is below the first.
pub(crate) type Numbers = (i64, i64, u8);

pub(crate) const NONE: Numbers = (1, 0, 1);

/// The numbers from the first to the last in steps of the stride, of which none is outside 64 bits.
pub(crate) fn set(row: Numbers) -> Strided
    ensures low { (v : ℤ) → Has result v → neg_ℤ (pos (2 ^ 63)) ≤ℤ v }
    ensures high { (v : ℤ) → Has result v → v ≤ℤ pos (2 ^ 63) }
    ensures integers { (v : ℤ) → Has result v → IsInteger v }
{
    Strided::range(
        i128::from(row.0),
        i128::from(row.1),
        i128::from(row.2.max(1)),
    )
}

/// The marks at these numbers, which ascend.
pub(crate) fn marks(alloc: Global, ends: &[i128]) -> Result<Marks, NoMemory> {
    match Marks::checked(ends.to_vec(alloc)?) {
        None => Err(NoMemory),
        Some(marks) => Ok(marks),
    }
}
