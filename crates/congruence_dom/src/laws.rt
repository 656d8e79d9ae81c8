//! What the rows promise, each as the contract of a function that does nothing: a row holds every result (`holds`), and
//! operands that hold less have a row that holds less (`grows`).
ghost use Rattle.std.specs.Prelude.{◌*ℤ◌, ◌+ℤ◌, ◌-ℤ◌, int_rem};
ghost use Rattle.congruence_dom.specs.Laws.{DivGrows, DivHolds, Grows, Holds, IsSubclassByDivision, ShlFromGrows};
ghost use Rattle.congruence_dom.specs.Laws.{ShlFromHolds, ShlGrows, ShlHolds, ShrGrows, ShrHolds};
ghost use Rattle.tm_numbers.specs.Operands.{AnyNumbers, NotByZero};
ghost use Rattle.congruence_dom.specs.Rows.{add_row, mul_row, rem_row, sub_row};

/// When one class lies within another.
pub fn inclusion()
    ensures { IsSubclassByDivision }
{}

/// Sums.
pub fn add()
    ensures holds { Holds AnyNumbers add_row ◌+ℤ◌ }
    ensures grows { Grows add_row }
{}

/// Differences.
pub fn sub()
    ensures holds { Holds AnyNumbers sub_row ◌-ℤ◌ }
    ensures grows { Grows sub_row }
{}

/// Products.
pub fn mul()
    ensures holds { Holds AnyNumbers mul_row ◌*ℤ◌ }
    ensures grows { Grows mul_row }
{}

/// Remainders of truncated quotients.
pub fn rem()
    ensures holds { Holds NotByZero rem_row int_rem }
    ensures grows { Grows rem_row }
{}

/// Quotients by one number that divides residue and modulus.
pub fn div()
    ensures holds { DivHolds }
    ensures grows { DivGrows }
{}

/// Left shifts by one count.
pub fn shl()
    ensures holds { ShlHolds }
    ensures grows { ShlGrows }
{}

/// Left shifts by the counts from a least one on.
pub fn shl_from()
    ensures holds { ShlFromHolds }
    ensures grows { ShlFromGrows }
{}

/// Right shifts by one count, whose power of two divides residue and modulus.
pub fn shr()
    ensures holds { ShrHolds }
    ensures grows { ShrGrows }
{}
