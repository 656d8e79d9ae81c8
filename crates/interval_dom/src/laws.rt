//! What the rows promise, each as the contract of a function that does nothing: a row holds every result (`holds`), and
//! operands that hold less have a row that holds less (`grows`).
ghost use Rattle.std.specs.Prelude.{◌*ℤ◌, ◌+ℤ◌, ◌-ℤ◌, int_div, int_rem, max, min};
ghost use Rattle.std.specs.Int.{int_bit_and, int_bit_or, int_bit_xor};
ghost use Rattle.interval_dom.specs.Bitwise.{int_and, int_or, int_xor};
ghost use Rattle.interval_dom.specs.Laws.{Always, AreCounts, AreDivisors, AreNotNegative, Grows, GrowsIfAny, Holds};
ghost use Rattle.interval_dom.specs.Laws.{HoldsIfAny, IsBitwise, IsOfTypes, LengthsAreLeast, StandsWhere, bit_sum};
ghost use Rattle.interval_dom.specs.Laws.{none_negative, one_not_negative};
ghost use Rattle.tm_numbers.specs.Operands.{AnyNumbers, NotByZero};
ghost use Rattle.interval_dom.specs.Rows.{add_row, and_row, div_row, mul_row, or_row, rem_row, shift_left, shift_right};
ghost use Rattle.interval_dom.specs.Rows.{shl_row, shr_row, sub_row, xor_row};

/// Sums.
pub fn add()
    ensures holds { Holds Always AnyNumbers add_row ◌+ℤ◌ }
    ensures grows { Grows Always add_row }
{}

/// Differences.
pub fn sub()
    ensures holds { Holds Always AnyNumbers sub_row ◌-ℤ◌ }
    ensures grows { Grows Always sub_row }
{}

/// Products.
pub fn mul()
    ensures holds { Holds Always AnyNumbers mul_row ◌*ℤ◌ }
    ensures grows { Grows Always mul_row }
{}

/// Truncated quotients by divisors of one sign.
pub fn div()
    ensures holds { Holds AreDivisors AnyNumbers div_row int_div }
    ensures grows { Grows AreDivisors div_row }
{}

/// Remainders of truncated quotients.
pub fn rem()
    ensures holds { Holds Always NotByZero rem_row int_rem }
    ensures grows { Grows Always rem_row }
{}

/// Left shifts of numbers that are not negative.
pub fn shl()
    ensures holds { Holds AreNotNegative AnyNumbers shl_row shift_left }
    ensures grows { Grows AreNotNegative shl_row }
{}

/// Right shifts, rounded down.
pub fn shr()
    ensures holds { Holds AreCounts AnyNumbers shr_row shift_right }
    ensures grows { Grows AreCounts shr_row }
{}

/// `&` of integers in two's complement (C99 6.5.10).
pub fn and()
    ensures bits { IsBitwise int_and min }
    ensures types { IsOfTypes int_and int_bit_and }
    ensures stands { StandsWhere and_row one_not_negative }
    ensures holds { HoldsIfAny and_row int_and }
    ensures grows { GrowsIfAny and_row }
{}

/// `|` (C99 6.5.12).
pub fn or()
    ensures bits { IsBitwise int_or max }
    ensures types { IsOfTypes int_or int_bit_or }
    ensures stands { StandsWhere or_row none_negative }
    ensures holds { HoldsIfAny or_row int_or }
    ensures grows { GrowsIfAny or_row }
{}

/// `^` (C99 6.5.11).
pub fn xor()
    ensures bits { IsBitwise int_xor bit_sum }
    ensures types { IsOfTypes int_xor int_bit_xor }
    ensures stands { StandsWhere xor_row none_negative }
    ensures holds { HoldsIfAny xor_row int_xor }
    ensures grows { GrowsIfAny xor_row }
{}

/// The number of binary digits that the rows of `|` and `^` speak of.
pub fn lengths()
    ensures { LengthsAreLeast }
{}
