//! The rows of `<<` and `>>` (C99 6.5.7), by counts from 0 to 63.
ghost use Rattle.std.specs.Prelude.{◌<◌, ◌≡◌};
ghost use Rattle.congruence_dom.specs.Class.{IsTypeClass};
ghost use Rattle.congruence_dom.specs.Laws.{DividesAll};
ghost use Rattle.congruence_dom.specs.Rows.{shl_from_row, shl_row, shr_row};
ghost use Rattle.tm_numbers.specs.Powers.{power};

use super::arithmetic::{common, div, product};
use super::classes::Cong;
use tm_numbers::power_of_two;

/// Every product of a number of `a` and 2^n.
pub fn shl(a: Cong, n: u32) -> Cong
    requires class { IsTypeClass a }
    requires count { n < 64 }
    ensures { result ≡ shl_row a n }
{
    let factor = power_of_two(n);
    Cong {
        residue: product(a.residue, factor),
        modulus: product(a.modulus, factor),
    }
}

/// Every product of a number of `a` and 2 to the power of `least` or more.
pub fn shl_from(a: Cong, least: u32) -> Cong
    requires class { IsTypeClass a }
    requires count { least < 64 }
    ensures { result ≡ shl_from_row a least }
{
    let factor = power_of_two(least);
    Cong {
        residue: 0,
        modulus: product(common(a.modulus, a.residue), factor),
    }
}

/// Every quotient of a number of `a` by 2^n, which divides the residue and the modulus.
pub fn shr(a: Cong, n: u32) -> Cong
    requires class { IsTypeClass a }
    requires count { n < 64 }
    requires divides { DividesAll (power n) a }
    ensures { result ≡ shr_row a n }
{
    div(a, power_of_two(n))
}
