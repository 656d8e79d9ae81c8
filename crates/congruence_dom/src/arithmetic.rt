//! The rows of `+`, `-`, `*`, `/` and `%` (C99 6.5.5, 6.5.6).
ghost use Rattle.std.specs.Prelude.{◌*ℤ◌, ◌<◌, ◌^◌, ◌≡◌, ◌≢◌, ◌≤◌, int_div, pos, unsigned_abs};
ghost use Rattle.congruence_dom.specs.Class.{IsSignedClass, IsTypeClass, IsUnsignedClass, class_of_unsigned};
ghost use Rattle.tm_numbers.specs.Divisors.{int_gcd};
ghost use Rattle.congruence_dom.specs.Laws.{DividesAll};
ghost use Rattle.congruence_dom.specs.Rows.{add_row, div_row, mul_row, rem_row, sub_row};

use super::classes::{Cong, CongU};
use tm_numbers::gcd;

/// Every sum of a number of `a` and one of `b`.
pub fn add(a: Cong, b: Cong) -> Cong
    requires left { IsTypeClass a }
    requires right { IsTypeClass b }
    ensures { result ≡ add_row a b }
{
    Cong {
        residue: a.residue + b.residue,
        modulus: common(a.modulus, b.modulus),
    }
}

/// Every difference of a number of `a` and one of `b`.
pub fn sub(a: Cong, b: Cong) -> Cong
    requires left { IsTypeClass a }
    requires right { IsTypeClass b }
    ensures { result ≡ sub_row a b }
{
    Cong {
        residue: a.residue - b.residue,
        modulus: common(a.modulus, b.modulus),
    }
}

/// Every product of a number of `a` and one of `b`, whose residues, also with the modulus added, are values of the
/// signed type of 64 bits.
pub fn mul(a: Cong, b: Cong) -> Cong
    requires left { IsSignedClass a }
    requires right { IsSignedClass b }
    ensures { result ≡ mul_row a b }
{
    let modulus = product_divisor(a, b);
    Cong {
        residue: product(a.residue, b.residue),
        modulus: modulus as i128,
    }
}

/// The same row for residues and moduli from 0 to 2^64 - 1, whose products pass the range of `i128`.
pub fn mul_u(a: Cong, b: Cong) -> CongU
    requires left { IsUnsignedClass a }
    requires right { IsUnsignedClass b }
    ensures { class_of_unsigned result ≡ mul_row a b }
{
    CongU {
        residue: size_of_product(a.residue, b.residue),
        modulus: product_divisor(a, b),
    }
}

/// Every remainder of a number of `a` by a number of `b` other than 0.
pub fn rem(a: Cong, b: Cong) -> Cong
    requires left { IsTypeClass a }
    requires right { IsTypeClass b }
    ensures { result ≡ rem_row a b }
{
    Cong {
        residue: a.residue,
        modulus: common(common(a.modulus, b.modulus), b.residue),
    }
}

/// Every quotient of a number of `a` by `b`, which is not 0 and divides the residue and the modulus.
pub fn div(a: Cong, b: i128) -> Cong
    requires class { IsTypeClass a }
    requires divisor { b ≢ pos 0 }
    requires divides { DividesAll b a }
    ensures { result ≡ div_row a b }
{
    Cong {
        residue: quotient(a.residue, b),
        modulus: quotient(a.modulus, b).abs(),
    }
}

// The greatest common divisor of the three products of a row.
fn product_divisor(a: Cong, b: Cong) -> u128
    requires left { IsTypeClass a }
    requires right { IsTypeClass b }
    ensures { pos result ≡ (mul_row a b).modulus }
{
    let moduli = size_of_product(a.modulus, b.modulus);
    let left = size_of_product(a.modulus, b.residue);
    let right = size_of_product(b.modulus, a.residue);
    gcd(gcd(moduli, left), right)
}

pub(crate) fn common(x: i128, y: i128) -> i128
    requires left { unsigned_abs x < 2 ^ 64 }
    requires right { unsigned_abs y < 2 ^ 64 }
    ensures value { result ≡ int_gcd x y }
    ensures bound { unsigned_abs result < 2 ^ 64 }
{
    gcd(x.unsigned_abs(), y.unsigned_abs()) as i128
}

pub(crate) fn product(x: i128, y: i128) -> i128
    requires left { unsigned_abs x < 2 ^ 64 }
    requires right { unsigned_abs y ≤ 2 ^ 63 }
    ensures { result ≡ x *ℤ y }
{
    x * y
}

fn size_of_product(x: i128, y: i128) -> u128
    requires left { unsigned_abs x < 2 ^ 64 }
    requires right { unsigned_abs y < 2 ^ 64 }
    ensures { result ≡ unsigned_abs (x *ℤ y) }
{
    x.unsigned_abs() * y.unsigned_abs()
}

fn quotient(x: i128, y: i128) -> i128
    requires dividend { unsigned_abs x < 2 ^ 64 }
    requires divisor { y ≢ pos 0 }
    ensures value { result ≡ int_div x y }
    ensures bound { unsigned_abs result < 2 ^ 64 }
{
    x / y
}
