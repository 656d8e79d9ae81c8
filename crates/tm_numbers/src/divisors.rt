ghost use Rattle.std.specs.Prelude.{◌≡◌};
ghost use Rattle.std.specs.Int.{IsGcd};
ghost use Rattle.tm_numbers.specs.Divisors.{gcd};

/// The greatest number that divides both, and 0 for 0 and 0: what every common divisor divides.
pub fn gcd(mut a: u128, mut b: u128) -> u128
    ensures value { result ≡ gcd a b }
    ensures greatest { IsGcd a b result }
{
    while b != 0 {
        let rest = a % b;
        a = b;
        b = rest;
    }
    a
}
