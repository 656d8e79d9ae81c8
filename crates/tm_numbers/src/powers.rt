ghost use Rattle.std.specs.Prelude.{◌≡◌, ◌≤◌};
ghost use Rattle.tm_numbers.specs.Powers.{power};

/// 2 to the power of `exponent`, at most 64: the greatest is one more than the greatest value of C's types of 64 bits.
pub fn power_of_two(exponent: u32) -> i128
    requires { exponent ≤ 64 }
    ensures { result ≡ power exponent }
{
    1 << exponent
}
