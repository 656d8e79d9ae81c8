//! What holds of the definitions whatever computes them: each law is the contract of a function that does nothing.
ghost use Rattle.tm_numbers.specs.Divisors.{IsByRemainder, IsGreatestDivisor};
ghost use Rattle.tm_numbers.specs.Congruence.{IsByDivision};

/// The greatest common divisor, of 0 and 0 too.
pub fn greatest_divisor()
    ensures { IsGreatestDivisor }
{}

/// When one number divides another.
pub fn remainder()
    ensures { IsByRemainder }
{}

/// When two numbers are congruent.
pub fn congruence()
    ensures { IsByDivision }
{}
