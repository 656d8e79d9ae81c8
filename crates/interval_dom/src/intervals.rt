ghost use Rattle.std.specs.Prelude.{◌≤◌, ◌≤ℤ◌};

/// The integers from `lo` to `hi`, both included.
#[derive(Clone, Copy, PartialEq, Eq)]
pub struct Interval {
    pub lo: i128,
    pub hi: i128,
    pub ghost ordered: { lo ≤ℤ hi },
}

/// An interval of products of unsigned 64-bit numbers, which pass the range of `i128`.
#[derive(Clone, Copy, PartialEq, Eq)]
pub struct IntervalU {
    pub lo: u128,
    pub hi: u128,
    pub ghost ordered: { lo ≤ hi },
}
