//! Lattices: an order with joins, and rounding by marks in place of widening.
ghost use Rattle.std.specs.Prelude.{◌≡◌, ◌↔◌, IsTrue, IfOk};
ghost use Rattle.tm_lattice.specs.LatticeLaws.{IsOrder, IsJoin, IsClosure, IsLeastNothing};

use crate::memory::NoMemory;
use std::alloc::Global;

/// A lattice of values, with a rounding by marks that makes rising chains end soon.
///
/// `below` and `is_nothing` take no memory.
pub trait Lattice: Sized + Drop + Send + Sync {
    /// By what values are rounded, such as a list of thresholds.
    type Marks: Drop + Send + Sync;

    // Holds of every value of the type: the laws speak of these.
    ghost is_value: { Self → Type 0 };

    // Holds of the marks by which values may be rounded.
    ghost is_marks: { Self.Marks → Type 0 };

    // The order.
    ghost leq: { Self → Self → Type 0 };

    // The least upper bound of two values.
    ghost joined: { Self → Self → Self };

    // A value rounded outward onto the marks.
    ghost rounded: { Self.Marks → Self → Self };

    // Holds of a value that stands for the absence of one.
    ghost nothing: { Self → Type 0 };

    /// Whether the value stands for the absence of one.
    fn is_nothing(&self) -> bool
        ensures value { is_value self.now }
        ensures nothing { IsTrue result ↔ nothing self.now };

    /// Whether the value is at most the other one.
    fn below(&self, other: &Self) -> bool
        ensures { IsTrue result ↔ leq self.now other.now };

    /// The least value that is at least both.
    fn join(&self, alloc: Global, other: &Self) -> Result<Self, NoMemory>
        ensures { IfOk result (λ both. both ≡ joined self.now other.now) };

    /// The value rounded outward onto the marks.
    fn round(&self, alloc: Global, marks: &Self::Marks) -> Result<Self, NoMemory>
        requires { is_marks marks.now }
        ensures { IfOk result (λ outer. outer ≡ rounded marks.now self.now) };

    /// An equal value.
    fn copied(&self, alloc: Global) -> Result<Self, NoMemory>
        ensures { IfOk result (λ copy. copy ≡ self.now) };

    // `below` is a partial order.
    ghost order: { IsOrder is_value leq };

    // `join` is the least upper bound.
    ghost join_laws: { IsJoin is_value leq joined };

    // `round` is extensive, monotone and idempotent.
    ghost closure: { IsClosure is_value is_marks leq rounded };

    // What is nothing is below every value, and so is its rounding.
    ghost nothing_laws: { IsLeastNothing is_value is_marks leq rounded nothing };
}
