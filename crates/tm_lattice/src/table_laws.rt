//! The laws of tables over every lattice of values. They speak of definitions alone: no call is made.
ghost use Rattle.std.specs.Prelude.{ℕ, List};
ghost use Rattle.tm_lattice.specs.Heights.{IsHeight, table_height};
ghost use Rattle.tm_lattice.specs.LatticeLaws.{IsClosure};
ghost use Rattle.tm_lattice.specs.Tables.{IsTable, IsTableBelow, selected_table};

use crate::lattices::Lattice;

/// Whatever height the values have: the height of a table, the sum over its entries with one more for each, rises
/// where the table does.
pub fn table_heights<V: Lattice>()
    ensures { (height : V → ℕ) → IsHeight V.is_value V.leq height
        → IsHeight (IsTable V.is_value V.nothing) (IsTableBelow V.leq) (table_height height) }
{}

/// Whichever keys are given: rounding the values at these keys alone is a closure.
pub fn rounding_at_keys<V: Lattice>()
    ensures { (keys : List ℕ) → IsClosure (IsTable V.is_value V.nothing) V.is_marks (IsTableBelow V.leq)
        (λ marks. selected_table (V.rounded marks) keys) }
{}
