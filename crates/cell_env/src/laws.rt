//! The laws of states that their lattice does not say. They speak of definitions alone: no call is made.
ghost use Rattle.std.specs.Prelude.{ℕ, List};
ghost use Rattle.tm_lattice.specs.Heights.{IsHeight};
ghost use Rattle.tm_lattice.specs.LatticeLaws.{IsClosure};
ghost use Rattle.cell_env.specs.States.{TaskState, IsState, IsStateBelow, rounded_state_at, state_height};

use tm_lattice::Lattice;

/// Whatever height the values have: the height of a state, the sum over its temporaries and cells, rises where the
/// state does.
pub fn state_heights<V: Lattice>()
    ensures { (height : V → ℕ) → IsHeight V.is_value V.leq height
        → IsHeight {V = TaskState V V.Marks} (IsState V.is_value) (IsStateBelow V.leq) (state_height height) }
{}

/// Whichever cells are given: rounding the values of these cells alone is a closure.
pub fn rounding_at_cells<V: Lattice>()
    ensures { (cells : List ℕ) → IsClosure {V = TaskState V V.Marks} (IsState V.is_value) V.is_marks
        (IsStateBelow V.leq)
        (λ marks. rounded_state_at (V.rounded marks) cells) }
{}
