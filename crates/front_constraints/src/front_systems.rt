//! Systems of equations whose states have fronts and cells.
ghost use Rattle.std.specs.Prelude.{ℕ};
ghost use Rattle.front_constraints.specs.Systems.{SparseSystem};
ghost use Rattle.front_constraints.specs.Premises.{IsSparseSystem, AreLocal};

use tm_lattice::Lattice;

/// A system of equations whose states have a front and cells, with what is to be known of its parts. It has laws alone:
/// how rows are applied and where cells are kept stands in the equations and the placing of the system.
pub trait FrontSystem: Sized {
    /// What stands at a node that is reached.
    type State: Lattice + Drop;

    /// What a state says beside its cells.
    type Front: Lattice + Drop;

    /// What a state says of a cell.
    type Cell: Lattice + Drop;

    // Holds of every value of the type: the laws speak of these.
    ghost is_system: { Self → Type 0 };

    // The equations, the parts of states, the placing and the numbers.
    ghost system_of: { Self → SparseSystem Self.State Self.Front Self.Cell };

    // Which states and fronts fit a node, and what fits a cell.
    ghost fits: { Self → ℕ → Self.State → Type 0 };

    ghost fits_front: { Self → ℕ → Self.Front → Type 0 };

    ghost fits_cell: { Self → ℕ → Self.Cell → Type 0 };

    // What fronts keep at nodes, and what is checked of a state to which an edge is applied.
    ghost keeps: { Self → ℕ → Self.Front → Type 0 };

    ghost checks: { Self → ℕ → Self.State → Type 0 };

    // What all of this keeps.
    ghost lawful: { (system : Self) → is_system system
        → IsSparseSystem Self.State.Lattice Self.Front.Lattice Self.Cell.Lattice (fits system) (fits_front system)
        (fits_cell system) (system_of system) };

    // Where an edge looks in states below one that passed its check.
    ghost local: { (system : Self) → is_system system
        → AreLocal Self.State.Lattice Self.Front.Lattice Self.Cell.Lattice (fits system) (fits_front system)
        (fits_cell system) (system_of system) (keeps system) (checks system) };
}
