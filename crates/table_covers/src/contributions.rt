//! Edges that contribute.
ghost use Rattle.std.specs.Prelude.{◌≡◌, ◌<◌, ℕ, length, IfOk};
ghost use Rattle.table_covers.specs.Systems.{from_of};

use crate::equations::Equations;
use std::alloc::Global;
use tm_lattice::{Lattice, NoMemory};

/// Equations whose edges contribute to something that is joined.
pub trait Contributions: Equations {
    /// What edges contribute.
    type Added: Lattice;

    // Nothing contributed.
    ghost nothing_added: { Self → Self.Added };

    // What an edge contributes for the state of the node that it leaves.
    ghost contributed: { Self → ℕ → Self.State → Self.Added };

    /// Nothing contributed.
    fn none(&self, alloc: Global) -> Result<Self::Added, NoMemory>
        ensures { IfOk result (λ added. added ≡ nothing_added self.now) };

    /// What an edge contributes for the state of the node that it leaves.
    fn contribution(
        &self,
        alloc: Global,
        edge: usize,
        state: &Self::State,
    ) -> Result<Self::Added, NoMemory>
        requires edge { edge < length (Self.system_of self.now).links }
        requires fits { Self.fits self.now (from_of (Self.system_of self.now).links edge) state.now }
        ensures { IfOk result (λ added. added ≡ contributed self.now edge state.now) };
}
