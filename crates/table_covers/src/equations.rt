//! Systems of equations over a graph.
ghost use Rattle.std.specs.Prelude.{◌≡◌, ◌<◌, ℕ, length, IfOk};
ghost use Rattle.table_covers.specs.Systems.{System, IsLawfulSystem, from_of};

use crate::links::Link;
use std::alloc::Global;
use tm_lattice::{Lattice, NoMemory};

/// A system of equations: the state of a node is the join of what its edges bring, rounded there. No state is bottom.
pub trait Equations: Sized {
    /// What stands at a node that is reached.
    type State: Lattice + Drop;

    // Holds of every value of the type: the laws speak of these.
    ghost is_system: { Self → Type 0 };

    // The equations.
    ghost system_of: { Self → System Self.State };

    // Which states fit a node.
    ghost fits: { Self → ℕ → Self.State → Type 0 };

    /// The edges.
    fn links(&self) -> &[Link]
        ensures system { is_system self.now }
        ensures links { result.now ≡ (system_of self.now).links };

    /// How many nodes there are. They are numbered from 0.
    fn nodes(&self) -> usize
        ensures { result ≡ (system_of self.now).node_count };

    /// What stands at node 0 besides what its edges bring.
    fn first(&self, alloc: Global) -> Result<Option<Self::State>, NoMemory>
        ensures { IfOk result (λ state. state ≡ (system_of self.now).entry) };

    /// Whether states are rounded at a node.
    fn is_head(&self, node: usize) -> bool
        requires { node < (system_of self.now).node_count }
        ensures { result ≡ (system_of self.now).heads node };

    /// What an edge brings for the state of the node that it leaves. None is bottom.
    fn apply(
        &self,
        alloc: Global,
        edge: usize,
        state: &Self::State,
    ) -> Result<Option<Self::State>, NoMemory>
        requires edge { edge < length (system_of self.now).links }
        requires fits { fits self.now (from_of (system_of self.now).links edge) state.now }
        ensures { IfOk result (λ brought. brought ≡ (system_of self.now).after edge state.now) };

    /// The state rounded as at a node.
    fn rounded(
        &self,
        alloc: Global,
        node: usize,
        state: Self::State,
    ) -> Result<Self::State, NoMemory>
        requires node { node < (system_of self.now).node_count }
        requires fits { fits self.now node state }
        ensures { IfOk result (λ outer. outer ≡ (system_of self.now).outward node state) };

    // What all of this keeps.
    ghost lawful: { (system : Self) → is_system system
        → IsLawfulSystem Self.State.is_value Self.State.leq Self.State.joined (fits system) (system_of system) };
}
