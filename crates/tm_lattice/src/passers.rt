//! Programs whose tasks pass over one store.
ghost use Rattle.std.specs.Prelude.{◌≡◌, ◌↔◌, ◌<◌, ℕ, IsTrue, IfOk};
ghost use Rattle.tm_lattice.specs.Fitting.{IsFitting, IsBottom, IsMonotone};

use crate::lattices::Lattice;
use crate::memory::NoMemory;
use std::alloc::Global;

/// A program whose tasks pass over one store: the pass of a task over a store says what the task adds to it.
pub trait Passer: Sized + Drop + Send + Sync {
    /// What the tasks share.
    type Store: Lattice;

    // Holds of every value of the type: the laws speak of these.
    ghost is_program: { Self → Type 0 };

    // How many tasks there are.
    ghost task_count: { Self → ℕ };

    // By which marks the store is rounded.
    ghost marks_of: { Self → Self.Store.Marks };

    // The store with which every history begins.
    ghost least: { Self → Self.Store };

    // What a task adds, by its number and the store that it read.
    ghost passed: { Self → ℕ → Self.Store → Self.Store };

    // Which stores fit the program.
    ghost fits: { Self → Self.Store → Type 0 };

    /// How many tasks there are. They are numbered from 0.
    fn tasks(&self) -> u32
        ensures program { is_program self.now }
        ensures count { result ≡ task_count self.now };

    /// Whether the two are equal.
    fn same(&self, other: &Self) -> bool
        ensures { IsTrue result ↔ (self.now ≡ other.now) };

    /// The marks by which the store is rounded.
    fn marks(&self) -> &<Self::Store as Lattice>::Marks
        ensures { result.now ≡ marks_of self.now };

    /// The least store.
    fn bottom(&self, alloc: Global) -> Result<Self::Store, NoMemory>
        ensures { IfOk result (λ store. store ≡ least self.now) };

    /// What a task adds to the store that it reads.
    fn pass(&self, alloc: Global, task: u32, store: &Self::Store) -> Result<Self::Store, NoMemory>
        requires task { task < task_count self.now }
        requires fits { fits self.now store.now }
        ensures { IfOk result (λ added. added ≡ passed self.now task store.now) };

    // Bottom, passes, joins and roundings stay within the stores that fit.
    ghost fitting: { (program : Self) → is_program program
        → IsFitting Self.Store.Lattice (marks_of program) (task_count program) (least program) (passed program)
        (fits program) };

    // `bottom` is the least store, and its own rounding.
    ghost bottom_laws: { (program : Self) → is_program program
        → IsBottom Self.Store.Lattice (marks_of program) (least program) };

    // `pass` is monotone in the store.
    ghost monotone: { (program : Self) → is_program program
        → IsMonotone Self.Store.Lattice (task_count program) (passed program) (fits program) };
}
