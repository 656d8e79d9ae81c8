//! Programs whose passes are those of least tables.
ghost use Rattle.std.specs.Prelude.{◌≡◌, ◌<◌, ℕ, Bool, List, ◌∷◌, Option};
ghost use Rattle.table_covers.specs.declared.links.Link.{Link};
ghost use Rattle.table_covers.specs.Solutions.{NodeTable, IsLeastSolution};
ghost use Rattle.table_covers.specs.Whole.{local, IsWholeLawful, IsWholeLeast, IsWarmStart};
ghost use Rattle.tm_lattice.specs.Rounds.{IsHistory, IsClosed};

use tm_lattice::{Lattice, Passer};

/// A program whose passes are those of least tables: a task over a store is a system of equations, and its pass is
/// what the edges contribute at the least table. Something may run before the tasks, such as an initial section,
/// which tells what stands at their entries.
pub trait Analysed: Passer {
    /// What stands at a node.
    type State: Lattice;

    /// What ran before the tasks.
    type Before;

    // How many nodes each task has.
    ghost nodes: { Self → ℕ → ℕ };

    // The edges of each task.
    ghost links_of: { Self → ℕ → List Link };

    // What an edge of a task brings over a store.
    ghost after: { Self → ℕ → Self.Store → ℕ → Self.State → Option Self.State };

    // What stands at the first node of a task besides, after what ran before.
    ghost entry: { Self → Self.Before → ℕ → Option Self.State };

    // How states are rounded at the nodes of a task, and at which nodes they are.
    ghost outward: { Self → ℕ → ℕ → Self.State → Self.State };

    ghost heads: { Self → ℕ → ℕ → Bool };

    // Which states fit the nodes of a task.
    ghost suits: { Self → ℕ → ℕ → Self.State → Type 0 };

    // The height of a state, and its limit at each node.
    ghost height: { Self.State → ℕ };

    ghost limit: { Self → ℕ → ℕ → ℕ };

    // What an edge of a task contributes over a store.
    ghost added: { Self → ℕ → Self.Store → ℕ → Self.State → Self.Store };

    // What may have run before the tasks, its order, and the least of it.
    ghost is_before: { Self → Self.Before → Type 0 };

    ghost precedes: { Self → Self.Before → Self.Before → Type 0 };

    ghost before: { Self → Self.Before };

    // The least table of a task over a store.
    ghost table_of: { Self → ℕ → Self.Store → NodeTable Self.State };

    // What all of this keeps.
    ghost whole: { (program : Self) → Self.is_program program
        → IsWholeLawful Self.State.Lattice (nodes program) (links_of program) (after program) (entry program)
        (outward program) (heads program) (suits program) height (limit program) (added program)
        Self.Store.Lattice Self.Passer program (precedes program) (is_before program) (before program)
        (table_of program) };
}

/// A store that ends a history of passes and is closed, with the least tables over it and what ran before, is the
/// least solution of the whole.
pub fn least_by_passes<A: Analysed>()
    ensures { (program : A) (store : A.Store) (earlier : List A.Store) → A.is_program program
        → IsHistory A.Store.Lattice A.Passer program (store ∷ earlier) → IsClosed A.Store.Lattice A.Passer program store
        → IsWholeLeast A.State.Lattice (A.nodes program) (A.links_of program) (A.after program) (A.entry program)
        (A.outward program) (A.heads program) (A.suits program) A.height (A.limit program) (A.added program)
        A.Store.Lattice A.Passer program (A.precedes program) (A.is_before program) (A.before program)
        (λ t. A.table_of program t store) store }
{}

/// A pass may begin with the least table of an earlier one: over a store that lies above, it is started, lies below
/// every closed table, and meets each edge that brings the same over both stores.
pub fn warm_starts<A: Analysed>()
    ensures { (program : A) (task : ℕ) (earlier later : A.Store) (table : NodeTable A.State) → A.is_program program
        → task < A.task_count program → A.fits program earlier → A.fits program later → A.Store.leq earlier later
        → IsLeastSolution A.State.Lattice (A.suits program task)
        (local (A.nodes program) (A.links_of program) (A.after program) (A.entry program) (A.outward program)
        (A.heads program) A.height (A.limit program) task earlier (A.before program)) table
        → IsWarmStart A.State.Lattice (A.nodes program) (A.links_of program) (A.after program) (A.entry program)
        (A.outward program) (A.heads program) (A.suits program) A.height (A.limit program) (A.added program)
        A.Store.Lattice A.Passer program (A.precedes program) (A.is_before program) (A.before program)
        task earlier later table }
{}
