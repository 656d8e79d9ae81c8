//! The laws. They speak of definitions alone: no call is made.
ghost use Rattle.std.specs.Prelude.{◌≡◌, ◌<◌, ◌≤◌, ◌-◌, ℕ, List, [], ◌∷◌};
ghost use Rattle.program_equations.specs.tm_lattice.Rounds.{IsHistory, IsClosed};
ghost use Rattle.program_equations.specs.interfere_set.Stores.{Interferences, IsStoreBelow, no_interference};
ghost use Rattle.program_equations.specs.interfere_set.Stores.{store_height};
ghost use Rattle.program_equations.specs.value_heights.Heights.{value_height};
ghost use Rattle.program_equations.specs.Programs.{ProgramBodies, IsProgram};
ghost use Rattle.program_equations.specs.Systems.{stores, FitsProgram};
ghost use Rattle.program_equations.specs.Solutions.{passing};
ghost use Rattle.store_limits.specs.Limits.{store_limit, published, EndsIn, HasWholeLeast};

/// No store that fits a program stands higher than the program's limit.
pub fn stores_are_bounded()
    ensures { (p : ProgramBodies) → IsProgram p → (store : Interferences) → FitsProgram p store
        → store_height value_height store ≤ store_limit p }
{}

/// Of two stores that fit a program, one below the other and not equal, the greater one stands higher, and nearer to
/// the limit: so a loop that only raises a store ends.
pub fn rises_are_bounded()
    ensures higher { (p : ProgramBodies) → IsProgram p → (store other : Interferences) → FitsProgram p store
        → FitsProgram p other → IsStoreBelow store other → (store ≡ other → ⊥)
        → store_height value_height store < store_height value_height other }
    ensures nearer { (p : ProgramBodies) → IsProgram p → (store other : Interferences) → FitsProgram p store
        → FitsProgram p other → IsStoreBelow store other → (store ≡ other → ⊥)
        → store_limit p - store_height value_height other < store_limit p - store_height value_height store }
{}

/// A publication over a store that fits leads to one that fits and lies above it: to one that is nearer to the limit,
/// or, where it lies below it too, to the same store.
pub fn publications_climb()
    ensures fits { (p : ProgramBodies) → IsProgram p → (t : ℕ) → t < p.tasks → (store : Interferences)
        → FitsProgram p store → FitsProgram p (published p t store) }
    ensures above { (p : ProgramBodies) → IsProgram p → (t : ℕ) → t < p.tasks → (store : Interferences)
        → FitsProgram p store → IsStoreBelow store (published p t store) }
    ensures nearer { (p : ProgramBodies) → IsProgram p → (t : ℕ) → t < p.tasks → (store : Interferences)
        → FitsProgram p store → (IsStoreBelow (published p t store) store → ⊥)
        → store_limit p - store_height value_height (published p t store)
        < store_limit p - store_height value_height store }
    ensures same { (p : ProgramBodies) → IsProgram p → (t : ℕ) → t < p.tasks → (store : Interferences)
        → FitsProgram p store → IsStoreBelow (published p t store) store → published p t store ≡ store }
{}

/// A history begins with the store that has no entry, and goes on with the publication of each task; and its newest
/// store fits the program.
pub fn histories_go_on()
    ensures begins { (p : ProgramBodies) → IsHistory stores passing p (no_interference ∷ []) }
    ensures more { (p : ProgramBodies) (t : ℕ) → t < p.tasks → (store : Interferences) (earlier : List Interferences)
        → IsHistory stores passing p (store ∷ earlier)
        → IsHistory stores passing p (published p t store ∷ store ∷ earlier) }
    ensures fits { (p : ProgramBodies) → IsProgram p → (store : Interferences) (earlier : List Interferences)
        → IsHistory stores passing p (store ∷ earlier) → FitsProgram p store }
{}

/// A store that ends a history, and to which no task's publication adds anything, is closed.
pub fn quiet_stores_are_closed()
    ensures { (p : ProgramBodies) → IsProgram p → (store : Interferences) (earlier : List Interferences)
        → IsHistory stores passing p (store ∷ earlier)
        → ((t : ℕ) → t < p.tasks → IsStoreBelow (published p t store) store)
        → IsClosed stores passing p store }
{}

/// The passes of each program come to an end: some history of publications ends in a closed store.
pub fn passes_end()
    ensures { (p : ProgramBodies) → IsProgram p → EndsIn p }
{}

/// Each program has a least solution.
pub fn programs_have_least_solutions()
    ensures { (p : ProgramBodies) → IsProgram p → HasWholeLeast p }
{}
