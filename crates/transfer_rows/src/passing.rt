//! What covers a step still does in every greater state with the same entries, as in the state of the node to which the
//! edge leads. Each law speaks of definitions alone, so its function does nothing.
ghost use Rattle.std.specs.Prelude.{ℕ, Option};
ghost use Rattle.interfere_set.specs.pointer_dom.Pointer.{ScalarValue};
ghost use Rattle.interfere_set.specs.pointer_dom.Values.{Values, IsValuesBelow};
ghost use Rattle.interfere_set.specs.Stores.{Interferences};
ghost use Rattle.transfer_rows.specs.StateForms.{State, IsStateUnder};
ghost use Rattle.transfer_rows.specs.Actions.{Around};
ghost use Rattle.transfer_rows.specs.Meanings.{Valuation};
ghost use Rattle.transfer_rows.specs.Covering.{HaveSameKeys, CoversCalculation, CoversLoad, CoversStore, CoversClear};
ghost use Rattle.transfer_rows.specs.Covering.{CoversLock, CoversUnlock, CoversFree, CoversYield, CoversHeld};

/// Calculations, filters, waiting, and probes that find the mutex held.
pub fn calculations_pass()
    ensures calculations { (s s' t : State) (temps temps' : Valuation) → IsStateUnder s' t → HaveSameKeys s' t
        → CoversCalculation s s' temps temps' → CoversCalculation s t temps temps' }
    ensures waiting { (s s' t : State) (temps : Valuation) → IsStateUnder s' t → HaveSameKeys s' t
        → CoversYield s s' temps → CoversYield s t temps }
    ensures finds_held { (s s' t : State) (temps temps' : Valuation) → IsStateUnder s' t → HaveSameKeys s' t
        → CoversHeld s s' temps temps' → CoversHeld s t temps temps' }
{}

/// Loads, stores and clearings. The entry of the store may be greater too.
pub fn accesses_pass()
    ensures loads { (around : Around) (s s' t : State) (temps : Valuation) (u x : ℕ) (w : ScalarValue)
        → IsStateUnder s' t → HaveSameKeys s' t → CoversLoad around s s' temps u x w
        → CoversLoad around s t temps u x w }
    ensures stores { (around : Around) (s s' t : State) (temps : Valuation) (x : ℕ) (w : ScalarValue)
        (entry above : Values) → IsStateUnder s' t → HaveSameKeys s' t → IsValuesBelow entry above
        → CoversStore around s s' temps x w entry → CoversStore around s t temps x w above }
    ensures clearings { (around : Around) (s s' t : State) (temps : Valuation) (cleared : ℕ → Option Values)
        → IsStateUnder s' t → HaveSameKeys s' t → CoversClear around s s' temps cleared
        → CoversClear around s t temps cleared }
{}

/// Locks, unlocks, and probes that find the mutex free.
pub fn mutexes_pass()
    ensures locks { (around : Around) (s s' t : State) (store : Interferences) (temps : Valuation) (m : ℕ)
        → IsStateUnder s' t → HaveSameKeys s' t → CoversLock around s s' store temps m
        → CoversLock around s t store temps m }
    ensures unlocks { (around : Around) (s s' t : State) (temps : Valuation) (m : ℕ) (entry above : ℕ → Values)
        → IsStateUnder s' t → HaveSameKeys s' t → ((x : ℕ) → IsValuesBelow (entry x) (above x))
        → CoversUnlock around s s' temps m entry → CoversUnlock around s t temps m above }
    ensures finds_free { (around : Around) (s s' t : State) (store : Interferences) (temps : Valuation) (m : ℕ)
        → IsStateUnder s' t → HaveSameKeys s' t → CoversFree around s s' store temps m
        → CoversFree around s t store temps m }
{}
