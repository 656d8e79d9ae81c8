//! The rows cover every step that a task can take, in terms of members: what a step makes of the temporaries lies in
//! the state after the operation, and own values, copies and marks of cells are kept as a proof of soundness has to
//! ask. Each law speaks of definitions alone, so its function does nothing.
//!
//! `AreIn s temps` says that the temporaries lie in the state; `HasTemp`, that an operand is live, as each one is; and
//! `HasCell`, that a cell has an entry, as each static cell and each one of the task has.
ghost use Rattle.std.specs.Prelude.{◌≡◌, ◌⊎◌, ℕ, true, false, List, Option, pos};
ghost use Rattle.tm_cint.specs.declared.Class.{Class};
ghost use Rattle.interfere_set.specs.pointer_dom.Pointer.{ScalarValue, number, pointer, to, invalid};
ghost use Rattle.interfere_set.specs.pointer_dom.Values.{Values, IsValueIn};
ghost use Rattle.interfere_set.specs.Stores.{Interferences, IsStore, visible};
ghost use Rattle.transfer_rows.specs.StateForms.{State, IsStateForm, value_of, own_of};
ghost use Rattle.transfer_rows.specs.Actions.{Around, Spot, Calculation, Filter, skips, gives, refines, loads};
ghost use Rattle.transfer_rows.specs.Actions.{loads_any, stores, clears, locks, unlocks, yields, probes, usable};
ghost use Rattle.transfer_rows.specs.Accesses.{is_among, targets_at};
ghost use Rattle.transfer_rows.specs.Rows.{after, holds};
ghost use Rattle.transfer_rows.specs.Reports.{weak_of, sync_of, IsListed};
ghost use Rattle.transfer_rows.specs.Meanings.{Valuation, put, MayGive, Fails, Passes, IsOperand, IsFiltered, IsSpotOf};
ghost use Rattle.transfer_rows.specs.Covering.{AreIn, HasTemp, HasCell, AreSized, AreLocalsIn, CoversCalculation};
ghost use Rattle.transfer_rows.specs.Covering.{CoversLoad, CoversStore, CoversClear, CoversLock, CoversUnlock};
ghost use Rattle.transfer_rows.specs.Covering.{CoversFree, CoversYield, CoversHeld, LeadsTo};

use tm_cint::Class;

/// What a calculation may give is in what its row gives. The objects of the state have their sizes.
pub fn calculations_are_covered()
    ensures gives { (around : Around) (sizes : ℕ → ℕ) (s : State) (temps : Valuation) (target : ℕ)
        (calculation : Calculation) (w : ScalarValue) (store : Interferences) → AreIn s temps → AreSized sizes s
        → ((u : ℕ) → IsOperand calculation u → HasTemp s u) → MayGive sizes temps calculation w
        → LeadsTo (after around (gives target calculation) s store)
        (λ s'. CoversCalculation s s' temps (put temps target w)) }
    ensures skips { (around : Around) (s : State) (temps : Valuation) (store : Interferences) → AreIn s temps
        → LeadsTo (after around skips s store) (λ s'. CoversCalculation s s' temps temps) }
{}

/// A filter lets pass what it may: copies of a local cell have a value that the cell may have, and agree.
pub fn filters_are_covered()
    ensures { (around : Around) (s : State) (temps : Valuation) (filter : Filter) (store : Interferences)
        → AreIn s temps → AreLocalsIn around.is_shared s temps → ((u : ℕ) → IsFiltered filter u → HasTemp s u)
        → Passes temps filter
        → LeadsTo (after around (refines filter) s store) (λ s'. CoversCalculation s s' temps temps) }
{}

/// An access whose address leads to a spot has the spot's cell among its targets. A load gives the own value or what
/// another task wrote and is visible; a load of a volatile object any value of the type; and a store writes the value
/// of its source.
pub fn accesses_are_covered()
    ensures targets { (spots : List Spot) (s : State) (temps : Valuation) (address : ℕ) (spot : Spot) → AreIn s temps
        → HasTemp s address → IsSpotOf spots spot → temps address ≡ pointer (to spot.object spot.offset)
        → is_among (targets_at spots (value_of s address).pointers) spot.cell ≡ true }
    ensures loads { (around : Around) (s : State) (temps : Valuation) (store : Interferences) (spots : List Spot)
        (target address x : ℕ) (w : ScalarValue) (cell : HasCell s x) → AreIn s temps → IsStateForm s → IsStore store
        → is_among (targets_at spots (value_of s address).pointers) x ≡ true
        → IsValueIn (own_of s x) w ⊎ ((around.is_shared x ≡ true)
        × IsValueIn (visible around.reader cell.entry.fresh x store) w)
        → LeadsTo (after around (loads spots target address) s store)
        (λ s'. CoversLoad around s s' temps target x w) }
    ensures volatile_loads { (around : Around) (s : State) (temps : Valuation) (store : Interferences)
        (spots : List Spot) (target address x : ℕ) (range : Values) (w : ScalarValue) → AreIn s temps
        → is_among (targets_at spots (value_of s address).pointers) x ≡ true → IsValueIn range w
        → LeadsTo (after around (loads_any spots target address range) s store)
        (λ s'. CoversCalculation s s' temps (put temps target w)) }
    ensures stores { (around : Around) (s : State) (temps : Valuation) (store : Interferences) (spots : List Spot)
        (address source x : ℕ) → AreIn s temps → IsStateForm s
        → is_among (targets_at spots (value_of s address).pointers) x ≡ true → HasCell s x → HasTemp s source
        → LeadsTo (after around (stores spots address source) s store) (λ s'.
        CoversStore around s s' temps x (temps source) (weak_of around (stores spots address source) s x)) }
{}

/// A clearing opens the cells of its object, and keeps all others.
pub fn clearings_are_covered()
    ensures { (around : Around) (s : State) (temps : Valuation) (cleared : ℕ → Option Values) (store : Interferences)
        → AreIn s temps
        → LeadsTo (after around (clears cleared) s store) (λ s'. CoversClear around s s' temps cleared) }
{}

/// Mutexes: a lock of one that is not held, an unlock of one that is held, a probe that finds one held, and one that
/// finds one free that is not held.
pub fn mutexes_are_covered()
    ensures locks { (around : Around) (s : State) (temps : Valuation) (store : Interferences) (m : ℕ) → AreIn s temps
        → IsStateForm s → IsStore store → holds around m ≡ false
        → LeadsTo (after around (locks m) s store) (λ s'. CoversLock around s s' store temps m) }
    ensures unlocks { (around : Around) (s : State) (temps : Valuation) (store : Interferences) (m : ℕ)
        → AreIn s temps → holds around m ≡ true
        → LeadsTo (after around (unlocks m) s store) (λ s'.
        CoversUnlock around s s' temps m (λ x. sync_of around (unlocks m) s m x)) }
    ensures finds_held { (around : Around) (s : State) (temps : Valuation) (store : Interferences) (m target : ℕ)
        → AreIn s temps
        → LeadsTo (after around (probes m target true) s store)
        (λ s'. CoversHeld s s' temps (put temps target (number (pos 1)))) }
    ensures finds_free { (around : Around) (s : State) (temps : Valuation) (store : Interferences) (m target : ℕ)
        → AreIn s temps → IsStateForm s → IsStore store → holds around m ≡ false
        → LeadsTo (after around (probes m target false) s store)
        (λ s'. CoversFree around s s' store (put temps target (number (pos 0))) m) }
{}

/// Waiting ends freshness, and nothing else.
pub fn waiting_is_covered()
    ensures { (around : Around) (s : State) (temps : Valuation) (store : Interferences) → AreIn s temps
        → LeadsTo (after around yields s store) (λ s'. CoversYield s s' temps) }
{}

/// The class with which an operation fails is not excluded.
pub fn classes_are_listed()
    ensures calculations { (around : Around) (sizes : ℕ → ℕ) (s : State) (temps : Valuation) (target : ℕ)
        (calculation : Calculation) (class : Class) → AreIn s temps → AreSized sizes s
        → ((u : ℕ) → IsOperand calculation u → HasTemp s u) → Fails sizes temps calculation class
        → IsListed around (gives target calculation) s class }
    ensures invalid { (around : Around) (s : State) (temps : Valuation) (source : ℕ) → AreIn s temps
        → HasTemp s source → temps source ≡ pointer invalid
        → IsListed around (refines (usable source)) s Class.Pointer }
    ensures relock { (around : Around) (s : State) (m : ℕ) → holds around m ≡ true
        → IsListed around (locks m) s Class.Lock }
    ensures foreign_unlock { (around : Around) (s : State) (m : ℕ) → holds around m ≡ false
        → IsListed around (unlocks m) s Class.Lock }
{}
