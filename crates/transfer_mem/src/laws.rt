//! The laws of edges as a whole. They speak of definitions alone: no call is made.
ghost use Rattle.std.specs.Prelude.{◌≡◌, Some};
ghost use Rattle.tm_cint.specs.declared.Class.{Class};
ghost use Rattle.tm_lattice.specs.Tables.{IsBelow};
ghost use Rattle.interfere_set.specs.Stores.{Interferences, IsStore, IsStoreBelow};
ghost use Rattle.memory_effects.specs.calculations.transfer_rows.StateForms.{State, IsStateForm, IsStateUnder};
ghost use Rattle.memory_effects.specs.calculations.transfer_rows.Accesses.{AreAmong};
ghost use Rattle.memory_effects.specs.calculations.transfer_rows.Rows.{after};
ghost use Rattle.memory_effects.specs.calculations.transfer_rows.Reports.{targets_of, AgreeOnSizes, IsListed};
ghost use Rattle.memory_effects.specs.calculations.transfer_rows.Contributions.{added};
ghost use Rattle.memory_effects.specs.edge_actions.Edges.{around_of, action_at};
ghost use Rattle.memory_effects.specs.edge_actions.declared.views.EdgeView.{EdgeView};

use tm_cint::Class;

/// Every edge leads to a state, and what it adds is a store.
pub fn edges_give_states()
    ensures state { (view : EdgeView) (s t : State) (store : Interferences) → IsStateForm s → IsStore store
        → after (around_of view) (action_at view) s store ≡ Some t → IsStateForm t }
    ensures added { (view : EdgeView) (s : State) → IsStateForm s
        → IsStore (added (around_of view) (action_at view) s) }
{}

/// Where the state and the store are less, so is the state to which an edge leads, what it adds, the cells that it
/// reaches and, where both states give each object one size, the classes that it does not exclude.
pub fn edges_rise()
    ensures state { (view : EdgeView) (s s' : State) (store store' : Interferences) → IsStateForm s → IsStateForm s'
        → IsStateUnder s s' → IsStore store → IsStore store' → IsStoreBelow store store'
        → IsBelow IsStateUnder (after (around_of view) (action_at view) s store)
        (after (around_of view) (action_at view) s' store') }
    ensures added { (view : EdgeView) (s s' : State) → IsStateForm s → IsStateForm s' → IsStateUnder s s'
        → IsStoreBelow (added (around_of view) (action_at view) s) (added (around_of view) (action_at view) s') }
    ensures targets { (view : EdgeView) (s s' : State) → IsStateForm s → IsStateForm s' → IsStateUnder s s'
        → AreAmong (targets_of (action_at view) s) (targets_of (action_at view) s') }
    ensures classes { (view : EdgeView) (s s' : State) (class : Class) → IsStateForm s → IsStateForm s'
        → IsStateUnder s s' → AgreeOnSizes s s' → IsListed (around_of view) (action_at view) s class
        → IsListed (around_of view) (action_at view) s' class }
{}
