//! The rows give states, and rise with the state and the store. Each law speaks of definitions alone, so its function
//! does nothing.
ghost use Rattle.std.specs.Prelude.{◌≡◌, ◌&&◌, ℕ, cond, eqb, List, Some};
ghost use Rattle.tm_cint.specs.declared.Class.{Class};
ghost use Rattle.cell_env.specs.tm_lattice.Tables.{IsBelow};
ghost use Rattle.interfere_set.specs.pointer_dom.Values.{IsValuesBelow, no_value};
ghost use Rattle.interfere_set.specs.Stores.{Interferences, IsStore, IsStoreBelow};
ghost use Rattle.transfer_rows.specs.StateForms.{State, IsStateForm, IsStateUnder};
ghost use Rattle.transfer_rows.specs.Actions.{Around, Action, IsAction, Spot, stores, unlocks};
ghost use Rattle.transfer_rows.specs.Accesses.{AreAmong};
ghost use Rattle.transfer_rows.specs.Rows.{after};
ghost use Rattle.transfer_rows.specs.Reports.{targets_of, weak_of, sync_of, AgreeOnSizes, IsListed};
ghost use Rattle.transfer_rows.specs.Contributions.{added, entry_at};
ghost use Rattle.transfer_rows.specs.Premises.{HasExample};

use tm_cint::Class;

/// What an operation leads to is a state.
pub fn rows_give_states()
    ensures { (around : Around) (action : Action) (s t : State) (store : Interferences) → IsAction action
        → IsStateForm s → IsStore store → after around action s store ≡ Some t → IsStateForm t }
{}

/// Where the state and the store are less, so is what an operation leads to; none is less than all.
pub fn rows_rise()
    ensures { (around : Around) (action : Action) (s s' : State) (store store' : Interferences) → IsAction action
        → IsStateForm s → IsStateForm s' → IsStateUnder s s' → IsStore store → IsStore store'
        → IsStoreBelow store store'
        → IsBelow IsStateUnder (after around action s store) (after around action s' store') }
{}

/// Where the state is less, an access reaches fewer cells, less is added to each entry of the store, and fewer classes
/// are not excluded. The class of a moved pointer asks besides that no object has one size in the one state and another
/// in the other: in a program each object has one.
pub fn reports_rise()
    ensures targets { (action : Action) (s s' : State) → IsStateForm s → IsStateForm s' → IsStateUnder s s'
        → AreAmong (targets_of action s) (targets_of action s') }
    ensures weak { (around : Around) (action : Action) (s s' : State) (x : ℕ) → IsStateForm s → IsStateForm s'
        → IsStateUnder s s' → IsValuesBelow (weak_of around action s x) (weak_of around action s' x) }
    ensures sync { (around : Around) (action : Action) (s s' : State) (n x : ℕ) → IsStateForm s → IsStateForm s'
        → IsStateUnder s s' → IsValuesBelow (sync_of around action s n x) (sync_of around action s' n x) }
    ensures classes { (around : Around) (action : Action) (s s' : State) (class : Class) → IsStateForm s
        → IsStateForm s' → IsStateUnder s s' → AgreeOnSizes s s' → IsListed around action s class
        → IsListed around action s' class }
{}

/// What an operation adds is a store, which is less where the state is. A store to cells has at the entries of its task
/// and its held set what it writes to each shared target, an unlock at those of its task and the mutex what is pending,
/// and neither has anything else.
pub fn additions()
    ensures form { (around : Around) (action : Action) (s : State) → IsStateForm s → IsStore (added around action s) }
    ensures rise { (around : Around) (action : Action) (s s' : State) → IsStateForm s → IsStateForm s'
        → IsStateUnder s s' → IsStoreBelow (added around action s) (added around action s') }
    ensures weak { (around : Around) (spots : List Spot) (address source : ℕ) (s : State) (j l x : ℕ)
        → entry_at (added around (stores spots address source) s).weak j l x
        ≡ cond (eqb j around.reader.task && eqb l around.reader.held)
        (weak_of around (stores spots address source) s x) no_value }
    ensures sync { (around : Around) (m : ℕ) (s : State) (j n x : ℕ)
        → entry_at (added around (unlocks m) s).sync j n x
        ≡ cond (eqb j around.reader.task && eqb n m) (sync_of around (unlocks m) s m x) no_value }
{}

/// The premises of all laws of this crate are met, at once, by one state.
pub fn premises_are_met()
    ensures { HasExample }
{}
