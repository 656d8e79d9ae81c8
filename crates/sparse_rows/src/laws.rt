//! The laws of rows on few cells. They speak of definitions alone: no call is made.
ghost use Rattle.std.specs.Prelude.{◌≡◌, ℕ, Bool};
ghost use Rattle.std.specs.FinMap.{get};
ghost use Rattle.std.specs.Option.{option_map};
ghost use Rattle.tm_cint.specs.declared.Class.{Class};
ghost use Rattle.transfer_rows.specs.interfere_set.Stores.{Interferences};
ghost use Rattle.transfer_rows.specs.StateForms.{State};
ghost use Rattle.transfer_rows.specs.Actions.{Around, Action, unlocks};
ghost use Rattle.transfer_rows.specs.Rows.{after};
ghost use Rattle.transfer_rows.specs.Reports.{targets_of, IsListed};
ghost use Rattle.transfer_rows.specs.Contributions.{added};
ghost use Rattle.sparse_rows.specs.Looked.{Agree, Alike, Looks};
ghost use Rattle.sparse_rows.specs.Touched.{IfSame, Leaves, Passes};
ghost use Rattle.sparse_rows.specs.Carried.{carried_by};

use tm_cint::Class;

/// What an operation leaves stands after it as before it, in all its attributes. What it does not write stands after it
/// as the operation carries it: changed by itself alone, whatever else stands in the state.
pub fn rows_frame()
    ensures leaves { (x : ℕ) (around : Around) (action : Action) (s : State) (store : Interferences)
        → Leaves around action s store x → IfSame (get s.cells x) x (after around action s store) }
    ensures carries { (x : ℕ) (around : Around) (action : Action) (s : State) (store : Interferences)
        → Passes action s x
        → IfSame (option_map (carried_by around action store x) (get s.cells x)) x (after around action s store) }
{}

/// States that agree on their temporaries and on the cells at which an operation may look lead to states that agree
/// there, or neither leads on.
pub fn rows_look_where_they_may()
    ensures { (looks : ℕ → Bool) (around : Around) (action : Action) (s t : State) (store : Interferences)
        → Looks looks action s → Agree looks s t
        → Alike looks (after around action s store) (after around action t store) }
{}

/// The temporaries alone decide which cells an access reaches and which classes of errors are not excluded, and, but at
/// an unlock, what an operation adds to the store.
pub fn fronts_decide()
    ensures targets { (s t : State) → s.temps ≡ t.temps → (action : Action) → targets_of action s ≡ targets_of action t }
    ensures classes { (around : Around) (s t : State) → s.temps ≡ t.temps → (action : Action) (class : Class)
        → IsListed around action s class → IsListed around action t class }
    ensures adds { (around : Around) (s t : State) → s.temps ≡ t.temps → (action : Action)
        → ((m : ℕ) → action ≡ unlocks m → ⊥) → added around action s ≡ added around action t }
{}
