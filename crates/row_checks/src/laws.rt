//! The law of the check. It speaks of definitions alone: no call is made.
ghost use Rattle.std.specs.Prelude.{◌≡◌, ℕ, Bool, true, List};
ghost use Rattle.tm_laid.specs.Layouts.{LaidTree};
ghost use Rattle.flow_graph.specs.declared.operations.Operation.{Operation};
ghost use Rattle.edge_actions.specs.Layouts.{is_shared_cell};
ghost use Rattle.edge_actions.specs.Edges.{action_of};
ghost use Rattle.sparse_rows.specs.transfer_rows.interfere_set.Stores.{Interferences};
ghost use Rattle.sparse_rows.specs.transfer_rows.StateForms.{State};
ghost use Rattle.sparse_rows.specs.transfer_rows.Actions.{Around};
ghost use Rattle.sparse_rows.specs.transfer_rows.Reports.{targets_of};
ghost use Rattle.sparse_rows.specs.Checks.{IsChecked};
ghost use Rattle.cell_placings.specs.CellLists.{is_in};
ghost use Rattle.row_checks.specs.TracedCells.{may_copy, may_be_fresh, may_pend};
ghost use Rattle.row_checks.specs.Passing.{passes_of};

use crate::traces::Traces;
use flow_graph::Operation;

/// An edge that passes with the cells that it reaches in a state was checked in that state, whatever the task found
/// free and whichever temporaries are live. Of the layout its objects and abstract cells are read alone.
pub fn passing_edges_are_checked()
    ensures checked { (laid : LaidTree) (task held : ℕ) (touched carried looked : List ℕ) (traces : Traces)
        (around : Around) → around.reader.task ≡ task → around.reader.held ≡ held
        → ((x : ℕ) → around.is_shared x ≡ is_shared_cell laid x)
        → (pointers answer : Bool) (operation : Operation) (s : State) (store : Interferences)
        → passes_of laid task held answer operation touched carried looked traces
        (targets_of (action_of laid task pointers answer operation) s) store ≡ true
        → IsChecked around (is_in touched) (is_in carried) (is_in looked) (may_copy traces) (may_be_fresh traces)
        (may_pend traces) (action_of laid task pointers answer operation) s store }
    ensures alike { (laid other : LaidTree) → other.objects ≡ laid.objects
        → other.abstract_cells ≡ laid.abstract_cells → (task held : ℕ) (answer : Bool) (operation : Operation)
        (touched carried looked : List ℕ) (traces : Traces) (targets : List ℕ) (store : Interferences)
        → passes_of other task held answer operation touched carried looked traces targets store
        ≡ passes_of laid task held answer operation touched carried looked traces targets store }
{}
