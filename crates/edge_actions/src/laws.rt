//! The law of edges as actions. It speaks of definitions alone: no call is made.
ghost use Rattle.std.specs.Prelude.{ℕ, Bool};
ghost use Rattle.tm_laid.specs.Layouts.{LaidTree};
ghost use Rattle.flow_graph.specs.declared.operations.Operation.{Operation};
ghost use Rattle.transfer_rows.specs.Actions.{IsAction};
ghost use Rattle.edge_actions.specs.Edges.{action_of};

/// The action of every edge is one of which the laws of the rows speak: its constants are sets of values.
pub fn edges_are_actions()
    ensures { (laid : LaidTree) (task : ℕ) (pointers answer : Bool) (operation : Operation)
        → IsAction (action_of laid task pointers answer operation) }
{}
