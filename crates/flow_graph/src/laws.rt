//! What runs of graphs keep, each law the contract of a function that does nothing.
ghost use Rattle.std.specs.Prelude.{◌≡◌, ℕ, List, not};
ghost use Rattle.concrete_values.specs.tm_laid.Layouts.{LaidTree};
ghost use Rattle.concrete_values.specs.declared.values.Answer.{Answer};
ghost use Rattle.concrete_values.specs.declared.actions.Next.{Next};
ghost use Rattle.flow_graph.specs.declared.operations.Test.{Test};
ghost use Rattle.flow_graph.specs.Operations.{Temps, opposite, holds};
ghost use Rattle.flow_graph.specs.Graphs.{Edges, IsPlain, IsTest};
ghost use Rattle.flow_graph.specs.Runs.{GraphNext};
ghost use Rattle.flow_graph.specs.Positions.{RunsAlong};

/// A graph has one next action after a list of answers.
pub fn one_run()
    ensures { (laid : LaidTree) (g : Edges) (answers : List Answer) (n m : Next)
        → GraphNext laid g answers n → GraphNext laid g answers m → n ≡ m }
{}

/// The opposite of a test holds exactly where the test does not.
pub fn one_of_both()
    ensures { (test : Test) (t : Temps) → IsTest test → holds (opposite test) t ≡ not (holds test t) }
{}

/// A plain graph whose run is followed by these actions runs along them, step for step.
pub fn runs_along()
    ensures { (laid : LaidTree) (g : Edges) (next_is : List Answer → Next) → IsPlain g
        → ((answers : List Answer) → GraphNext laid g answers (next_is answers)) → RunsAlong laid g next_is }
{}
