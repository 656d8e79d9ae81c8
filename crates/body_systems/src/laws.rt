//! What the facts of a body give, the contract of a function that does nothing.
ghost use Rattle.std.specs.Prelude.{ℕ, ℤ, List};
ghost use Rattle.tm_laid.specs.Layouts.{LaidTree};
ghost use Rattle.flow_graph.specs.declared.graphs.Graph.{Graph};
ghost use Rattle.mutex_configs.specs.declared.nodes.ConfiguredGraph.{ConfiguredGraph};
ghost use Rattle.program_equations.specs.Programs.{IsBodyIn};
ghost use Rattle.body_systems.specs.Facts.{Facts, AreFactsOf};
ghost use Rattle.body_systems.specs.Systems.{body_with};

/// The facts of a graph and its configured graph make the body of both, in the layout of which they are.
pub fn facts_make_bodies()
    ensures { (laid : LaidTree) (g : Graph) (c : ConfiguredGraph) (f : Facts) → AreFactsOf laid g c f
        → (task : ℕ) (priorities : List ℕ) (marks : List ℤ)
        → IsBodyIn laid g c (body_with laid task priorities marks g c f) }
{}
