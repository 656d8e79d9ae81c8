//! The laws of the equations. They speak of definitions alone: no call is made.
ghost use Rattle.std.specs.Prelude.{ℕ, List, Option, IfSome};
ghost use Rattle.state_fits.specs.pointer_dom.Values.{joined_values};
ghost use Rattle.state_fits.specs.cell_env.States.{joined_state};
ghost use Rattle.state_fits.specs.interfere_set.Stores.{Interferences};
ghost use Rattle.state_fits.specs.transfer_rows.StateForms.{State, IsStateForm, IsStateUnder};
ghost use Rattle.mutex_configs.specs.flow_graph.declared.graphs.Graph.{Graph};
ghost use Rattle.mutex_configs.specs.declared.nodes.ConfiguredGraph.{ConfiguredGraph};
ghost use Rattle.mutex_configs.specs.Graphs.{IsGraph};
ghost use Rattle.mutex_configs.specs.Nodes.{IsConfigured};
ghost use Rattle.table_covers.specs.Systems.{IsLawfulSystem};
ghost use Rattle.state_fits.specs.temporary_types.Sorts.{Sort};
ghost use Rattle.state_fits.specs.Fits.{FitsStore};
ghost use Rattle.task_equations.specs.Bodies.{Body};
ghost use Rattle.task_equations.specs.Equations.{equations_of};
ghost use Rattle.task_equations.specs.Premises.{IsBody, FitsBody};
ghost use Rattle.task_equations.specs.Configured.{NeverReturns, IsBodyOf, IsTypedBody};

/// The equations of a body over a store that fits are a system of equations: what each copy of an edge brings fits and
/// rises with the state, joins and roundings fit, rounding is a closure that changes nothing but at heads, and the
/// heights of the states that fit a node are limited. So they have one least solution.
pub fn equations_are_lawful()
    ensures { (b : Body) (sorts : List Sort) → IsBody b sorts → (tasks : ℕ) (store : Interferences)
        → FitsStore b.laid tasks store → (entry : Option State) → IfSome entry (FitsBody b 0)
        → IsLawfulSystem IsStateForm IsStateUnder (joined_state joined_values) (FitsBody b)
        (equations_of b entry store) }
{}

/// A body of a graph and its configured graph keeps what the equations ask of it, where no edge of the graph leads to
/// its entry, and its types and thresholds keep theirs: copies are of edges and lead between nodes at their places, the
/// mutexes held are among sixteen, the entry is the first node and no head, and what is live flows along the edges.
pub fn configured_bodies_are_bodies()
    ensures { (g : Graph) (c : ConfiguredGraph) (b : Body) (sorts : List Sort) → IsGraph g → NeverReturns g
        → IsConfigured g.edges.items c → IsBodyOf g c b → IsTypedBody b sorts → IsBody b sorts }
{}
