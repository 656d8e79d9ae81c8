//! The graphs of the bodies of a file that is typed and laid out.
ghost use Rattle.std.specs.Prelude.{◌≡◌, ◌↔◌, ℕ, ◌<◌, ◌≤◌, List, length, All};
ghost use Rattle.cell_layout.specs.tm_laid.Layouts.{LaidTree};
ghost use Rattle.lowering.specs.concrete_values.declared.actions.Next.{Next};
ghost use Rattle.lowering.specs.concrete_values.declared.values.Answer.{Answer};
ghost use Rattle.lowering.specs.concrete_steps.NextAction.{next};
ghost use Rattle.lowering.specs.flow_graph.declared.graphs.Edge.{Edge};
ghost use Rattle.lowering.specs.flow_graph.declared.graphs.Graph.{Graph};
ghost use Rattle.lowering.specs.flow_graph.declared.operations.Operation.TheVariants as Op;
ghost use Rattle.lowering.specs.flow_graph.Graphs.{Among, IsLive, IsPlain};
ghost use Rattle.lowering.specs.flow_graph.Runs.{GraphNext};
ghost use Rattle.lowering.specs.flow_graph.Positions.{RunsAlong};
ghost use Rattle.lowering.specs.Built.{built, graph_of};
ghost use Rattle.lowering.specs.Owned.{IsOwnObject};
ghost use Rattle.mutex_configs.specs.Graphs.{IsGraph};
ghost use Rattle.lowering_laws.specs.LaidFiles.{IsLaidFile};
ghost use Rattle.lowering_laws.specs.Mutexes.{HasMutex};
ghost use Rattle.lowering_laws.specs.Operations.{HasPlainConstant, HasPlainTest};

/// After each list of answers the run of a body's graph is followed by the next action of the body, and by no other
/// one.
pub fn graphs_run_as_next()
    ensures { (laid : LaidTree) → IsLaidFile laid → (body : ℕ) → body < length laid.bodies → (answers : List Answer)
        (n : Next) → GraphNext laid (graph_of laid body) answers n ↔ (n ≡ next laid body answers) }
{}

/// And step for step: where a task stands, what stops it there is its next action, and an answer leads along one edge.
pub fn graphs_run_along_next()
    ensures { (laid : LaidTree) → IsLaidFile laid → (body : ℕ) → body < length laid.bodies
        → RunsAlong laid (graph_of laid body) (next laid body) }
{}

/// From each node leads nothing, one operation that is no test, or a test and its opposite.
pub fn graphs_are_plain()
    ensures { (laid : LaidTree) → IsLaidFile laid → (body : ℕ) → body < length laid.bodies
        → IsPlain (graph_of laid body) }
{}

/// No temporary is live at the entry node: each is given before it is used, on every path.
pub fn nothing_live_at_entry()
    ensures { (laid : LaidTree) → IsLaidFile laid → (body temp : ℕ) → body < length laid.bodies
        → IsLive (graph_of laid body) temp 0 → ⊥ }
{}

/// Each edge joins two nodes of its graph.
pub fn edges_join_nodes()
    ensures { (laid : LaidTree) (body : ℕ)
        → All (λ e. (e.from < (built laid body).nodes) × (e.to < (built laid body).nodes)) (graph_of laid body) }
{}

/// No edge leads to the entry node.
pub fn no_edge_leads_to_entry()
    ensures { (laid : LaidTree) (body : ℕ) → All (λ e. 0 < e.to) (graph_of laid body) }
{}

/// Each mutex that a graph locks, unlocks or asks for is one of the file's, of which there are at most sixteen.
pub fn graphs_name_mutexes()
    ensures { (laid : LaidTree) → IsLaidFile laid → (body : ℕ)
        → All (λ e. HasMutex (length laid.file.mutexes) e.op) (graph_of laid body) × (length laid.file.mutexes ≤ 16) }
{}

/// Each constant of a graph is a number, or null, or the invalid pointer: the address of an object is given by an
/// operation of its own.
pub fn constants_lead_nowhere()
    ensures { (laid : LaidTree) → IsLaidFile laid → (body : ℕ)
        → All (λ e. HasPlainConstant e.op) (graph_of laid body) }
{}

/// Each test of two numbers is one of the six comparisons, and each label is a number of an integer type.
pub fn graphs_test_comparisons()
    ensures { (laid : LaidTree) → IsLaidFile laid → (body : ℕ)
        → All (λ e. HasPlainTest e.op) (graph_of laid body) }
{}

/// So each graph that is that of a body can be configured: it has an entry node, its edges join its nodes, and its
/// mutexes are among sixteen.
pub fn graphs_can_be_configured()
    ensures { (laid : LaidTree) → IsLaidFile laid → (body : ℕ) (graph : Graph) → graph.edges.items ≡ graph_of laid body
        → graph.nodes ≡ (built laid body).nodes → IsGraph graph }
{}

/// Each object that the graph of a body clears is a parameter or a local object of one of the body's call paths.
pub fn graphs_clear_own()
    ensures { (laid : LaidTree) → IsLaidFile laid → (body object : ℕ) → body < length laid.bodies → (e : Edge)
        → Among e (graph_of laid body) → e.op ≡ Op.Clear object → IsOwnObject laid body object }
{}
