//! What graphs of bodies keep, each law the contract of a function that does nothing. The premise `IsLowerable` says
//! what typing and the layout see to: each operand has a value, `break` and `continue` stand where they may, a `switch`
//! has at most one `default`, a function with a result gives one back, and each call has its call path. That each
//! program that is typed and laid out is so, no law of this crate says.
ghost use Rattle.std.specs.Prelude.{◌≡◌, ◌↔◌, ℕ, List};
ghost use Rattle.concrete_steps.specs.tm_laid.Layouts.{LaidTree};
ghost use Rattle.concrete_steps.specs.concrete_values.declared.actions.Next.{Next};
ghost use Rattle.concrete_steps.specs.concrete_values.declared.values.Answer.{Answer};
ghost use Rattle.concrete_steps.specs.NextAction.{next};
ghost use Rattle.flow_graph.specs.declared.graphs.Edge.{Edge};
ghost use Rattle.flow_graph.specs.declared.operations.Operation.TheVariants as Op;
ghost use Rattle.flow_graph.specs.Graphs.{Among, IsLive, IsPlain};
ghost use Rattle.flow_graph.specs.Runs.{GraphNext};
ghost use Rattle.flow_graph.specs.Positions.{RunsAlong};
ghost use Rattle.lowering.specs.Built.{graph_of};
ghost use Rattle.lowering.specs.Lowerable.{IsLowerable};
ghost use Rattle.lowering.specs.Owned.{IsOwnObject};

/// After each list of answers the run of a body's graph is followed by the next action of the body, and by no other
/// one: an answer that does not fit and a turn of a loop that uses no answer included.
pub fn runs_as_next()
    ensures { (laid : LaidTree) → IsLowerable laid → (body : ℕ) (answers : List Answer) (n : Next)
        → GraphNext laid (graph_of laid body) answers n ↔ (n ≡ next laid body answers) }
{}

/// And step for step: where a task stands, what stops it there is its next action, and an answer leads along one edge.
pub fn runs_along_next()
    ensures { (laid : LaidTree) → IsLowerable laid → (body : ℕ) → RunsAlong laid (graph_of laid body) (next laid body) }
{}

/// From each node leads nothing, one operation that is no test, or a test and its opposite.
pub fn is_plain()
    ensures { (laid : LaidTree) → IsLowerable laid → (body : ℕ) → IsPlain (graph_of laid body) }
{}

/// No temporary is live at the entry node: each is given before it is used, on every path.
pub fn nothing_live()
    ensures { (laid : LaidTree) → IsLowerable laid → (body temp : ℕ) → IsLive (graph_of laid body) temp 0 → ⊥ }
{}

/// Each object that the graph of a body clears is a parameter or a local object of one of the body's call paths.
pub fn clears_own()
    ensures { (laid : LaidTree) (body object : ℕ) (e : Edge) → Among e (graph_of laid body) → e.op ≡ Op.Clear object
        → IsOwnObject laid body object }
{}
