//! Laws of the definitions.
ghost use Rattle.call_graph.specs.Laws.{NoneReachesItself};

/// Where functions stand behind those that they call, none of them reaches itself.
pub fn callees_first_is_acyclic()
    ensures { NoneReachesItself }
{}
