//! What worlds along graphs need of a program.
ghost use Rattle.program_worlds.specs.Laws.{ProgramsHaveGraphs};

use lowering_laws::{edges_join_nodes, graphs_can_be_configured, graphs_run_as_next};

/// The graphs of the bodies of what is typed and laid out are such that its tasks go along them: after any answers what
/// follows the run of a task's graph is what the task does next.
pub fn programs_have_graphs()
    ensures { ProgramsHaveGraphs }
{
    graphs_run_as_next();
    edges_join_nodes();
    graphs_can_be_configured();
}
