//! The requests of a task.
ghost use Rattle.std.specs.Prelude.{◌<◌, ◌⊎◌, ◌↔◌, length, Contains, OnOk};
ghost use Rattle.request_circles.specs.declared.requests.Request.{Request as ARequest};
ghost use Rattle.program_reports.specs.post_recheck.program_systems.Analysable.{IsAnalysable};
ghost use Rattle.program_reports.specs.post_recheck.program_systems.ProgramFacts.{AllFacts, AreProgramFacts};
ghost use Rattle.program_reports.specs.post_recheck.program_systems.ProgramFacts.{program_with};
ghost use Rattle.program_reports.specs.post_recheck.Pairs.{lists_of};
ghost use Rattle.lock_waits.specs.Waits.{HaveTables};
ghost use Rattle.lock_waits.specs.reading.Bodies.{IsAskedOf};

use crate::copies::{TaskParts, add_copies};
use mutex_configs::Program;
use program_reports::Table;
use request_circles::Request;
use tm_lattice::NoMemory;

// Adds the requests of the task with this number.
pub(crate) fn add_task(
    program: &Program,
    tables: &[Table],
    number: usize,
    requests: &mut Vec<Request>,
) -> Result<(), NoMemory>
    requires analysable { IsAnalysable program.now }
    requires tables { HaveTables program.now (lists_of tables.now) }
    requires number { number < length program.now.laid.file.tasks.items }
    ensures { OnOk result ((facts : AllFacts) → AreProgramFacts program.now facts → (r : ARequest)
        → Contains requests.new.items r ↔ (Contains requests.old.items r
        ⊎ IsAskedOf (program_with program.now facts) (lists_of tables.now) number r)) }
{
    let configured = &program.configured[number];
    let parts = TaskParts {
        number: number as u32,
        edges: &program.graphs.graphs[number].edges,
        nodes: configured.nodes.as_slice(),
        copies: &configured.copies,
        table: &tables[number],
    };
    add_copies(parts, requests)
}
