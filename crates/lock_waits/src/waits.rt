//! Circular waits.
ghost use Rattle.std.specs.Prelude.{◌↔◌, Contains, IfOk};
ghost use Rattle.request_circles.specs.declared.requests.Request.{Request as ARequest};
ghost use Rattle.program_reports.specs.post_recheck.program_equations.Solutions.{tables_of};
ghost use Rattle.program_reports.specs.post_recheck.program_systems.Analysable.{IsAnalysable};
ghost use Rattle.program_reports.specs.post_recheck.program_systems.ProgramFacts.{AllFacts, AreProgramFacts};
ghost use Rattle.program_reports.specs.post_recheck.program_systems.ProgramFacts.{program_with};
ghost use Rattle.program_reports.specs.post_recheck.Pairs.{lists_of};
ghost use Rattle.lock_waits.specs.Waits.{IsRequest, AreWaits, AreRings, HaveTables};

use crate::bodies::add_task;
use mutex_configs::Program;
use program_reports::Table;
use request_circles::{Request, Ring, circular_places, shortest_rings};
use std::alloc::Global;
use tm_lattice::NoMemory;
use tm_terms::Place;

// The requests of all tasks.
fn requests_of(alloc: Global, program: &Program, tables: &[Table]) -> Result<Vec<Request>, NoMemory>
    requires analysable { IsAnalysable program.now }
    requires tables { HaveTables program.now (lists_of tables.now) }
    ensures { IfOk result (λ requests. (facts : AllFacts) → AreProgramFacts program.now facts → (r : ARequest)
        → Contains requests.items r ↔ IsRequest (program_with program.now facts) (tables_of (lists_of tables.now)) r) }
{
    let mut requests = Vec::new(alloc);
    for number in 0..program.laid.file.tasks.len() {
        add_task(program, tables, number, &mut requests)?;
    }
    Ok(requests)
}

/// The places of locks at which tasks may wait for each other in a ring, as the tables of a program's bodies tell:
/// those of circular requests, in order and without repeats.
pub fn circular(alloc: Global, program: &Program, tables: &[Table]) -> Result<Vec<Place>, NoMemory>
    requires analysable { IsAnalysable program.now }
    requires tables { HaveTables program.now (lists_of tables.now) }
    ensures { IfOk result (λ places. (facts : AllFacts) → AreProgramFacts program.now facts
        → AreWaits (program_with program.now facts) (tables_of (lists_of tables.now)) places.items) }
{
    let requests = requests_of(alloc, program, tables)?;
    circular_places(alloc, &requests)
}

/// For each of these places, in their order, a shortest ring of requests that begins with one at the place: what each
/// task holds and asks for, where each next one holds what the one before asks for, and the first what the last does.
pub fn rings(alloc: Global, program: &Program, tables: &[Table]) -> Result<Vec<Ring>, NoMemory>
    requires analysable { IsAnalysable program.now }
    requires tables { HaveTables program.now (lists_of tables.now) }
    ensures { IfOk result (λ rings. (facts : AllFacts) → AreProgramFacts program.now facts
        → AreRings (program_with program.now facts) (tables_of (lists_of tables.now)) rings.items) }
{
    let requests = requests_of(alloc, program, tables)?;
    shortest_rings(alloc, requests)
}
