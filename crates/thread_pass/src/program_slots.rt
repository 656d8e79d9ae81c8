//! What is computed once of the bodies of a program for their fronts and slots.
ghost use Rattle.std.specs.Prelude.{◌<◌, length, IfOk, IfSome};
ghost use Rattle.body_slots.specs.Slots.{AreSlotsOf};
ghost use Rattle.program_equality.specs.program_equations.Programs.{body_at};
ghost use Rattle.program_systems.specs.Analysable.{IsAnalysable};
ghost use Rattle.program_systems.specs.ProgramFacts.{AreProgramFacts, program_with};
ghost use Rattle.thread_pass.specs.Analyses.{AreProgramSlots};

use body_slots::BodySlots;
use cell_touches::{BodyTouches, program_touches};
use interfere_set::Store;
use mutex_configs::Program;
use program_systems::{ProgramFacts, body_over_store};
use std::alloc::Global;
use tm_lattice::NoMemory;

// The slots of the body with this number, by what its edges may do with cells; none where nothing is told of that, or
// where the cells cannot be placed. They do not depend on the store.
fn slots_of_body(
    alloc: Global,
    program: &Program,
    facts: &ProgramFacts,
    number: u32,
    touches: Option<BodyTouches>,
) -> Result<Option<BodySlots>, NoMemory>
    requires analysable { IsAnalysable program.now }
    requires facts { AreProgramFacts program.now facts.now }
    requires number { number < length (program_with program.now facts.now).bodies }
    ensures { IfOk result (λ found.
        IfSome found (AreSlotsOf (body_at (program_with program.now facts.now) number))) }
{
    let Some(of_body) = touches else {
        return Ok(None);
    };
    let BodyTouches {
        touched,
        carried,
        looked,
        traces,
    } = of_body;
    let nothing = Store::new(alloc);
    let body = body_over_store(program, facts, number, None, &nothing);
    BodySlots::new(alloc, &body, touched, carried, looked, traces)
}

/// For each body, those of the tasks and then the initial section, its slots; none where its cells cannot be placed.
pub(crate) fn program_slots(
    alloc: Global,
    program: &Program,
    facts: &ProgramFacts,
) -> Result<Vec<Option<BodySlots>>, NoMemory>
    requires analysable { IsAnalysable program.now }
    requires facts { AreProgramFacts program.now facts.now }
    ensures { IfOk result (λ slots. AreProgramSlots (program_with program.now facts.now) slots.items) }
{
    let mut touches_left = program_touches(alloc, program)?.into_iter();
    let mut slots = Vec::new(alloc);
    for number in 0..program.configured.len() as u32 {
        let of_body = slots_of_body(alloc, program, facts, number, touches_left.next())?;
        slots.push(of_body)?;
    }
    Ok(slots)
}
