//! The bodies of a program over a store.
ghost use Rattle.std.specs.Prelude.{◌≡◌, ◌<◌, length, IfSome, option_map};
ghost use Rattle.entry_states.specs.task_equations.Equations.{equations_of};
ghost use Rattle.entry_states.specs.program_equations.Programs.{body_at};
ghost use Rattle.entry_states.specs.program_equations.Systems.{FitsBody, FitsProgram};
ghost use Rattle.entry_states.specs.body_systems.Systems.{body_of};
ghost use Rattle.program_systems.specs.Analysable.{IsAnalysable};
ghost use Rattle.program_systems.specs.ProgramFacts.{AreProgramFacts, program_with};

use crate::facts::ProgramFacts;
use cell_env::State;
use entry_states::BodyOverStore;
use interfere_set::Store;
use mutex_configs::Program;
use pointer_dom::AbsValue;

/// The body with this number over a store, from a state at its entry, or none: `BodySystem` has its equations. The
/// tasks come first, and then the initial section where there is one.
pub fn body_over_store<'a>(
    program: &'a Program,
    facts: &'a ProgramFacts,
    number: u32,
    entry: Option<&'a State<AbsValue>>,
    store: &'a Store,
) -> BodyOverStore<'a>
    requires analysable { IsAnalysable program.now }
    requires facts { AreProgramFacts program.now facts.now }
    requires number { number < length (program_with program.now facts.now).bodies }
    requires store { FitsProgram (program_with program.now facts.now) store.now }
    requires entry { IfSome (option_map (λ s. s.now) entry)
        (FitsBody (body_at (program_with program.now facts.now) number) 0) }
    ensures body { body_of result ≡ body_at (program_with program.now facts.now) number }
    ensures entry { result.entry ≡ option_map (λ s. s.now) entry.entry }
    ensures store { result.store ≡ store.now }
{
    BodyOverStore::new(
        &program.laid,
        number,
        facts.priorities(),
        &program.marks,
        &program.graphs.graphs[number as usize],
        &program.configured[number as usize],
        &facts.bodies()[number as usize],
        entry,
        store,
    )
}
