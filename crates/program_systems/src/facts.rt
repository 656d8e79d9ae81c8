//! What is computed once of a program.
ghost use Rattle.std.specs.Prelude.{◌≡◌, ◌<◌, ℕ, length, get_or, IfOk};
ghost use Rattle.mutex_configs.specs.tm_laid.Layouts.{laid_tree};
ghost use Rattle.mutex_configs.specs.flow_graph.declared.graphs.Graph.{Graph as AGraph};
ghost use Rattle.mutex_configs.specs.declared.nodes.ConfiguredGraph.{ConfiguredGraph as AConfigured};
ghost use Rattle.entry_states.specs.body_systems.Facts.{Facts, AreFactsOf};
ghost use Rattle.entry_states.specs.program_equations.Programs.{priorities_of};
ghost use Rattle.program_systems.specs.Analysable.{IsAnalysable};
ghost use Rattle.program_systems.specs.ProgramFacts.{AreProgramFacts};

use entry_states::BodyFacts;
use mutex_configs::Program;
use std::alloc::Global;
use std::marker::Model;
use tm_lattice::NoMemory;
use tm_typed::TypedTask;

/// What is computed once of a program: the priorities of its bodies, and the facts of each.
pub struct ProgramFacts {
    priorities: Vec<u8>,
    bodies: Vec<BodyFacts>,
}

// By hand: a function that lets one go calls this, and its check does not go through the fields.
impl Drop for ProgramFacts {
    fn drop(self) {
        let ProgramFacts {
            priorities: _priorities,
            bodies: _bodies,
        } = self;
    }
}

impl Model for ProgramFacts {
    ghost use Rattle.program_systems.specs.ProgramFacts.{AllFacts};

    ghost Value = { AllFacts };

    ghost view = { λ a. record { priorities = a.priorities.items; bodies = a.bodies.items } };
}

impl ProgramFacts {
    /// The facts of a program that can be analysed.
    pub fn new(alloc: Global, program: &Program) -> Result<ProgramFacts, NoMemory>
        requires { IsAnalysable program.now }
        ensures { IfOk result (λ facts. AreProgramFacts program.now facts) }
    {
        let priorities = priorities_of(alloc, &program.laid.file.tasks)?;
        let bodies = facts_of_bodies(alloc, program)?;
        Ok(ProgramFacts { priorities, bodies })
    }

    /// The priorities of the tasks, then that of the initial section, which is 0.
    pub fn priorities(&self) -> &[u8]
        ensures { result.now ≡ self.now.priorities }
    {
        &self.priorities
    }

    /// The facts of each body.
    pub fn bodies(&self) -> &[BodyFacts]
        ensures { result.now ≡ self.now.bodies }
    {
        &self.bodies
    }
}

// The priorities of tasks, and that of the initial section.
fn priorities_of(alloc: Global, tasks: &[TypedTask]) -> Result<Vec<u8>, NoMemory>
    ensures { IfOk result (λ v. v.items ≡ priorities_of tasks.now) }
{
    let mut priorities = Vec::new(alloc);
    for task in tasks {
        priorities.push(task.priority)?;
    }
    priorities.push(0)?;
    Ok(priorities)
}

// The facts of each body.
fn facts_of_bodies(alloc: Global, program: &Program) -> Result<Vec<BodyFacts>, NoMemory>
    requires { IsAnalysable program.now }
    ensures count { IfOk result (λ v. length v.items ≡ length program.now.graphs.graphs.items) }
    ensures each { IfOk result (λ v. (t : ℕ) (g : AGraph) (c : AConfigured) (f : Facts) → t < length v.items
        → AreFactsOf (laid_tree program.now.laid) (get_or program.now.graphs.graphs.items t g)
        (get_or program.now.configured.items t c) (get_or v.items t f)) }
{
    let mut bodies = Vec::new(alloc);
    for number in 0..program.graphs.graphs.len() {
        let facts = BodyFacts::new(
            alloc,
            &program.laid,
            &program.graphs.graphs[number],
            &program.configured[number],
        )?;
        bodies.push(facts)?;
    }
    Ok(bodies)
}
