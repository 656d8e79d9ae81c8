//! Runs by given choices.
ghost use Rattle.std.specs.Prelude.{◌≡◌, ◌+◌, IfOk, OnOk};
ghost use Rattle.tm_laid.specs.Layouts.{laid_tree};
ghost use Rattle.concrete_steps.specs.Worlds.{step};
ghost use Rattle.concrete_worlds.specs.Lawful.{HasWorlds, HasGraphs};
ghost use Rattle.concrete_worlds.specs.Running.{IsWorld};
ghost use Rattle.concrete_worlds.specs.Views.{laid_of, world_of};
ghost use Rattle.replay_runs.specs.Runs.{IsRun, ended_by};
ghost use Rattle.replay_runs.specs.reading.Turns.{AddsRaces, IsSetOf};

use crate::places::{push_races, sorted};
use concrete_steps::{Choice, Stepped};
use concrete_worlds::World;
use flow_graph::Graph;
use replay_lines::Ending;
use std::alloc::Global;
use tm_laid::Laid;
use tm_lattice::NoMemory;
use tm_terms::Place;

/// A run by given choices.
#[derive(Drop)]
pub struct Run {
    /// The places at which tasks race in some world on the way, sorted, each once.
    pub places: Vec<Place>,
    /// How it ends.
    pub ending: Ending,
}

/// How a run ends by the choice of this number, if it does.
fn ended_by(choice: usize, answer: Stepped) -> Option<Ending>
    ensures { result ≡ ended_by choice answer }
{
    match answer {
        Stepped::Done => None,
        Stepped::NotAllowed => Some(Ending::NotAllowed(choice)),
        Stepped::Stopped { class, place } => Some(Ending::Stopped {
            choice,
            class,
            place,
        }),
    }
}

/// One choice more: the places that race in the world before it, and the step. How the run ends by it, if it does.
fn turn(
    alloc: Global,
    world: &mut World<'_>,
    places: &mut Vec<Place>,
    number: usize,
    choice: Choice,
) -> Result<Option<Ending>, NoMemory>
    requires { IsWorld world.old }
    ensures running { IsWorld world.new }
    ensures laid { world.new.laid.now ≡ world.old.laid.now }
    ensures races { OnOk result (AddsRaces (laid_of world.old) (world_of world.old) places.old.items places.new.items) }
    ensures ended { IfOk result (λ e. e ≡ ended_by number
        (step (laid_of world.old) (world_of world.old) choice).answer) }
    ensures world { OnOk result (world_of world.new ≡ (step (laid_of world.old) (world_of world.old) choice).world) }
{
    push_races(alloc, world, places)?;
    match world.step(choice) {
        Ok(answer) => Ok(ended_by(number, answer)),
        Err(NoMemory) => Err(NoMemory),
    }
}

/// A run that ends so.
fn finished(places: Vec<Place>, ending: Ending) -> Result<Run, NoMemory>
    ensures places { IfOk result (λ run. IsSetOf places.items run.places.items) }
    ensures ending { IfOk result (λ run. run.ending ≡ ending) }
{
    let places = sorted(places)?;
    Ok(Run { places, ending })
}

/// The run of a program, which has these graphs, by these choices: one after the other, up to the first that is not
/// allowed or stops it. It takes time linear in what the choices do and in their number.
pub fn run_by(
    alloc: Global,
    laid: &Laid,
    graphs: &[Graph],
    choices: &[Choice],
) -> Result<Run, NoMemory>
    requires worlds { HasWorlds laid.now }
    requires graphs { HasGraphs laid.now graphs.now }
    ensures { IfOk result (λ run. IsRun (laid_tree laid.now) choices.now run.places.items run.ending) }
{
    let mut world = World::start_along(alloc, laid, graphs)?;
    let mut places = Vec::new(alloc);
    for (done, choice) in choices.iter().enumerate() {
        match turn(alloc, &mut world, &mut places, done + 1, *choice)? {
            Some(ending) => return finished(places, ending),
            None => {}
        }
    }
    push_races(alloc, &world, &mut places)?;
    finished(places, Ending::Ran(choices.len()))
}
