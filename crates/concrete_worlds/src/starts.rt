//! The start of runs.
ghost use Rattle.std.specs.Prelude.{◌≡◌, ◌++◌, [], map, length, IfOk, OnOk, vec_items};
ghost use Rattle.tm_laid.specs.Layouts.{laid_tree};
ghost use Rattle.concrete_steps.specs.Worlds.{initial_content, start_contents, start_standing, start_tasks};
ghost use Rattle.concrete_steps.specs.Worlds.{start_standings, start};
ghost use Rattle.concrete_steps.specs.NextAction.{next};
ghost use Rattle.concrete_worlds.specs.Lawful.{HasWorlds, HasGraphs};
ghost use Rattle.concrete_worlds.specs.Running.{IsWorld};
ghost use Rattle.concrete_worlds.specs.Views.{standing_of, world_of};
ghost use Rattle.concrete_worlds.specs.reading.Starts.{BeginSo, MayStart};
ghost use Rattle.concrete_worlds.specs.reading.Clearing.{cleared_contents};

use crate::clearing::cleared_content;
use crate::held::Held;
use crate::standings::{TaskStanding, settled};
use crate::task_runs::start_runs;
use crate::worlds::World;
use concrete_steps::{Content, Status};
use concrete_values::{Answer, Next, Pointer, Value};
use flow_graph::Graph;
use graph_positions::Run;
use std::alloc::Global;
use task_interpreter::next;
use tm_laid::{Initial, Laid, LaidCell};
use tm_lattice::NoMemory;

fn initial_content(initial: Initial) -> Content
    ensures { result ≡ initial_content initial }
{
    match initial {
        Initial::Number(number) => Content::Is(Value::Number(number)),
        Initial::Null => Content::Is(Value::Pointer(Pointer::Null)),
        Initial::To { object, offset } => {
            Content::Is(Value::Pointer(Pointer::To { object, offset }))
        }
    }
}

// Cells hold their initial values.
#[tactic(auto, using(std::proofs::lemmas::List::append_assoc))]
fn push_initial(contents: &mut Vec<Content>, values: &[Initial]) -> Result<(), NoMemory>
    ensures { OnOk result (contents.new.items ≡ contents.old.items ++ map initial_content values.now) }
{
    for value in values {
        contents.push(initial_content(*value))?;
    }
    Ok(())
}

// Cells are cleared.
#[tactic(auto, using(std::proofs::lemmas::List::append_assoc))]
fn push_cleared(contents: &mut Vec<Content>, cells: &[LaidCell]) -> Result<(), NoMemory>
    ensures { OnOk result (contents.new.items ≡ contents.old.items ++ cleared_contents cells.now) }
{
    for cell in cells {
        contents.push(cleared_content(cell.scalar))?;
    }
    Ok(())
}

// Cells of static storage hold their initial values, and the others are cleared.
fn start_contents(alloc: Global, laid: &Laid) -> Result<Vec<Content>, NoMemory>
    ensures { IfOk result (λ v. v.items ≡ start_contents (laid_tree laid.now)) }
{
    let mut contents = Vec::new(alloc);
    push_initial(&mut contents, &laid.initial)?;
    let count = laid.initial.len();
    if count < laid.cells.len() {
        push_cleared(&mut contents, &laid.cells[count..])?;
    }
    Ok(contents)
}

// What a task, or the initial section, does before any answer, where these are the first runs.
fn first_action(laid: &Laid, runs: &[Run], task: u32) -> Next
    requires worlds { HasWorlds laid.now }
    requires begin { BeginSo (laid_tree laid.now) runs.now }
    ensures { result ≡ next (laid_tree laid.now) task [] }
{
    match runs.get(task as usize) {
        Some(run) => run.next,
        None => next(laid, task, &[]),
    }
}

// A task, or the initial section, before it has done anything.
fn start_standing(
    laid: &Laid,
    runs: &[Run],
    task: u32,
    priority: u8,
    status: Status,
) -> TaskStanding
    requires worlds { HasWorlds laid.now }
    requires begin { BeginSo (laid_tree laid.now) runs.now }
    ensures { standing_of (length laid.now.file.mutexes.items) result
        ≡ start_standing (laid_tree laid.now) task priority status }
{
    let standing = TaskStanding {
        priority,
        status,
        held: Held::none(),
    };
    settled(laid, task, first_action(laid, runs, task), standing)
}

// How all tasks stand at the start.
fn start_tasks(alloc: Global, laid: &Laid, runs: &[Run]) -> Result<Vec<TaskStanding>, NoMemory>
    requires worlds { HasWorlds laid.now }
    requires begin { BeginSo (laid_tree laid.now) runs.now }
    ensures { IfOk result (λ v. map (standing_of (length laid.now.file.mutexes.items)) v.items
        ≡ start_tasks (laid_tree laid.now) 0 laid.now.file.tasks.items) }
{
    let mut standings = Vec::new(alloc);
    for (task, found) in laid.file.tasks.iter().enumerate() {
        let standing = start_standing(laid, runs, task as u32, found.priority, Status::Waiting);
        standings.push(standing)?;
    }
    Ok(standings)
}

// And behind them the initial section, where there is one.
fn start_standings(alloc: Global, laid: &Laid, runs: &[Run]) -> Result<Vec<TaskStanding>, NoMemory>
    requires worlds { HasWorlds laid.now }
    requires begin { BeginSo (laid_tree laid.now) runs.now }
    ensures { IfOk result (λ v. map (standing_of (length laid.now.file.mutexes.items)) v.items
        ≡ start_standings (laid_tree laid.now)) }
{
    let mut standings = start_tasks(alloc, laid, runs)?;
    match laid.file.main {
        None => Ok(standings),
        Some(_) => {
            let section = laid.file.tasks.len() as u32;
            standings.push(start_standing(laid, runs, section, 0, Status::Ready))?;
            Ok(standings)
        }
    }
}

// No answers of each of them.
fn no_answers(alloc: Global, standings: &[TaskStanding]) -> Result<Vec<Vec<Answer>>, NoMemory>
    ensures { IfOk result (λ v. map vec_items v.items ≡ map (λ s. []) standings.now) }
{
    let mut answers = Vec::new(alloc);
    for _standing in standings {
        answers.push(Vec::new(alloc))?;
    }
    Ok(answers)
}

// The world before any choice, whose first tasks keep these runs, or none does.
fn started<'a>(
    alloc: Global,
    laid: &'a Laid,
    graphs: &'a [Graph],
    runs: Vec<Run>,
) -> Result<World<'a>, NoMemory>
    requires worlds { HasWorlds laid.now }
    requires graphs { MayStart laid.now graphs.now runs.items }
    ensures running { IfOk result IsWorld }
    ensures laid { IfOk result (λ w. w.laid.now ≡ laid.now) }
    ensures world { IfOk result (λ w. world_of w ≡ start (laid_tree laid.now)) }
{
    let contents = start_contents(alloc, laid)?;
    let standings = start_standings(alloc, laid, &runs)?;
    let answers = no_answers(alloc, &standings)?;
    Ok(World {
        laid,
        graphs,
        contents,
        standings,
        answers,
        runs,
        stopped: false,
    })
}

impl<'a> World<'a> {
    /// The world before any choice.
    pub fn start(alloc: Global, laid: &'a Laid) -> Result<World<'a>, NoMemory>
        requires { HasWorlds laid.now }
        ensures running { IfOk result IsWorld }
        ensures laid { IfOk result (λ w. w.laid.now ≡ laid.now) }
        ensures world { IfOk result (λ w. world_of w ≡ start (laid_tree laid.now)) }
    {
        started(alloc, laid, &[], Vec::new(alloc))
    }

    /// The same world, whose tasks go along these graphs, those of all tasks and behind them that of the initial
    /// section.
    pub fn start_along(
        alloc: Global,
        laid: &'a Laid,
        graphs: &'a [Graph],
    ) -> Result<World<'a>, NoMemory>
        requires worlds { HasWorlds laid.now }
        requires graphs { HasGraphs laid.now graphs.now }
        ensures running { IfOk result IsWorld }
        ensures laid { IfOk result (λ w. w.laid.now ≡ laid.now) }
        ensures world { IfOk result (λ w. world_of w ≡ start (laid_tree laid.now)) }
    {
        let runs = start_runs(alloc, laid, graphs)?;
        started(alloc, laid, graphs, runs)
    }
}
