//! Worlds.
ghost use Rattle.std.specs.Prelude.{◌≡◌, ℕ, ◌<◌, ◌∷◌, ◌++◌, [], length, map, get_or, slice_get, slice_set, IsOk, OnOk};
ghost use Rattle.std.specs.Prelude.{OnErr, option_map, vec_items, vec_len, vec_capacity};
ghost use Rattle.tm_laid.specs.Layouts.{laid_tree};
ghost use Rattle.concrete_steps.specs.NextAction.{next};
ghost use Rattle.concrete_steps.specs.Worlds.{next_at, settled, stand, told, freed, did, tasks_may_run};
ghost use Rattle.concrete_worlds.specs.Lawful.{HasWorlds};
ghost use Rattle.concrete_worlds.specs.Views.{standing_of, laid_of, world_of, Leads, RoomAt};
ghost use Rattle.concrete_worlds.specs.Running.{AreRunning, IsWorld, HasRoom};
ghost use Rattle.concrete_worlds.specs.reading.Turns.{arrived};

use crate::standings::{TaskStanding, is_done, settled, stand, wake_waiting};
use crate::task_runs::have_room;
use concrete_steps::{Content, Stepped};
use concrete_values::{Answer, Next};
use flow_graph::Graph;
use graph_positions::Run;
use task_interpreter::next;
use tm_laid::Laid;
use tm_lattice::NoMemory;

/// A world of a laid out program: what each cell holds, how each task stands and which answers it has had, and behind
/// them the initial section where there is one; and whether an error has stopped the run. Where the world has started
/// with graphs, it also keeps how far each has come along its own.
#[derive(Drop)]
pub struct World<'a> {
    pub(crate) laid: &'a Laid,
    pub(crate) graphs: &'a [Graph],
    pub(crate) contents: Vec<Content>,
    pub(crate) standings: Vec<TaskStanding>,
    pub(crate) answers: Vec<Vec<Answer>>,
    pub(crate) runs: Vec<Run>,
    pub(crate) stopped: bool,
}

// Makes room for one more answer.
fn reserve_one(list: &mut Vec<Answer>) -> Result<(), NoMemory>
    ensures same { list.new.items ≡ list.old.items }
    ensures room { OnOk result (vec_len list.new < vec_capacity list.new) }
    ensures kept { vec_len list.old < vec_capacity list.old → IsOk result }
{
    if list.len() < list.capacity() {
        return Ok(());
    }
    match list.reserve(1) {
        Ok(()) => Ok(()),
        Err(_) => Err(NoMemory),
    }
}

// Makes room for one more answer of this task.
fn reserve_at(lists: &mut Vec<Vec<Answer>>, task: u32) -> Result<(), NoMemory>
    ensures same { map vec_items lists.new.items ≡ map vec_items lists.old.items }
    ensures room { OnOk result (RoomAt lists.new.items task) }
    ensures kept { RoomAt lists.old.items task → IsOk result }
{
    match lists.get_mut(task as usize) {
        Some(list) => reserve_one(list),
        None => Ok(()),
    }
}

// Makes room for one more answer in each list.
fn reserve_all(lists: &mut [Vec<Answer>]) -> Result<(), NoMemory>
    ensures same { map vec_items lists.new ≡ map vec_items lists.old }
    ensures room { OnOk result ((i : ℕ) → RoomAt lists.new i) }
{
    for list in lists.iter_mut() {
        match reserve_one(list) {
            Ok(()) => {}
            Err(NoMemory) => return Err(NoMemory),
        }
    }
    Ok(())
}

// The answer is noted behind those of the task.
fn note(lists: &mut Vec<Vec<Answer>>, task: u32, answer: Answer) -> Result<(), NoMemory>
    ensures told { OnOk result (map vec_items lists.new.items ≡ slice_set (map vec_items lists.old.items) task
        (get_or (map vec_items lists.old.items) task [] ++ answer ∷ [])) }
    ensures same { OnErr result (map vec_items lists.new.items ≡ map vec_items lists.old.items) }
    ensures room { RoomAt lists.old.items task → IsOk result }
{
    match lists.get_mut(task as usize) {
        Some(list) => match list.push(answer) {
            Ok(()) => Ok(()),
            Err(_) => Err(NoMemory),
        },
        None => Ok(()),
    }
}

// What a task, or the initial section, does next, where these are the answers of each.
#[tactic(auto, using(crate::proofs::Lists::answers_there, crate::proofs::Lists::no_answers_there))]
fn next_after(laid: &Laid, answers: &[Vec<Answer>], task: u32) -> Next
    requires { HasWorlds laid.now }
    ensures { result ≡ next (laid_tree laid.now) task (get_or (map vec_items answers.now) task []) }
{
    match answers.get(task as usize) {
        Some(answers) => next(laid, task, answers),
        None => next(laid, task, &[]),
    }
}

impl World<'_> {
    /// Makes room for one answer of each task, and of the initial section: a step takes no memory then.
    ///
    /// A public call of its own, for users of the crate; a replay takes the memory of each step as it comes.
    pub fn reserve(&mut self) -> Result<(), NoMemory>
        requires { IsWorld self.old }
        ensures world { IsWorld self.new }
        ensures laid { self.new.laid.now ≡ self.old.laid.now }
        ensures same { world_of self.new ≡ world_of self.old }
        ensures room { OnOk result (HasRoom self.new) }
    {
        reserve_all(&mut self.answers)?;
        if have_room(&self.runs) {
            Ok(())
        } else {
            Err(NoMemory)
        }
    }

    /// What a cell holds.
    pub fn content(&self, cell: u32) -> Option<Content>
        ensures { result ≡ slice_get (world_of self.now).contents cell }
    {
        self.contents.get(cell as usize).copied()
    }

    /// How a task, or the initial section, stands.
    #[tactic(auto, using(crate::proofs::StandingViews::found_there))]
    pub fn standing(&self, task: u32) -> Option<TaskStanding>
        ensures { option_map (standing_of (length self.now.laid.now.file.mutexes.items)) result
            ≡ slice_get (world_of self.now).standings task }
    {
        self.standings.get(task as usize).copied()
    }

    /// Whether an error has stopped the run.
    pub fn is_stopped(&self) -> bool
        ensures { result ≡ (world_of self.now).stopped }
    {
        self.stopped
    }

    // What a task, or the initial section, does next.
    #[tactic(auto, unfolding(concrete_steps::specs::Worlds::next_at))]
    pub(crate) fn next_of(&self, task: u32) -> Next
        requires { IsWorld self.now }
        ensures { result ≡ next_at (laid_of self.now) (world_of self.now) task }
    {
        if (task as usize) < self.runs.len() {
            self.runs[task as usize].next
        } else {
            next_after(self.laid, &self.answers, task)
        }
    }

    // Whether there is no initial section, or it is done.
    pub(crate) fn tasks_may_run(&self) -> bool
        requires { IsWorld self.now }
        ensures { result ≡ tasks_may_run (laid_of self.now) (world_of self.now) }
    {
        match self.standing(self.laid.file.tasks.len() as u32) {
            None => true,
            Some(section) => is_done(section.status),
        }
    }

    // The task takes an answer. Where memory is wanting the world is as it was.
    pub(crate) fn tell(&mut self, task: u32, answer: Answer) -> Result<(), NoMemory>
        requires { IsWorld self.old }
        ensures world { IsWorld self.new }
        ensures laid { self.new.laid ≡ self.old.laid }
        ensures told { OnOk result (world_of self.new ≡ told task answer (world_of self.old)) }
        ensures same { OnErr result (world_of self.new ≡ world_of self.old) }
        ensures room { HasRoom self.old → IsOk result }
    {
        match reserve_at(&mut self.answers, task) {
            Ok(()) => {}
            Err(NoMemory) => return Err(NoMemory),
        }
        if task as usize >= self.runs.len() {
            return note(&mut self.answers, task, answer);
        }
        let (laid, graphs) = (self.laid, self.graphs);
        match self.runs[task as usize].answer(laid, &graphs[task as usize], answer) {
            Ok(()) => note(&mut self.answers, task, answer),
            Err(NoMemory) => Err(NoMemory),
        }
    }

    // The task stands so.
    #[tactic(auto, using(crate::proofs::StandingViews::stands_there))]
    pub(crate) fn stand(&mut self, task: u32, standing: TaskStanding)
        requires { IsWorld self.old }
        ensures world { IsWorld self.new }
        ensures laid { self.new.laid ≡ self.old.laid }
        ensures stands { world_of self.new ≡ stand task (standing_of
            (length self.old.laid.now.file.mutexes.items) standing) (world_of self.old) }
    {
        stand(&mut self.standings, task, standing);
    }

    // Those who wait for the mutex are ready again.
    #[tactic(auto, using(crate::proofs::StandingViews::all_awake))]
    pub(crate) fn free(&mut self, mutex: u32)
        requires { IsWorld self.old }
        ensures world { IsWorld self.new }
        ensures laid { self.new.laid ≡ self.old.laid }
        ensures freed { world_of self.new ≡ freed mutex (world_of self.old) }
    {
        wake_waiting(&mut self.standings, mutex);
    }

    // The task, which has had its answer and stands so, comes to its next action.
    pub(crate) fn arrive(&mut self, task: u32, standing: TaskStanding) -> Stepped
        requires { IsWorld self.old }
        ensures world { IsWorld self.new }
        ensures laid { self.new.laid ≡ self.old.laid }
        ensures leads { Leads (did (arrived (laid_of self.old) task (standing_of
            (length self.old.laid.now.file.mutexes.items) standing) (world_of self.old))) result (world_of self.new) }
    {
        let action = self.next_of(task);
        let standing = settled(self.laid, task, action, standing);
        self.stand(task, standing);
        Stepped::Done
    }
}
