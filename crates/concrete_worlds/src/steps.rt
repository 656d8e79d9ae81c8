//! Steps of worlds.
ghost use Rattle.std.specs.Prelude.{◌≡◌, length, slice_get, pos, IsOk, IfOk, OnErr};
ghost use Rattle.concrete_values.specs.declared.values.Answer.TheVariants as Answers;
ghost use Rattle.concrete_steps.specs.Worlds.{step, act_step, answered, run_step, wake_step, load_step, store_step};
ghost use Rattle.concrete_steps.specs.Worlds.{lock_step, unlock_step, openly, halted, cleared, is_taken};
ghost use Rattle.concrete_worlds.specs.Running.{IsWorld, HasRoom};
ghost use Rattle.concrete_worlds.specs.Views.{standing_of, laid_of, world_of, Leads};
ghost use Rattle.concrete_values.specs.Values.{truth_value};
ghost use Rattle.concrete_worlds.specs.reading.Turns.{IsPlain};

use crate::clearing::{cell_of, clear_object, put};
use crate::standings::{TaskStanding, is_ready, is_taken, is_waiting, none_above, yielded};
use crate::worlds::World;
use concrete_steps::{Choice, Content, Status, Stepped};
use concrete_values::{Answer, Next, Value, is_of, truth_value};
use tm_cint::Class;
use tm_lattice::NoMemory;
use tm_terms::Place;
use tm_typed::Scalar;

impl World<'_> {
    /// A step: what a choice leads to. One that is not allowed changes nothing, and neither does want of memory. After
    /// `reserve` one step takes no memory.
    #[tactic(auto, unfolding(concrete_steps::specs::Worlds::step))]
    pub fn step(&mut self, choice: Choice) -> Result<Stepped, NoMemory>
        requires { IsWorld self.old }
        ensures world { IsWorld self.new }
        ensures laid { self.new.laid.now ≡ self.old.laid.now }
        ensures leads { IfOk result (λ s. Leads (step (laid_of self.old) (world_of self.old) choice) s
            (world_of self.new)) }
        ensures same { OnErr result (world_of self.new ≡ world_of self.old) }
        ensures room { HasRoom self.old → IsOk result }
    {
        if self.stopped {
            return Ok(Stepped::NotAllowed);
        }
        match choice {
            Choice::Wake { task } => Ok(self.wake(task)),
            Choice::Run { task, value } => self.run(task, value),
        }
    }

    // A task that waits becomes ready.
    #[tactic(auto, using(crate::proofs::StandingViews::stands_there))]
    fn wake(&mut self, task: u32) -> Stepped
        requires { IsWorld self.old }
        ensures world { IsWorld self.new }
        ensures laid { self.new.laid ≡ self.old.laid }
        ensures leads { Leads (wake_step (laid_of self.old) task (slice_get (world_of self.old).standings task)
            (world_of self.old)) result (world_of self.new) }
    {
        match self.standing(task) {
            None => Stepped::NotAllowed,
            Some(standing) => {
                if !self.tasks_may_run() || !is_waiting(standing.status) {
                    return Stepped::NotAllowed;
                }
                self.stand(task, standing.with_status(Status::Ready));
                Stepped::Done
            }
        }
    }

    // A task that may run does what it does next.
    #[tactic(auto, using(crate::proofs::StandingViews::none_more_urgent))]
    fn run(&mut self, task: u32, value: i128) -> Result<Stepped, NoMemory>
        requires { IsWorld self.old }
        ensures world { IsWorld self.new }
        ensures laid { self.new.laid ≡ self.old.laid }
        ensures leads { IfOk result (λ s. Leads (run_step (laid_of self.old) task value
            (slice_get (world_of self.old).standings task) (world_of self.old)) s (world_of self.new)) }
        ensures same { OnErr result (world_of self.new ≡ world_of self.old) }
        ensures room { HasRoom self.old → IsOk result }
    {
        match self.standing(task) {
            None => Ok(Stepped::NotAllowed),
            Some(standing) => {
                if !is_ready(standing.status) || !none_above(standing.priority, &self.standings) {
                    return Ok(Stepped::NotAllowed);
                }
                let action = self.next_of(task);
                self.act(task, standing, value, action)
            }
        }
    }

    // An action of a task that may run.
    #[tactic(auto, unfolding(concrete_steps::specs::Worlds::act_step))]
    fn act(
        &mut self,
        task: u32,
        standing: TaskStanding,
        value: i128,
        action: Next,
    ) -> Result<Stepped, NoMemory>
        requires { IsWorld self.old }
        ensures world { IsWorld self.new }
        ensures laid { self.new.laid ≡ self.old.laid }
        ensures leads { IfOk result (λ s. Leads (act_step (laid_of self.old) task (standing_of
            (length self.old.laid.now.file.mutexes.items) standing) value action (world_of self.old)) s
            (world_of self.new)) }
        ensures same { OnErr result (world_of self.new ≡ world_of self.old) }
        ensures room { HasRoom self.old → IsOk result }
    {
        match action {
            Next::Load {
                object,
                offset,
                scalar,
                volatile,
                ..
            } => {
                let cell = cell_of(self.laid, object, offset);
                self.load(task, standing, value, cell, scalar, volatile)
            }
            Next::Chosen { low, high } => {
                self.openly(task, standing, value, low <= value && value <= high)
            }
            Next::Ended | Next::Misfit => Ok(Stepped::NotAllowed),
            _ => {
                if value == 0 {
                    self.act_plainly(task, standing, action)
                } else {
                    Ok(Stepped::NotAllowed)
                }
            }
        }
    }

    // An action that leaves nothing open.
    #[tactic(auto, unfolding(concrete_steps::specs::Worlds::act_step))]
    fn act_plainly(
        &mut self,
        task: u32,
        standing: TaskStanding,
        action: Next,
    ) -> Result<Stepped, NoMemory>
        requires { IsWorld self.old }
        ensures world { IsWorld self.new }
        ensures laid { self.new.laid ≡ self.old.laid }
        ensures leads { IfOk result (λ s. IsPlain action → Leads (act_step (laid_of self.old) task (standing_of
            (length self.old.laid.now.file.mutexes.items) standing) (pos 0) action (world_of self.old)) s
            (world_of self.new)) }
        ensures same { OnErr result (world_of self.new ≡ world_of self.old) }
        ensures room { HasRoom self.old → IsOk result }
    {
        match action {
            Next::Store {
                object,
                offset,
                value,
                ..
            } => {
                let cell = cell_of(self.laid, object, offset);
                self.store(task, standing, cell, value)
            }
            Next::Clear { object } => self.clear(task, standing, object),
            Next::Lock { mutex, place } => self.lock(task, standing, mutex, place),
            Next::Unlock { mutex, place } => self.unlock(task, standing, mutex, place),
            Next::Yield => {
                let standing = yielded(self.laid, task, standing);
                self.answer(task, standing, Answer::Done)
            }
            Next::Probe { mutex, .. } => self.probe(task, standing, mutex),
            Next::Fault { class, place } => Ok(self.halt(class, place)),
            Next::Spins => Ok(Stepped::Done),
            _ => Ok(Stepped::NotAllowed),
        }
    }

    // The task takes an answer and comes to its next action.
    fn answer(
        &mut self,
        task: u32,
        standing: TaskStanding,
        answer: Answer,
    ) -> Result<Stepped, NoMemory>
        requires { IsWorld self.old }
        ensures world { IsWorld self.new }
        ensures laid { self.new.laid ≡ self.old.laid }
        ensures leads { IfOk result (λ s. Leads (answered (laid_of self.old) task (standing_of
            (length self.old.laid.now.file.mutexes.items) standing) answer (world_of self.old)) s
            (world_of self.new)) }
        ensures same { OnErr result (world_of self.new ≡ world_of self.old) }
        ensures room { HasRoom self.old → IsOk result }
    {
        match self.tell(task, answer) {
            Err(NoMemory) => Err(NoMemory),
            Ok(()) => Ok(self.arrive(task, standing)),
        }
    }

    // The number of the choice is the value that the task takes, where it fits.
    fn openly(
        &mut self,
        task: u32,
        standing: TaskStanding,
        value: i128,
        fits: bool,
    ) -> Result<Stepped, NoMemory>
        requires { IsWorld self.old }
        ensures world { IsWorld self.new }
        ensures laid { self.new.laid ≡ self.old.laid }
        ensures leads { IfOk result (λ s. Leads (openly (laid_of self.old) task (standing_of
            (length self.old.laid.now.file.mutexes.items) standing) value fits (world_of self.old)) s
            (world_of self.new)) }
        ensures same { OnErr result (world_of self.new ≡ world_of self.old) }
        ensures room { HasRoom self.old → IsOk result }
    {
        if fits {
            self.answer(task, standing, Answer::Given(Value::Number(value)))
        } else {
            Ok(Stepped::NotAllowed)
        }
    }

    // A load of a cell.
    fn load(
        &mut self,
        task: u32,
        standing: TaskStanding,
        value: i128,
        cell: usize,
        scalar: Scalar,
        volatile: bool,
    ) -> Result<Stepped, NoMemory>
        requires { IsWorld self.old }
        ensures world { IsWorld self.new }
        ensures laid { self.new.laid ≡ self.old.laid }
        ensures leads { IfOk result (λ s. Leads (load_step (laid_of self.old) task (standing_of
            (length self.old.laid.now.file.mutexes.items) standing) value scalar volatile
            (slice_get self.old.contents.items cell) (world_of self.old)) s (world_of self.new)) }
        ensures same { OnErr result (world_of self.new ≡ world_of self.old) }
        ensures room { HasRoom self.old → IsOk result }
    {
        let fits = is_of(self.laid, scalar, Value::Number(value));
        match self.contents.get(cell) {
            None => Ok(Stepped::NotAllowed),
            Some(Content::Is(held)) if !volatile => {
                let held = *held;
                if value == 0 {
                    self.answer(task, standing, Answer::Given(held))
                } else {
                    Ok(Stepped::NotAllowed)
                }
            }
            Some(_) => self.openly(task, standing, value, fits),
        }
    }

    // A store to a cell.
    #[tactic(auto, using(crate::proofs::Lists::found_within, crate::proofs::Lists::none_past))]
    fn store(
        &mut self,
        task: u32,
        standing: TaskStanding,
        cell: usize,
        value: Value,
    ) -> Result<Stepped, NoMemory>
        requires { IsWorld self.old }
        ensures world { IsWorld self.new }
        ensures laid { self.new.laid ≡ self.old.laid }
        ensures leads { IfOk result (λ s. Leads (store_step (laid_of self.old) task (standing_of
            (length self.old.laid.now.file.mutexes.items) standing) (pos 0) cell value
            (slice_get self.old.contents.items cell) (world_of self.old)) s (world_of self.new)) }
        ensures same { OnErr result (world_of self.new ≡ world_of self.old) }
        ensures room { HasRoom self.old → IsOk result }
    {
        if self.contents.get(cell).is_none() {
            return Ok(Stepped::NotAllowed);
        }
        match self.tell(task, Answer::Done) {
            Err(NoMemory) => Err(NoMemory),
            Ok(()) => {
                put(&mut self.contents, cell, Content::Is(value));
                Ok(self.arrive(task, standing))
            }
        }
    }

    // The clearing of an object.
    fn clear(&mut self, task: u32, standing: TaskStanding, object: u32) -> Result<Stepped, NoMemory>
        requires { IsWorld self.old }
        ensures world { IsWorld self.new }
        ensures laid { self.new.laid ≡ self.old.laid }
        ensures leads { IfOk result (λ s. Leads (answered (laid_of self.old) task (standing_of
            (length self.old.laid.now.file.mutexes.items) standing) Answers.Done
            (cleared (laid_of self.old) object (world_of self.old))) s (world_of self.new)) }
        ensures same { OnErr result (world_of self.new ≡ world_of self.old) }
        ensures room { HasRoom self.old → IsOk result }
    {
        match self.tell(task, Answer::Done) {
            Err(NoMemory) => Err(NoMemory),
            Ok(()) => {
                clear_object(self.laid, object, &mut self.contents);
                Ok(self.arrive(task, standing))
            }
        }
    }

    // A mutex is taken, or the task waits for it.
    #[tactic(auto, using(crate::proofs::StandingViews::stands_there))]
    fn lock(
        &mut self,
        task: u32,
        standing: TaskStanding,
        mutex: u32,
        place: Place,
    ) -> Result<Stepped, NoMemory>
        requires { IsWorld self.old }
        ensures world { IsWorld self.new }
        ensures laid { self.new.laid ≡ self.old.laid }
        ensures leads { IfOk result (λ s. Leads (lock_step (laid_of self.old) task (standing_of
            (length self.old.laid.now.file.mutexes.items) standing) mutex place (world_of self.old)) s
            (world_of self.new)) }
        ensures same { OnErr result (world_of self.new ≡ world_of self.old) }
        ensures room { HasRoom self.old → IsOk result }
    {
        let mutexes = self.laid.file.mutexes.len();
        if standing.holds(mutexes, mutex) {
            return Ok(self.halt(Class::Lock, place));
        }
        if is_taken(mutexes, mutex, &self.standings) {
            self.stand(task, standing.with_status(Status::Blocked(mutex)));
            return Ok(Stepped::Done);
        }
        self.answer(
            task,
            standing.with_mutex(mutexes, mutex, true),
            Answer::Done,
        )
    }

    // A mutex is given back, and those who wait for it are ready again.
    #[tactic(auto, using(crate::proofs::StandingViews::all_awake))]
    fn unlock(
        &mut self,
        task: u32,
        standing: TaskStanding,
        mutex: u32,
        place: Place,
    ) -> Result<Stepped, NoMemory>
        requires { IsWorld self.old }
        ensures world { IsWorld self.new }
        ensures laid { self.new.laid ≡ self.old.laid }
        ensures leads { IfOk result (λ s. Leads (unlock_step (laid_of self.old) task (standing_of
            (length self.old.laid.now.file.mutexes.items) standing) mutex place (world_of self.old)) s
            (world_of self.new)) }
        ensures same { OnErr result (world_of self.new ≡ world_of self.old) }
        ensures room { HasRoom self.old → IsOk result }
    {
        let mutexes = self.laid.file.mutexes.len();
        if !standing.holds(mutexes, mutex) {
            return Ok(self.halt(Class::Lock, place));
        }
        match self.tell(task, Answer::Done) {
            Err(NoMemory) => Err(NoMemory),
            Ok(()) => {
                self.free(mutex);
                Ok(self.arrive(task, standing.with_mutex(mutexes, mutex, false)))
            }
        }
    }

    // Whether some task holds a mutex.
    fn probe(&mut self, task: u32, standing: TaskStanding, mutex: u32) -> Result<Stepped, NoMemory>
        requires { IsWorld self.old }
        ensures world { IsWorld self.new }
        ensures laid { self.new.laid ≡ self.old.laid }
        ensures leads { IfOk result (λ s. Leads (answered (laid_of self.old) task (standing_of
            (length self.old.laid.now.file.mutexes.items) standing) (Answers.Given
            (truth_value (is_taken mutex (world_of self.old).standings))) (world_of self.old)) s
            (world_of self.new)) }
        ensures same { OnErr result (world_of self.new ≡ world_of self.old) }
        ensures room { HasRoom self.old → IsOk result }
    {
        let mutexes = self.laid.file.mutexes.len();
        let taken = is_taken(mutexes, mutex, &self.standings);
        self.answer(task, standing, Answer::Given(truth_value(taken)))
    }

    // An error ends the run.
    fn halt(&mut self, class: Class, place: Place) -> Stepped
        requires { IsWorld self.old }
        ensures world { IsWorld self.new }
        ensures laid { self.new.laid ≡ self.old.laid }
        ensures leads { Leads (halted class place (world_of self.old)) result (world_of self.new) }
    {
        self.stopped = true;
        Stepped::Stopped { class, place }
    }
}
