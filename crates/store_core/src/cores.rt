//! The store core: what is lent, and what has come in.
ghost use Rattle.std.specs.Prelude.{◌≡◌, ◌↔◌, ◌+◌, ◌^◌, ◌<◌, ◌≤◌, if◌then◌else◌, IfOk, OnErr, IsTrue, [], replicate};
ghost use Rattle.std.specs.Prelude.{None, Some, slice_get, option_map};
ghost use Rattle.std.specs.Option.{option_copied};
ghost use Rattle.std.specs.Arc.{arc_value};
ghost use Rattle.store_core.specs.Histories.{version_of, lent_to, with_added, store_of, store_at, MayRead, IsLegal};
ghost use Rattle.store_core.specs.Histories.{IsQuiet};
ghost use Rattle.store_core.specs.KeptValues.{IsKept};
ghost use Rattle.store_core.specs.reading.Slots.{loan_at};
ghost use Rattle.store_core.specs.Answers.{LendsFreeTask, IsGrown};
ghost use Rattle.store_core.specs.Events.{past_of};
ghost use Rattle.store_core.specs.Outcomes.{Takes, Publishes};
ghost use Rattle.store_core.specs.Turns.{IsNextTask};

use crate::contributions::Contribution;
use crate::events::Event;
use crate::laws::legal_histories;
use crate::outcomes::{Grew, Refused, Taken};
use crate::slots::{Slot, any_lent, first_free, fresh_slots};
use crate::snapshots::Snapshot;
use std::alloc::{AllocError, Global};
use std::marker::Model;
use std::sync::Arc;
use tm_lattice::{Lattice, NoMemory, Warm};

/// A store that workers share: it lends tasks, and takes in what they add.
///
/// Contracts see its program, its number of workers, what happened so far, and what is kept for each task. Its type
/// keeps that this history is legal, and that the store and the version are those that it folds to.
#[derive(Drop)]
pub struct StoreCore<P: Warm> {
    program: Arc<P>,
    workers: u32,
    store: Arc<P::Store>,
    version: u64,
    history: Vec<Event<P>>,
    loans: Vec<Option<Snapshot<P>>>,
    slots: Vec<Slot<P::Kept>>,
}

impl<P: Warm> Model for StoreCore<P> {
    ghost use Rattle.std.specs.Prelude.{map};
    ghost use Rattle.std.specs.Arc.{arc_value};
    ghost use Rattle.store_core.specs.Cores.{Core};
    ghost use Rattle.store_core.specs.laws.Codes.{core_code};

    ghost Value = { Core P P.Store P.Kept };

    ghost coded = { core_code P.code P.Store.code P.Kept.code };

    ghost use Rattle.store_core.specs.Events.{past_of};
    ghost use Rattle.store_core.specs.reading.Slots.{IsCore};

    ghost view = { λ a. record {
      program = arc_value a.program;
      workers = a.workers;
      past = past_of a.history.items;
      kept = map (λ slot. slot.kept) a.slots.items;
    } };

    ghost invariant = { λ a. IsCore P.Store.Lattice P.Passer P.made P.made_over (arc_value a.program) a.workers
        (past_of a.history.items) (arc_value a.store) a.version a.loans.items a.slots.items };
}

// So many workers that are lent nothing.
fn nothing_lent<P: Warm>(alloc: Global, count: u32) -> Result<Vec<Option<Snapshot<P>>>, AllocError>
    ensures { IfOk result (λ loans. loans.items ≡ replicate count None) }
{
    let mut loans = Vec::new(alloc);
    for _ in 0..count {
        loans.push(None)?;
    }
    Ok(loans)
}

// The version after a publication.
fn next_version(version: u64, raised: bool) -> u64
    requires { version + 1 < 2 ^ 64 }
    ensures { result ≡ (if raised then version + 1 else version) }
{
    if raised { version + 1 } else { version }
}

// A store after something was added to it: the rounded join.
fn with_added<P: Warm>(
    alloc: Global,
    program: &P,
    now: &P::Store,
    added: &P::Store,
) -> Result<P::Store, NoMemory>
    requires { P.Store.is_marks (P.marks_of program.now) }
    ensures { IfOk result (λ after. after ≡ with_added P.Store.Lattice P.Passer program.now now.now added.now) }
{
    let joined = now.join(alloc, added)?;
    joined.round(alloc, program.marks())
}

impl<P: Warm> StoreCore<P> {
    /// The core of a program for 1 to 16 workers, with the least store at version 0: nothing has happened, and nothing
    /// is lent.
    pub fn open(alloc: Global, program: Arc<P>, workers: u32) -> Result<StoreCore<P>, NoMemory>
        requires some { 1 ≤ workers }
        requires most { workers ≤ 16 }
        ensures program { IfOk result (λ core. core.program ≡ arc_value program) }
        ensures workers { IfOk result (λ core. core.workers ≡ workers) }
        ensures past { IfOk result (λ core. core.past ≡ []) }
    {
        let tasks = program.tasks();
        let store = Arc::new(alloc, program.bottom(alloc)?)?;
        Ok(StoreCore {
            loans: nothing_lent(alloc, workers)?,
            slots: fresh_slots(alloc, tasks)?,
            program,
            workers,
            store,
            version: 0,
            history: Vec::new(alloc),
        })
    }

    /// Lends the worker the next task, with the present store and what was kept for the task: of the tasks that are
    /// neither lent nor settled the one whose last publication had read the oldest version. A task of which nothing was
    /// published comes before the others, and of several that are as old the one of the lowest number.
    ///
    /// `Holding` exactly where the worker is lent a task already; else `AllQuiet` exactly where every task is settled
    /// and none is lent; else `Others` exactly where each task that is not settled is lent. In these cases and after
    /// want of memory nothing has changed.
    pub fn take(&mut self, worker: u32) -> Result<Taken<P>, NoMemory>
        requires { worker < self.old.workers }
        ensures { Takes P.Store.Lattice P.Passer self.old self.new worker result }
    {
        match &self.loans[worker as usize] {
            Some(lent) => Ok(Taken::Holding(lent.task)),
            None => match first_free(&self.slots, self.version) {
                Some(task) => Ok(Taken::Next(self.lend(worker, task)?)),
                None => {
                    if any_lent(&self.slots) {
                        return Ok(Taken::Others);
                    }
                    Ok(Taken::AllQuiet)
                }
            },
        }
    }

    // Lends the worker this task, the next one.
    fn lend(&mut self, worker: u32, task: u32) -> Result<Snapshot<P>, NoMemory>
        requires may { MayRead P.Store.Lattice P.Passer self.old.program self.old.workers self.old.past
            worker task (version_of self.old.past) }
        requires next { IsNextTask (P.task_count self.old.program) self.old.past task }
        ensures lent { IfOk result (LendsFreeTask P.Store.Lattice P.Passer self.old self.new worker) }
        ensures err { OnErr result (self.new ≡ self.old) }
    {
        legal_histories::<P>();
        let version = self.version;
        let program = Arc::try_clone(&self.program)?;
        let store = Arc::try_clone(&self.store)?;
        let loan = Snapshot {
            program: Arc::try_clone(&self.program)?,
            task,
            version,
            store: Arc::try_clone(&self.store)?,
            kept: None,
        };
        self.history.push(Event::Read {
            worker,
            task,
            version,
        })?;
        // Nothing can fail from here on.
        self.loans[worker as usize] = Some(loan);
        let kept = self.slots[task as usize].lend();
        Ok(Snapshot {
            program,
            task,
            version,
            store,
            kept,
        })
    }

    /// Takes in what a worker brings back: the store becomes the rounded join, and the version rises by one exactly
    /// where the store changes.
    ///
    /// `NotLent` exactly where nothing is lent to the worker, so also where there is no such worker; else `Stranger`
    /// exactly where another program, task or store is lent to it, and then it carries both. A refusal, want of memory
    /// included, changes nothing: all memory is taken before the first change.
    pub fn publish(
        &mut self,
        worker: u32,
        contribution: Contribution<P>,
    ) -> Result<Grew, Refused<P>>
        ensures { Publishes P.Store.Lattice P.Passer self.old self.new worker contribution result }
    {
        let Some(lent) = self.lent(worker) else {
            return Err(Refused::NotLent);
        };
        if !lent.is_answered_by(&contribution) {
            return match lent.bare() {
                Ok(lent) => Err(Refused::Stranger {
                    lent,
                    brought: contribution,
                }),
                Err(_) => Err(Refused::NoMemory),
            };
        }
        let version = lent.version;
        match self.accept(worker, version, contribution) {
            Ok(grew) => Ok(grew),
            Err(_) => Err(Refused::NoMemory),
        }
    }

    // What the worker is lent.
    fn lent(&self, worker: u32) -> Option<&Snapshot<P>>
        ensures { option_copied result ≡ loan_at P.Store.Lattice P.Passer P.made P.made_over
            self.now.program self.now.past (lent_to self.now.past worker) }
    {
        match self.loans.get(worker as usize) {
            Some(loan) => loan.as_ref(),
            None => None,
        }
    }

    // Takes in the pass over the version that the worker was lent.
    fn accept(
        &mut self,
        worker: u32,
        version: u64,
        contribution: Contribution<P>,
    ) -> Result<Grew, NoMemory>
        requires lent { lent_to self.old.past worker ≡ Some (contribution.task, version) }
        requires program { contribution.program ≡ self.old.program }
        requires store { contribution.store ≡ store_at P.Store.Lattice P.Passer self.old.program self.old.past version }
        ensures grown { IfOk result (λ grew.
            IsGrown P.Store.Lattice P.Passer self.old self.new worker contribution grew.version grew.raised) }
        ensures err { OnErr result (self.new ≡ self.old) }
    {
        legal_histories::<P>();
        let alloc = *self.history.allocator();
        let Contribution {
            program,
            task,
            version: _,
            store: over,
            added,
            kept,
        } = contribution;
        drop(program);
        drop(over);
        let next = with_added(alloc, &*self.program, &*self.store, &*added)?;
        let raised = !next.below(&*self.store);
        let after = next_version(self.version, raised);
        let store = Arc::new(alloc, next)?;
        self.history.push(Event::Publish {
            worker,
            task,
            version,
            after,
            added,
        })?;
        // Nothing can fail from here on.
        self.store = store;
        self.version = after;
        self.loans[worker as usize] = None;
        self.slots[task as usize] = Slot {
            lent: false,
            seen: Some(version),
            kept: Some(kept),
        };
        Ok(Grew {
            version: after,
            raised,
        })
    }

    /// What happened so far, in the order of time: a legal history for the number of workers.
    pub fn history(&self) -> &[Event<P>]
        ensures past { past_of result.now ≡ self.now.past }
        ensures legal { IsLegal P.Store.Lattice P.Passer self.now.program self.now.workers self.now.past }
    {
        &self.history
    }

    /// The present version.
    pub fn version(&self) -> u64
        ensures { result ≡ version_of self.now.past }
    {
        self.version
    }

    /// The present store.
    pub fn store(&self) -> &P::Store
        ensures { result.now ≡ store_of P.Store.Lattice P.Passer self.now.program self.now.past }
    {
        &self.store
    }

    /// The program that it was opened with.
    pub fn program(&self) -> &Arc<P>
        ensures value { arc_value result.now ≡ self.now.program }
        ensures program { P.is_program self.now.program }
    {
        &self.program
    }

    /// The number of workers that it was opened for.
    pub fn workers(&self) -> u32
        ensures { result ≡ self.now.workers }
    {
        self.workers
    }

    /// Whether every task is settled and none is lent.
    pub fn quiet(&self) -> bool
        ensures { IsTrue result ↔ IsQuiet (P.task_count self.now.program) self.now.past }
    {
        match first_free(&self.slots, self.version) {
            Some(_) => false,
            None => {
                if any_lent(&self.slots) {
                    return false;
                }
                true
            }
        }
    }

    /// What the last pass of a task has kept: None exactly where the task is lent or nothing of it was published.
    pub fn kept(&self, task: u32) -> Option<&P::Kept>
        ensures { IsKept P.Store.Lattice P.Passer P.made P.made_over
            self.now.program self.now.past task (option_copied result) }
    {
        match self.slots.get(task as usize) {
            Some(slot) => slot.kept.as_ref(),
            None => None,
        }
    }
}
