//! What a worker is lent.
ghost use Rattle.std.specs.Prelude.{◌≡◌, None, IfOk, IsTrue, ◌↔◌};

use crate::contributions::Contribution;
use std::alloc::Global;
use std::marker::Model;
use std::sync::Arc;
use tm_lattice::{Lattice, NoMemory, Warm};

/// A task that a worker is lent, with the store that it is to read and what an earlier pass of the task has kept.
///
/// Its type keeps that the task is one of the program's, that the store fits the program, and that the kept value is
/// one of this program and task, made over a store below this one.
#[derive(Drop)]
pub struct Snapshot<P: Warm> {
    pub(crate) program: Arc<P>,
    pub(crate) task: u32,
    pub(crate) version: u64,
    pub(crate) store: Arc<P::Store>,
    pub(crate) kept: Option<P::Kept>,
}

impl<P: Warm> Model for Snapshot<P> {
    ghost use Rattle.std.specs.Prelude.{◌<◌, IfSome};
    ghost use Rattle.std.specs.Arc.{arc_value};
    ghost use Rattle.store_core.specs.Cores.{Lent};
    ghost use Rattle.store_core.specs.laws.Codes.{lent_code};

    ghost Value = { Lent P P.Store P.Kept };

    ghost coded = { lent_code P.code P.Store.code P.Kept.code };

    ghost view = { λ a. record {
      program = arc_value a.program;
      task = a.task;
      version = a.version;
      store = arc_value a.store;
      kept = a.kept;
    } };

    ghost invariant = { λ a. P.is_program (arc_value a.program)
        × (a.task < P.task_count (arc_value a.program))
        × P.fits (arc_value a.program) (arc_value a.store)
        × IfSome a.kept (λ kept. P.made (arc_value a.program) a.task kept
        × P.fits (arc_value a.program) (P.made_over kept)
        × P.Store.leq (P.made_over kept) (arc_value a.store)) };
}

impl<P: Warm> Snapshot<P> {
    /// The number of the task.
    pub fn task(&self) -> u32
        ensures { result ≡ self.now.task }
    {
        self.task
    }

    /// The version of the store.
    pub fn version(&self) -> u64
        ensures { result ≡ self.now.version }
    {
        self.version
    }

    // The same without what was kept.
    pub(crate) fn bare(&self) -> Result<Snapshot<P>, NoMemory>
        ensures { IfOk result (λ bare. bare ≡ record self.now { kept = None }) }
    {
        Ok(Snapshot {
            program: Arc::try_clone(&self.program)?,
            task: self.task,
            version: self.version,
            store: Arc::try_clone(&self.store)?,
            kept: None,
        })
    }

    // Whether the contribution is of this program, task and store.
    pub(crate) fn is_answered_by(&self, brought: &Contribution<P>) -> bool
        ensures { IsTrue result
            ↔ ((self.now.program ≡ brought.now.program) × (self.now.task ≡ brought.now.task)
            × (self.now.store ≡ brought.now.store)) }
    {
        let program = self.program.same(&*brought.program);
        let store = same_store(&*self.store, &*brought.store);
        program & (self.task == brought.task) & store
    }
}

// Whether the two stores are equal: each is below the other. The two first calls tell that both are values.
fn same_store<L: Lattice>(one: &L, other: &L) -> bool
    ensures { IsTrue result ↔ (one.now ≡ other.now) }
{
    let _one = one.is_nothing();
    let _other = other.is_nothing();
    one.below(other) && other.below(one)
}
