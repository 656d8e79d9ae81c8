//! What a worker brings back.
ghost use Rattle.std.specs.Prelude.{◌≡◌, IfOk};

use crate::snapshots::Snapshot;
use std::alloc::Global;
use std::marker::Model;
use std::sync::Arc;
use tm_lattice::{NoMemory, Warm};

/// What a task adds to the store that it read, and what its pass has kept.
///
/// Its type keeps that what it adds is the pass of its program and task over its store, and that the kept value is one
/// of this program and task, made over this store.
#[derive(Drop)]
pub struct Contribution<P: Warm> {
    pub(crate) program: Arc<P>,
    pub(crate) task: u32,
    pub(crate) version: u64,
    pub(crate) store: Arc<P::Store>,
    pub(crate) added: Arc<P::Store>,
    pub(crate) kept: P::Kept,
}

impl<P: Warm> Model for Contribution<P> {
    ghost use Rattle.std.specs.Prelude.{◌≡◌, ◌<◌};
    ghost use Rattle.std.specs.Arc.{arc_value};
    ghost use Rattle.store_core.specs.Cores.{Brought};
    ghost use Rattle.store_core.specs.laws.Codes.{brought_code};

    ghost Value = { Brought P P.Store P.Kept };

    ghost coded = { brought_code P.code P.Store.code P.Kept.code };

    ghost view = { λ a. record {
      program = arc_value a.program;
      task = a.task;
      version = a.version;
      store = arc_value a.store;
      added = arc_value a.added;
      kept = a.kept;
    } };

    ghost invariant = { λ a. P.is_program (arc_value a.program)
        × (a.task < P.task_count (arc_value a.program))
        × P.fits (arc_value a.program) (arc_value a.store)
        × (arc_value a.added ≡ P.passed (arc_value a.program) a.task (arc_value a.store))
        × P.made (arc_value a.program) a.task a.kept
        × (P.made_over a.kept ≡ arc_value a.store) };
}

impl<P: Warm> Contribution<P> {
    /// Runs the pass of what was lent: from what an earlier pass has kept where there is such, else from nothing.
    pub fn of(alloc: Global, snapshot: Snapshot<P>) -> Result<Contribution<P>, NoMemory>
        ensures program { IfOk result (λ brought. brought.program ≡ snapshot.program) }
        ensures task { IfOk result (λ brought. brought.task ≡ snapshot.task) }
        ensures version { IfOk result (λ brought. brought.version ≡ snapshot.version) }
        ensures store { IfOk result (λ brought. brought.store ≡ snapshot.store) }
        ensures added { IfOk result (λ brought.
            brought.added ≡ P.passed snapshot.program snapshot.task snapshot.store) }
        ensures kept { IfOk result (λ brought. P.made snapshot.program snapshot.task brought.kept) }
        ensures over { IfOk result (λ brought. P.made_over brought.kept ≡ snapshot.store) }
    {
        let Snapshot {
            program,
            task,
            version,
            store,
            kept,
        } = snapshot;
        let (kept, added) = match kept {
            Some(kept) => program.warm(alloc, task, kept, &store)?,
            None => program.cold(alloc, task, &store)?,
        };
        let added = Arc::new(alloc, added)?;
        Ok(Contribution {
            program,
            task,
            version,
            store,
            added,
            kept,
        })
    }
}
