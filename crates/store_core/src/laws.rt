//! The laws of legal histories, of answers and of lists of calls. They speak of definitions alone: no core is called.
ghost use Rattle.std.specs.Prelude.{◌≡◌, ◌≢◌, ◌↔◌, ◌+◌, ◌<◌, ◌≤◌, ◌++◌, ℕ, List, ◌∷◌, Option, Result, Err, length};
ghost use Rattle.tm_lattice.specs.Rounds.{up, IsClosed};
ghost use Rattle.tm_lattice.specs.declared.memory.NoMemory as memory;
ghost use Rattle.store_core.specs.Histories.{Publish, Past, version_of, with_added, store_of, store_at, IsLegal};
ghost use Rattle.store_core.specs.Histories.{IsQuiet, IsPassOverItsReading};
ghost use Rattle.store_core.specs.Cores.{Brought, Core};
ghost use Rattle.store_core.specs.KeptValues.{IsKept, IsKeptNow};
ghost use Rattle.store_core.specs.Outcomes.{Takes, Publishes};
ghost use Rattle.store_core.specs.Calls.{Call, Lead, GoesOn};
ghost use Rattle.store_core.specs.declared.outcomes.Taken.{Taken};
ghost use Rattle.store_core.specs.declared.outcomes.Refused.{Refused};
ghost use Rattle.store_core.specs.declared.outcomes.Grew.{Grew};

use tm_lattice::{Passer, Warm, every_schedule};

/// The laws of every legal history, for every program and number of workers.
///
/// The store fits the program and only grows. What a publication adds is the pass over the store that the same worker
/// read. A version counts the publications that raised the store, and the store of version k lies below the k-th
/// round. A quiet store is closed: it is that round, which every later round repeats; so two quiet histories of one
/// program end in one store, however many workers they have. The body cites the law of all schedules of `tm_lattice`.
pub fn legal_histories<P: Passer>()
    ensures counted { (program : P) (workers : ℕ) (past : Past P.Store) → P.is_program program
        → IsLegal P.Store.Lattice P.Passer program workers past → version_of past ≤ length past }
    ensures grows { (program : P) (workers : ℕ) (later past : Past P.Store) → P.is_program program
        → IsLegal P.Store.Lattice P.Passer program workers (later ++ past)
        → P.Store.leq (store_of P.Store.Lattice P.Passer program past)
        (store_of P.Store.Lattice P.Passer program (later ++ past)) }
    ensures publication { (program : P) (workers worker task version after : ℕ) (added : P.Store)
        (later past : Past P.Store) → P.is_program program
        → IsLegal P.Store.Lattice P.Passer program workers (later ++ Publish worker task version after added ∷ past)
        → IsPassOverItsReading P.Store.Lattice P.Passer program past worker task version added }
    ensures below { (program : P) (workers : ℕ) (past : Past P.Store) → P.is_program program
        → IsLegal P.Store.Lattice P.Passer program workers past
        → P.Store.leq (store_of P.Store.Lattice P.Passer program past)
        (up P.Store.Lattice P.Passer program (version_of past)) }
    ensures quiet { (program : P) (workers more : ℕ) (past : Past P.Store) → P.is_program program
        → IsLegal P.Store.Lattice P.Passer program workers past → IsQuiet (P.task_count program) past
        → store_of P.Store.Lattice P.Passer program past
        ≡ up P.Store.Lattice P.Passer program (version_of past + more) }
    ensures closed { (program : P) (workers : ℕ) (past : Past P.Store) → P.is_program program
        → IsLegal P.Store.Lattice P.Passer program workers past → IsQuiet (P.task_count program) past
        → IsClosed P.Store.Lattice P.Passer program (store_of P.Store.Lattice P.Passer program past) }
    ensures one_end { (program : P) (workers others : ℕ) (one other : Past P.Store) → P.is_program program
        → IsLegal P.Store.Lattice P.Passer program workers one → IsQuiet (P.task_count program) one
        → IsLegal P.Store.Lattice P.Passer program others other → IsQuiet (P.task_count program) other
        → store_of P.Store.Lattice P.Passer program one ≡ store_of P.Store.Lattice P.Passer program other }

    // The present store, and the store of each version, fit the program; each of these lies below the present one.
    ensures fits { (program : P) (workers : ℕ) (past : Past P.Store) → P.is_program program
        → IsLegal P.Store.Lattice P.Passer program workers past
        → P.fits program (store_of P.Store.Lattice P.Passer program past) }
    ensures earlier_fits { (program : P) (workers version : ℕ) (past : Past P.Store) → P.is_program program
        → IsLegal P.Store.Lattice P.Passer program workers past
        → P.fits program (store_at P.Store.Lattice P.Passer program past version) }
    ensures earlier_below { (program : P) (workers version : ℕ) (past : Past P.Store) → P.is_program program
        → IsLegal P.Store.Lattice P.Passer program workers past
        → P.Store.leq (store_at P.Store.Lattice P.Passer program past version)
        (store_of P.Store.Lattice P.Passer program past) }

    // The marks are marks, and the order tells whether a pass over an earlier store changes the present one.
    ensures marks { (program : P) → P.is_program program → P.Store.is_marks (P.marks_of program) }
    ensures unraised { (program : P) (workers task version : ℕ) (past : Past P.Store) → P.is_program program
        → IsLegal P.Store.Lattice P.Passer program workers past → task < P.task_count program
        → let now = store_of P.Store.Lattice P.Passer program past in
        let read = store_at P.Store.Lattice P.Passer program past version in
        let after = with_added P.Store.Lattice P.Passer program now (P.passed program task read) in
        P.Store.leq after now ↔ (after ≡ now) }
{
    every_schedule::<P>();
}

/// Over every list of calls, each answered by its cause or by want of memory: the program and the number of workers
/// stay, and the history goes on and stays legal.
pub fn every_list_of_calls<P: Warm>()
    ensures { (before after : Core P P.Store P.Kept) (calls : List (Call P P.Store P.Store.Marks P.Kept))
        → IsLegal P.Store.Lattice P.Passer before.program before.workers before.past
        → Lead P.Store.Lattice P.Passer before calls after
        → GoesOn P.Store.Lattice P.Passer before after }
{}

/// Each call has one answer, want of memory aside, and leads to one core: the causes exclude each other, and one of the
/// free tasks is the next.
pub fn one_answer<P: Warm>()
    ensures take { (before one other : Core P P.Store P.Kept) (worker : ℕ)
        (a b : Result (Taken P P.Kept P.Store P.Store.Marks) memory.NoMemory)
        → Takes P.Store.Lattice P.Passer before one worker a → ((none : memory.NoMemory) → a ≢ Err none)
        → Takes P.Store.Lattice P.Passer before other worker b → ((none : memory.NoMemory) → b ≢ Err none)
        → (a ≡ b) × (one ≡ other) }
    ensures publish { (before one other : Core P P.Store P.Kept) (worker : ℕ) (brought : Brought P P.Store P.Kept)
        (a b : Result Grew (Refused P P.Kept P.Store P.Store.Marks))
        → Publishes P.Store.Lattice P.Passer before one worker brought a → a ≢ Err Refused.NoMemory
        → Publishes P.Store.Lattice P.Passer before other worker brought b → b ≢ Err Refused.NoMemory
        → (a ≡ b) × (one ≡ other) }
{}

/// In a quiet history each task has what its last pass has kept, made over the present store.
pub fn quiet_kept<P: Warm>()
    ensures { (program : P) (workers task : ℕ) (past : Past P.Store) (kept : Option P.Kept)
        → IsLegal P.Store.Lattice P.Passer program workers past → IsQuiet (P.task_count program) past
        → task < P.task_count program
        → IsKept P.Store.Lattice P.Passer P.made P.made_over program past task kept
        → IsKeptNow P.Store.Lattice P.Passer P.made P.made_over program past task kept }
{}
