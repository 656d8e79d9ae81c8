//! Checks side by side: what several threads may share, and the checks of all that is numbered there.
ghost use Rattle.std.specs.Prelude.{◌≡◌, ◌<◌, ℕ, length, get_or, IfOk};
ghost use Rattle.std.specs.declared.result.Result.{Result as AResult};
ghost use Rattle.tm_lattice.specs.declared.memory.NoMemory.{NoMemory as ANoMemory};
ghost use Rattle.post_recheck.specs.declared.bodies.BodyCheck.{BodyCheck as ACheck};

use crate::bodies::{BodyCheck, checked_body};
use crate::solutions::Table;
use cell_env::State;
use interfere_set::Store;
use mutex_configs::Program;
use pointer_dom::AbsValue;
use rayon::prelude::*;
use shared_programs::ProgramFacts;
use std::alloc::Global;
use std::thread::Threads;
use tm_lattice::NoMemory;

// What is checked by numbers, and may be shared by threads.
pub(crate) trait Numbered: Sync {
    // Which numbers there are.
    ghost has: { Self → ℕ → Type 0 };

    // What the check of a number finds.
    ghost finds: { Self → ℕ → ACheck → Type 0 };

    // The check of a number.
    fn check(&self, number: usize) -> Result<BodyCheck, NoMemory>
        requires { has self.now number }
        ensures { IfOk result (finds self.now number) };
}

// A program with its facts, tables, a store, and the states in which its tasks begin.
#[derive(Clone, Copy)]
pub(crate) struct Given<'a> {
    pub(crate) alloc: Global,
    pub(crate) program: &'a Program,
    pub(crate) facts: &'a ProgramFacts,
    pub(crate) tables: &'a [Table],
    pub(crate) store: &'a Store,
    pub(crate) entries: &'a [Option<State<AbsValue>>],
}

impl<'a> Numbered for Given<'a> {
    ghost use Rattle.std.specs.Prelude.{◌<◌, length};
    ghost use Rattle.shared_programs.specs.program_systems.ProgramFacts.{program_with};
    ghost use Rattle.post_recheck.specs.Pairs.{pair_of};
    ghost use Rattle.post_recheck.specs.Bodies.{IsBodyCheck, IsGiven};

    ghost has = { λ g number. (number < length g.tables.now)
        × IsGiven g.program.now g.facts.now (pair_of g.tables.now g.store.now) g.entries.now };

    ghost finds = { λ g number. IsBodyCheck (program_with g.program.now g.facts.now)
        (pair_of g.tables.now g.store.now) number };

    fn check(&self, number: usize) -> Result<BodyCheck, NoMemory> {
        checked_body(
            self.alloc,
            self.program,
            self.facts,
            self.tables,
            self.store,
            self.entries,
            number as u32,
        )
    }
}

// The checks of the numbers below a count, in order, by several threads where they can be made.
pub(crate) fn checks_of<R: Threads + Sync, N: Numbered>(
    rt: &R,
    alloc: Global,
    of: &N,
    count: usize,
) -> Result<Vec<Result<BodyCheck, NoMemory>>, NoMemory>
    requires { (number : ℕ) → number < count → N.has of.now number }
    ensures count { IfOk result (λ v. length v.items ≡ count) }
    ensures each { IfOk result (λ v. (t : ℕ) (none : AResult ACheck ANoMemory) → t < length v.items
        → IfOk (get_or v.items t none) (N.finds of.now t)) }
{
    // By itself a range is split into pieces of 1,024 numbers.
    let checks = (0..count)
        .into_par_iter()
        .with_min_len(1)
        .map(
            |number: usize| -> Result<BodyCheck, NoMemory>
                requires { N.has of.now number }
                ensures { IfOk result (N.finds of.entry.now number) }
            { of.check(number) },
        )
        .collect::<Vec<_>>(rt, alloc)?;
    Ok(checks)
}
