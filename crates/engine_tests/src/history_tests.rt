//! Histories of passes.
ghost use Rattle.std.specs.Prelude.{◌≡◌, ◌<◌, IfOk};

use crate::toy::{Numbers, TwoTasks};
use std::alloc::Global;
use std::test::Fail;
use tm_lattice::{Lattice, NoMemory, Passer};

// A store after a task's pass over some store was published into it.
fn published<P: Passer>(
    alloc: Global,
    program: &P,
    now: &P::Store,
    task: u32,
    read: &P::Store,
) -> Result<P::Store, NoMemory>
    requires program { P.is_program program.now }
    requires task { task < P.task_count program.now }
    requires fits { P.fits program.now read.now }
    ensures { IfOk result (λ after.
        after ≡ P.Store.rounded (P.marks_of program.now) (P.Store.joined now.now
        (P.passed program.now task read.now))) }
{
    let added = program.pass(alloc, task, read)?;
    let joined = now.join(alloc, &added)?;
    joined.round(alloc, program.marks())
}

/// The store where the second task's pass comes behind what the first one published.
fn in_turn(alloc: Global, program: &TwoTasks, bottom: &Numbers) -> Result<Numbers, NoMemory> {
    let first = published(alloc, program, bottom, 0, bottom)?;
    published(alloc, program, &first, 1, &first)
}

/// The store where passes of the second task come before it, and over a store from before it.
fn out_of_turn(alloc: Global, program: &TwoTasks, bottom: &Numbers) -> Result<Numbers, NoMemory> {
    let idle = published(alloc, program, bottom, 1, bottom)?;
    let late = published(alloc, program, &idle, 0, bottom)?;
    published(alloc, program, &late, 1, bottom)
}

/// Whether both orders end in the store of all numbers, though the second one has less on its way. (What owns a program
/// has one way out behind it.)
fn is_one_store(alloc: Global, program: &TwoTasks) -> Result<bool, NoMemory> {
    let bottom = program.bottom(alloc)?;
    let all = Numbers::new(true, true, true, true);
    let then = in_turn(alloc, program, &bottom)?;
    let stale = out_of_turn(alloc, program, &bottom)?;
    let last = published(alloc, program, &stale, 1, &stale)?;
    let ends = bottom.is_nothing() & then.same(&all) & last.same(&all);
    Ok(ends & !stale.below(&bottom) & !all.below(&stale))
}

/// Whether a program is that of which the first task adds 0 where `first` says so.
fn is_program(program: &TwoTasks, first: bool) -> bool {
    let other = TwoTasks::new(first);
    program.same(&other)
}

#[test]
fn every_order_ends_in_one_store(rt: HostRuntime) -> Result<(), Fail> {
    let program = TwoTasks::new(true);
    assert!(rt; is_program(&program, true) & !is_program(&program, false));
    let is_one = is_one_store(rt.alloc(), &program)?;
    assert!(rt; is_one);
    Ok(())
}
