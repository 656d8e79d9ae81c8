//! The store core by hand: each call with what it answers, and the history.
ghost use Rattle.std.specs.Prelude.{◌≤◌};

use crate::toy::{Numbers, TwoTasks};
use std::alloc::Global;
use std::process::Abort;
use std::sync::Arc;
use std::test::Fail;
use store_core::{Contribution, Event, Grew, Refused, Snapshot, StoreCore, Taken};
use tm_lattice::NoMemory;

// What a core answered, without what it lent.
#[derive(Clone, Copy, PartialEq, Eq)]
enum Answer {
    // The task and the version.
    Next(u32, u64),
    Holding(u32),
    Others,
    AllQuiet,
    // The version since then, and whether it rose.
    Grew(u64, bool),
    NotLent,
    // The task that is lent, and the version.
    Stranger(u32, u64),
    NoMemory,
    // There is no such core, worker or hand.
    Nobody,
}

use Answer::{AllQuiet, Holding, Nobody, NotLent, Others, Stranger};

#[derive(Clone, Copy)]
enum Call {
    Take,
    Publish,
}

use Call::{Publish, Take};

// A call of a core by a worker, the hand that what is lent goes into or what is brought comes from, and the answer.
type Row = (Call, usize, u32, usize, Answer);

// Task 0 adds 0, and so 1, in version 1; task 1 sees this there, and adds 2, and so 3, in version 2.
const TWO_WORKERS: [Row; 16] = [
    (Take, 0, 0, 0, Answer::Next(0, 0)),
    (Take, 0, 0, 0, Holding(0)),
    (Take, 0, 1, 1, Answer::Next(1, 0)),
    (Publish, 0, 0, 0, Answer::Grew(1, true)),
    (Take, 0, 0, 0, Answer::Next(0, 1)),
    (Publish, 0, 1, 1, Answer::Grew(1, false)),
    (Take, 0, 1, 1, Answer::Next(1, 1)),
    (Publish, 0, 1, 1, Answer::Grew(2, true)),
    (Publish, 0, 0, 0, Answer::Grew(2, false)),
    (Take, 0, 0, 0, Answer::Next(0, 2)),
    (Take, 0, 1, 1, Answer::Next(1, 2)),
    (Publish, 0, 0, 0, Answer::Grew(2, false)),
    (Take, 0, 0, 0, Others),
    (Publish, 0, 1, 1, Answer::Grew(2, false)),
    (Take, 0, 0, 0, AllQuiet),
    (Take, 0, 1, 1, AllQuiet),
];

// Cores 0, 1 and 3 are of one program, core 2 is of another one.
const REFUSALS: [Row; 14] = [
    (Take, 0, 0, 0, Answer::Next(0, 0)),
    (Take, 0, 1, 1, Answer::Next(1, 0)),
    (Take, 1, 0, 2, Answer::Next(0, 0)),
    (Take, 1, 1, 3, Answer::Next(1, 0)),
    (Take, 2, 0, 4, Answer::Next(0, 0)),
    (Take, 3, 0, 5, Answer::Next(0, 0)),
    // Another task, a worker that is lent nothing, one that is not there, another program.
    (Publish, 0, 1, 0, Stranger(1, 0)),
    (Publish, 0, 2, 1, NotLent),
    (Publish, 0, 9, 3, NotLent),
    (Publish, 0, 0, 4, Stranger(0, 0)),
    // An equal program, task and store from another core is as good; then the store is another one.
    (Publish, 0, 0, 2, Answer::Grew(1, true)),
    (Take, 0, 0, 6, Answer::Next(0, 1)),
    (Publish, 0, 0, 5, Stranger(0, 1)),
    (Publish, 0, 0, 6, Answer::Grew(1, false)),
];

fn core(alloc: Global, first: bool, workers: u32) -> Result<StoreCore<TwoTasks>, NoMemory>
    requires some { 1 ≤ workers }
    requires most { workers ≤ 16 }
{
    StoreCore::open(alloc, Arc::new(alloc, TwoTasks::new(first))?, workers)
}

fn publication(answer: Result<Grew, Refused<TwoTasks>>) -> Answer {
    match answer {
        Ok(grew) => Answer::Grew(grew.version, grew.raised),
        Err(Refused::NotLent) => NotLent,
        Err(Refused::Stranger { lent, brought: _ }) => Stranger(lent.task(), lent.version()),
        Err(Refused::NoMemory) => Answer::NoMemory,
    }
}

fn take(
    core: &mut StoreCore<TwoTasks>,
    worker: u32,
    hand: &mut Option<Snapshot<TwoTasks>>,
) -> Result<Answer, NoMemory> {
    if worker >= core.workers() {
        return Ok(Nobody);
    }
    Ok(match core.take(worker)? {
        Taken::Next(lent) => {
            let answer = Answer::Next(lent.task(), lent.version());
            *hand = Some(lent);
            answer
        }
        Taken::Holding(task) => Holding(task),
        Taken::Others => Others,
        Taken::AllQuiet => AllQuiet,
    })
}

fn publish(
    alloc: Global,
    core: &mut StoreCore<TwoTasks>,
    worker: u32,
    hand: &mut Option<Snapshot<TwoTasks>>,
) -> Result<Answer, NoMemory> {
    let Some(lent) = hand.take() else {
        return Ok(Nobody);
    };
    let brought = Contribution::of(alloc, lent)?;
    Ok(publication(core.publish(worker, brought)))
}

// The number of the first row, from 0, that is answered otherwise.
fn first_otherwise(
    alloc: Global,
    cores: &mut [StoreCore<TwoTasks>],
    rows: &[Row],
) -> Result<Option<usize>, NoMemory> {
    let mut hands = [None, None, None, None, None, None, None];
    first_otherwise_by(alloc, cores, &mut hands, rows)
}

// The same with these hands. (What owns hands or cores has one way out behind it: how they are let go is proved for each
// way out.)
fn first_otherwise_by(
    alloc: Global,
    cores: &mut [StoreCore<TwoTasks>],
    hands: &mut [Option<Snapshot<TwoTasks>>],
    rows: &[Row],
) -> Result<Option<usize>, NoMemory> {
    for (number, (call, core, worker, hand, wanted)) in rows.iter().enumerate() {
        let (Some(core), Some(hand)) = (cores.get_mut(*core), hands.get_mut(*hand)) else {
            return Ok(Some(number));
        };
        let answer = match call {
            Take => take(core, *worker, hand)?,
            Publish => publish(alloc, core, *worker, hand)?,
        };
        if answer != *wanted {
            return Ok(Some(number));
        }
    }
    Ok(None)
}

// How a core stands when all of its calls were answered.
fn is_settled(rt: &impl Abort, core: &StoreCore<TwoTasks>) {
    assert!(rt; core.quiet());
    assert!(rt; core.version() == 2);
    assert!(rt; core.store().same(&Numbers::new(true, true, true, true)));
    // Each task had three passes, and two of them began from what the one before had kept.
    assert!(rt; core.kept(0).is_some_and(|kept| kept.passes == 3));
    assert!(rt; core.kept(1).is_some_and(|kept| kept.passes == 3));
    assert!(rt; core.kept(2).is_none());
}

fn are_answered(
    rt: &impl Abort,
    alloc: Global,
    cores: &mut [StoreCore<TwoTasks>; 1],
) -> Result<(), Fail> {
    assert!(rt; !cores[0].quiet());
    assert!(rt; first_otherwise(alloc, cores, &TWO_WORKERS)? == None);
    is_settled(rt, &cores[0]);
    Ok(())
}

#[test]
fn two_workers_on_two_tasks(rt: HostRuntime) -> Result<(), Fail> {
    let mut cores = [core(rt.alloc(), true, 2)?];
    are_answered(&rt, rt.alloc(), &mut cores)
}

fn push_cores(alloc: Global, cores: &mut Vec<StoreCore<TwoTasks>>) -> Result<(), Fail> {
    cores.push(core(alloc, true, 3)?)?;
    cores.push(core(alloc, true, 2)?)?;
    cores.push(core(alloc, false, 1)?)?;
    cores.push(core(alloc, true, 1)?)?;
    Ok(())
}

// The first refusal that is answered otherwise, and how many events the first core has seen then.
fn refused_by(
    alloc: Global,
    cores: &mut [StoreCore<TwoTasks>],
) -> Result<(Option<usize>, Option<usize>), NoMemory> {
    let otherwise = first_otherwise(alloc, cores, &REFUSALS)?;
    match cores.first() {
        Some(core) => Ok((otherwise, Some(core.history().len()))),
        None => Ok((otherwise, None)),
    }
}

fn refused(alloc: Global) -> Result<(Option<usize>, Option<usize>), Fail> {
    let mut cores = Vec::new(alloc);
    push_cores(alloc, &mut cores)?;
    Ok(refused_by(alloc, &mut cores)?)
}

#[test]
fn refusals(rt: HostRuntime) -> Result<(), Fail> {
    let (otherwise, events) = refused(rt.alloc())?;
    assert!(rt; otherwise == None);
    assert!(rt; events == Some(5));
    Ok(())
}

// An event: worker, task, version, and the version after a publication.
type Line = (u32, u32, u64, Option<u64>);

// Task 1, which was not read before, comes before task 0.
const ONE_WORKER: [Line; 8] = [
    (0, 0, 0, None),
    (0, 0, 0, Some(1)),
    (0, 1, 1, None),
    (0, 1, 1, Some(2)),
    (0, 0, 2, None),
    (0, 0, 2, Some(2)),
    (0, 1, 2, None),
    (0, 1, 2, Some(2)),
];

fn line(event: &Event<TwoTasks>) -> Line {
    match event {
        Event::Read {
            worker,
            task,
            version,
        } => (*worker, *task, *version, None),
        Event::Publish {
            worker,
            task,
            version,
            after,
            added: _,
        } => (*worker, *task, *version, Some(*after)),
    }
}

// Whether the history has exactly these lines.
fn has_lines(history: &[Event<TwoTasks>], lines: &[Line]) -> bool {
    for (event, wanted) in history.iter().zip(lines) {
        if line(event) != *wanted {
            return false;
        }
    }
    history.len() == lines.len()
}

// The one worker takes and publishes until all is quiet.
fn work_alone(
    alloc: Global,
    core: &mut StoreCore<TwoTasks>,
    hand: &mut Option<Snapshot<TwoTasks>>,
) -> Result<(), NoMemory> {
    for _ in 0..16 {
        if take(core, 0, hand)? == AllQuiet {
            return Ok(());
        }
        publish(alloc, core, 0, hand)?;
    }
    Ok(())
}

// Whether its history is as it should be then.
fn has_worked(alloc: Global, core: &mut StoreCore<TwoTasks>) -> Result<bool, NoMemory> {
    let mut hand = None;
    work_alone(alloc, core, &mut hand)?;
    Ok(has_lines(core.history(), &ONE_WORKER))
}

#[test]
fn the_history_of_one_worker(rt: HostRuntime) -> Result<(), Fail> {
    let mut core = core(rt.alloc(), true, 1)?;
    let is_so = has_worked(rt.alloc(), &mut core)?;
    assert!(rt; is_so);
    Ok(())
}
