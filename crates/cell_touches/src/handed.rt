//! What tasks may hand over to others.

use crate::cell_lists::{add_mutexes, mutexes_at, no_mutexes};
use crate::programs::{ProgramTargets, edges_of};
use crate::traced::pending_sets;
use mutex_configs::Program;
use std::alloc::Global;
use tm_lattice::NoMemory;

/// For each abstract cell the mutexes under which some task may hand it over, and those under which several may.
#[derive(Drop)]
pub(crate) struct Handed {
    once: Vec<u16>,
    twice: Vec<u16>,
    tasks: usize,
}

// One more task hands cells over under the mutexes that may be pending there.
fn add_task(once: &mut [u16], twice: &mut [u16], pending: &[u16]) {
    for cell in 0..pending.len() {
        let more = mutexes_at(pending, cell);
        let both = mutexes_at(once, cell) & more;
        add_mutexes(twice, cell, both);
        add_mutexes(once, cell, more);
    }
}

/// What the tasks of a program may hand over. What its initial section does, no task is handed.
pub(crate) fn handed_over(
    alloc: Global,
    program: &Program,
    targets: &ProgramTargets,
) -> Result<Handed, NoMemory> {
    let cells = program.laid.abstract_cells.len();
    let tasks = program.laid.file.tasks.len();
    let mut once = no_mutexes(alloc, cells)?;
    let mut twice = no_mutexes(alloc, cells)?;
    for body in 0..program.configured.len().min(tasks) {
        let pending = pending_sets(
            alloc,
            &program.laid,
            edges_of(program, body),
            &program.configured[body],
            targets.of_body(body),
        )?;
        add_task(&mut once, &mut twice, &pending);
    }
    Ok(Handed { once, twice, tasks })
}

impl Handed {
    /// For each abstract cell the mutexes under which others may hand it over to a body with these pending ones. The
    /// initial section hears nothing.
    pub(crate) fn to_body(
        &self,
        alloc: Global,
        body: usize,
        pending: &[u16],
    ) -> Result<Vec<u16>, NoMemory> {
        let mut handed = Vec::new(alloc);
        if body >= self.tasks {
            return Ok(handed);
        }
        for cell in 0..self.once.len() {
            handed.push(self.by_others(pending, cell))?;
        }
        Ok(handed)
    }

    // The mutexes under which a task with other pending ones may hand a cell over: those of several tasks, and of one
    // those that are not this body's own.
    fn by_others(&self, pending: &[u16], cell: usize) -> u16 {
        let once = mutexes_at(&self.once, cell);
        let own = once & mutexes_at(pending, cell);
        (once ^ own) | mutexes_at(&self.twice, cell)
    }
}
