//! Races of worlds.
ghost use Rattle.std.specs.Prelude.{◌≡◌, ◌++◌, length, IfOk, OnOk};
ghost use Rattle.concrete_worlds.specs.Races.{AreRaces};
ghost use Rattle.concrete_worlds.specs.Running.{IsWorld};
ghost use Rattle.concrete_worlds.specs.Views.{laid_of, world_of};
ghost use Rattle.concrete_worlds.specs.reading.Access.{accesses_after, race_of, races_from};

use crate::accesses::{Access, access_of, races_with_some};
use crate::worlds::World;
use std::alloc::Global;
use tm_lattice::NoMemory;
use tm_terms::Place;

// The place of the access of a task, where it races with another's.
fn push_race(
    places: &mut Vec<Place>,
    accesses: &[Option<Access>],
    task: usize,
    access: Option<Access>,
) -> Result<(), NoMemory>
    ensures { OnOk result (places.new.items ≡ places.old.items ++ race_of accesses.now task access) }
{
    match access {
        None => Ok(()),
        Some(access) => {
            if races_with_some(task, access, accesses) {
                places.push(access.place)?;
            }
            Ok(())
        }
    }
}

// The places of all accesses that race, in the order of the tasks.
fn places_of(alloc: Global, accesses: &[Option<Access>]) -> Result<Vec<Place>, NoMemory>
    ensures { IfOk result (λ v. v.items ≡ races_from accesses.now 0 accesses.now) }
{
    let mut places = Vec::new(alloc);
    for (task, access) in accesses.iter().enumerate() {
        push_race(&mut places, accesses, task, *access)?;
    }
    Ok(places)
}

impl World<'_> {
    // The access of each task, where its next action is one.
    fn accesses(&self, alloc: Global) -> Result<Vec<Option<Access>>, NoMemory>
        requires { IsWorld self.now }
        ensures { IfOk result (λ v. v.items ≡ accesses_after (laid_of self.now) (world_of self.now).answers
            (length self.now.laid.now.file.tasks.items)) }
    {
        let mut accesses = Vec::new(alloc);
        let tasks = self.laid.file.tasks.len() as u32;
        for task in 0..tasks {
            accesses.push(access_of(self.next_of(task)))?;
        }
        Ok(accesses)
    }

    /// The places at which tasks race, sorted, each once.
    pub fn races(&self, alloc: Global) -> Result<Vec<Place>, NoMemory>
        requires { IsWorld self.now }
        ensures { IfOk result (λ v. AreRaces (laid_of self.now) (world_of self.now) v.items) }
    {
        if self.stopped || !self.tasks_may_run() {
            return Ok(Vec::new(alloc));
        }
        let accesses = self.accesses(alloc)?;
        let mut places = places_of(alloc, &accesses)?;
        places.sort()?;
        places.dedup();
        Ok(places)
    }
}
