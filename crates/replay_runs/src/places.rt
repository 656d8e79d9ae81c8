//! Places at which tasks race.
ghost use Rattle.std.specs.Prelude.{IfOk, OnOk};
ghost use Rattle.concrete_worlds.specs.Running.{IsWorld};
ghost use Rattle.concrete_worlds.specs.Views.{laid_of, world_of};
ghost use Rattle.replay_runs.specs.reading.Turns.{AddsRaces, IsSetOf};

use concrete_worlds::World;
use std::alloc::Global;
use tm_lattice::NoMemory;
use tm_terms::Place;

/// Appends the places at which tasks race in a world.
pub(crate) fn push_races(
    alloc: Global,
    world: &World<'_>,
    places: &mut Vec<Place>,
) -> Result<(), NoMemory>
    requires { IsWorld world.now }
    ensures { OnOk result (AddsRaces (laid_of world.now) (world_of world.now) places.old.items places.new.items) }
{
    let found = world.races(alloc)?;
    match places.extend_from_slice(&found) {
        Ok(()) => Ok(()),
        Err(_) => Err(NoMemory),
    }
}

/// The places sorted, each once.
pub(crate) fn sorted(mut places: Vec<Place>) -> Result<Vec<Place>, NoMemory>
    ensures { IfOk result (λ v. IsSetOf places.items v.items) }
{
    places.sort()?;
    places.dedup();
    Ok(places)
}
