//! The ends of functions without `return`, where their values are used.
ghost use Rattle.std.specs.Prelude.{◌≡◌, ◌++◌, map, IfOk, OnOk};
ghost use Rattle.std.specs.List.{flat_map};
ghost use Rattle.tm_laid.specs.Layouts.{laid_tree};
ghost use Rattle.body_builder.specs.concrete_steps.NextAction.{function_at};
ghost use Rattle.edge_origins.specs.reading.Gathered.{fall_by, falls_on};

use crate::origins::Fall;
use crate::starts::Start;
use body_builder::{function_on, more};
use path_origins::Notes;
use std::alloc::Global;
use tm_laid::Laid;
use tm_lattice::NoMemory;
use tm_terms::Place;

// The place of the function of a path.
#[tactic(auto, unfolding(body_builder::specs::Fragments::tree_in))]
fn place_on(laid: &Laid, path: u32) -> Result<Place, NoMemory>
    ensures { IfOk result (λ place. place ≡ (function_at (laid_tree laid.now) path).place) }
{
    match laid.file.functions.get(function_on(laid, path) as usize) {
        Some(function) => Ok(function.place),
        None => Err(NoMemory),
    }
}

// The ends of a path that begins at an edge, whose function stands at a place.
fn put_falls(to: &mut Vec<Fall>, place: Place, at: u32, falls: &[u32]) -> Result<(), NoMemory>
    ensures { OnOk result (to.new.items ≡ to.old.items ++ map (fall_by place at) falls.now) }
{
    for fall in falls {
        to.push(Fall {
            place,
            edge: more(at, *fall)?,
        })?;
    }
    Ok(())
}

/// The ends of the paths with these starts.
pub(crate) fn falls_of(
    alloc: Global,
    laid: &Laid,
    notes: &[Notes],
    starts: &[Start],
) -> Result<Vec<Fall>, NoMemory>
    ensures { IfOk result (λ falls. falls.items ≡ flat_map (falls_on (laid_tree laid.now) notes.now) starts.now) }
{
    let mut to = Vec::new(alloc);
    for start in starts {
        let Some(found) = notes.get(start.path as usize) else {
            return Err(NoMemory);
        };
        if start.used {
            put_falls(&mut to, place_on(laid, start.path)?, start.at, &found.falls)?;
        }
    }
    Ok(to)
}
