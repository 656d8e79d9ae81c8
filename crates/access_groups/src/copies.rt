//! The accesses of a copy of an edge.
ghost use Rattle.std.specs.Prelude.{◌≡◌, ◌<◌, ◌⊎◌, ◌↔◌, length, Contains, OnOk};
ghost use Rattle.program_reports.specs.post_recheck.task_equations.Bodies.{copy_at};
ghost use Rattle.program_reports.specs.post_recheck.program_equations.Systems.{FitsBody};
ghost use Rattle.program_reports.specs.post_recheck.body_systems.Systems.{body_of};
ghost use Rattle.program_reports.specs.reading.Parts.{ArePartsOf};
ghost use Rattle.access_groups.specs.declared.site.Site.{Site as ASite};
ghost use Rattle.access_groups.specs.reading.Sites.{access_place, IsTargetSite, GivesSite};

use crate::site::Site;
use access_races::{Access, Way};
use cell_env::State;
use flow_graph::Operation;
use pointer_dom::AbsValue;
use program_reports::{BodyParts, operation_of, way_of};
use std::alloc::Global;
use tm_lattice::NoMemory;
use tm_terms::Place;

// Where an operation stands that reaches cells.
#[tactic(auto, unfolding(crate::specs::reading::Sites::access_place))]
fn access_place(operation: Operation) -> Option<Place>
    ensures { result ≡ access_place operation }
{
    match operation {
        Operation::Load { place, .. }
        | Operation::LoadAny { place, .. }
        | Operation::Store { place, .. } => Some(place),
        _ => None,
    }
}

// Adds the accesses to these cells.
fn add_targets(
    sites: &mut Vec<Site>,
    way: Way,
    place: Place,
    edge: usize,
    targets: &[u32],
) -> Result<(), NoMemory>
    ensures { OnOk result ((x : ASite) → Contains sites.new.items x
        ↔ (Contains sites.old.items x ⊎ IsTargetSite way place edge targets.now x)) }
{
    for cell in targets {
        let access = Access {
            cell: *cell,
            way,
            place,
        };
        sites.push(Site { access, edge })?;
    }
    Ok(())
}

/// Adds the accesses of a copy in a state of the node that it leaves.
pub(crate) fn add_copy(
    alloc: Global,
    parts: BodyParts<'_>,
    copy: usize,
    state: &State<AbsValue>,
    sites: &mut Vec<Site>,
) -> Result<(), NoMemory>
    requires parts { ArePartsOf (body_of parts.body.now) parts }
    requires copy { copy < length parts.copies.now }
    requires fits { (let b = body_of parts.body.now in let c = copy_at b copy in FitsBody b c.from state.now) }
    ensures { OnOk result ((x : ASite) → Contains sites.new.items x
        ↔ (Contains sites.old.items x ⊎ GivesSite (body_of parts.entry.body.now) copy state.now x)) }
{
    let Some(place) = access_place(operation_of(parts, copy)) else {
        return Ok(());
    };
    let after = parts.body.applied(alloc, copy, state)?;
    let edge = parts.copies[copy].edge;
    add_targets(sites, way_of(parts, copy), place, edge, &after.targets)
}
