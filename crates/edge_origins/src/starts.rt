//! Where the bodies of call paths begin in the graph of a body.
ghost use Rattle.std.specs.Prelude.{◌≡◌, ◌++◌, map, IfOk, OnOk};
ghost use Rattle.tm_laid.specs.Layouts.{laid_tree, first_path};
ghost use Rattle.edge_origins.specs.reading.Starts.{start_by, AreFollowed};

use body_builder::more;
use path_origins::{NotedCall, Notes};
use std::alloc::Global;
use tm_laid::Laid;
use tm_lattice::NoMemory;

/// The body of a path begins at an edge of the graph of a body, and its value is used or is not.
#[derive(Clone, Copy)]
pub(crate) struct Start {
    pub(crate) path: u32,
    pub(crate) at: u32,
    pub(crate) used: bool,
}

// The paths to which the calls of a path lead that begins at an edge.
fn put_called(to: &mut Vec<Start>, at: u32, calls: &[NotedCall]) -> Result<(), NoMemory>
    ensures { OnOk result (to.new.items ≡ to.old.items ++ map (start_by at) calls.now) }
{
    for call in calls {
        to.push(Start {
            path: call.path,
            at: more(at, call.at)?,
            used: call.used,
        })?;
    }
    Ok(())
}

/// The paths that the graph of a body goes along, each with its start: the first path of the body, and those to which
/// the calls of these lead, each call followed once. There are no more of them than there are paths.
pub(crate) fn starts_of(
    alloc: Global,
    laid: &Laid,
    notes: &[Notes],
    body: usize,
) -> Result<Vec<Start>, NoMemory>
    ensures { IfOk result (λ starts. AreFollowed notes.now (first_path (laid_tree laid.now) body) starts.items
        starts.items) }
{
    let Some(first) = laid.first_paths.get(body) else {
        return Err(NoMemory);
    };
    let mut starts = Vec::new(alloc);
    starts.push(Start {
        path: *first,
        at: 0,
        used: false,
    })?;
    for index in 0..notes.len() {
        if starts.len() <= index {
            return Ok(starts);
        }
        let start = starts[index];
        let Some(found) = notes.get(start.path as usize) else {
            return Err(NoMemory);
        };
        put_called(&mut starts, start.at, &found.calls)?;
    }
    if notes.len() < starts.len() {
        return Err(NoMemory);
    }
    Ok(starts)
}
