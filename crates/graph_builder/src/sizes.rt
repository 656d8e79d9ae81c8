//! The sizes of call paths: how many nodes and temporaries the body of each makes.
ghost use Rattle.std.specs.Prelude.{IfOk};
ghost use Rattle.body_builder.specs.Fragments.{tree_in, AreSizes, IsSize};

use crate::ends::End;
use crate::paths::Paths;
use body_builder::{Fragment, Size};
use std::alloc::Global;
use tm_laid::{Caller, Laid};
use tm_lattice::NoMemory;

// How long chains of calls are at most from a path on, itself counted, where they are so long from those before it on.
fn depth_on(depths: &[u32], caller: Option<Caller>, deepest: u32) -> Result<u32, NoMemory> {
    match caller {
        None => Ok(deepest),
        Some(caller) => match depths.get(caller.path as usize) {
            Some(depth) => depth.checked_sub(1).ok_or(NoMemory),
            None => Err(NoMemory),
        },
    }
}

// That length for each path: those that call others stand before them.
fn depths(alloc: Global, laid: &Laid, deepest: u32) -> Result<Vec<u32>, NoMemory> {
    let mut depths = Vec::new(alloc);
    for path in &laid.paths {
        let depth = depth_on(&depths, path.caller, deepest)?;
        depths.push(depth)?;
    }
    Ok(depths)
}

// For each path a size that is not known.
#[tactic(auto, using(crate::proofs::KnownSizes::nothing_known, crate::proofs::KnownSizes::one_unknown))]
fn unknown(alloc: Global, laid: &Laid) -> Result<Vec<Option<Size>>, NoMemory>
    ensures { IfOk result (λ sizes. AreSizes (tree_in laid.now) sizes.items) }
{
    let mut sizes = Vec::with_capacity(alloc, laid.paths.len())?;
    for _ in &laid.paths {
        sizes.push(None)?;
    }
    Ok(sizes)
}

// The size of the body of a path.
#[tactic(auto, unfolding(body_builder::specs::Fragments::so_far))]
fn size(paths: &Paths<'_>, path: u32, depth: u32) -> Result<Size, NoMemory>
    ensures { IfOk result (λ s. IsSize (tree_in paths.now.laid.now) path s) }
{
    let mut to = Fragment {
        items: Vec::new(paths.alloc),
        node: 0,
        nodes: 0,
        temps: 0,
    };
    let result = paths.build(&mut to, End::Function, path, depth)?;
    Ok(Size {
        depth,
        nodes: to.nodes,
        temps: to.temps,
        result,
    })
}

// The size of the body of one more path is known.
#[tactic(auto, using(crate::proofs::KnownSizes::one_known))]
fn add_size(
    alloc: Global,
    laid: &Laid,
    sizes: &mut Vec<Option<Size>>,
    path: u32,
    depth: u32,
) -> Result<(), NoMemory>
    requires { AreSizes (tree_in laid.now) sizes.old.items }
    ensures { AreSizes (tree_in laid.now) sizes.new.items }
{
    let paths = Paths { alloc, laid, sizes };
    let size = size(&paths, path, depth)?;
    if let Some(place) = sizes.get_mut(path as usize) {
        *place = Some(size);
    }
    Ok(())
}

// Whether a call leads to a path.
fn is_called(laid: &Laid, path: u32) -> bool {
    match laid.paths.get(path as usize) {
        Some(found) => found.caller.is_some(),
        None => false,
    }
}

/// The sizes of the call paths that calls lead to, the last one first: each path that a call leads to stands behind
/// that of its caller.
pub(crate) fn path_sizes(
    alloc: Global,
    laid: &Laid,
    deepest: u32,
) -> Result<Vec<Option<Size>>, NoMemory>
    ensures { IfOk result (λ sizes. AreSizes (tree_in laid.now) sizes.items) }
{
    let depths = depths(alloc, laid, deepest)?;
    let Ok(count) = u32::try_from(depths.len()) else {
        return Err(NoMemory);
    };
    let mut sizes = unknown(alloc, laid)?;
    for path in (0..count).rev() {
        if is_called(laid, path) {
            add_size(alloc, laid, &mut sizes, path, depths[path as usize])?;
        }
    }
    Ok(sizes)
}
