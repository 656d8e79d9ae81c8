//! What is noted of all call paths, where the bodies of those that calls lead to have these sizes.
ghost use Rattle.std.specs.Prelude.{◌≡◌, IsTrue, IfOk};
ghost use Rattle.tm_laid.specs.Layouts.{laid_tree};
ghost use Rattle.path_origins.specs.Opens.{is_among};
ghost use Rattle.path_origins.specs.Shown.{sizes_in};
ghost use Rattle.edge_origins.specs.reading.PathNotes.{AreNotes};

use path_origins::{Notes, Opens, noted_path};
use std::alloc::Global;
use tm_laid::Laid;
use tm_lattice::NoMemory;

/// How many edges the body of each path has. The last path comes first: those that go on from a path stand behind it,
/// so their sizes are there already. That each is that of its walk, `all_notes` looks at.
pub(crate) fn sizes_of(alloc: Global, laid: &Laid, opens: &Opens) -> Result<Vec<u32>, NoMemory> {
    let Ok(count) = u32::try_from(laid.paths.len()) else {
        return Err(NoMemory);
    };
    let mut sizes = Vec::new(alloc);
    sizes.resize(laid.paths.len(), 0)?;
    for path in (0..count).rev() {
        let notes = noted_path(alloc, laid, opens, &sizes, path)?;
        if let Some(size) = sizes.get_mut(path as usize) {
            *size = notes.size;
        }
    }
    Ok(sizes)
}

// Whether this is the size of a path.
fn is_size(sizes: &[u32], path: u32, size: u32) -> bool
    ensures { IsTrue result → sizes_in sizes.now path ≡ size }
{
    match sizes.get(path as usize) {
        Some(found) => *found == size,
        None => false,
    }
}

/// What is noted of each path, if each has the size that it is said to have.
pub(crate) fn all_notes(
    alloc: Global,
    laid: &Laid,
    opens: &Opens,
    sizes: &[u32],
) -> Result<Vec<Notes>, NoMemory>
    ensures { IfOk result (λ notes. AreNotes (laid_tree laid.now) (is_among opens.now) (sizes_in sizes.now)
        notes.items) }
{
    let Ok(count) = u32::try_from(laid.paths.len()) else {
        return Err(NoMemory);
    };
    let mut found = Vec::new(alloc);
    for path in 0..count {
        let notes = noted_path(alloc, laid, opens, sizes, path)?;
        if !is_size(sizes, path, notes.size) {
            return Err(NoMemory);
        }
        found.push(notes)?;
    }
    Ok(found)
}
