//! The limits of what is laid out.
ghost use Rattle.std.specs.Prelude.{◌≡◌, ◌+◌, true, false, IfOk, OnOk, length, ◌∷◌, [], ◌++◌};
ghost use Rattle.tm_terms.specs.declared.refusals.Fail.TheVariants as Fails;
ghost use Rattle.tm_terms.specs.declared.refusals.Limit.TheVariants as Limits;
ghost use Rattle.tm_typed.specs.TypedFiles.{typed_file_tree};
ghost use Rattle.tm_laid.specs.Paths.{bodies_of};
ghost use Rattle.tm_laid.specs.Layouts.{is_exceeded, beyond};
ghost use Rattle.tm_laid.specs.Layable.{IsLayable};
ghost use Rattle.cell_layout.specs.reading.Limits.{IsPathLimit, IsWithin, AreWithin};

use crate::counts::{count_all, totals};
use std::alloc::Global;
use tm_laid::Scale;
use tm_lattice::NoMemory;
use tm_terms::{Fail, Kind, Limit, Place, Refusal};
use tm_typed::TypedFile;

// The functions of the bodies.
pub(crate) fn bodies(alloc: Global, file: &TypedFile) -> Result<Vec<u32>, NoMemory>
    ensures { IfOk result (λ v. v.items ≡ bodies_of (typed_file_tree file.now)) }
{
    let mut bodies = file
        .tasks
        .iter()
        .map(|task| task.function)
        .collect::<Vec<u32>>(alloc)?;
    match file.main {
        None => Ok(bodies),
        Some(main) => {
            bodies.push(main)?;
            Ok(bodies)
        }
    }
}

fn has_too_many_tasks(scale: Scale, file: &TypedFile) -> bool
    ensures { result ≡ is_exceeded scale (typed_file_tree file.now) Limits.Tasks }
{
    file.tasks.len() > scale.number(Limit::Tasks) as usize
}

fn has_too_many_mutexes(scale: Scale, file: &TypedFile) -> bool
    ensures { result ≡ is_exceeded scale (typed_file_tree file.now) Limits.Mutexes }
{
    file.mutexes.len() > scale.number(Limit::Mutexes) as usize
}

// The totals of functions where the limit is not exceeded on a scale.
fn within(
    alloc: Global,
    scale: Scale,
    file: &TypedFile,
    limit: Limit,
    bodies: &[u32],
) -> Result<Option<Vec<u32>>, NoMemory>
    requires layable { IsLayable (typed_file_tree file.now) file.now.order.items }
    requires path { IsPathLimit limit }
    requires bodies { bodies.now ≡ bodies_of (typed_file_tree file.now) }
    ensures { IfOk result (λ found. IsWithin scale (typed_file_tree file.now) limit found) }
{
    let totals = totals(alloc, file, limit)?;
    if count_all(file, limit, &totals, bodies) as u64 > scale.number(limit) {
        Ok(None)
    } else {
        Ok(Some(totals))
    }
}

// The refusal by a limit.
fn refused(limit: Limit) -> Fail
    ensures { result ≡ Fails.Refused (beyond limit) }
{
    Fail::Refused(Refusal {
        kind: Kind::Limit,
        place: Place { line: 0, col: 0 },
        limit: Some(limit),
    })
}

/// The totals of call paths where no limit is exceeded on a scale, or the first that is.
pub(crate) fn all_within(
    alloc: Global,
    scale: Scale,
    file: &TypedFile,
    bodies: &[u32],
) -> Result<Vec<u32>, Fail>
    requires layable { IsLayable (typed_file_tree file.now) file.now.order.items }
    requires bodies { bodies.now ≡ bodies_of (typed_file_tree file.now) }
    ensures { AreWithin scale (typed_file_tree file.now) result }
{
    if has_too_many_tasks(scale, file) {
        return Err(refused(Limit::Tasks));
    }
    if has_too_many_mutexes(scale, file) {
        return Err(refused(Limit::Mutexes));
    }
    let Some(paths) = within(alloc, scale, file, Limit::Paths, bodies)? else {
        return Err(refused(Limit::Paths));
    };
    if within(alloc, scale, file, Limit::Cells, bodies)?.is_none() {
        return Err(refused(Limit::Cells));
    }
    if within(alloc, scale, file, Limit::Abstract, bodies)?.is_none() {
        return Err(refused(Limit::Abstract));
    }
    Ok(paths)
}
