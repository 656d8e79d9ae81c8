//! The abstract cells of marked objects.
ghost use Rattle.std.specs.Prelude.{◌≡◌, ◌<◌, ◌≤◌, IfOk, length, min};
ghost use Rattle.tm_laid.specs.Layouts.{laid_tree};
ghost use Rattle.region_cells.specs.reading.Marks.{HasMarked, IsBetween, IsOfMarked, IsCovering};

use crate::marks::no_marks;
use std::alloc::Global;
use tm_laid::Laid;
use tm_lattice::NoMemory;

fn least(left: usize, right: usize) -> usize
    ensures { result ≡ min left right }
{
    if left < right { left } else { right }
}

// Marks the cells of a part.
fn cover(covered: &mut Vec<bool>, first: usize, end: usize)
    ensures { HasMarked (IsBetween first end) covered.old.items covered.new.items }
{
    for cell in first..least(end, covered.len()) {
        covered[cell] = true;
    }
}

// Marks the cells of an object, where it is marked.
fn cover_object(laid: &Laid, marks: &[bool], object: usize, covered: &mut Vec<bool>)
    requires object { object < length laid.now.objects.items }
    requires marks { length laid.now.objects.items ≤ length marks.now }
    ensures { HasMarked (IsOfMarked (laid_tree laid.now) marks.now object) covered.old.items covered.new.items }
{
    if marks[object] {
        let of = &laid.objects[object];
        let first = of.first_abstract as usize;
        cover(covered, first, first + of.abstract_cells as usize);
    }
}

// The abstract cells of marked objects.
pub(crate) fn covered(alloc: Global, laid: &Laid, marks: &[bool]) -> Result<Vec<bool>, NoMemory>
    requires marks { length laid.now.objects.items ≤ length marks.now }
    ensures { IfOk result (λ v. IsCovering (laid_tree laid.now) marks.now v.items) }
{
    let mut covered = no_marks(alloc, laid.abstract_cells.len())?;
    for object in 0..laid.objects.len() {
        cover_object(laid, marks, object, &mut covered);
    }
    Ok(covered)
}
