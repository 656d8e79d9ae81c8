//! The abstract cells that are written in regions.
ghost use Rattle.std.specs.Prelude.{◌≡◌, ◌<◌, ◌≤◌, ◌↔◌, ◌^◌, IfOk, IsTrue, length};
ghost use Rattle.tm_laid.specs.Layouts.{laid_tree};
ghost use Rattle.graph_facts.specs.Lists.{numbers};
ghost use Rattle.graph_facts.specs.Edges.{AreInRange};
ghost use Rattle.graph_facts.specs.Leaving.{AreLeaving};
ghost use Rattle.graph_facts.specs.Heads.{IsHeadUpTo, AreHeads};
ghost use Rattle.region_cells.specs.Written.{AreWritten, AreAllWritten};
ghost use Rattle.region_cells.specs.reading.Slots.{AreSlots};
ghost use Rattle.region_cells.specs.reading.Marks.{IsListed, AreListed, IsCovering};

use crate::covers::covered;
use crate::marks::{count_of_slots, mark_region, no_marks};
use crate::slots::scalar_number;
use flow_graph::Graph;
use graph_facts::{Head, leaving};
use std::alloc::Global;
use tm_laid::Laid;
use tm_lattice::NoMemory;

// Whether a cell is of a marked object or of a marked type.
fn is_listed(laid: &Laid, marks: &[bool], covered: &[bool], cell: usize) -> bool
    requires objects { length laid.now.objects.items < 2 ^ 63 }
    requires cell { cell < length laid.now.abstract_cells.items }
    requires slots { AreSlots (laid_tree laid.now) (length laid.now.objects.items) (length marks.now) }
    requires covered { length covered.now ≡ length laid.now.abstract_cells.items }
    ensures { IsTrue result ↔ IsListed (laid_tree laid.now) marks.now covered.now cell }
{
    covered[cell] || marks[laid.objects.len() + scalar_number(laid.abstract_cells[cell].scalar)]
}

// The cells of marked objects and types.
fn listed(
    alloc: Global,
    laid: &Laid,
    marks: &[bool],
    covered: &[bool],
) -> Result<Vec<u32>, NoMemory>
    requires objects { length laid.now.objects.items < 2 ^ 63 }
    requires few { length laid.now.abstract_cells.items ≤ 65536 }
    requires slots { AreSlots (laid_tree laid.now) (length laid.now.objects.items) (length marks.now) }
    requires covered { length covered.now ≡ length laid.now.abstract_cells.items }
    ensures { IfOk result (λ v. AreListed (laid_tree laid.now) marks.now covered.now
        (length laid.now.abstract_cells.items) v.items) }
{
    let mut cells = Vec::new(alloc);
    for cell in 0..laid.abstract_cells.len() {
        if is_listed(laid, marks, covered, cell) {
            cells.push(cell as u32)?;
        }
    }
    Ok(cells)
}

// The cells that are written in the region of a head.
fn written_in(
    alloc: Global,
    laid: &Laid,
    graph: &Graph,
    slots: usize,
    leaving: &[Vec<usize>],
    head: Head,
) -> Result<Vec<u32>, NoMemory>
    requires objects { length laid.now.objects.items < 2 ^ 63 }
    requires few { length laid.now.abstract_cells.items ≤ 65536 }
    requires range { AreInRange graph.now.edges.items graph.now.nodes }
    requires slots { AreSlots (laid_tree laid.now) (length laid.now.objects.items) slots }
    requires leaving { AreLeaving graph.now.edges.items graph.now.nodes (numbers leaving.now) }
    requires head { IsHeadUpTo graph.now.edges.items head }
    ensures { IfOk result (λ v. AreWritten (laid_tree laid.now) graph.now.edges.items head.node v.items) }
{
    let mut marks = no_marks(alloc, slots)?;
    mark_region(
        graph,
        laid.objects.len(),
        head.node,
        head.last,
        leaving,
        &mut marks,
    );
    let covered = covered(alloc, laid, &marks)?;
    let cells = listed(alloc, laid, &marks, &covered)?;
    Ok(cells)
}

/// For each head the abstract cells that are written in its region, in rising order.
pub fn written_cells(
    alloc: Global,
    laid: &Laid,
    graph: &Graph,
    heads: &[Head],
) -> Result<Vec<Vec<u32>>, NoMemory>
    requires few { length laid.now.abstract_cells.items ≤ 65536 }
    requires range { AreInRange graph.now.edges.items graph.now.nodes }
    requires heads { AreHeads graph.now.edges.items heads.now }
    ensures { IfOk result (λ v. AreAllWritten (laid_tree laid.now) graph.now.edges.items heads.now
        (numbers v.items)) }
{
    let leaving = leaving(alloc, graph)?;
    let slots = count_of_slots(laid);
    let mut lists = Vec::new(alloc);
    for head in heads {
        let cells = written_in(alloc, laid, graph, slots, &leaving, *head)?;
        lists.push(cells)?;
    }
    Ok(lists)
}
