//! Which slots are written in a region.
ghost use Rattle.std.specs.Prelude.{◌≡◌, ◌<◌, ◌≤◌, ◌+◌, ◌^◌, IfOk, length, Some, false, replicate, All};
ghost use Rattle.tm_laid.specs.Layouts.{laid_tree};
ghost use Rattle.graph_facts.specs.Lists.{numbers};
ghost use Rattle.graph_facts.specs.Leaving.{AreLeaving, leaving_numbers};
ghost use Rattle.region_cells.specs.reading.Slots.{AreSlots};
ghost use Rattle.region_cells.specs.reading.Marks.{HasMarked, HasMarkedFrom};

use crate::slots::{scalar_number, slot_of};
use flow_graph::Graph;
use std::alloc::Global;
use tm_laid::Laid;
use tm_lattice::NoMemory;

// Marks a slot, where there is one.
fn mark(marks: &mut Vec<bool>, slot: Option<usize>)
    ensures { HasMarked (λ s. slot ≡ Some s) marks.old.items marks.new.items }
{
    match slot {
        Some(slot) => {
            if slot < marks.len() {
                marks[slot] = true;
            }
        }
        None => {}
    }
}

// Marks what the edges that leave a node write.
fn mark_node(graph: &Graph, objects: usize, node: u32, leaving: &[usize], marks: &mut Vec<bool>)
    requires objects { objects < 2 ^ 63 }
    requires leaving { leaving.now ≡ leaving_numbers 0 graph.now.edges.items node }
    ensures { HasMarkedFrom graph.now.edges.items objects node (node + 1) marks.old.items marks.new.items }
{
    for number in leaving {
        mark(marks, slot_of(objects, graph.edges[*number].op));
    }
}

// Marks what the edges that leave the nodes from a head to the last of its region write.
pub(crate) fn mark_region(
    graph: &Graph,
    objects: usize,
    head: u32,
    last: u32,
    leaving: &[Vec<usize>],
    marks: &mut Vec<bool>,
)
    requires objects { objects < 2 ^ 63 }
    requires leaving { AreLeaving graph.now.edges.items graph.now.nodes (numbers leaving.now) }
    requires last { last < graph.now.nodes }
    requires order { head ≤ last }
    ensures { HasMarkedFrom graph.now.edges.items objects head (last + 1) marks.old.items marks.new.items }
{
    for node in head..last {
        mark_node(graph, objects, node, &leaving[node as usize], marks);
    }
    mark_node(graph, objects, last, &leaving[last as usize], marks);
}

fn greater(count: usize, least: usize) -> usize
    ensures kept { count ≤ result }
    ensures more { least ≤ result }
{
    if count < least { least } else { count }
}

// How many slots there are: those of all objects, and of the types of all abstract cells.
pub(crate) fn count_of_slots(laid: &Laid) -> usize
    requires { length laid.now.objects.items < 2 ^ 63 }
    ensures { AreSlots (laid_tree laid.now) (length laid.now.objects.items) result }
{
    let objects = laid.objects.len();
    let mut count = objects;
    for cell in 0..laid.abstract_cells.len() {
        let number = scalar_number(laid.abstract_cells[cell].scalar);
        count = greater(count, objects + number + 1);
    }
    count
}

// So many marks, none set.
pub(crate) fn no_marks(alloc: Global, count: usize) -> Result<Vec<bool>, NoMemory>
    ensures { IfOk result (λ v. v.items ≡ replicate count false) }
{
    let marks = vec![in alloc; false; count]?;
    Ok(marks)
}
