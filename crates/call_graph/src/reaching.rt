//! The functions that one reaches by calls.
ghost use Rattle.std.specs.Prelude.{◌≡◌, [], ◌∷◌, ◌<◌, ◌↔◌, All, IfOk, OnOk, IsTrue, false, length, replicate, vec_len};
ghost use Rattle.tm_typed.specs.CallGraph.{Reaches, calls_in};
ghost use Rattle.call_graph.specs.Graphs.{lists, IsGraph};
ghost use Rattle.call_graph.specs.Reaching.{HasMarked};

use crate::graphs::{calls_of, push};
use std::alloc::Global;
use tm_lattice::NoMemory;

// Marks a function; where it was not marked, it waits.
fn mark(marks: &mut Vec<bool>, waiting: &mut Vec<u32>, callee: u32) -> Result<(), NoMemory>
    requires { callee < vec_len marks.old }
    ensures { OnOk result
        (HasMarked (callee ∷ []) marks.old.items marks.new.items waiting.old.items waiting.new.items) }
{
    if marks[callee as usize] {
        return Ok(());
    }
    marks[callee as usize] = true;
    push(waiting, callee)
}

// Marks some functions; those that were not marked wait.
fn mark_all(marks: &mut Vec<bool>, waiting: &mut Vec<u32>, callees: &[u32]) -> Result<(), NoMemory>
    requires { All (λ g. g < vec_len marks.old) callees.now }
    ensures { OnOk result (HasMarked callees.now marks.old.items marks.new.items waiting.old.items waiting.new.items) }
{
    for g in callees {
        mark(marks, waiting, *g)?;
    }
    Ok(())
}

// No function is marked.
fn no_marks(alloc: Global, count: usize) -> Result<Vec<bool>, NoMemory>
    ensures { IfOk result (λ marks. marks.items ≡ replicate count false) }
{
    let marks = vec![in alloc; false; count]?;
    Ok(marks)
}

// Whether a function reaches itself.
pub(crate) fn reaches_itself(alloc: Global, calls: &[Vec<u32>], f: u32) -> Result<bool, NoMemory>
    requires graph { IsGraph (lists calls.now) }
    requires within { f < length calls.now }
    ensures { IfOk result (λ reaches. IsTrue reaches ↔ Reaches (calls_in (lists calls.now)) f f) }
{
    let mut marks = no_marks(alloc, calls.len())?;
    let mut waiting = Vec::new(alloc);
    mark_all(&mut marks, &mut waiting, calls_of(calls, f))?;
    while let Some(g) = waiting.pop() {
        mark_all(&mut marks, &mut waiting, calls_of(calls, g))?;
    }
    Ok(marks[f as usize])
}
