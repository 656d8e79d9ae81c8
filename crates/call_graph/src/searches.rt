//! A search through the calls, depth first, by a list of open functions: it gives an order in which each function
//! stands behind those that it calls, or finds a function that reaches itself.
ghost use Rattle.std.specs.Prelude.{◌≡◌, [], ◌∷◌, ◌++◌, ◌<◌, length, IfOk};
ghost use Rattle.call_graph.specs.Graphs.{lists, IsGraph};
ghost use Rattle.call_graph.specs.Searches.{IsSearchOf, IsUnmet, Steps, Ends};

use crate::graphs::{call_at, push};
use std::alloc::Global;
use tm_lattice::NoMemory;

/// How far a function is: not met yet; met, and its calls are looked through; or in the order.
#[derive(Clone, Copy, PartialEq, Eq)]
pub enum Mark {
    New,
    Open,
    Done,
}

/// The marks of all functions, how many calls of each were found done, the functions that are open, each called by
/// the one before it, and the order so far.
#[derive(Drop)]
pub struct Search {
    pub marks: Vec<Mark>,
    pub taken: Vec<usize>,
    pub path: Vec<u32>,
    pub order: Vec<u32>,
}

// A search in which nothing is met.
pub(crate) fn new_search(alloc: Global, count: usize) -> Result<Search, NoMemory>
    ensures { IfOk result (λ s. IsUnmet s count) }
{
    let marks = vec![in alloc; Mark::New; count]?;
    let taken = vec![in alloc; 0; count]?;
    let path = Vec::new(alloc);
    let order = Vec::new(alloc);
    Ok(Search {
        marks,
        taken,
        path,
        order,
    })
}

// One step at the function f, the last of the path: it is done, or a call of it is looked at. False where that call
// leads back to the path.
fn step(calls: &[Vec<u32>], search: &mut Search, f: u32) -> Result<bool, NoMemory>
    requires graph { IsGraph (lists calls.now) }
    requires searching { IsSearchOf (lists calls.now) search.old (search.old.path.items ++ f ∷ []) }
    ensures { IfOk result (λ went. Steps (lists calls.now) search.old search.new went) }
{
    let at = f as usize;
    let taken = search.taken[at];
    match call_at(calls, f, taken) {
        None => {
            search.marks[at] = Mark::Done;
            push(&mut search.order, f)?;
            Ok(true)
        }
        Some(g) => match search.marks[g as usize] {
            Mark::Done => {
                search.taken[at] = taken + 1;
                push(&mut search.path, f)?;
                Ok(true)
            }
            Mark::New => {
                search.marks[g as usize] = Mark::Open;
                push(&mut search.path, f)?;
                push(&mut search.path, g)?;
                Ok(true)
            }
            Mark::Open => Ok(false),
        },
    }
}

// From the functions of the path on, until it is empty. False where a function reaches itself.
pub(crate) fn search_on(calls: &[Vec<u32>], search: &mut Search) -> Result<bool, NoMemory>
    requires graph { IsGraph (lists calls.now) }
    requires searching { IsSearchOf (lists calls.now) search.old search.old.path.items }
    ensures { IfOk result (λ went. Ends (lists calls.now) search.old search.new went) }
{
    while let Some(f) = search.path.pop() {
        if !step(calls, search, f)? {
            return Ok(false);
        }
    }
    Ok(true)
}
