//! Orders of functions in which each stands behind those that it calls.
ghost use Rattle.std.specs.Prelude.{◌≡◌, ◌<◌, ◌+◌, ◌^◌, All, IfOk, length, MatchOption};
ghost use Rattle.tm_typed.specs.CallGraph.{IsFirstRecursive, Reaches, calls_in};
ghost use Rattle.call_graph.specs.Graphs.{lists, IsGraph};
ghost use Rattle.call_graph.specs.Orders.{AreDefinitions, IsCallOrder, IsWholeOrder};
ghost use Rattle.call_graph.specs.Searches.{Begins, HasCycle, IsAllMet};

use crate::graphs::push;
use crate::reaching::reaches_itself;
use crate::searches::{Mark, Search, new_search, search_on};
use std::alloc::Global;
use tm_lattice::NoMemory;

/// All functions, each behind those that it calls; or the first definition of a function that reaches itself.
#[derive(Drop)]
pub enum CallOrder {
    Ordered(Vec<u32>),
    Recursive(u32),
}

// The search from the function f on, where it was not met. False where a function reaches itself.
fn begin(calls: &[Vec<u32>], search: &mut Search, f: u32) -> Result<bool, NoMemory>
    requires graph { IsGraph (lists calls.now) }
    requires met { IsAllMet (lists calls.now) search.old f }
    requires within { f < length calls.now }
    ensures { IfOk result (λ went. Begins (lists calls.now) search.new (f + 1) went) }
{
    match search.marks[f as usize] {
        Mark::New => {
            search.marks[f as usize] = Mark::Open;
            push(&mut search.path, f)?;
            let went = search_on(calls, search)?;
            Ok(went)
        }
        Mark::Open | Mark::Done => Ok(true),
    }
}

// All functions, each behind those that it calls; none where a function reaches itself.
fn callees_first(alloc: Global, calls: &[Vec<u32>]) -> Result<Option<Vec<u32>>, NoMemory>
    requires graph { IsGraph (lists calls.now) }
    requires few { length calls.now < 2 ^ 32 }
    ensures { IfOk result
        (λ found. MatchOption found (HasCycle (lists calls.now))
        (λ order. IsWholeOrder (lists calls.now) order.items)) }
{
    let mut search = new_search(alloc, calls.len())?;
    for f in 0..calls.len() as u32 {
        if !begin(calls, &mut search, f)? {
            return Ok(None);
        }
    }
    let Search {
        marks: _marks,
        taken: _taken,
        path: _path,
        order,
    } = search;
    Ok(Some(order))
}

// The first of some functions that reaches itself.
fn first_recursive(
    alloc: Global,
    calls: &[Vec<u32>],
    functions: &[u32],
) -> Result<Option<u32>, NoMemory>
    requires graph { IsGraph (lists calls.now) }
    requires within { All (λ f. f < length calls.now) functions.now }
    ensures { IfOk result
        (λ first. MatchOption first (All (λ f. Reaches (calls_in (lists calls.now)) f f → ⊥) functions.now)
        (λ f. IsFirstRecursive (calls_in (lists calls.now)) functions.now f)) }
{
    for f in functions {
        if reaches_itself(alloc, calls, *f)? {
            return Ok(Some(*f));
        }
    }
    Ok(None)
}

#[tactic(auto, using(crate::proofs::Marking::no_cycle))]
/// All functions, each behind those that it calls; or where one reaches itself, the first of the definitions that does.
/// A function is given by its number, and `calls` has the calls of each.
pub fn call_order(
    alloc: Global,
    calls: &[Vec<u32>],
    definitions: &[u32],
) -> Result<CallOrder, NoMemory>
    requires graph { IsGraph (lists calls.now) }
    requires few { length calls.now < 2 ^ 32 }
    requires within { All (λ f. f < length calls.now) definitions.now }
    requires defined { AreDefinitions (lists calls.now) definitions.now }
    ensures { IfOk result (λ order. IsCallOrder (lists calls.now) definitions.now order) }
{
    match callees_first(alloc, calls)? {
        Some(order) => Ok(CallOrder::Ordered(order)),
        None => match first_recursive(alloc, calls, definitions)? {
            Some(f) => Ok(CallOrder::Recursive(f)),
            None => unreachable!(),
        },
    }
}
