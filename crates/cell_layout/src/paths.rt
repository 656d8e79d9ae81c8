//! Call paths and their numbers.
ghost use Rattle.std.specs.Prelude.{◌≡◌, ◌+◌, ◌≤◌, ◌<◌, ◌++◌, ◌^◌, reverse, length, IfOk, OnOk, false};
ghost use Rattle.tm_terms.specs.declared.refusals.Limit.TheVariants as Limits;
ghost use Rattle.tm_typed.specs.CallGraph.{calls_in};
ghost use Rattle.tm_typed.specs.TypedFiles.{typed_file_tree};
ghost use Rattle.tm_laid.specs.CallTrees.{trees_of};
ghost use Rattle.tm_laid.specs.Paths.{bodies_of, tree_of, numbers_from, paths_of, first_paths_of};
ghost use Rattle.tm_laid.specs.declared.scales.Scale.TheVariants as Scales;
ghost use Rattle.tm_laid.specs.Layouts.{is_exceeded};
ghost use Rattle.tm_laid.specs.Layable.{IsLayable};
ghost use Rattle.cell_layout.specs.reading.Counts.{AreTotals};
ghost use Rattle.cell_layout.specs.reading.Waits.{calls_waiting, bodies_waiting, size_of, AreNumbered, IsAllNumbered};

use crate::counts::{count_all, total_at};
use crate::tables::calls_of;
use std::alloc::Global;
use tm_laid::{CallPath, Caller};
use tm_lattice::NoMemory;
use tm_terms::Limit;
use tm_typed::TypedFile;

/// A call path that has no number yet.
#[derive(Clone, Copy)]
pub struct Waiting {
    pub body: u32,
    pub function: u32,
    pub caller: Option<Caller>,
}

/// The paths that have numbers, with those that go on from each, and the paths that wait, the last of which comes
/// first.
#[derive(Drop)]
pub struct Numbered {
    pub paths: Vec<CallPath>,
    pub callees: Vec<Vec<u32>>,
    pub waiting: Vec<Waiting>,
}

// The calls of a path.
fn waiting_calls(
    alloc: Global,
    file: &TypedFile,
    body: u32,
    path: u32,
    function: u32,
) -> Result<Vec<Waiting>, NoMemory>
    requires layable { IsLayable (typed_file_tree file.now) file.now.order.items }
    requires small { size_of (typed_file_tree file.now) function ≤ 65536 }
    ensures { IfOk result (λ v. v.items ≡ calls_waiting body path 0
        (calls_in (typed_file_tree file.now).calls function)) }
{
    let mut waiting = Vec::new(alloc);
    let mut site = 0;
    for callee in calls_of(file, function) {
        waiting.push(Waiting {
            body,
            function: *callee,
            caller: Some(Caller { path, site }),
        })?;
        site += 1;
    }
    Ok(waiting)
}

// The numbers of the paths that go on from a path, the first of which has this one.
fn callee_numbers(
    alloc: Global,
    file: &TypedFile,
    totals: &[u32],
    function: u32,
    first: u32,
) -> Result<Vec<u32>, NoMemory>
    requires layable { IsLayable (typed_file_tree file.now) file.now.order.items }
    requires totals { AreTotals (typed_file_tree file.now) Limits.Paths totals.now }
    requires small { size_of (typed_file_tree file.now) function ≤ 65536 }
    requires number { first ≤ 65536 }
    ensures { IfOk result (λ v. v.items ≡ numbers_from first (trees_of (tree_of (typed_file_tree file.now))
        (calls_in (typed_file_tree file.now).calls function))) }
{
    let mut numbers = Vec::new(alloc);
    let mut number = first;
    for callee in calls_of(file, function) {
        numbers.push(number)?;
        number += total_at(totals, *callee);
    }
    Ok(numbers)
}

// Paths wait behind the others, the first on top.
fn push_reversed(
    alloc: Global,
    waiting: &mut Vec<Waiting>,
    more: &[Waiting],
) -> Result<(), NoMemory>
    ensures { OnOk result (waiting.new.items ≡ waiting.old.items ++ reverse more.now) }
{
    let turned = more.iter().rev().copied().collect::<Vec<Waiting>>(alloc)?;
    waiting.extend_from_slice(&turned)?;
    Ok(())
}

// The bodies wait.
fn waiting_bodies(alloc: Global, bodies: &[u32]) -> Result<Vec<Waiting>, NoMemory>
    requires few { length bodies.now < 2 ^ 32 }
    ensures { IfOk result (λ v. v.items ≡ bodies_waiting 0 bodies.now) }
{
    let mut waiting = Vec::new(alloc);
    let mut body = 0;
    for function in bodies {
        waiting.push(Waiting {
            body,
            function: *function,
            caller: None,
        })?;
        body += 1;
    }
    Ok(waiting)
}

// The next path gets its number.
fn number_path(
    alloc: Global,
    file: &TypedFile,
    totals: &[u32],
    number: u32,
    numbered: &mut Numbered,
) -> Result<(), NoMemory>
    requires layable { IsLayable (typed_file_tree file.now) file.now.order.items }
    requires totals { AreTotals (typed_file_tree file.now) Limits.Paths totals.now }
    requires within { is_exceeded Scales.Large (typed_file_tree file.now) Limits.Paths ≡ false }
    requires numbered { AreNumbered (typed_file_tree file.now) number numbered.old }
    requires more { number < length (paths_of (typed_file_tree file.now)) }
    ensures { OnOk result (AreNumbered (typed_file_tree file.now) (number + 1) numbered.new) }
{
    match numbered.waiting.pop() {
        None => Ok(()),
        Some(next) => {
            let callees = callee_numbers(alloc, file, totals, next.function, number + 1)?;
            let calls = waiting_calls(alloc, file, next.body, number, next.function)?;
            push_reversed(alloc, &mut numbered.waiting, &calls)?;
            numbered.callees.push(callees)?;
            numbered.paths.push(CallPath {
                body: next.body,
                function: next.function,
                caller: next.caller,
                paths: total_at(totals, next.function),
            })?;
            Ok(())
        }
    }
}

/// The call paths of all bodies.
pub(crate) fn call_paths(
    alloc: Global,
    file: &TypedFile,
    totals: &[u32],
    bodies: &[u32],
) -> Result<Numbered, NoMemory>
    requires layable { IsLayable (typed_file_tree file.now) file.now.order.items }
    requires totals { AreTotals (typed_file_tree file.now) Limits.Paths totals.now }
    requires within { is_exceeded Scales.Large (typed_file_tree file.now) Limits.Paths ≡ false }
    requires bodies { bodies.now ≡ bodies_of (typed_file_tree file.now) }
    ensures { IfOk result (λ n. IsAllNumbered (typed_file_tree file.now) n) }
{
    let first = waiting_bodies(alloc, bodies)?;
    let mut numbered = Numbered {
        paths: Vec::new(alloc),
        callees: Vec::new(alloc),
        waiting: Vec::new(alloc),
    };
    push_reversed(alloc, &mut numbered.waiting, &first)?;
    for number in 0..count_all(file, Limit::Paths, totals, bodies) {
        number_path(alloc, file, totals, number, &mut numbered)?;
    }
    Ok(numbered)
}

/// For each body its own path.
pub(crate) fn first_paths(
    alloc: Global,
    file: &TypedFile,
    totals: &[u32],
    bodies: &[u32],
) -> Result<Vec<u32>, NoMemory>
    requires layable { IsLayable (typed_file_tree file.now) file.now.order.items }
    requires totals { AreTotals (typed_file_tree file.now) Limits.Paths totals.now }
    requires within { is_exceeded Scales.Large (typed_file_tree file.now) Limits.Paths ≡ false }
    requires bodies { bodies.now ≡ bodies_of (typed_file_tree file.now) }
    ensures { IfOk result (λ v. v.items ≡ first_paths_of (typed_file_tree file.now)) }
{
    let _file = file;
    let mut numbers = Vec::new(alloc);
    let mut number = 0;
    for body in bodies {
        numbers.push(number)?;
        number += total_at(totals, *body);
    }
    Ok(numbers)
}
