//! Counts over call paths and objects, which stop one above their limit on the large scale.
ghost use Rattle.std.specs.Prelude.{◌≡◌, ◌+◌, min, get_or, IfOk};
ghost use Rattle.tm_typed.specs.CallGraph.{calls_in};
ghost use Rattle.tm_typed.specs.TypedFiles.{typed_file_tree, typed_static_tree};
ghost use Rattle.tm_laid.specs.Layable.{IsLayable};
ghost use Rattle.cell_layout.specs.reading.Counts.{beyond_number, column_of, of_locals, own_by, sum_of, total_in};
ghost use Rattle.cell_layout.specs.reading.Counts.{AreTotals, static_column, of_statics};

use crate::tables::{abstract_column, calls_of, cell_column, locals_in};
use std::alloc::Global;
use tm_laid::Scale;
use tm_lattice::NoMemory;
use tm_terms::Limit;
use tm_typed::{LocalEntry, TypedFile, TypedStatic};

// What a limit counts of a type.
#[tactic(auto, unfolding(crate::specs::reading::Counts::column_of))]
fn column(file: &TypedFile, limit: Limit, number: u32) -> u32
    ensures { result ≡ column_of (typed_file_tree file.now) limit number }
{
    match limit {
        Limit::Cells => cell_column(file, number),
        Limit::Abstract => abstract_column(file, number),
        _ => 0,
    }
}

// The sum of two counts.
#[tactic(auto)]
fn capped(limit: Limit, left: u32, right: u32) -> u32
    ensures { result ≡ min (beyond_number limit) (left + right) }
{
    left.saturating_add(right)
        .min(Scale::Large.number(limit).min(4_294_967_294) as u32 + 1)
}

// What a limit counts of some parameters and local objects.
fn count_locals(file: &TypedFile, limit: Limit, locals: &[LocalEntry]) -> u32
    ensures { result ≡ min (beyond_number limit) (of_locals (typed_file_tree file.now) limit locals.now) }
{
    let mut sum = 0;
    for local in locals {
        sum = capped(limit, sum, column(file, limit, local.of.number));
    }
    sum
}

// What it counts on each path that ends in a function.
#[tactic(auto, unfolding(crate::specs::reading::Counts::own_by))]
pub(crate) fn own_count(file: &TypedFile, limit: Limit, function: u32) -> u32
    ensures { result ≡ min (beyond_number limit) (own_by (typed_file_tree file.now) limit function) }
{
    match limit {
        Limit::Paths => 1,
        _ => count_locals(file, limit, locals_in(file, function)),
    }
}

// The total of a function among those found so far.
pub(crate) fn total_at(totals: &[u32], function: u32) -> u32
    ensures { result ≡ get_or totals.now function 0 }
{
    match totals.get(function as usize) {
        Some(total) => *total,
        None => 0,
    }
}

// The total of a function: its own count, and the totals of the functions that it calls.
fn sum_over(file: &TypedFile, limit: Limit, totals: &[u32], function: u32) -> u32
    ensures { result ≡ min (beyond_number limit)
        (own_by (typed_file_tree file.now) limit function + sum_of (total_in totals.now)
        (calls_in (typed_file_tree file.now).calls function)) }
{
    let mut sum = own_count(file, limit, function);
    for callee in calls_of(file, function) {
        sum = capped(limit, sum, total_at(totals, *callee));
    }
    sum
}

// The totals of all functions.
pub(crate) fn totals(alloc: Global, file: &TypedFile, limit: Limit) -> Result<Vec<u32>, NoMemory>
    requires layable { IsLayable (typed_file_tree file.now) file.now.order.items }
    ensures { IfOk result (λ v. AreTotals (typed_file_tree file.now) limit v.items) }
{
    let mut totals = vec![in alloc; 0; file.functions.len()]?;
    for function in &file.order {
        let total = sum_over(file, limit, &totals, *function);
        totals[*function as usize] = total;
    }
    Ok(totals)
}

// What a limit counts of an object of static storage.
fn static_count(file: &TypedFile, limit: Limit, object: &TypedStatic) -> u32
    ensures { result ≡ static_column (typed_file_tree file.now) limit (typed_static_tree object.now) }
{
    if object.defined {
        column(file, limit, object.of.number)
    } else {
        0
    }
}

// What a limit counts of all objects of static storage.
fn count_statics(file: &TypedFile, limit: Limit) -> u32
    ensures { result ≡ min (beyond_number limit) (of_statics (typed_file_tree file.now) limit
        (typed_file_tree file.now).statics) }
{
    let mut sum = 0;
    for object in &file.statics {
        sum = capped(limit, sum, static_count(file, limit, object));
    }
    sum
}

// What a limit counts of all objects and call paths, by the totals of functions.
pub(crate) fn count_all(file: &TypedFile, limit: Limit, totals: &[u32], bodies: &[u32]) -> u32
    ensures { result ≡ min (beyond_number limit) (of_statics (typed_file_tree file.now) limit
        (typed_file_tree file.now).statics + sum_of (total_in totals.now) bodies.now) }
{
    let mut sum = count_statics(file, limit);
    for body in bodies {
        sum = capped(limit, sum, total_at(totals, *body));
    }
    sum
}
