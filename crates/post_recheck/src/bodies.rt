//! The check of one body.
ghost use Rattle.std.specs.Prelude.{◌≡◌, ◌<◌, ◌≤◌, length, IfOk};
ghost use Rattle.shared_programs.specs.program_systems.ProgramFacts.{program_with};
ghost use Rattle.post_recheck.specs.Pairs.{pair_of};
ghost use Rattle.post_recheck.specs.Bodies.{IsBodyCheck, IsGiven};
ghost use Rattle.post_recheck.specs.reading.Numbers.{number_in, IsNumberedIn};

use crate::solutions::Table;
use cell_env::State;
use edge_contributions::joined_contributions;
use flow_graph::Edge;
use interfere_set::Store;
use mutex_configs::{EdgeCopy, Program};
use pointer_dom::AbsValue;
use shared_programs::{BodySystem, ProgramFacts, body_over_store, section_entry};
use std::alloc::Global;
use table_covers::{Uncovered, first_uncovered};
use tm_lattice::NoMemory;

// What the check of a body finds.
#[derive(Drop)]
pub(crate) enum BodyCheck {
    // The number of the first edge that is not covered, where 0 stands for the entry.
    Uncovered(usize),
    // Every edge is covered; what those of a task contribute, and nothing for the initial section.
    Covered(Store),
}

// The number of an edge that is not covered, counted from 1; 0 for the entry. Counted as the edges up to it, it is at
// most the length of a slice, where one more than a number could pass the greatest.
fn edge_number(edges: &[Edge], copies: &[EdgeCopy], first: Uncovered) -> usize
    requires { IsNumberedIn edges.now copies.now first }
    ensures { result ≡ number_in copies.now first }
{
    match first {
        Uncovered::Entry => 0,
        Uncovered::Edge(copy) => edges[..=copies[copy].edge].len(),
    }
}

// The check of a task: whether its table covers its equations, and what its edges contribute there.
fn checked_task(
    alloc: Global,
    program: &Program,
    facts: &ProgramFacts,
    tables: &[Table],
    store: &Store,
    entries: &[Option<State<AbsValue>>],
    number: u32,
) -> Result<BodyCheck, NoMemory>
    requires given { IsGiven program.now facts.now (pair_of tables.now store.now) entries.now }
    requires number { number < (program_with program.now facts.now).tasks }
    ensures { IfOk result (λ check.
        IsBodyCheck (program_with program.now facts.now) (pair_of tables.now store.now) number check) }
{
    let table = &tables[number as usize];
    let entry = entries[number as usize].as_ref();
    let body = body_over_store(program, facts, number, entry, store);
    let system = BodySystem { body: &body };
    match first_uncovered(alloc, &system, table)? {
        Some(first) => Ok(BodyCheck::Uncovered(edge_number(
            &program.graphs.graphs[number as usize].edges,
            &program.configured[number as usize].copies,
            first,
        ))),
        None => Ok(BodyCheck::Covered(joined_contributions(alloc, &system, table, &[])?)),
    }
}

// The check of the initial section: whether its table covers its equations.
fn checked_section(
    alloc: Global,
    program: &Program,
    facts: &ProgramFacts,
    tables: &[Table],
    store: &Store,
    entries: &[Option<State<AbsValue>>],
    number: u32,
) -> Result<BodyCheck, NoMemory>
    requires given { IsGiven program.now facts.now (pair_of tables.now store.now) entries.now }
    requires number { number < length (program_with program.now facts.now).bodies }
    requires section { (program_with program.now facts.now).tasks ≤ number }
    ensures { IfOk result (λ check.
        IsBodyCheck (program_with program.now facts.now) (pair_of tables.now store.now) number check) }
{
    let entry = section_entry(alloc, program)?;
    let nothing = Store::new(alloc);
    let body = body_over_store(program, facts, number, Some(&entry), &nothing);
    let system = BodySystem { body: &body };
    match first_uncovered(alloc, &system, &tables[number as usize])? {
        Some(first) => Ok(BodyCheck::Uncovered(edge_number(
            &program.graphs.graphs[number as usize].edges,
            &program.configured[number as usize].copies,
            first,
        ))),
        None => Ok(BodyCheck::Covered(Store::new(alloc))),
    }
}

// The check of a body: whether its table covers its equations, and what the edges of a task contribute there.
pub(crate) fn checked_body(
    alloc: Global,
    program: &Program,
    facts: &ProgramFacts,
    tables: &[Table],
    store: &Store,
    entries: &[Option<State<AbsValue>>],
    number: u32,
) -> Result<BodyCheck, NoMemory>
    requires given { IsGiven program.now facts.now (pair_of tables.now store.now) entries.now }
    requires number { number < length (program_with program.now facts.now).bodies }
    ensures { IfOk result (λ check.
        IsBodyCheck (program_with program.now facts.now) (pair_of tables.now store.now) number check) }
{
    if (number as usize) < entries.len() {
        checked_task(alloc, program, facts, tables, store, entries, number)
    } else {
        checked_section(alloc, program, facts, tables, store, entries, number)
    }
}
