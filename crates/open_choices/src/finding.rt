//! All choices that are left open.
ghost use Rattle.std.specs.Prelude.{◌≡◌, ◌<◌, length, Contains, IfOk, OnOk};
ghost use Rattle.tm_laid.specs.Layouts.{laid_tree};
ghost use Rattle.post_recheck.specs.program_equations.Solutions.{tables_of};
ghost use Rattle.post_recheck.specs.program_systems.Analysable.{IsAnalysable};
ghost use Rattle.post_recheck.specs.program_systems.ProgramFacts.{AreProgramFacts, program_with};
ghost use Rattle.post_recheck.specs.Pairs.{FitsPair, lists_of, pair_of};
ghost use Rattle.text_choices.specs.Choices.{Adds};
ghost use Rattle.operand_orders.specs.Reached.{solved_body};
ghost use Rattle.open_choices.specs.Choices.{IsOfBody, IsOfRuns, AreChoices};
ghost use Rattle.open_choices.specs.reading.Marks.{AreCellMarks};
ghost use Rattle.open_choices.specs.reading.Noted.{IsOfNoted};

use crate::bodies::add_in_body;
use crate::constants::constant_cells;
use crate::edges::Known;
use crate::enumerations::enumerated_cells;
use crate::marks::CellMarks;
use crate::sorting::in_order;
use edge_origins::BodyOrigins;
use flow_graph::Edge;
use interfere_set::Store;
use mutex_configs::{EdgeCopy, Program};
use operand_orders::{BodyView, copies_by_edge, lives_of};
use post_recheck::{BodyState, ProgramFacts, Table};
use std::alloc::Global;
use text_choices::Choice;
use tm_lattice::NoMemory;

// Adds what the body with this number leaves open.
fn add_body(
    alloc: Global,
    program: &Program,
    facts: &ProgramFacts,
    tables: &[Table],
    store: &Store,
    origins: &BodyOrigins,
    marks: &CellMarks,
    number: u32,
    choices: &mut Vec<Choice>,
) -> Result<(), NoMemory>
    requires analysable { IsAnalysable program.now }
    requires facts { AreProgramFacts program.now facts.now }
    requires fits { FitsPair (program_with program.now facts.now) (pair_of tables.now store.now) }
    requires number { number < length (program_with program.now facts.now).bodies }
    requires marks { AreCellMarks (laid_tree program.now.laid) marks.now }
    ensures { OnOk result (Adds choices.old.items choices.new.items (IsOfBody (solved_body (laid_tree program.now.laid)
        (program_with program.now facts.now) (tables_of (lists_of tables.now)) store.now number origins.now))) }
{
    let _facts = facts;
    let configured = &program.configured[number as usize];
    let graph = &program.graphs.graphs[number as usize];
    let copies: &[EdgeCopy] = &configured.copies;
    let edges: &[Edge] = &graph.edges;
    let table: &[Option<BodyState>] = &tables[number as usize];
    let by_edge = copies_by_edge(alloc, edges.len(), copies)?;
    let lives = lives_of(alloc, &program.laid, origins)?;
    let view = BodyView {
        alloc,
        laid: &program.laid,
        number,
        edges,
        copies,
        by_edge: &by_edge,
        table,
        store,
        origins,
    };
    let known = Known {
        lives: &lives,
        marks,
    };
    add_in_body(view, known, choices)
}

// Adds what the body with this number leaves open, if something is noted of it.
fn add_noted(
    alloc: Global,
    program: &Program,
    facts: &ProgramFacts,
    tables: &[Table],
    store: &Store,
    origins: &[BodyOrigins],
    marks: &CellMarks,
    number: u32,
    choices: &mut Vec<Choice>,
) -> Result<(), NoMemory>
    requires analysable { IsAnalysable program.now }
    requires facts { AreProgramFacts program.now facts.now }
    requires fits { FitsPair (program_with program.now facts.now) (pair_of tables.now store.now) }
    requires number { number < length (program_with program.now facts.now).bodies }
    requires marks { AreCellMarks (laid_tree program.now.laid) marks.now }
    ensures { OnOk result (Adds choices.old.items choices.new.items (IsOfNoted (laid_tree program.now.laid)
        (program_with program.now facts.now) (tables_of (lists_of tables.now)) store.now origins.now number)) }
{
    if number as usize >= origins.len() {
        return Ok(());
    }
    let noted = &origins[number as usize];
    add_body(
        alloc, program, facts, tables, store, noted, marks, number, choices,
    )
}

// Adds what each of the bodies leaves open.
fn add_bodies(
    alloc: Global,
    program: &Program,
    facts: &ProgramFacts,
    tables: &[Table],
    store: &Store,
    origins: &[BodyOrigins],
    marks: &CellMarks,
    others: Vec<Choice>,
) -> Result<Vec<Choice>, NoMemory>
    requires analysable { IsAnalysable program.now }
    requires facts { AreProgramFacts program.now facts.now }
    requires fits { FitsPair (program_with program.now facts.now) (pair_of tables.now store.now) }
    requires marks { AreCellMarks (laid_tree program.now.laid) marks.now }
    ensures { IfOk result (λ choices. Adds others.items choices.items (IsOfRuns (laid_tree program.now.laid)
        (program_with program.now facts.now) (tables_of (lists_of tables.now)) store.now origins.now)) }
{
    let mut choices = others;
    for number in 0..tables.len() as u32 {
        add_noted(
            alloc,
            program,
            facts,
            tables,
            store,
            origins,
            marks,
            number,
            &mut choices,
        )?;
    }
    Ok(choices)
}

/// These choices, and those that tables and a store of a program leave open: by line, column and the word of the kind,
/// each once. This is noted of the edges of its bodies. The facts are those of the program; they say which tables and
/// stores are meant.
pub fn open_choices(
    alloc: Global,
    others: Vec<Choice>,
    program: &Program,
    facts: &ProgramFacts,
    tables: &[Table],
    store: &Store,
    origins: &[BodyOrigins],
) -> Result<Vec<Choice>, NoMemory>
    requires analysable { IsAnalysable program.now }
    requires facts { AreProgramFacts program.now facts.now }
    requires fits { FitsPair (program_with program.now facts.now) (pair_of tables.now store.now) }
    ensures { IfOk result (λ choices. AreChoices (laid_tree program.now.laid)
        (program_with program.now facts.now) (tables_of (lists_of tables.now)) store.now origins.now
        (Contains others.items) choices.items) }
{
    let marks = CellMarks {
        constants: constant_cells(alloc, &program.laid)?,
        enumerated: enumerated_cells(alloc, &program.laid)?,
    };
    let choices = add_bodies(
        alloc, program, facts, tables, store, origins, &marks, others,
    )?;
    in_order(choices)
}
