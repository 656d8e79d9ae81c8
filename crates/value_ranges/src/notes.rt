//! What the tables and the store tell of integer cells.
ghost use Rattle.std.specs.Prelude.{◌≡◌, ◌≤◌, ℕ, nat_le, length, None, IfOk};
ghost use Rattle.std.specs.Option.{option_copied};
ghost use Rattle.std.specs.FinMap.{entries};
ghost use Rattle.tm_laid.specs.Layouts.{laid_tree};
ghost use Rattle.program_reports.specs.post_recheck.transfer_rows.StateForms.{own_of};
ghost use Rattle.program_reports.specs.post_recheck.program_systems.Analysable.{IsAnalysable};
ghost use Rattle.program_reports.specs.post_recheck.program_systems.ProgramFacts.{AreProgramFacts, program_with};
ghost use Rattle.program_reports.specs.post_recheck.Pairs.{lists_of};
ghost use Rattle.value_ranges.specs.reading.Notes.{AreWidened, AreOfObjects, AreNotedIn, IsInValues, IsInNode};
ghost use Rattle.value_ranges.specs.reading.Notes.{IsInHeads, IsInCopies, IsInParts, IsInTables, IsInTableOf};
ghost use Rattle.value_ranges.specs.reading.Notes.{IsInWritten, IsInWeak, noted_at, may_raise, raised_to, is_head};
ghost use Rattle.value_ranges.specs.reading.Notes.{is_noted};

use crate::bounds::note_numbers;
use crate::cells::{IntegerCell, integer_cells, key_count, note_initial};
use crate::object_bounds::{Grouping, ObjectBounds};
use body_systems::BodyFacts;
use cell_env::State;
use flow_graph::{Edge, Graph, Operation};
use interfere_set::Store;
use mutex_configs::{ConfiguredGraph, ConfiguredNode, EdgeCopy, Program};
use pointer_dom::AbsValue;
use program_reports::{BodyState, ProgramFacts, Table};
use std::alloc::Global;
use tm_lattice::{Keyed, NoMemory};

// Notes the own values of a state.
fn note_state(noted: &mut Vec<Option<ObjectBounds>>, cells: &[IntegerCell], state: &State<AbsValue>)
    requires { AreOfObjects cells.now (length noted.old.items) }
    ensures { AreWidened (λ o n. IsInValues cells.now (own_of state.now) o n) noted.old.items noted.new.items }
{
    for index in 0..cells.len() {
        let at = cells[index];
        if let Some(entry) = state.cell(at.cell) {
            note_numbers(noted, at.object, entry.value.numbers());
        }
    }
}

// Notes what stands at a node of a table, if anything does.
fn note_node(
    noted: &mut Vec<Option<ObjectBounds>>,
    cells: &[IntegerCell],
    table: &[Option<BodyState>],
    node: usize,
)
    requires { AreOfObjects cells.now (length noted.old.items) }
    ensures { AreWidened (λ o n. IsInNode cells.now table.now o n node) noted.old.items noted.new.items }
{
    if node < table.len() {
        if let Some(state) = &table[node] {
            note_state(noted, cells, state.state());
        }
    }
}

// Whether cells are rounded at a node.
fn is_head(facts: &BodyFacts, node: Option<&ConfiguredNode>) -> bool
    ensures { result ≡ is_head facts.now.heads facts.now.written (option_copied node.entry) }
{
    match node {
        Some(found) => facts.cells_rounded(found.place).is_some(),
        None => true,
    }
}

// Whether a node is looked at whatever leads there: the first one, heads, or all.
fn is_noted(all: bool, facts: &BodyFacts, nodes: &[ConfiguredNode], node: usize) -> bool
    ensures { result ≡ is_noted all facts.now.heads facts.now.written nodes.now node }
{
    all || node == 0 || is_head(facts, nodes.get(node))
}

// Notes the nodes of a table that are looked at whatever leads there.
fn note_heads(
    noted: &mut Vec<Option<ObjectBounds>>,
    cells: &[IntegerCell],
    all: bool,
    facts: &BodyFacts,
    nodes: &[ConfiguredNode],
    table: &[Option<BodyState>],
)
    requires { AreOfObjects cells.now (length noted.old.items) }
    ensures { AreWidened (λ o n. IsInHeads cells.now (is_noted all facts.now.heads facts.now.written nodes.now)
        table.now (length table.now) o n) noted.old.items noted.new.items }
{
    for node in 0..table.len() {
        if is_noted(all, facts, nodes, node) {
            note_node(noted, cells, table, node);
        }
    }
}

// Whether a cell may hold more by itself after an operation than before.
fn may_raise(operation: Operation) -> bool
    ensures { result ≡ may_raise operation }
{
    match operation {
        Operation::Store { .. }
        | Operation::Clear { .. }
        | Operation::Lock { .. }
        | Operation::Probe { .. } => true,
        _ => false,
    }
}

// The node to which a copy of such an edge leads.
fn raised_to(edges: &[Edge], copy: EdgeCopy) -> Option<u32>
    ensures { result ≡ raised_to edges.now copy }
{
    if copy.edge < edges.len() {
        if may_raise(edges[copy.edge].op) {
            return copy.to;
        }
    }
    None
}

// Notes the nodes of a table to which such copies lead.
fn note_raised(
    noted: &mut Vec<Option<ObjectBounds>>,
    cells: &[IntegerCell],
    edges: &[Edge],
    copies: &[EdgeCopy],
    table: &[Option<BodyState>],
)
    requires { AreOfObjects cells.now (length noted.old.items) }
    ensures { AreWidened (λ o n. IsInCopies cells.now edges.now copies.now table.now (length copies.now) o n)
        noted.old.items noted.new.items }
{
    for index in 0..copies.len() {
        if let Some(node) = raised_to(edges, copies[index]) {
            note_node(noted, cells, table, node as usize);
        }
    }
}

// Notes the table of a body, at all nodes or where the numbers of cells may be others than at the nodes before.
fn note_table(
    noted: &mut Vec<Option<ObjectBounds>>,
    cells: &[IntegerCell],
    all: bool,
    graph: &Graph,
    configured: &ConfiguredGraph,
    facts: &BodyFacts,
    table: &[Option<BodyState>],
)
    requires { AreOfObjects cells.now (length noted.old.items) }
    ensures { AreWidened (λ o n. IsInParts cells.now all graph.now.edges.items configured.now.nodes.keys
        configured.now.copies.items facts.now.heads facts.now.written table.now o n)
        noted.old.items noted.new.items }
{
    note_heads(noted, cells, all, facts, configured.nodes.as_slice(), table);
    note_raised(noted, cells, &graph.edges, &configured.copies, table);
}

// Whether a body is the initial section, whose number is that of tasks.
fn is_section(program: &Program, number: usize) -> bool
    ensures { result ≡ nat_le (length program.now.laid.file.tasks.items) number }
{
    program.laid.file.tasks.len() <= number
}

// Notes the tables of all bodies: that of the initial section at all nodes.
fn note_tables(
    noted: &mut Vec<Option<ObjectBounds>>,
    cells: &[IntegerCell],
    program: &Program,
    facts: &ProgramFacts,
    tables: &[Table],
)
    requires objects { AreOfObjects cells.now (length noted.old.items) }
    requires analysable { IsAnalysable program.now }
    requires facts { AreProgramFacts program.now facts.now }
    requires count { length tables.now ≤ length program.now.graphs.graphs.items }
    ensures { AreWidened (λ o n. IsInTables cells.now (program_with program.now facts.now) (lists_of tables.now)
        (length tables.now) o n) noted.old.items noted.new.items }
{
    for number in 0..tables.len() {
        note_table(
            noted,
            cells,
            is_section(program, number),
            &program.graphs.graphs[number],
            &program.configured[number],
            &facts.bodies()[number],
            &tables[number],
        );
    }
}

// Notes what a task wrote with one set of mutexes held.
fn note_held(noted: &mut Vec<Option<ObjectBounds>>, cells: &[IntegerCell], held: &Keyed<AbsValue>)
    requires { AreOfObjects cells.now (length noted.old.items) }
    ensures { AreWidened (λ o n. IsInTableOf cells.now held.now o n) noted.old.items noted.new.items }
{
    for index in 0..cells.len() {
        let at = cells[index];
        if let Some(value) = held.get(at.cell) {
            note_numbers(noted, at.object, value.numbers());
        }
    }
}

// Notes what a task wrote.
fn note_written(
    noted: &mut Vec<Option<ObjectBounds>>,
    cells: &[IntegerCell],
    written: &Keyed<Keyed<AbsValue>>,
)
    requires { AreOfObjects cells.now (length noted.old.items) }
    ensures { AreWidened (λ o n. IsInWritten cells.now written.now (length (entries written.now)) o n)
        noted.old.items noted.new.items }
{
    let sets = written.entries();
    for index in 0..sets.len() {
        note_held(noted, cells, &sets[index].1);
    }
}

// Notes the weak entries.
fn note_weak(noted: &mut Vec<Option<ObjectBounds>>, cells: &[IntegerCell], store: &Store)
    requires { AreOfObjects cells.now (length noted.old.items) }
    ensures { AreWidened (λ o n. IsInWeak cells.now store.now.weak (length (entries store.now.weak)) o n)
        noted.old.items noted.new.items }
{
    let tasks = store.weak().entries();
    for index in 0..tasks.len() {
        note_written(noted, cells, &tasks[index].1);
    }
}

/// Nothing is noted of so many objects.
pub(crate) fn nothing(alloc: Global, count: usize) -> Result<Vec<Option<ObjectBounds>>, NoMemory>
    ensures count { IfOk result (λ noted. length noted.items ≡ count) }
    ensures none { IfOk result (λ noted. (o : ℕ) → noted_at noted.items o ≡ None) }
{
    let noted = vec![in alloc; None; count]?;
    Ok(noted)
}

/// What the tables, the store and the values before the program runs tell of the integer cells of each object, or of
/// each abstract cell, where tables are looked at: at the first nodes, heads, and nodes behind operations after which a
/// cell may hold more than before, and all of the initial section.
pub(crate) fn noted_in(
    alloc: Global,
    program: &Program,
    facts: &ProgramFacts,
    grouping: Grouping,
    tables: &[Table],
    store: &Store,
) -> Result<Vec<Option<ObjectBounds>>, NoMemory>
    requires analysable { IsAnalysable program.now }
    requires facts { AreProgramFacts program.now facts.now }
    requires count { length tables.now ≤ length program.now.graphs.graphs.items }
    ensures { IfOk result (λ noted. AreNotedIn grouping (laid_tree program.now.laid)
        (program_with program.now facts.now) (lists_of tables.now) store.now.weak noted.items) }
{
    let laid = &program.laid;
    let cells = integer_cells(alloc, laid, grouping)?;
    let mut noted = nothing(alloc, key_count(laid, grouping))?;
    note_initial(laid, grouping, &mut noted);
    note_tables(&mut noted, &cells, program, facts, tables);
    note_weak(&mut noted, &cells, store);
    Ok(noted)
}
