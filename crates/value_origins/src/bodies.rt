//! What is read of the bodies of a program, and what is found of them once.
use alarm_contexts::ContextEdge;
use cell_env::State;
use flow_graph::{Edge, Graph, Operation};
use graph_facts::given;
use interfere_set::Store;
use mutex_configs::{EdgeCopy, Program};
use pointer_dom::AbsValue;
use post_recheck::{ProgramFacts, Table};
use std::alloc::Global;
use tm_lattice::NoMemory;

/// What is found once of the graph of a body.
#[derive(Drop)]
pub struct BodyIndex {
    // For each temporary the numbers of the edges that give it, rising.
    pub(crate) givers: Vec<Vec<usize>>,
    // For each edge the number of the first copy of it or of a later edge.
    pub(crate) first_copies: Vec<usize>,
}

/// A program with its facts, its tables, its store, and what is found once of each body. The tables and the bodies
/// stand by the numbers of the bodies: a task by its number, the initial section behind them. Of what is missing
/// nothing is told: it counts as having no value.
#[derive(Clone, Copy)]
pub struct Analysed<'a> {
    pub program: &'a Program,
    pub facts: &'a ProgramFacts,
    pub tables: &'a [Table],
    pub store: &'a Store,
    pub bodies: &'a [BodyIndex],
}

// Empty lists up to that with a number.
fn make_room(alloc: Global, lists: &mut Vec<Vec<usize>>, number: u32) -> Result<(), NoMemory> {
    for _ in lists.len()..number as usize + 1 {
        lists.push(Vec::new(alloc))?;
    }
    Ok(())
}

/// Puts an entry at the end of the list with a number.
pub(crate) fn add_at(
    alloc: Global,
    lists: &mut Vec<Vec<usize>>,
    number: u32,
    entry: usize,
) -> Result<(), NoMemory> {
    make_room(alloc, lists, number)?;
    if let Some(list) = lists.get_mut(number as usize) {
        list.push(entry)?;
    }
    Ok(())
}

// For each temporary the edges that give it.
fn givers_of(alloc: Global, edges: &[Edge]) -> Result<Vec<Vec<usize>>, NoMemory> {
    let mut givers = Vec::new(alloc);
    for number in 0..edges.len() {
        if let Some(temp) = given(edges[number].op) {
            add_at(alloc, &mut givers, temp, number)?;
        }
    }
    Ok(givers)
}

// The copy is the first one of its edge and of those before that have none yet.
fn add_first(firsts: &mut Vec<usize>, edge: usize, copy: usize) -> Result<(), NoMemory> {
    for _ in firsts.len()..edge.saturating_add(1) {
        firsts.push(copy)?;
    }
    Ok(())
}

// For each edge the first copy of it or of a later edge.
fn first_copies(alloc: Global, copies: &[EdgeCopy]) -> Result<Vec<usize>, NoMemory> {
    let mut firsts = Vec::new(alloc);
    for copy in 0..copies.len() {
        add_first(&mut firsts, copies[copy].edge, copy)?;
    }
    Ok(firsts)
}

// The copies of the configured graph of a body.
fn copies_of(program: &Program, body: u32) -> &[EdgeCopy] {
    match program.configured.get(body as usize) {
        Some(configured) => &configured.copies,
        None => &[],
    }
}

// What is found once of the body of a graph.
fn index_of(alloc: Global, program: &Program, graph: &Graph) -> Result<BodyIndex, NoMemory> {
    let givers = givers_of(alloc, &graph.edges)?;
    let first_copies = first_copies(alloc, copies_of(program, graph.body))?;
    Ok(BodyIndex {
        givers,
        first_copies,
    })
}

/// What is found once of each body, by their numbers. The only error is want of memory.
pub fn bodies_of(alloc: Global, program: &Program) -> Result<Vec<BodyIndex>, NoMemory> {
    let mut bodies = Vec::new(alloc);
    for graph in &program.graphs.graphs {
        bodies.push(index_of(alloc, program, graph)?)?;
    }
    Ok(bodies)
}

/// Whether the body is a task, and not the initial section.
pub(crate) fn is_task(analysed: Analysed<'_>, body: u32) -> bool {
    (body as usize) < analysed.program.laid.file.tasks.len()
}

/// The operation of an edge; of one that is not there that of doing nothing.
pub fn operation_at(analysed: Analysed<'_>, edge: ContextEdge) -> Operation {
    match analysed.program.graphs.graphs.get(edge.body as usize) {
        None => Operation::Skip,
        Some(graph) => match graph.edges.get(edge.edge) {
            None => Operation::Skip,
            Some(found) => found.op,
        },
    }
}

// The number of the first copy of an edge or of a later one; that behind the last copy where there is none.
fn first_copy(analysed: Analysed<'_>, body: u32, edge: usize) -> usize {
    let count = copies_of(analysed.program, body).len();
    match analysed.bodies.get(body as usize) {
        None => count,
        Some(index) => index.first_copies.get(edge).copied().unwrap_or(count),
    }
}

/// The number of the first copy of an edge, and the number behind its last copy.
pub(crate) fn copies_at(analysed: Analysed<'_>, edge: ContextEdge) -> (usize, usize) {
    (
        first_copy(analysed, edge.body, edge.edge),
        first_copy(analysed, edge.body, edge.edge.saturating_add(1)),
    )
}

/// The number of the node that a copy leaves.
pub(crate) fn node_before(analysed: Analysed<'_>, body: u32, copy: usize) -> Option<u32> {
    match copies_of(analysed.program, body).get(copy) {
        None => None,
        Some(found) => Some(found.from),
    }
}

// The state at a node.
fn state_at<'a>(analysed: Analysed<'a>, body: u32, node: u32) -> Option<&'a State<AbsValue>> {
    match analysed.tables.get(body as usize) {
        None => None,
        Some(table) => match table.get(node as usize) {
            None => None,
            Some(found) => match found {
                None => None,
                Some(state) => Some(state.state()),
            },
        },
    }
}

/// The state at the node that a copy leaves.
pub(crate) fn state_before<'a>(
    analysed: Analysed<'a>,
    body: u32,
    copy: usize,
) -> Option<&'a State<AbsValue>> {
    match node_before(analysed, body, copy) {
        None => None,
        Some(node) => state_at(analysed, body, node),
    }
}

/// Whether an edge is reached: a node that one of its copies leaves has a state.
pub(crate) fn is_reached(analysed: Analysed<'_>, edge: ContextEdge) -> bool {
    let (first, end) = copies_at(analysed, edge);
    for copy in first..end {
        if state_before(analysed, edge.body, copy).is_some() {
            return true;
        }
    }
    false
}
