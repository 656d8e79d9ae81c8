//! The stores of a program by the cells that they reach, and which of them may have given what a load gives.
ghost use Rattle.std.specs.Prelude.{◌≡◌, IsTrue};
ghost use Rattle.value_origins.specs.Nulls.{GivesNull};

use crate::bodies::{Analysed, add_at, is_task, operation_at};
use crate::extents::{Extent, common, has_some, weight};
use crate::givers::{Use, source_of, value_at};
use crate::reads::{Access, Mutexes, cells_at, is_fresh, mutexes_at};
use alarm_contexts::ContextEdge;
use flow_graph::{Graph, Operation};
use request_circles::has_mutex;
use std::alloc::Global;
use tm_lattice::NoMemory;

/// A store.
#[derive(Clone, Copy)]
pub struct StoreSite {
    /// Its edge, and the temporary that it stores.
    pub stored: Use,
    /// The values that it stores.
    pub values: Extent,
    /// The mutexes that are held on each way there, that with the number n as the bit of 2 to the n.
    pub held: u16,
    /// Whether what it stores is an input, or a copy of one.
    pub is_input: bool,
    /// How many stores go before it: those of an input before all others, then those with more values.
    pub rank: usize,
}

/// All stores of a program by the cells that they reach.
#[derive(Drop)]
pub struct Stores {
    // By their ranks.
    pub(crate) sites: Vec<StoreSite>,
    // For each abstract cell the ranks of the stores that reach it, rising.
    pub(crate) by_cell: Vec<Vec<usize>>,
}

// Whether an operation gives any value of a type.
fn is_input(operation: Operation) -> bool {
    match operation {
        Operation::Any { .. } | Operation::LoadAny { .. } => true,
        _ => false,
    }
}

// Whether a temporary is an input.
fn holds_input(analysed: Analysed<'_>, used: Use) -> bool {
    match source_of(analysed, used) {
        None => false,
        Some(giving) => is_input(operation_at(analysed, giving.giver)),
    }
}

// The store of a temporary, with no rank yet.
fn site_of(analysed: Analysed<'_>, stored: Use) -> StoreSite {
    let Mutexes { held, .. } = mutexes_at(analysed, stored.edge);
    StoreSite {
        stored,
        values: value_at(analysed, stored),
        held,
        is_input: holds_input(analysed, stored),
        rank: 0,
    }
}

// Adds the store of an edge, if it is one.
fn add_edge(
    analysed: Analysed<'_>,
    edge: ContextEdge,
    sites: &mut Vec<StoreSite>,
) -> Result<(), NoMemory> {
    if let Operation::Store { value, .. } = operation_at(analysed, edge) {
        sites.push(site_of(analysed, Use { edge, temp: value }))?;
    }
    Ok(())
}

// Adds the stores of a graph.
fn add_graph(
    analysed: Analysed<'_>,
    graph: &Graph,
    sites: &mut Vec<StoreSite>,
) -> Result<(), NoMemory> {
    for edge in 0..graph.edges.len() {
        let at = ContextEdge {
            body: graph.body,
            edge,
        };
        add_edge(analysed, at, sites)?;
    }
    Ok(())
}

// The stores of all bodies, by bodies and edges.
fn all_sites(alloc: Global, analysed: Analysed<'_>) -> Result<Vec<StoreSite>, NoMemory> {
    let mut sites = Vec::new(alloc);
    for graph in &analysed.program.graphs.graphs {
        add_graph(analysed, graph, &mut sites)?;
    }
    Ok(sites)
}

// Where a store stands among others, by what is compared of them: those of an input before all others, then those with
// more values, then the earlier ones.
#[derive(Clone, Copy, PartialEq, Eq, PartialOrd, Ord)]
struct Standing {
    is_computed: bool,
    fewer: u128,
    position: usize,
}

// That of a store at a position.
fn standing_of(site: &StoreSite, position: usize) -> Standing {
    Standing {
        is_computed: !site.is_input,
        fewer: u128::MAX - weight(&site.values),
        position,
    }
}

// Those of stores, sorted.
fn standings_of(alloc: Global, sites: &[StoreSite]) -> Result<Vec<Standing>, NoMemory> {
    let mut standings = Vec::new(alloc);
    for position in 0..sites.len() {
        standings.push(standing_of(&sites[position], position))?;
    }
    standings.sort()?;
    Ok(standings)
}

// The cells that the store of an edge reaches.
fn stored_cells(
    alloc: Global,
    analysed: Analysed<'_>,
    edge: ContextEdge,
) -> Result<Vec<u32>, NoMemory> {
    match operation_at(analysed, edge) {
        Operation::Store {
            address,
            scalar,
            ..
        } => {
            let access = Access {
                edge,
                address,
                scalar,
            };
            cells_at(alloc, analysed, access)
        }
        _ => Ok(Vec::new(alloc)),
    }
}

// Adds a rank to those of each of some cells.
fn add_cells(
    alloc: Global,
    by_cell: &mut Vec<Vec<usize>>,
    cells: &[u32],
    rank: usize,
) -> Result<(), NoMemory> {
    for cell in cells {
        add_at(alloc, by_cell, *cell, rank)?;
    }
    Ok(())
}

// Adds a store behind those that go before it.
fn add_site(
    alloc: Global,
    analysed: Analysed<'_>,
    site: &StoreSite,
    stores: &mut Stores,
) -> Result<(), NoMemory> {
    let rank = stores.sites.len();
    let cells = stored_cells(alloc, analysed, site.stored.edge)?;
    add_cells(alloc, &mut stores.by_cell, &cells, rank)?;
    stores.sites.push(StoreSite { rank, ..*site })?;
    Ok(())
}

/// The stores of all bodies. The only error is want of memory.
pub fn stores_of(alloc: Global, analysed: Analysed<'_>) -> Result<Stores, NoMemory> {
    let sites = all_sites(alloc, analysed)?;
    let standings = standings_of(alloc, &sites)?;
    let mut stores = Stores {
        sites: Vec::new(alloc),
        by_cell: Vec::new(alloc),
    };
    for standing in &standings {
        if let Some(site) = sites.get(standing.position) {
            add_site(alloc, analysed, site, &mut stores)?;
        }
    }
    Ok(stores)
}

// A load of a cell: its edge, the values that it gives, the mutexes on each way there, and whether the cell is fresh.
#[derive(Clone, Copy)]
struct Reader {
    edge: ContextEdge,
    cell: u32,
    values: Extent,
    mutexes: Mutexes,
    fresh: bool,
}

// The load of a cell.
fn reader_of(analysed: Analysed<'_>, edge: ContextEdge, cell: u32, values: &Extent) -> Reader
    ensures { result.values.null ≡ values.now.null }
{
    Reader {
        edge,
        cell,
        values: *values,
        mutexes: mutexes_at(analysed, edge),
        fresh: is_fresh(analysed, edge, cell),
    }
}

// The priority of a body.
fn priority_of(analysed: Analysed<'_>, body: u32) -> u8 {
    analysed
        .facts
        .priorities()
        .get(body as usize)
        .copied()
        .unwrap_or(0)
}

// Whether the store of another task may come in meanwhile.
fn is_seen(analysed: Analysed<'_>, reader: &Reader, site: &StoreSite) -> bool {
    let task = reader.edge.body;
    let writer = site.stored.edge.body;
    let is_urgent = priority_of(analysed, task) <= priority_of(analysed, writer);
    let may_wait = !reader.fresh && site.held & reader.mutexes.found == 0;
    site.held & reader.mutexes.held == 0 && (is_urgent || may_wait)
}

// Whether what another task stores may be handed over with a mutex that the body holds.
fn is_handed(analysed: Analysed<'_>, reader: &Reader, writer: u32) -> bool {
    let Some(left) = analysed.store.sync().get(writer) else {
        return false;
    };
    for (mutex, cells) in left.entries() {
        if has_mutex(reader.mutexes.held, *mutex) && cells.get(reader.cell).is_some() {
            return true;
        }
    }
    false
}

// Whether what a store puts there may be loaded: that of the body itself, or of the initial section, always.
fn may_arrive(analysed: Analysed<'_>, reader: &Reader, site: &StoreSite) -> bool {
    let writer = site.stored.edge.body;
    writer == reader.edge.body
        || !is_task(analysed, writer)
        || is_seen(analysed, reader, site)
        || is_handed(analysed, reader, writer)
}

// Whether a store gives what is looked for of a load: the null pointer where that is loaded, for it goes wrong wherever
// it comes from; and else any of the values.
fn gives_some(stored: &Extent, loaded: &Extent) -> bool
    ensures { IsTrue result → IsTrue loaded.now.null → IsTrue stored.now.null }
{
    if loaded.null {
        stored.null
    } else {
        has_some(&common(stored, loaded))
    }
}

// Whether a store may have given what is looked for of a load.
fn may_give(analysed: Analysed<'_>, reader: &Reader, site: &StoreSite) -> bool
    ensures { IsTrue result → IsTrue reader.now.values.null → IsTrue site.now.values.null }
{
    gives_some(&site.values, &reader.values) && may_arrive(analysed, reader, site)
}

// The ranks of the stores that reach a cell, rising.
fn ranks_at(stores: &Stores, cell: u32) -> &[usize] {
    match stores.by_cell.get(cell as usize) {
        None => &[],
        Some(ranks) => ranks,
    }
}

// Whether a rank goes before the store that is known, if one is known.
fn is_before(rank: usize, known: Option<&StoreSite>) -> bool {
    match known {
        None => true,
        Some(known) => rank < known.rank,
    }
}

// The first of the store that is known and of those that reach the cell of a load and may have given what is looked for.
fn first_store(
    analysed: Analysed<'_>,
    stores: &Stores,
    reader: &Reader,
    known: Option<StoreSite>,
) -> Option<StoreSite>
    requires { GivesNull reader.now.values.null known }
    ensures { GivesNull reader.now.values.null result }
{
    for rank in ranks_at(stores, reader.cell) {
        if !is_before(*rank, known.as_ref()) {
            return known;
        }
        if let Some(site) = stores.sites.get(*rank) {
            if may_give(analysed, reader, site) {
                return Some(*site);
            }
        }
    }
    known
}

/// The store with the most values that may have given those of a load of one of these cells, a store of an input before
/// all others. Where the load may give the null pointer, only a store that may store this one; none where no store
/// does, so that it was there from the start.
pub fn widest_store(
    analysed: Analysed<'_>,
    stores: &Stores,
    edge: ContextEdge,
    cells: &[u32],
    values: &Extent,
) -> Option<StoreSite>
    ensures { GivesNull values.now.null result }
{
    let mut best = None;
    for cell in cells {
        let reader = reader_of(analysed, edge, *cell, values);
        best = first_store(analysed, stores, &reader, best);
    }
    best
}
