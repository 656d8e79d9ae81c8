//! Graphs whose edges touch and carry cells.

use crate::cell_sets::CellSet;
use table_covers::Link;

/// A graph with node 0 as its entry, and what its edges do with cells. An edge for which no set stands touches no cell,
/// carries none, or looks at none, and at a node for which none stands no cell is rounded.
#[derive(Drop)]
pub struct CellGraph {
    /// How many nodes there are. They are numbered from 0.
    pub nodes: usize,
    /// The edges.
    pub links: Vec<Link>,
    /// How many cells there are. They are numbered from 0.
    pub cells: usize,
    /// For each edge the cells that it may change by what else there is.
    pub touched: Vec<CellSet>,
    /// For each edge the cells that it carries: it may change each by itself, whatever else there is.
    pub carried: Vec<CellSet>,
    /// For each edge the cells at which it may look, those that it touches among them.
    pub looked: Vec<CellSet>,
    /// For each node the cells that may be rounded there.
    pub rounded: Vec<CellSet>,
}
