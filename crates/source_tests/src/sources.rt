//! The layout of a file and the graphs of its bodies.
ghost use Rattle.std.specs.Prelude.{IfOk};
ghost use Rattle.tm_laid.specs.Layouts.{laid_tree};
ghost use Rattle.lowering_laws.specs.LaidFiles.{IsLaidFile};
ghost use Rattle.concrete_worlds.specs.Lawful.{HasGraphs, HasWorlds};

use c_typing::typed;
use cell_layout::lay;
use concrete_worlds::laws::laid_files_have_worlds;
use flow_graph::Graphs;
use graph_builder::lower;
use program_worlds::programs_have_graphs;
use std::alloc::Global;
use tm_laid::{Laid, Scale};
use tm_terms::{Fail as Refused, Name, Shape, Token};
use tm_trees::File;
use typed_file_laws::typed_files_can_be_laid_out;

// Whether the name is spelled `main`.
fn is_main(source: &[u8], name: Name) -> bool {
    match source.get(name.start as usize) {
        Some(first) => name.length == 4 && *first == b'm' && ends_as_main(source, name.start),
        None => false,
    }
}

// Whether `ain` stands behind this byte.
fn ends_as_main(source: &[u8], start: u32) -> bool {
    let at = start as usize;
    source.get(at + 1) == Some(&b'a')
        && source.get(at + 2) == Some(&b'i')
        && source.get(at + 3) == Some(&b'n')
}

/// The name that is spelled `main`.
pub fn main_in(source: &[u8], tokens: &[Token]) -> Option<Name> {
    for token in tokens {
        if let Shape::Name(name) = token.shape {
            if is_main(source, name) {
                return Some(name);
            }
        }
    }
    None
}

/// The layout of a file.
pub struct SourceLayout {
    pub laid: Laid,
}

// Written by hand, so that a function which lets it go calls this, and its check does not go through the tables.
impl Drop for SourceLayout {
    fn drop(self) {
        let SourceLayout { laid: _laid } = self;
    }
}

/// A program that can run.
#[derive(Drop)]
pub struct RunningProgram {
    pub layout: SourceLayout,
    pub graphs: Graphs,
}

/// The layout of a file: what its graphs and worlds need follows from its typing and from the limits.
pub fn laid_in(alloc: Global, file: &File, main: Option<Name>) -> Result<Laid, Refused>
    ensures worlds { IfOk result (λ laid. HasWorlds laid) }
    ensures typed { IfOk result (λ laid. IsLaidFile (laid_tree laid)) }
{
    typed_files_can_be_laid_out();
    laid_files_have_worlds();
    match typed(alloc, file, main) {
        Ok(typed) => lay(alloc, Scale::Usual, typed),
        Err(fail) => Err(fail),
    }
}

// And the graphs of its bodies.
fn lowered_in(alloc: Global, layout: SourceLayout) -> Result<RunningProgram, Refused>
    requires worlds { HasWorlds layout.laid }
    requires typed { IsLaidFile (laid_tree layout.laid) }
    ensures worlds { IfOk result (λ program. HasWorlds program.layout.laid) }
    ensures graphs { IfOk result (λ program. HasGraphs program.layout.laid program.graphs.graphs.items) }
{
    programs_have_graphs();
    match lower(alloc, Scale::Usual, &layout.laid) {
        Ok(graphs) => Ok(RunningProgram { layout, graphs }),
        Err(fail) => Err(fail),
    }
}

/// The program of a file, or its refusal.
pub fn running(alloc: Global, file: &File, main: Option<Name>) -> Result<RunningProgram, Refused>
    ensures worlds { IfOk result (λ program. HasWorlds program.layout.laid) }
    ensures graphs { IfOk result (λ program. HasGraphs program.layout.laid program.graphs.graphs.items) }
{
    match laid_in(alloc, file, main) {
        Ok(laid) => lowered_in(alloc, SourceLayout { laid }),
        Err(fail) => Err(fail),
    }
}
