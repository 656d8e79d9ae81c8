//! Programs of layouts.
ghost use Rattle.std.specs.Prelude.{◌≡◌, IfOk};
ghost use Rattle.tm_laid.specs.Layouts.{laid_tree};
ghost use Rattle.lowering_laws.specs.LaidFiles.{IsLaidFile};
ghost use Rattle.program_graphs.specs.Prepared.{answer_of, IsPrepared};

use graph_builder::lower;
use mutex_configs::{Program, configured};
use std::alloc::Global;
use strided_dom::Marks;
use tm_laid::{Laid, Scale};
use tm_terms::Fail;

/// The program of the layout of a typed file, with the thresholds that are given. Refused: Limit nodes where the graph
/// of some body has more nodes than the scale allows, or where more than so many are reached in it with mutexes; else
/// Limit work.
#[tactic(auto, using(crate::proofs::Graphs::are_graphs, crate::proofs::Graphs::few_cells, crate::proofs::Graphs::few_graphs))]
pub fn program(alloc: Global, scale: Scale, laid: Laid, marks: Marks) -> Result<Program, Fail>
    requires { IsLaidFile (laid_tree laid) }
    ensures answer { IsPrepared scale (laid_tree laid) (answer_of result) }
    ensures laid { IfOk result (λ p. laid_tree p.laid ≡ laid_tree laid) }
    ensures order { IfOk result (λ p. p.laid.file.order.items ≡ laid.file.order.items) }
    ensures marks { IfOk result (λ p. p.marks ≡ marks) }
{
    let graphs = lower(alloc, scale, &laid)?;
    configured(alloc, scale, laid, graphs, marks)
}
