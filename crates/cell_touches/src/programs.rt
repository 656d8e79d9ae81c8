//! What the edges of a whole program may do with abstract cells.
ghost use Rattle.std.specs.Prelude.{◌≡◌, ◌<◌, ℕ, length, get_or, IfOk};
ghost use Rattle.tm_laid.specs.Layouts.{laid_tree};
ghost use Rattle.mutex_configs.specs.declared.nodes.ConfiguredGraph.{ConfiguredGraph as AConfigured};
ghost use Rattle.cell_touches.specs.declared.touching.BodyTouches.{BodyTouches as ATouches};
ghost use Rattle.cell_touches.specs.Bodies.{AreTouches};

use crate::handed::{Handed, handed_over};
use crate::pointing::{Pointing, program_pointing};
use crate::scheduled::scheduled_cells;
use crate::targets::body_targets;
use crate::touching::{BodyTouches, CopiesCells, Known, cells_of_copies, cells_of_edges};
use crate::traced::body_traces;
use cell_placings::CellSet;
use flow_graph::Edge;
use mutex_configs::Program;
use std::alloc::Global;
use tm_lattice::NoMemory;

/// For each body, and there for each edge, the cells that it reaches, if it loads or stores.
#[derive(Drop)]
pub(crate) struct ProgramTargets {
    bodies: Vec<Vec<CellSet>>,
}

impl ProgramTargets {
    /// Those of a body.
    pub(crate) fn of_body(&self, body: usize) -> &[CellSet] {
        match self.bodies.get(body) {
            None => &[],
            Some(targets) => targets.as_slice(),
        }
    }
}

/// The edges of a body; none where it has no graph.
pub(crate) fn edges_of(program: &Program, body: usize) -> &[Edge] {
    match program.graphs.graphs.get(body) {
        None => &[],
        Some(graph) => graph.edges.as_slice(),
    }
}

// The cells that the edges of all bodies reach.
fn program_targets(
    alloc: Global,
    program: &Program,
    pointing: &Pointing,
) -> Result<ProgramTargets, NoMemory> {
    let mut bodies = Vec::new(alloc);
    for body in 0..program.configured.len() {
        let edges = edges_of(program, body);
        bodies.push(body_targets(alloc, &program.laid, pointing, body, edges)?)?;
    }
    Ok(ProgramTargets { bodies })
}

// What the edges of a body may do with abstract cells.
fn body_touches(
    alloc: Global,
    program: &Program,
    targets: &ProgramTargets,
    handed: &Handed,
    body: usize,
) -> Result<BodyTouches, NoMemory>
    requires { body < length program.now.configured.items }
    ensures { IfOk result (λ touches. (c : AConfigured)
        → AreTouches (laid_tree program.now.laid) body (get_or program.now.configured.items body c) touches) }
{
    let edges = edges_of(program, body);
    let configured = &program.configured[body];
    let targets = targets.of_body(body);
    let traces = body_traces(alloc, &program.laid, edges, configured, targets)?;
    let given = handed.to_body(alloc, body, &traces.pending)?;
    let scheduled = scheduled_cells(alloc, &traces, &given)?;
    let known = Known {
        targets,
        traces: &traces,
        scheduled: &scheduled,
    };
    let cells = cells_of_edges(alloc, &program.laid, known, body, edges)?;
    let CopiesCells {
        touched,
        carried,
        looked,
    } = cells_of_copies(alloc, edges, &configured.copies, &cells)?;
    Ok(BodyTouches {
        touched,
        carried,
        looked,
        traces,
    })
}

/// What the edges of the bodies of a program may do with abstract cells: for each body, those of the tasks and then the
/// initial section, for each copy of an edge the cells that it may touch, those that it carries, those at which it may
/// look, and what states may say of cells. The body sees all these cells, and an edge looks at what it touches. That an
/// analysis finds no others, no clause says.
pub fn program_touches(alloc: Global, program: &Program) -> Result<Vec<BodyTouches>, NoMemory>
    ensures bodies { IfOk result (λ v. length v.items ≡ length program.now.configured.items) }
    ensures each { IfOk result (λ v. (b : ℕ) (c : AConfigured) (t : ATouches) → b < length v.items
        → AreTouches (laid_tree program.now.laid) b (get_or program.now.configured.items b c) (get_or v.items b t)) }
{
    let pointing = program_pointing(alloc, program)?;
    let targets = program_targets(alloc, program, &pointing)?;
    let handed = handed_over(alloc, program, &targets)?;
    let mut touches = Vec::new(alloc);
    for body in 0..program.configured.len() {
        let of_body = body_touches(alloc, program, &targets, &handed, body)?;
        touches.push(of_body)?;
    }
    Ok(touches)
}
