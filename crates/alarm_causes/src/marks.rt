//! The edges at which alarms stand.
use alarm_contexts::{AlarmContexts, ContextEdge};
use mutex_configs::Program;
use std::alloc::Global;
use tm_lattice::NoMemory;

// For each edge of each body that no alarm stands there.
fn no_marks(alloc: Global, program: &Program) -> Result<Vec<Vec<bool>>, NoMemory> {
    let mut marks = Vec::new(alloc);
    for graph in &program.graphs.graphs {
        marks.push(vec![in alloc; false; graph.edges.len()]?)?;
    }
    Ok(marks)
}

// Marks the edge with a number.
fn set_mark(marks: &mut Vec<bool>, edge: usize) {
    if edge < marks.len() {
        marks[edge] = true;
    }
}

// Marks an edge at which an alarm stands.
fn mark(marks: &mut Vec<Vec<bool>>, edge: ContextEdge) {
    if let Some(body) = marks.get_mut(edge.body as usize) {
        set_mark(body, edge.edge);
    }
}

// Marks all edges of an alarm.
fn mark_all(marks: &mut Vec<Vec<bool>>, edges: &[ContextEdge]) {
    for edge in edges {
        mark(marks, *edge);
    }
}

/// For each body, by its number, and each edge of its graph whether an alarm stands there.
pub(crate) fn marks_of(
    alloc: Global,
    program: &Program,
    alarms: &[AlarmContexts],
) -> Result<Vec<Vec<bool>>, NoMemory> {
    let mut marks = no_marks(alloc, program)?;
    for alarm in alarms {
        mark_all(&mut marks, &alarm.edges);
    }
    Ok(marks)
}

/// Whether an alarm stands at an edge.
pub(crate) fn is_marked(marks: &[Vec<bool>], edge: ContextEdge) -> bool {
    match marks.get(edge.body as usize) {
        None => false,
        Some(body) => body.get(edge.edge).copied().unwrap_or(false),
    }
}
