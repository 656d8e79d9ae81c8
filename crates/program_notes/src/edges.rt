//! The bodies of edges.
ghost use Rattle.std.specs.Prelude.{◌≡◌};
ghost use Rattle.program_notes.specs.Edges.{edge_body, is_first};

use alarm_contexts::ContextEdge;

/// The body of an edge of a list, by its place in it.
pub fn edge_body(edges: &[ContextEdge], at: usize) -> u32
    ensures { result ≡ edge_body edges.now at }
{
    match edges.get(at) {
        None => 0,
        Some(edge) => edge.body,
    }
}

/// Whether it is the first of its body.
pub fn is_first(edges: &[ContextEdge], at: usize) -> bool
    ensures { result ≡ is_first edges.now at }
{
    at == 0 || edge_body(edges, at - 1) != edge_body(edges, at)
}
