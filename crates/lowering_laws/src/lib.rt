//! What lowering has of typed files: laws that begin where those of graphs end, at the source. How graphs are built and
//! how they run, other crates know; what is done with graphs, this crate does not know.
//!
//! In `int f(void) { return 1; } void g(void) { f() + 1; }` the operand `f()` has a value, since `f` has a result; and
//! `g() + 1` is refused by typing. So the graph of each body runs as the body does, whatever file it stands in.
#![tactic(auto)]

mod files;
mod graphs;

pub use files::typed_files_can_be_lowered;
pub use graphs::{
    constants_lead_nowhere, edges_join_nodes, graphs_are_plain, graphs_can_be_configured,
    graphs_clear_own, graphs_name_mutexes, graphs_run_along_next, graphs_run_as_next,
    graphs_test_comparisons, no_edge_leads_to_entry, nothing_live_at_entry,
};
