//! The values of temporaries, by their numbers.
ghost use Rattle.std.specs.Prelude.{◌≡◌, ◌<◌, ◌≤◌, ◌+◌, ◌^◌, IfOk, IfSome, length, replicate};
ghost use Rattle.concrete_values.specs.Values.{nothing};
ghost use Rattle.flow_graph.specs.Operations.{kept_with};
ghost use Rattle.graph_positions.specs.Memories.{temps_of};
ghost use Rattle.graph_positions.specs.Positions.{IsWide};

use concrete_values::{Value, nothing};
use flow_graph::Graph;
use graph_facts::given;
use std::alloc::Global;
use tm_lattice::NoMemory;

// The value of a temporary.
pub(crate) fn value_at(temporaries: &[Value], temporary: u32) -> Value
    ensures { result ≡ temps_of temporaries.now temporary }
{
    match temporaries.get(temporary as usize) {
        Some(value) => *value,
        None => nothing(),
    }
}

// A temporary, where one is given, gets this value.
pub(crate) fn put_value(temporaries: &mut Vec<Value>, to: Option<u32>, value: Value)
    requires { IfSome to (λ t. t < length temporaries.old.items) }
    ensures values { temps_of temporaries.new.items ≡ kept_with to value (temps_of temporaries.old.items) }
    ensures count { length temporaries.new.items ≡ length temporaries.old.items }
{
    match to {
        Some(temporary) => {
            temporaries[temporary as usize] = value;
        }
        None => {}
    }
}

// So many temporaries that hold nothing.
pub(crate) fn no_values(alloc: Global, count: usize) -> Result<Vec<Value>, NoMemory>
    ensures { IfOk result (λ v. v.items ≡ replicate count nothing) }
{
    let mut values = Vec::new(alloc);
    for _ in 0..count {
        values.push(nothing())?;
    }
    Ok(values)
}

// So many nodes that were not seen.
pub(crate) fn none_seen(alloc: Global, count: u32) -> Result<Vec<u64>, NoMemory>
    ensures { IfOk result (λ v. v.items ≡ replicate count 0) }
{
    let mut seen = Vec::new(alloc);
    for _ in 0..count {
        seen.push(0)?;
    }
    Ok(seen)
}

// So many temporaries, and the one that there may be.
fn with_given(count: usize, to: Option<u32>) -> usize
    ensures kept { count ≤ result }
    ensures given { IfSome to (λ t. t < result) }
{
    match to {
        Some(temporary) => {
            if count <= temporary as usize {
                temporary as usize + 1
            } else {
                count
            }
        }
        None => count,
    }
}

// One more than the greatest number of a temporary that the graph gives.
pub(crate) fn count_of_temporaries(graph: &Graph) -> usize
    ensures { IsWide graph.now.edges.items result }
{
    let mut count = 0;
    for number in 0..graph.edges.len() {
        count = with_given(count, given(graph.edges[number].op));
    }
    count
}
