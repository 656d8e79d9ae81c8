//! How many temporaries a graph has.
ghost use Rattle.std.specs.Prelude.{◌≡◌, IfOk};
ghost use Rattle.flow_graph.specs.Operations.{given};
ghost use Rattle.temporary_types.specs.Temporaries.{behind_given, temporaries_in};

use flow_graph::{Graph, Operation};
use graph_facts::given;
use tm_lattice::NoMemory;

/// One more than the greatest temporary that edges give.
pub fn count_of_temporaries(graph: &Graph) -> Result<u32, NoMemory>
    ensures { IfOk result (λ count. count ≡ temporaries_in graph.now.edges.items) }
{
    let mut count = 0u32;
    for number in 0..graph.edges.len() {
        let behind = behind_given(graph.edges[number].op)?;
        count = count.max(behind);
    }
    Ok(count)
}

// One more than the temporary that an operation gives, if it gives one.
fn behind_given(operation: Operation) -> Result<u32, NoMemory>
    ensures { IfOk result (λ n. n ≡ behind_given (given operation)) }
{
    match given(operation) {
        None => Ok(0),
        Some(temporary) => match temporary.checked_add(1) {
            Some(behind) => Ok(behind),
            None => Err(NoMemory),
        },
    }
}
