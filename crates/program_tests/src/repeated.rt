//! A first pass finds its table by slots, and a pass over the store of the pass before it applies no edge.
ghost use Rattle.std.specs.Prelude.{◌<◌};

use interfere_set::Store;
use source_programs::source_program;
use std::alloc::Global;
use std::sync::Arc;
use std::test::Fail;
use thread_pass::Analysis;
use tm_lattice::{NoMemory, Passer, Warm};
use tm_terms::Fail as Refused;

const DIVIDES: &str =
    "int x;int r;__task(2) void hi(void){x=5;r=10/x;}__task(1) void lo(void){x=0;}";

// The analysis of a source, or its refusal.
fn analysed(alloc: Global, source: &[u8]) -> Result<Analysis, Refused> {
    match source_program(alloc, source, &[]) {
        Ok(program) => match Analysis::new(alloc, program) {
            Ok(analysis) => Ok(analysis),
            Err(NoMemory) => Err(Refused::NoMemory),
        },
        Err(fail) => Err(fail),
    }
}

// How many edges are applied by the pass of the first task over the empty store, where it tells, and by the next one
// over the same store: what both keep and contribute is a clause of theirs.
fn passed_twice(alloc: Global, analysis: &Analysis) -> Result<(Option<u64>, Option<u64>), NoMemory>
    requires { 0 < analysis.now.tasks }
{
    // The call tells that it is a program.
    let _tasks = analysis.tasks();
    let store = Arc::new(alloc, Store::new(alloc))?;
    let (kept, _added) = analysis.cold(alloc, 0, &store)?;
    let visits = kept.visits();
    let (again, _more) = analysis.warm(alloc, 0, kept, &store)?;
    Ok((visits, again.visits()))
}

// The same of a source; none where it is refused, or has no task.
fn source_passed_twice(
    alloc: Global,
    source: &[u8],
) -> Result<Option<(Option<u64>, Option<u64>)>, NoMemory> {
    match analysed(alloc, source) {
        Ok(analysis) => {
            if analysis.tasks() == 0 {
                return Ok(None);
            }
            Ok(Some(passed_twice(alloc, &analysis)?))
        }
        Err(_) => Ok(None),
    }
}

#[test]
fn no_edge_is_applied_over_the_same_store(rt: HostRuntime) -> Result<(), Fail> {
    let visits = source_passed_twice(rt.alloc(), DIVIDES.as_bytes())?;
    assert!(rt; visits.is_some_and(|(first, second)| first.is_none() && second == Some(0)));
    Ok(())
}
