//! The answer for the checks of all bodies.
ghost use Rattle.std.specs.Prelude.{◌≡◌, ◌<◌, ◌^◌, length, IfOk};
ghost use Rattle.std.specs.Arc.{arc_value};
ghost use Rattle.shared_programs.specs.program_equations.Programs.{ProgramBodies, IsProgram};
ghost use Rattle.post_recheck.specs.Pairs.{pair_of, FitsPair};
ghost use Rattle.post_recheck.specs.Bodies.{AreChecked};
ghost use Rattle.post_recheck.specs.Checks.{IsAnswer};

use crate::bodies::BodyCheck;
use crate::solutions::{Checked, Solution, Table};
use interfere_set::Store;
use std::alloc::Global;
use std::sync::Arc;
use strided_dom::Marks;
use tm_lattice::{Lattice, NoMemory};

// The answer: the first body that is not covered, where there is one; else whether what the tasks contribute, joined
// and rounded, is below the store.
pub(crate) fn answered(
    alloc: Global,
    marks: &Marks,
    tables: Vec<Table>,
    store: Arc<Store>,
    checks: &[Result<BodyCheck, NoMemory>],
) -> Result<Checked, NoMemory>
    requires small { length checks.now < 2 ^ 32 }
    ensures { (p : ProgramBodies) → IsProgram p → p.marks ≡ marks.now
        → FitsPair p (pair_of tables.items (arc_value store))
        → AreChecked p (pair_of tables.items (arc_value store)) checks.now
        → IfOk result (IsAnswer p (pair_of tables.items (arc_value store))) }
{
    let mut added = Store::new(alloc);
    for body in 0..checks.len() {
        match &checks[body] {
            Err(NoMemory) => return Err(NoMemory),
            Ok(check) => match check {
                BodyCheck::Covered(more) => added = added.join(alloc, more)?,
                BodyCheck::Uncovered(edge) => {
                    return Ok(Checked::Uncovered {
                        body: body as u32,
                        edge: *edge,
                    });
                }
            },
        }
    }
    if added.round(alloc, marks)?.below(&store) {
        Ok(Checked::Solution(Solution::new(tables, store)))
    } else {
        Ok(Checked::UncoveredStore)
    }
}
