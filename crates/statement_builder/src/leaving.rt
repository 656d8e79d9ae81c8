//! Control leaves a statement.
ghost use Rattle.std.specs.Prelude.{◌≡◌, OnOk, IfOk};
ghost use Rattle.tm_typed.specs.TypedStatements.{optional_rvalue_tree};
ghost use Rattle.flow_graph.specs.declared.operations.Operation.TheVariants as Op;
ghost use Rattle.body_builder.specs.lowering.Built.{nowhere, back_to, place_result, result_of};
ghost use Rattle.body_builder.specs.Fragments.{tree_in, so_far};
ghost use Rattle.statement_builder.specs.Waiting.{way_of};
ghost use Rattle.statement_builder.specs.reading.Statements.{reached, onward_of, left, goes_on, returned};

use crate::meeting::nowhere;
use crate::passed::{Onward, Passed, Pending, Way};
use body_builder::{Fragment, Here, build_operand, temp_of};
use flow_graph::Operation;
use tm_lattice::NoMemory;
use tm_typed::Rvalue;

// The way back to a head.
fn back_to(here: &Here<'_>, to: &mut Fragment, head: u32) -> Result<(), NoMemory>
    ensures { OnOk result (so_far (tree_in here.now.laid.now) to.new ≡ back_to head
        (so_far (tree_in here.now.laid.now) to.old)) }
{
    let node = here.node(to);
    here.edge(to, node, head, Operation::Skip)?;
    nowhere(here, to)
}

/// The present node waits.
#[tactic(auto, using(crate::proofs::Waiting::waits_behind), unfolding(crate::specs::reading::Statements::reached, crate::specs::reading::Statements::left))]
pub(crate) fn leave(
    here: &Here<'_>,
    to: &mut Fragment,
    passed: &mut Passed,
    way: Way,
) -> Result<(), NoMemory>
    ensures { OnOk result (reached (tree_in here.now.laid.now) to.new passed.new ≡ left (way_of way)
        (reached (tree_in here.now.laid.now) to.old passed.old)) }
{
    let node = here.node(to);
    passed.pending.push(Pending { node, way })?;
    nowhere(here, to)
}

/// `continue`
#[tactic(auto, unfolding(crate::specs::reading::Statements::reached))]
pub(crate) fn go_on(
    here: &Here<'_>,
    to: &mut Fragment,
    passed: &mut Passed,
    onward: Onward,
) -> Result<(), NoMemory>
    ensures { OnOk result (reached (tree_in here.now.laid.now) to.new passed.new ≡ goes_on (onward_of onward)
        (reached (tree_in here.now.laid.now) to.old passed.old)) }
{
    match onward {
        Onward::Head(head) => back_to(here, to, head),
        Onward::Later => leave(here, to, passed, Way::Continue),
    }
}

// A value is copied to the temporary of the call's value, which is new at the first one.
#[tactic(auto, unfolding(body_builder::specs::Placing::new_value))]
fn place_result(
    here: &Here<'_>,
    to: &mut Fragment,
    known: Option<u32>,
    from: u32,
) -> Result<u32, NoMemory>
    ensures { IfOk result (λ r. (so_far (tree_in here.now.laid.now) to.new ≡ place_result known
        (λ t. Op.Copy t from) (so_far (tree_in here.now.laid.now) to.old))
        × (r ≡ result_of known (so_far (tree_in here.now.laid.now) to.old))) }
{
    match known {
        Some(temp) => {
            here.place(to, Operation::Copy { to: temp, from })?;
            Ok(temp)
        }
        None => {
            let temp = here.temps(to);
            here.new_value(to, Operation::Copy { to: temp, from })
        }
    }
}

/// `return`
#[tactic(auto, using(crate::proofs::Waiting::returned_none, crate::proofs::Waiting::returned_some), unfolding(crate::specs::reading::Statements::reached, crate::specs::reading::Statements::left))]
pub(crate) fn give_back(
    here: &Here<'_>,
    to: &mut Fragment,
    passed: &mut Passed,
    value: &Option<Box<Rvalue>>,
) -> Result<(), NoMemory>
    ensures { OnOk result (reached (tree_in here.now.laid.now) to.new passed.new ≡ returned (tree_in here.now.laid.now)
        here.now.depth here.now.path (optional_rvalue_tree value.now)
        (reached (tree_in here.now.laid.now) to.old passed.old)) }
{
    match value {
        None => leave(here, to, passed, Way::Return),
        Some(value) => {
            let temp = build_operand(here, to, value)?;
            let result = place_result(here, to, passed.result, temp_of(temp))?;
            passed.result = Some(result);
            leave(here, to, passed, Way::Return)
        }
    }
}
