//! The labels of a `switch`.
ghost use Rattle.std.specs.Prelude.{◌≡◌, IfOk};
ghost use Rattle.tm_typed.specs.TypedStatements.{as_typed_cases};
ghost use Rattle.body_builder.specs.lowering.Table.{parts};
ghost use Rattle.body_builder.specs.lowering.Built.{tests_piece};
ghost use Rattle.body_builder.specs.Fragments.{tree_in, so_far};

use body_builder::{Fragment, Here};
use flow_graph::Test;
use tm_lattice::NoMemory;
use tm_typed::TypedSwitchPart;

/// The tests of the labels of a `switch`, in order, on the value in a temporary: the nodes of the labels.
pub(crate) fn build_labels(
    here: &Here<'_>,
    to: &mut Fragment,
    cases: &[TypedSwitchPart],
    value: u32,
) -> Result<Vec<u32>, NoMemory>
    ensures { IfOk result (λ nodes. (so_far (tree_in here.now.laid.now) to.new ≡ (tests_piece
        (parts (tree_in here.now.laid.now) here.now.path (as_typed_cases cases.now)) value
        (so_far (tree_in here.now.laid.now) to.old)).at) × (nodes.items ≡ (tests_piece
        (parts (tree_in here.now.laid.now) here.now.path (as_typed_cases cases.now)) value
        (so_far (tree_in here.now.laid.now) to.old)).nodes)) }
{
    let mut nodes = Vec::new(here.alloc);
    for part in cases {
        match part {
            TypedSwitchPart::Case { label, .. } => {
                let test = Test::Case {
                    holds: true,
                    label: *label,
                    value,
                };
                let found = here.tested(to, test)?;
                nodes.push(here.node(to))?;
                here.goto(to, found.other);
            }
            TypedSwitchPart::Default { .. } => {}
            TypedSwitchPart::Statement(_) => {}
        }
    }
    Ok(nodes)
}
