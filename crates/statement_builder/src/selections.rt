//! The parts of a `switch` begin and end.
ghost use Rattle.std.specs.Prelude.{◌≡◌, OnOk, IfOk};
ghost use Rattle.tm_typed.specs.TypedTrees.{rvalue_tree};
ghost use Rattle.tm_typed.specs.TypedStatements.{typed_case, as_typed_cases};
ghost use Rattle.body_builder.specs.lowering.Built.{meet, first_of};
ghost use Rattle.body_builder.specs.Fragments.{tree_in, so_far};
ghost use Rattle.statement_builder.specs.reading.Statements.{reached, waits, tests_at, labelled_at, labels_left};
ghost use Rattle.statement_builder.specs.reading.Statements.{is_default, has_default, behind_tests, select_ends};
ghost use Rattle.statement_builder.specs.reading.Statements.{selecting, IsSelected};

use crate::labels::build_labels;
use crate::loops::{inside, keep, push_nodes};
use crate::meeting::meet_all;
use crate::passed::{Passed, Way};
use crate::steps::{cut, value};
use body_builder::{Fragment, Here};
use tm_lattice::NoMemory;
use tm_typed::{Rvalue, TypedSwitchPart};

/// What is inside of a `switch`, the nodes of its labels, the one behind its tests, and from where control goes to the
/// exit there.
#[derive(Drop)]
pub(crate) struct Selected {
    pub(crate) within: Passed,
    pub(crate) labels: Vec<u32>,
    pub(crate) node: u32,
    pub(crate) outs: Vec<u32>,
}

// The tests of labels: these are the nodes of the labels.
#[tactic(auto, unfolding(crate::specs::reading::Statements::reached, crate::specs::reading::Statements::tests_at))]
fn test_labels(
    here: &Here<'_>,
    to: &mut Fragment,
    passed: &Passed,
    cases: &[TypedSwitchPart],
    value: u32,
) -> Result<Vec<u32>, NoMemory>
    ensures { IfOk result (λ nodes. (reached (tree_in here.now.laid.now) to.new passed.now
        ≡ (tests_at (tree_in here.now.laid.now) here.now.path (as_typed_cases cases.now) value
        (reached (tree_in here.now.laid.now) to.old passed.now)).at)
        × (nodes.items ≡ (tests_at (tree_in here.now.laid.now) here.now.path (as_typed_cases cases.now) value
        (reached (tree_in here.now.laid.now) to.old passed.now)).nodes)) }
{
    build_labels(here, to, cases, value)
}

// Control comes together from a label, if there is one, and the present node.
fn meet_label(here: &Here<'_>, to: &mut Fragment, labels: &[u32]) -> Result<(), NoMemory>
    ensures { OnOk result (so_far (tree_in here.now.laid.now) to.new ≡ meet
        (first_of labels.now (so_far (tree_in here.now.laid.now) to.old).node)
        (so_far (tree_in here.now.laid.now) to.old)) }
{
    let node = here.node(to);
    match labels {
        [] => meet_all(here, to, &[node]),
        [label, ..] => here.meet_two(to, *label, node),
    }
}

/// A label belongs to its test and to the statement before it.
#[tactic(auto, unfolding(crate::specs::reading::Statements::reached, crate::specs::reading::Statements::labelled_at))]
pub(crate) fn label(
    here: &Here<'_>,
    to: &mut Fragment,
    passed: &Passed,
    labels: &[u32],
) -> Result<(), NoMemory>
    ensures { OnOk result (reached (tree_in here.now.laid.now) to.new passed.now ≡ labelled_at labels.now
        (reached (tree_in here.now.laid.now) to.old passed.now)) }
{
    meet_label(here, to, labels)
}

/// The nodes of the labels behind a part.
pub(crate) fn labels_left<'a>(part: &TypedSwitchPart, labels: &'a [u32]) -> &'a [u32]
    ensures { result.now ≡ labels_left (typed_case part.now) labels.now }
{
    match part {
        TypedSwitchPart::Case { .. } => match labels {
            [] => labels,
            [_first, rest @ ..] => rest,
        },
        TypedSwitchPart::Default { .. } => labels,
        TypedSwitchPart::Statement(_) => labels,
    }
}

// Whether a part is a default.
fn is_default(part: &TypedSwitchPart) -> bool
    ensures { result ≡ is_default (typed_case part.now) }
{
    match part {
        TypedSwitchPart::Case { .. } => false,
        TypedSwitchPart::Default { .. } => true,
        TypedSwitchPart::Statement(_) => false,
    }
}

// Whether there is a default.
#[tactic(auto, using(crate::proofs::Parts::default_more, crate::proofs::Parts::default_here, crate::proofs::Parts::default_none))]
fn has_default(cases: &[TypedSwitchPart]) -> bool
    ensures { result ≡ has_default (as_typed_cases cases.now) }
{
    for part in cases {
        if is_default(part) {
            return true;
        }
    }
    false
}

// From where control goes to the exit behind the tests.
fn behind_tests(here: &Here<'_>, cases: &[TypedSwitchPart], node: u32) -> Result<Vec<u32>, NoMemory>
    ensures { IfOk result (λ outs. outs.items ≡ behind_tests (has_default (as_typed_cases cases.now)) node) }
{
    let mut outs = Vec::new(here.alloc);
    if !has_default(cases) {
        outs.push(node)?;
    }
    Ok(outs)
}

/// The value of a `switch` and the tests of its labels.
pub(crate) fn begin_select(
    here: &Here<'_>,
    to: &mut Fragment,
    passed: &Passed,
    rvalue: &Rvalue,
    cases: &[TypedSwitchPart],
) -> Result<Selected, NoMemory>
    ensures selected { IfOk result (λ x. IsSelected (as_typed_cases cases.now) (selecting (tree_in here.now.laid.now)
        here.now.depth here.now.path (rvalue_tree rvalue.now) (as_typed_cases cases.now)
        (reached (tree_in here.now.laid.now) to.old passed.now))
        (reached (tree_in here.now.laid.now) to.new x.within) x) }
    ensures outside { waits passed.now ≡ (reached (tree_in here.now.laid.now) to.old passed.now).pending }
{
    let within = inside(here, to, passed);
    let temp = value(here, to, &within, rvalue)?;
    let labels = test_labels(here, to, &within, cases, temp)?;
    let node = cut(here, to, &within)?;
    let outs = behind_tests(here, cases, node)?;
    Ok(Selected {
        within,
        labels,
        node,
        outs,
    })
}

/// The exit of a `switch`.
#[tactic(auto, unfolding(crate::specs::reading::Statements::reached, crate::specs::reading::Statements::waits, crate::specs::reading::Statements::select_ends))]
pub(crate) fn end_select(
    here: &Here<'_>,
    to: &mut Fragment,
    passed: &mut Passed,
    within: &Passed,
    mut outs: Vec<u32>,
) -> Result<(), NoMemory>
    ensures { OnOk result (reached (tree_in here.now.laid.now) to.new passed.new ≡ select_ends outs.items
        (waits passed.old) (reached (tree_in here.now.laid.now) to.old within.now)) }
{
    push_nodes(&mut outs, &within.pending, Way::Break)?;
    let node = here.node(to);
    outs.push(node)?;
    meet_all(here, to, &outs)?;
    keep(&mut passed.pending, &within.pending, false)?;
    passed.result = within.result;
    Ok(())
}
