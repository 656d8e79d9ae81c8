//! What is done behind what waits already.
ghost use Rattle.std.specs.Prelude.{◌≡◌, map, OnOk, IfOk};
ghost use Rattle.tm_typed.specs.TypedTrees.{rvalue_tree};
ghost use Rattle.tm_typed.specs.TypedStatements.{optional_rvalue_tree, local_tree};
ghost use Rattle.body_builder.specs.Fragments.{tree_in};
ghost use Rattle.statement_builder.specs.reading.Statements.{reached, placed, gone, joined, cut, effected, declared};
ghost use Rattle.statement_builder.specs.reading.Statements.{forked, worth};

use crate::locals::build_locals;
use crate::meeting::nowhere;
use crate::passed::Passed;
use body_builder::{Fragment, Here, build_condition, build_operand, temp_of};
use flow_graph::Operation;
use tm_lattice::NoMemory;
use tm_typed::{LocalObject, Rvalue};

/// An operation to a new node: this is the node.
#[tactic(auto, unfolding(crate::specs::reading::Statements::reached, crate::specs::reading::Statements::placed))]
pub(crate) fn act(
    here: &Here<'_>,
    to: &mut Fragment,
    passed: &Passed,
    op: Operation,
) -> Result<u32, NoMemory>
    ensures { IfOk result (λ node. (reached (tree_in here.now.laid.now) to.new passed.now ≡ placed op
        (reached (tree_in here.now.laid.now) to.old passed.now))
        × (node ≡ (placed op (reached (tree_in here.now.laid.now) to.old passed.now)).at.node)) }
{
    let node = here.nodes(to);
    here.place(to, op)?;
    Ok(node)
}

/// An operation.
#[tactic(auto, unfolding(crate::specs::reading::Statements::reached, crate::specs::reading::Statements::placed))]
pub(crate) fn perform(
    here: &Here<'_>,
    to: &mut Fragment,
    passed: &Passed,
    op: Operation,
) -> Result<(), NoMemory>
    ensures { OnOk result (reached (tree_in here.now.laid.now) to.new passed.now ≡ placed op
        (reached (tree_in here.now.laid.now) to.old passed.now)) }
{
    here.place(to, op)
}

/// Control goes on at the other node of a fork: this is the one from which it went.
#[tactic(auto, unfolding(crate::specs::reading::Statements::reached, crate::specs::reading::Statements::gone))]
pub(crate) fn go_to(here: &Here<'_>, to: &mut Fragment, passed: &Passed, other: u32) -> u32
    ensures { (reached (tree_in here.now.laid.now) to.new passed.now ≡ gone other
        (reached (tree_in here.now.laid.now) to.old passed.now))
        × (result ≡ (reached (tree_in here.now.laid.now) to.old passed.now).at.node) }
{
    let node = here.node(to);
    here.goto(to, other);
    node
}

/// Control comes together from a node and the present one.
#[tactic(auto, unfolding(crate::specs::reading::Statements::reached, crate::specs::reading::Statements::joined))]
pub(crate) fn join(
    here: &Here<'_>,
    to: &mut Fragment,
    passed: &Passed,
    node: u32,
) -> Result<(), NoMemory>
    ensures { OnOk result (reached (tree_in here.now.laid.now) to.new passed.now ≡ joined node
        (reached (tree_in here.now.laid.now) to.old passed.now)) }
{
    let present = here.node(to);
    here.meet_two(to, node, present)
}

/// Control goes on nowhere: this is the node from which it went.
#[tactic(auto, unfolding(crate::specs::reading::Statements::reached, crate::specs::reading::Statements::cut))]
pub(crate) fn cut(here: &Here<'_>, to: &mut Fragment, passed: &Passed) -> Result<u32, NoMemory>
    ensures { IfOk result (λ node. (reached (tree_in here.now.laid.now) to.new passed.now ≡ cut
        (reached (tree_in here.now.laid.now) to.old passed.now))
        × (node ≡ (reached (tree_in here.now.laid.now) to.old passed.now).at.node)) }
{
    let node = here.node(to);
    nowhere(here, to)?;
    Ok(node)
}

/// An expression whose value is not used, if there is one.
#[tactic(auto, unfolding(crate::specs::reading::Statements::reached, crate::specs::reading::Statements::effected))]
pub(crate) fn evaluate(
    here: &Here<'_>,
    to: &mut Fragment,
    passed: &Passed,
    value: &Option<Box<Rvalue>>,
) -> Result<(), NoMemory>
    ensures { OnOk result (reached (tree_in here.now.laid.now) to.new passed.now ≡ effected (tree_in here.now.laid.now)
        here.now.depth here.now.path (optional_rvalue_tree value.now)
        (reached (tree_in here.now.laid.now) to.old passed.now)) }
{
    match value {
        None => Ok(()),
        Some(value) => {
            let _temp = build_operand(here, to, value)?;
            Ok(())
        }
    }
}

/// A declaration of local objects.
#[tactic(auto, unfolding(crate::specs::reading::Statements::reached, crate::specs::reading::Statements::declared))]
pub(crate) fn declare(
    here: &Here<'_>,
    to: &mut Fragment,
    passed: &Passed,
    locals: &[LocalObject],
) -> Result<(), NoMemory>
    ensures { OnOk result (reached (tree_in here.now.laid.now) to.new passed.now ≡ declared (tree_in here.now.laid.now)
        here.now.depth here.now.path (map local_tree locals.now)
        (reached (tree_in here.now.laid.now) to.old passed.now)) }
{
    build_locals(here, to, locals)
}

/// A condition: control goes on where it holds, and this is the node where it does not.
#[tactic(auto, unfolding(crate::specs::reading::Statements::reached, crate::specs::reading::Statements::forked))]
pub(crate) fn fork(
    here: &Here<'_>,
    to: &mut Fragment,
    passed: &Passed,
    condition: &Rvalue,
) -> Result<u32, NoMemory>
    ensures { IfOk result (λ other. (reached (tree_in here.now.laid.now) to.new passed.now
        ≡ (forked (tree_in here.now.laid.now) here.now.depth here.now.path (rvalue_tree condition.now)
        (reached (tree_in here.now.laid.now) to.old passed.now)).at)
        × (other ≡ (forked (tree_in here.now.laid.now) here.now.depth here.now.path (rvalue_tree condition.now)
        (reached (tree_in here.now.laid.now) to.old passed.now)).other)) }
{
    build_condition(here, to, condition)
}

/// A value: this is its temporary.
#[tactic(auto, unfolding(crate::specs::reading::Statements::reached, crate::specs::reading::Statements::worth))]
pub(crate) fn value(
    here: &Here<'_>,
    to: &mut Fragment,
    passed: &Passed,
    rvalue: &Rvalue,
) -> Result<u32, NoMemory>
    ensures { IfOk result (λ temp. (reached (tree_in here.now.laid.now) to.new passed.now
        ≡ (worth (tree_in here.now.laid.now) here.now.depth here.now.path (rvalue_tree rvalue.now)
        (reached (tree_in here.now.laid.now) to.old passed.now)).at)
        × (temp ≡ (worth (tree_in here.now.laid.now) here.now.depth here.now.path (rvalue_tree rvalue.now)
        (reached (tree_in here.now.laid.now) to.old passed.now)).temp)) }
{
    let temp = build_operand(here, to, rvalue)?;
    Ok(temp_of(temp))
}
