//! Statements are built.
ghost use Rattle.std.specs.Prelude.{◌≡◌, None, true, OnOk, IfOk};
ghost use Rattle.tm_typed.specs.TypedStatements.{typed_tree, as_typed_trees, typed_case, as_typed_cases};
ghost use Rattle.body_builder.specs.lowering.Table.{plans};
ghost use Rattle.body_builder.specs.lowering.Built.{plan_piece, Later};
ghost use Rattle.body_builder.specs.Fragments.{tree_in, so_far, calls_on};
ghost use Rattle.statement_builder.specs.Waiting.{IsPassed};
ghost use Rattle.statement_builder.specs.reading.Statements.{reached, onward_of, statement_at, statements_at};
ghost use Rattle.statement_builder.specs.reading.Statements.{case_at, cases_at, is_enclosing};

use crate::leaving::{give_back, go_on, leave};
use crate::loops::{Begun, Entered, begin, begin_for, begin_while, end_do, end_for, end_turns};
use crate::passed::{Onward, Passed, Way};
use crate::selections::{Selected, begin_select, end_select, label, labels_left};
use crate::steps::{declare, evaluate, fork, go_to, join, perform};
use body_builder::{Fragment, Here};
use flow_graph::Operation;
use tm_lattice::NoMemory;
use tm_typed::{TypedStatement, TypedSwitchPart};

/// The statements of a body, behind what is built so far.
pub fn build_statements(
    here: &Here<'_>,
    to: &mut Fragment,
    statements: &[TypedStatement],
) -> Result<Passed, NoMemory>
    ensures { IfOk result (λ passed. IsPassed (plan_piece (calls_on (tree_in here.now.laid.now) here.now.depth
        here.now.path) (plans (tree_in here.now.laid.now) here.now.path (as_typed_trees statements.now)) Later None
        (so_far (tree_in here.now.laid.now) to.old)) (so_far (tree_in here.now.laid.now) to.new) passed) }
{
    let mut passed = Passed {
        pending: Vec::new(here.alloc),
        result: None,
    };
    build_block(here, to, &mut passed, statements, Onward::Later)?;
    Ok(passed)
}

// Statements in their order.
#[cycle(statement)]
#[tactic(auto, using(crate::proofs::Rows::block_more, crate::proofs::Rows::block_last))]
fn build_block(
    here: &Here<'_>,
    to: &mut Fragment,
    passed: &mut Passed,
    statements: &[TypedStatement],
    onward: Onward,
) -> Result<(), NoMemory>
    ensures { OnOk result (reached (tree_in here.now.laid.now) to.new passed.new
        ≡ statements_at (tree_in here.now.laid.now) here.now.depth here.now.path (as_typed_trees statements.now)
        (onward_of onward) (reached (tree_in here.now.laid.now) to.old passed.old)) }
{
    for statement in statements {
        build_statement(here, to, passed, statement, onward)?;
    }
    Ok(())
}

// A statement.
#[cycle(statement)]
#[tactic(auto, using(crate::proofs::Rows::block_tree))]
fn build_statement(
    here: &Here<'_>,
    to: &mut Fragment,
    passed: &mut Passed,
    statement: &TypedStatement,
    onward: Onward,
) -> Result<(), NoMemory>
    ensures { OnOk result (reached (tree_in here.now.laid.now) to.new passed.new
        ≡ statement_at (tree_in here.now.laid.now) here.now.depth here.now.path (typed_tree statement.now)
        (onward_of onward) (reached (tree_in here.now.laid.now) to.old passed.old)) }
{
    match statement {
        TypedStatement::Evaluate(rvalue) => evaluate(here, to, passed, rvalue),
        TypedStatement::Declare(locals) => declare(here, to, passed, locals),
        TypedStatement::Block(statements) => build_block(here, to, passed, statements, onward),
        TypedStatement::If {
            condition,
            first,
            second,
        } => match second {
            None => {
                let other = fork(here, to, passed, condition)?;
                build_statement(here, to, passed, first, onward)?;
                let node = go_to(here, to, passed, other);
                join(here, to, passed, node)
            }
            Some(second) => {
                let other = fork(here, to, passed, condition)?;
                build_statement(here, to, passed, first, onward)?;
                let node = go_to(here, to, passed, other);
                build_statement(here, to, passed, second, onward)?;
                join(here, to, passed, node)
            }
        },
        TypedStatement::While { .. }
        | TypedStatement::Do { .. }
        | TypedStatement::For { .. }
        | TypedStatement::Switch { .. } => build_enclosing(here, to, passed, statement, onward),
        TypedStatement::Break => leave(here, to, passed, Way::Break),
        TypedStatement::Continue => go_on(here, to, passed, onward),
        TypedStatement::Return(rvalue) => give_back(here, to, passed, rvalue),
        TypedStatement::Lock { mutex, place } => {
            let op = Operation::Lock {
                mutex: *mutex,
                place: *place,
            };
            perform(here, to, passed, op)
        }
        TypedStatement::Unlock { mutex, place } => {
            let op = Operation::Unlock {
                mutex: *mutex,
                place: *place,
            };
            perform(here, to, passed, op)
        }
        TypedStatement::Yield => perform(here, to, passed, Operation::Yield),
    }
}

// A loop or a `switch`.
#[cycle(statement)]
fn build_enclosing(
    here: &Here<'_>,
    to: &mut Fragment,
    passed: &mut Passed,
    statement: &TypedStatement,
    onward: Onward,
) -> Result<(), NoMemory>
    requires { is_enclosing (typed_tree statement.now) ≡ true }
    ensures { OnOk result (reached (tree_in here.now.laid.now) to.new passed.new
        ≡ statement_at (tree_in here.now.laid.now) here.now.depth here.now.path (typed_tree statement.now)
        (onward_of onward) (reached (tree_in here.now.laid.now) to.old passed.old)) }
{
    match statement {
        TypedStatement::While { condition, body } => {
            let Entered {
                mut within,
                head,
                outs,
            } = begin_while(here, to, passed, condition)?;
            build_statement(here, to, &mut within, body, Onward::Head(head))?;
            end_turns(here, to, passed, &within, head, outs)
        }
        TypedStatement::Do { body, condition } => {
            let Begun { mut within, head } = begin(here, to, passed)?;
            build_statement(here, to, &mut within, body, Onward::Later)?;
            end_do(here, to, passed, &within, condition, head)
        }
        TypedStatement::For {
            first,
            condition,
            step,
            body,
        } => {
            build_statement(here, to, passed, first, onward)?;
            let Entered {
                mut within,
                head,
                outs,
            } = begin_for(here, to, passed, condition)?;
            build_statement(here, to, &mut within, body, Onward::Later)?;
            end_for(here, to, passed, &within, step, head, outs)
        }
        TypedStatement::Switch {
            value: rvalue,
            parts,
            ..
        } => {
            let Selected {
                mut within,
                labels,
                node,
                outs,
            } = begin_select(here, to, passed, rvalue, parts)?;
            build_parts(here, to, &mut within, parts, &labels, node, onward)?;
            end_select(here, to, passed, &within, outs)
        }
        _ => unreachable!(),
    }
}

// The parts of a `switch`, with the nodes of their labels and the one behind the tests.
#[cycle(statement)]
#[tactic(auto, using(crate::proofs::Rows::parts_more, crate::proofs::Rows::parts_last))]
fn build_parts(
    here: &Here<'_>,
    to: &mut Fragment,
    passed: &mut Passed,
    parts: &[TypedSwitchPart],
    labels: &[u32],
    node: u32,
    onward: Onward,
) -> Result<(), NoMemory>
    ensures { OnOk result (reached (tree_in here.now.laid.now) to.new passed.new
        ≡ cases_at (tree_in here.now.laid.now) here.now.depth here.now.path (as_typed_cases parts.now) labels.now node
        (onward_of onward) (reached (tree_in here.now.laid.now) to.old passed.old)) }
{
    let mut left = labels;
    for part in parts {
        build_part(here, to, passed, part, left, node, onward)?;
        left = labels_left(part, left);
    }
    Ok(())
}

// A part of a `switch`.
#[cycle(statement)]
fn build_part(
    here: &Here<'_>,
    to: &mut Fragment,
    passed: &mut Passed,
    part: &TypedSwitchPart,
    labels: &[u32],
    node: u32,
    onward: Onward,
) -> Result<(), NoMemory>
    ensures { OnOk result (reached (tree_in here.now.laid.now) to.new passed.new
        ≡ case_at (tree_in here.now.laid.now) here.now.depth here.now.path (typed_case part.now) labels.now node
        (onward_of onward) (reached (tree_in here.now.laid.now) to.old passed.old)) }
{
    match part {
        TypedSwitchPart::Case { .. } => label(here, to, passed, labels),
        TypedSwitchPart::Default { .. } => join(here, to, passed, node),
        TypedSwitchPart::Statement(statement) => {
            build_statement(here, to, passed, statement, onward)
        }
    }
}
