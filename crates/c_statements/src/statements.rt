//! The typing of statements: the parts of each in the order of the text.
ghost use Rattle.std.specs.Prelude.{◌≡◌, [], ◌∷◌, ◌++◌, Ok, OnOk, map};
ghost use Rattle.tm_terms.specs.ExprTrees.{tree_of};
ghost use Rattle.tm_trees.specs.DeclarationTrees.{optional_tree};
ghost use Rattle.tm_trees.specs.FileTrees.{first_tree, statement_tree, a_block, a_for, part_tree, as_parts, case_tree};
ghost use Rattle.tm_trees.specs.FileTrees.{as_cases, block_tree};
ghost use Rattle.tm_typed.specs.Scopes.{named};
ghost use Rattle.tm_typed.specs.TypedStatements.{as_typed_trees, as_typed_cases, locks, unlocks, a_label};
ghost use Rattle.tm_typed.specs.TypedStatements.{a_default_label};
ghost use Rattle.tm_typed.specs.Refusals.{Gives, then_with};
ghost use Rattle.tm_typed.specs.StatementRules.{in_body, no_labels, with_label, default_rules, mutex_rules};
ghost use Rattle.tm_typed.specs.StatementTyping.{label_in, statement_in, part_in, parts_in, case_in, cases_in};
ghost use Rattle.c_typing_state.specs.Steps.{StepsTo};
ghost use Rattle.c_statements.specs.reading.SwitchBlocks.{block_cases};
ghost use Rattle.c_statements.specs.Views.{around_of, statement_in_box, case_with, case_behind};

use crate::labels::Labels;
use crate::nodes;
use crate::parts::{
    condition_in, declaration_in, evaluation_in, first_in, label_in, optional_condition_in,
    optional_value_in, return_in, selector_in,
};
use crate::rules::{Around, break_out, continue_on, in_body, looping, mutex, switching};
use c_scope::Scope;
use c_typing_state::State;
use std::alloc::Global;
use tm_cint::IntType;
use tm_lattice::NoMemory;
use tm_terms::{Expr, Fail, Name, Place};
use tm_trees::{Block, BlockPart, ForFirst, Statement, SwitchPart};
use tm_typed::{TypedStatement, TypedSwitchPart};

// One more statement at the end.
fn push(
    statements: &mut Vec<TypedStatement>,
    statement: Box<TypedStatement>,
) -> Result<(), NoMemory>
    ensures { OnOk result (statements.new.items ≡ statements.old.items ++ statement.value ∷ []) }
{
    match statements.push(Box::into_inner(statement)) {
        Ok(()) => Ok(()),
        Err(_) => Err(NoMemory),
    }
}

// One more part at the end.
fn push_case(cases: &mut Vec<TypedSwitchPart>, case: TypedSwitchPart) -> Result<(), NoMemory>
    ensures { OnOk result (cases.new.items ≡ cases.old.items ++ case ∷ []) }
{
    match cases.push(case) {
        Ok(()) => Ok(()),
        Err(_) => Err(NoMemory),
    }
}

// `__lock(m);`
fn lock_in(
    alloc: Global,
    scope: &Scope,
    name: Name,
    name_place: Place,
    place: Place,
) -> Result<Box<TypedStatement>, Fail>
    ensures { Gives statement_in_box result (then_with (mutex_rules name_place (named scope.now name))
        (λ n. Ok (locks n place))) }
{
    let mutex = mutex(name_place, scope.named(name))?;
    Ok(nodes::boxed(alloc, TypedStatement::Lock { mutex, place })?)
}

// `__unlock(m);`
fn unlock_in(
    alloc: Global,
    scope: &Scope,
    name: Name,
    name_place: Place,
    place: Place,
) -> Result<Box<TypedStatement>, Fail>
    ensures { Gives statement_in_box result (then_with (mutex_rules name_place (named scope.now name))
        (λ n. Ok (unlocks n place))) }
{
    let mutex = mutex(name_place, scope.named(name))?;
    Ok(nodes::boxed(alloc, TypedStatement::Unlock { mutex, place })?)
}

// `case e:`
fn labelled(
    alloc: Global,
    state: &mut State,
    of: IntType,
    labels: &mut Labels,
    value: &Expr,
    place: Place,
) -> Result<TypedSwitchPart, Fail>
    ensures { Gives (case_behind labels.new state.new) result
        (then_with (label_in state.old of labels.old.values (tree_of value.now) place)
        (λ a. Ok (a_label a.0 place, with_label labels.old a.0, a.1))) }
{
    let label = label_in(alloc, state, of, labels, value, place)?;
    labels.push(label)?;
    Ok(TypedSwitchPart::Case { label, place })
}

// `default:`
fn default_label(labels: &mut Labels, place: Place) -> Result<TypedSwitchPart, Fail>
    ensures { Gives (case_with labels.new) result
        (then_with (default_rules labels.old place) (λ l. Ok (a_default_label place, l))) }
{
    labels.push_default(place)?;
    Ok(TypedSwitchPart::Default { place })
}

// A part of the block of a `switch` that compares in the type `of`, behind these labels.
#[cycle(statement)]
fn case(
    alloc: Global,
    state: &mut State,
    around: Around,
    of: IntType,
    labels: &mut Labels,
    part: &SwitchPart,
) -> Result<TypedSwitchPart, Fail>
    ensures { Gives (case_behind labels.new state.new) result
        (case_in state.old (around_of around) of labels.old (case_tree part.now)) }
{
    match part {
        SwitchPart::Case { value, place } => labelled(alloc, state, of, labels, value, *place),
        SwitchPart::Default { place } => default_label(labels, *place),
        SwitchPart::Statement(step) => match statement(alloc, state, around, step) {
            Ok(step) => Ok(nodes::case_step(step)),
            Err(fail) => Err(fail),
        },
    }
}

// The parts of the block of a `switch`.
#[cycle(statement)]
fn cases(
    alloc: Global,
    state: &mut State,
    around: Around,
    of: IntType,
    parts: &[SwitchPart],
) -> Result<Vec<TypedSwitchPart>, Fail>
    ensures { StepsTo (λ v. as_typed_cases v.items) state.new result
        (cases_in state.old (around_of around) of no_labels (as_cases (map case_tree parts.now))) }
{
    let mut labels = Labels::new(alloc);
    let mut typed = Vec::new(alloc);
    'cases: for part in parts {
        match case(alloc, state, around, of, &mut labels, part) {
            Ok(part) => push_case(&mut typed, part)?,
            Err(fail) => return Err(fail),
        }
    }
    Ok(typed)
}

// A part of a block.
#[cycle(statement)]
fn part(
    alloc: Global,
    state: &mut State,
    around: Around,
    part: &BlockPart,
) -> Result<Box<TypedStatement>, Fail>
    ensures { StepsTo statement_in_box state.new result (part_in state.old (around_of around) (part_tree part.now)) }
{
    match part {
        BlockPart::Declaration(declaration) => declaration_in(alloc, state, declaration),
        BlockPart::Statement(step) => statement(alloc, state, around, step),
    }
}

// The parts of a block.
#[cycle(statement)]
fn parts(
    alloc: Global,
    state: &mut State,
    around: Around,
    parts: &[BlockPart],
) -> Result<Vec<TypedStatement>, Fail>
    ensures { StepsTo (λ v. as_typed_trees v.items) state.new result
        (parts_in state.old (around_of around) (as_parts (map part_tree parts.now))) }
{
    let mut typed = Vec::new(alloc);
    'parts: for one in parts {
        match part(alloc, state, around, one) {
            Ok(one) => push(&mut typed, one)?,
            Err(fail) => return Err(fail),
        }
    }
    Ok(typed)
}

// A block, which is a scope of its own (C99 6.8.2).
#[cycle(statement)]
fn block_in(
    alloc: Global,
    state: &mut State,
    around: Around,
    block: &Block,
) -> Result<Box<TypedStatement>, Fail>
    ensures { StepsTo statement_in_box state.new result (statement_in state.old (around_of around)
        (a_block (block_tree block.now))) }
{
    let outside = state.outside();
    state.enter();
    match parts(alloc, state, around, &block.parts) {
        Ok(statements) => {
            state.leave(outside);
            Ok(nodes::block(alloc, statements)?)
        }
        Err(fail) => Err(fail),
    }
}

// A `for`, which is a scope of its own (C99 6.8.5).
#[cycle(statement)]
fn for_in(
    alloc: Global,
    state: &mut State,
    around: Around,
    first: &ForFirst,
    condition: &Option<Expr>,
    step: &Option<Expr>,
    body: &Statement,
) -> Result<Box<TypedStatement>, Fail>
    ensures { StepsTo statement_in_box state.new result (statement_in state.old (around_of around)
        (a_for (first_tree first.now) (optional_tree condition.now) (optional_tree step.now)
        (statement_tree body.now))) }
{
    let outside = state.outside();
    state.enter();
    match first_in(alloc, state, first) {
        Ok(first) => match optional_condition_in(alloc, state, condition) {
            Ok(condition) => match optional_value_in(alloc, state, step) {
                Ok(step) => match statement(alloc, state, looping(around), body) {
                    Ok(body) => {
                        state.leave(outside);
                        Ok(nodes::for_loop(alloc, first, condition, step, body)?)
                    }
                    Err(fail) => Err(fail),
                },
                Err(fail) => Err(fail),
            },
            Err(fail) => Err(fail),
        },
        Err(fail) => Err(fail),
    }
}

// The block of a `switch`, which is a scope of its own (C99 6.8.4.2).
#[cycle(statement)]
fn switch_block(
    alloc: Global,
    state: &mut State,
    around: Around,
    of: IntType,
    parts: &[SwitchPart],
) -> Result<Vec<TypedSwitchPart>, Fail>
    ensures { StepsTo (λ v. as_typed_cases v.items) state.new result
        (block_cases state.old (around_of around) of (as_cases (map case_tree parts.now))) }
{
    let outside = state.outside();
    state.enter();
    match cases(alloc, state, around, of, parts) {
        Ok(parts) => {
            state.leave(outside);
            Ok(parts)
        }
        Err(fail) => Err(fail),
    }
}

// A statement that stands there.
#[cycle(statement)]
fn statement(
    alloc: Global,
    state: &mut State,
    around: Around,
    whole: &Statement,
) -> Result<Box<TypedStatement>, Fail>
    ensures { StepsTo statement_in_box state.new result (statement_in state.old (around_of around)
        (statement_tree whole.now)) }
{
    match whole {
        Statement::Block(block) => block_in(alloc, state, around, block),
        Statement::Expression(expr) => evaluation_in(alloc, state, expr),
        Statement::If {
            condition,
            first,
            second,
        } => match condition_in(alloc, state, condition) {
            Ok(condition) => match statement(alloc, state, around, first) {
                Ok(first) => match second {
                    None => Ok(nodes::if_alone(alloc, condition, first)?),
                    Some(second) => match statement(alloc, state, around, second) {
                        Ok(second) => Ok(nodes::if_else(alloc, condition, first, second)?),
                        Err(fail) => Err(fail),
                    },
                },
                Err(fail) => Err(fail),
            },
            Err(fail) => Err(fail),
        },
        Statement::While { condition, body } => match condition_in(alloc, state, condition) {
            Ok(condition) => match statement(alloc, state, looping(around), body) {
                Ok(body) => Ok(nodes::while_loop(alloc, condition, body)?),
                Err(fail) => Err(fail),
            },
            Err(fail) => Err(fail),
        },
        Statement::Do { body, condition } => {
            match statement(alloc, state, looping(around), body) {
                Ok(body) => match condition_in(alloc, state, condition) {
                    Ok(condition) => Ok(nodes::do_loop(alloc, body, condition)?),
                    Err(fail) => Err(fail),
                },
                Err(fail) => Err(fail),
            }
        }
        Statement::For {
            first,
            condition,
            step,
            body,
        } => for_in(alloc, state, around, first, condition, step, body),
        Statement::Switch { value, parts } => match selector_in(alloc, state, value) {
            Ok(selector) => {
                match switch_block(alloc, state, switching(around), selector.works_in, parts) {
                    Ok(parts) => Ok(nodes::switch(alloc, selector, parts)?),
                    Err(fail) => Err(fail),
                }
            }
            Err(fail) => Err(fail),
        },
        Statement::Break { place } => break_out(alloc, around, *place),
        Statement::Continue { place } => continue_on(alloc, around, *place),
        Statement::Return { value, place } => return_in(alloc, state, around, value, *place),
        Statement::Lock {
            mutex,
            mutex_place,
            place,
        } => lock_in(alloc, state.scope(), *mutex, *mutex_place, *place),
        Statement::Unlock {
            mutex,
            mutex_place,
            place,
        } => unlock_in(alloc, state.scope(), *mutex, *mutex_place, *place),
        Statement::Yield { place: _place } => Ok(nodes::boxed(alloc, TypedStatement::Yield)?),
    }
}

/// The parts of the outermost block of a function with a result of this type.
pub fn body_parts(
    alloc: Global,
    state: &mut State,
    number: u32,
    block: &Block,
) -> Result<Vec<TypedStatement>, Fail>
    ensures { StepsTo (λ v. as_typed_trees v.items) state.new result
        (parts_in state.old (in_body number) (block_tree block.now)) }
{
    parts(alloc, state, in_body(number), &block.parts)
}
