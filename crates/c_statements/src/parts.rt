//! Expressions and declarations as parts of statements.
ghost use Rattle.std.specs.Prelude.{◌≡◌, Ok};
ghost use Rattle.tm_terms.specs.ExprTrees.{tree_of};
ghost use Rattle.tm_trees.specs.DeclarationTrees.{optional_tree, declaration_tree};
ghost use Rattle.tm_trees.specs.FileTrees.{first_tree};
ghost use Rattle.tm_typed.specs.TypedTrees.{boxed_tree};
ghost use Rattle.tm_typed.specs.Refusals.{then_with};
ghost use Rattle.tm_typed.specs.Declarations.{local_declaration};
ghost use Rattle.tm_typed.specs.TypedStatements.{optional_rvalue_tree, evaluates, declares};
ghost use Rattle.tm_typed.specs.StatementTyping.{value_in, condition_in, optional_value_in, optional_condition_in};
ghost use Rattle.tm_typed.specs.StatementTyping.{return_in, selector_in, label_in, first_in};
ghost use Rattle.c_typing_state.specs.Steps.{StepsTo};
ghost use Rattle.c_statements.specs.Views.{around_of, selector_of, statement_in_box};

use crate::labels::Labels;
use crate::nodes::{declare, evaluate};
use crate::rules::{Around, Selector, condition, return_nothing, return_value, selector_by};
use c_declarations::local_declaration;
use c_expr_rules::valued;
use c_typing_state::{State, folded_value};
use std::alloc::Global;
use tm_cint::IntType;
use tm_lattice::NoMemory;
use tm_terms::{Expr, Fail, Place};
use tm_trees::{Declaration, ForFirst};
use tm_typed::{Operand, Rvalue, TypedStatement, Valued};

/// An expression for its value.
pub(crate) fn value_in(alloc: Global, state: &mut State, expr: &Expr) -> Result<Box<Rvalue>, Fail>
    ensures { StepsTo boxed_tree state.new result (value_in state.old (tree_of expr.now)) }
{
    let operand = state.typed_in(alloc, expr)?;
    let valued = valued(alloc, state.scope(), operand)?;
    Ok(valued.value)
}

/// A condition.
pub(crate) fn condition_in(
    alloc: Global,
    state: &mut State,
    expr: &Expr,
) -> Result<Box<Rvalue>, Fail>
    ensures { StepsTo boxed_tree state.new result (condition_in state.old (tree_of expr.now)) }
{
    let operand = state.typed_in(alloc, expr)?;
    let valued = valued(alloc, state.scope(), operand)?;
    condition(expr.place(), valued)
}

/// An expression for its value, where one is written.
pub(crate) fn optional_value_in(
    alloc: Global,
    state: &mut State,
    expr: &Option<Expr>,
) -> Result<Option<Box<Rvalue>>, Fail>
    ensures { StepsTo optional_rvalue_tree state.new result (optional_value_in state.old (optional_tree expr.now)) }
{
    match expr {
        None => Ok(None),
        Some(expr) => {
            let value = value_in(alloc, state, expr)?;
            Ok(Some(value))
        }
    }
}

/// A condition, where one is written.
pub(crate) fn optional_condition_in(
    alloc: Global,
    state: &mut State,
    expr: &Option<Expr>,
) -> Result<Option<Box<Rvalue>>, Fail>
    ensures { StepsTo optional_rvalue_tree state.new result (optional_condition_in state.old (optional_tree expr.now)) }
{
    match expr {
        None => Ok(None),
        Some(expr) => {
            let value = condition_in(alloc, state, expr)?;
            Ok(Some(value))
        }
    }
}

/// `return e;` and `return;`
pub(crate) fn return_in(
    alloc: Global,
    state: &mut State,
    around: Around,
    expr: &Option<Expr>,
    place: Place,
) -> Result<Box<TypedStatement>, Fail>
    ensures { StepsTo statement_in_box state.new result (return_in state.old (around_of around)
        (optional_tree expr.now) place) }
{
    match expr {
        None => return_nothing(alloc, state.scope(), around.result, place),
        Some(expr) => {
            let operand = state.typed_in(alloc, expr)?;
            let valued = valued(alloc, state.scope(), operand)?;
            return_value(alloc, state.scope(), around.result, place, valued)
        }
    }
}

/// The expression of a `switch`.
pub(crate) fn selector_in(alloc: Global, state: &mut State, expr: &Expr) -> Result<Selector, Fail>
    ensures { StepsTo selector_of state.new result (selector_in state.old (tree_of expr.now)) }
{
    let operand = state.typed_in(alloc, expr)?;
    let valued = valued(alloc, state.scope(), operand)?;
    selector_by(alloc, expr.place(), valued)
}

/// The label of `case e:` behind these labels.
pub(crate) fn label_in(
    alloc: Global,
    state: &mut State,
    of: IntType,
    labels: &Labels,
    expr: &Expr,
    word: Place,
) -> Result<i128, Fail>
    ensures { StepsTo (λ z. z) state.new result (label_in state.old of labels.now.values (tree_of expr.now) word) }
{
    let operand = state.typed_in(alloc, expr)?;
    let label = labels.label(of, word, expr.place(), folded_value(&operand))?;
    state.add_label(label)?;
    Ok(label)
}

/// A declaration in a block.
pub(crate) fn declaration_in(
    alloc: Global,
    state: &mut State,
    declaration: &Declaration,
) -> Result<Box<TypedStatement>, Fail>
    ensures { StepsTo statement_in_box state.new result (then_with
        (local_declaration state.old (declaration_tree declaration.now)) (λ a. Ok (declares a.0, a.1))) }
{
    let locals = local_declaration(alloc, state, declaration)?;
    Ok(declare(alloc, locals)?)
}

/// `e;` and `;`
pub(crate) fn evaluation_in(
    alloc: Global,
    state: &mut State,
    expr: &Option<Expr>,
) -> Result<Box<TypedStatement>, Fail>
    ensures { StepsTo statement_in_box state.new result (then_with
        (optional_value_in state.old (optional_tree expr.now)) (λ a. Ok (evaluates a.0, a.1))) }
{
    let value = optional_value_in(alloc, state, expr)?;
    Ok(evaluate(alloc, value)?)
}

/// What a `for` does first.
pub(crate) fn first_in(
    alloc: Global,
    state: &mut State,
    first: &ForFirst,
) -> Result<Box<TypedStatement>, Fail>
    ensures { StepsTo statement_in_box state.new result (first_in state.old (first_tree first.now)) }
{
    match first {
        ForFirst::Expression(expr) => evaluation_in(alloc, state, expr),
        ForFirst::Declaration(declaration) => declaration_in(alloc, state, declaration),
    }
}
