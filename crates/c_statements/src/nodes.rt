//! Typed statements from their parts, each in a box.
ghost use Rattle.std.specs.Prelude.{◌≡◌, IfOk, map};
ghost use Rattle.tm_typed.specs.TypedTrees.{boxed_tree};
ghost use Rattle.tm_typed.specs.TypedStatements.{typed_tree, optional_rvalue_tree, local_tree, as_typed_trees};
ghost use Rattle.tm_typed.specs.TypedStatements.{as_typed_cases, evaluates, declares, runs_block, branches};
ghost use Rattle.tm_typed.specs.TypedStatements.{branches_else, loops_while, loops_do, loops_for, selects, typed_case};
ghost use Rattle.tm_typed.specs.TypedStatements.{a_labelled_step};
ghost use Rattle.c_statements.specs.Views.{statement_in_box};

use crate::rules::Selector;
use std::alloc::Global;
use tm_lattice::NoMemory;
use tm_typed::{LocalObject, Rvalue, TypedStatement, TypedSwitchPart};

/// A statement in a box.
pub(crate) fn boxed(
    alloc: Global,
    statement: TypedStatement,
) -> Result<Box<TypedStatement>, NoMemory>
    ensures { IfOk result (λ s. statement_in_box s ≡ typed_tree statement) }
{
    Ok(Box::new(alloc, statement)?)
}

/// `e;` or `;`
pub(crate) fn evaluate(
    alloc: Global,
    value: Option<Box<Rvalue>>,
) -> Result<Box<TypedStatement>, NoMemory>
    ensures { IfOk result (λ s. statement_in_box s ≡ evaluates (optional_rvalue_tree value)) }
{
    boxed(alloc, TypedStatement::Evaluate(value))
}

/// A declaration of local objects.
pub(crate) fn declare(
    alloc: Global,
    locals: Vec<LocalObject>,
) -> Result<Box<TypedStatement>, NoMemory>
    ensures { IfOk result (λ s. statement_in_box s ≡ declares (map local_tree locals.items)) }
{
    boxed(alloc, TypedStatement::Declare(locals))
}

/// `{ .. }`
pub(crate) fn block(
    alloc: Global,
    statements: Vec<TypedStatement>,
) -> Result<Box<TypedStatement>, NoMemory>
    ensures { IfOk result (λ s. statement_in_box s ≡ runs_block (as_typed_trees statements.items)) }
{
    boxed(alloc, TypedStatement::Block(statements))
}

/// `if (e) s`
pub(crate) fn if_alone(
    alloc: Global,
    condition: Box<Rvalue>,
    first: Box<TypedStatement>,
) -> Result<Box<TypedStatement>, NoMemory>
    ensures { IfOk result (λ s. statement_in_box s ≡ branches (boxed_tree condition) (statement_in_box first)) }
{
    boxed(
        alloc,
        TypedStatement::If {
            condition,
            first,
            second: None,
        },
    )
}

/// `if (e) s else s`
pub(crate) fn if_else(
    alloc: Global,
    condition: Box<Rvalue>,
    first: Box<TypedStatement>,
    second: Box<TypedStatement>,
) -> Result<Box<TypedStatement>, NoMemory>
    ensures { IfOk result (λ s. statement_in_box s ≡ branches_else (boxed_tree condition) (statement_in_box first)
        (statement_in_box second)) }
{
    boxed(
        alloc,
        TypedStatement::If {
            condition,
            first,
            second: Some(second),
        },
    )
}

/// `while (e) s`
pub(crate) fn while_loop(
    alloc: Global,
    condition: Box<Rvalue>,
    body: Box<TypedStatement>,
) -> Result<Box<TypedStatement>, NoMemory>
    ensures { IfOk result (λ s. statement_in_box s ≡ loops_while (boxed_tree condition) (statement_in_box body)) }
{
    boxed(alloc, TypedStatement::While { condition, body })
}

/// `do s while (e);`
pub(crate) fn do_loop(
    alloc: Global,
    body: Box<TypedStatement>,
    condition: Box<Rvalue>,
) -> Result<Box<TypedStatement>, NoMemory>
    ensures { IfOk result (λ s. statement_in_box s ≡ loops_do (statement_in_box body) (boxed_tree condition)) }
{
    boxed(alloc, TypedStatement::Do { body, condition })
}

/// `for (..; e; e) s`
pub(crate) fn for_loop(
    alloc: Global,
    first: Box<TypedStatement>,
    condition: Option<Box<Rvalue>>,
    step: Option<Box<Rvalue>>,
    body: Box<TypedStatement>,
) -> Result<Box<TypedStatement>, NoMemory>
    ensures { IfOk result (λ s. statement_in_box s
        ≡ loops_for (statement_in_box first) (optional_rvalue_tree condition) (optional_rvalue_tree step)
        (statement_in_box body)) }
{
    boxed(
        alloc,
        TypedStatement::For {
            first,
            condition,
            step,
            body,
        },
    )
}

/// `switch (e) { .. }`
pub(crate) fn switch(
    alloc: Global,
    selector: Selector,
    parts: Vec<TypedSwitchPart>,
) -> Result<Box<TypedStatement>, NoMemory>
    ensures { IfOk result (λ s. statement_in_box s ≡ selects selector.works_in (boxed_tree selector.value)
        (as_typed_cases parts.items)) }
{
    let Selector { works_in, value } = selector;
    boxed(
        alloc,
        TypedStatement::Switch {
            works_in,
            value,
            parts,
        },
    )
}

/// A statement as a part of the block of a `switch`.
pub(crate) fn case_step(statement: Box<TypedStatement>) -> TypedSwitchPart
    ensures { typed_case result ≡ a_labelled_step (statement_in_box statement) }
{
    TypedSwitchPart::Statement(Box::into_inner(statement))
}
