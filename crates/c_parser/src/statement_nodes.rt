//! Statements from their parts.
ghost use Rattle.std.specs.Prelude.{◌≡◌, map, IfOk};
ghost use Rattle.tm_terms.specs.ExprTrees.{tree_of};
ghost use Rattle.tm_trees.specs.DeclarationTrees.{optional_tree};
ghost use Rattle.tm_trees.specs.FileTrees.{statement_tree, a_block, an_if, an_if_else, a_while, a_do, a_for, a_switch};
ghost use Rattle.tm_trees.specs.FileTrees.{part_tree, a_step, block_tree, case_tree, a_case_step, as_cases};
ghost use Rattle.c_parser.specs.reading.Founds.{boxed_tree, head_tree};

use std::alloc::Global;
use tm_lattice::NoMemory;
use tm_terms::Expr;
use tm_trees::{Block, BlockPart, ForFirst, Statement, SwitchPart};

// What stands between the parentheses of a `for`.
#[derive(Drop)]
pub(crate) struct ForHead {
    pub first: ForFirst,
    pub condition: Option<Expr>,
    pub step: Option<Expr>,
}

pub(crate) fn boxed(alloc: Global, statement: Statement) -> Result<Box<Statement>, NoMemory>
    ensures { IfOk result (λ s. boxed_tree s ≡ statement_tree statement) }
{
    Ok(Box::new(alloc, statement)?)
}

pub(crate) fn block(alloc: Global, block: Block) -> Result<Box<Statement>, NoMemory>
    ensures { IfOk result (λ s. boxed_tree s ≡ a_block (block_tree block)) }
{
    boxed(alloc, Statement::Block(block))
}

pub(crate) fn if_alone(
    alloc: Global,
    condition: Expr,
    first: Box<Statement>,
) -> Result<Box<Statement>, NoMemory>
    ensures { IfOk result (λ s. boxed_tree s ≡ an_if (tree_of condition) (boxed_tree first)) }
{
    boxed(
        alloc,
        Statement::If {
            condition,
            first,
            second: None,
        },
    )
}

pub(crate) fn if_else(
    alloc: Global,
    condition: Expr,
    first: Box<Statement>,
    second: Box<Statement>,
) -> Result<Box<Statement>, NoMemory>
    ensures { IfOk result (λ s. boxed_tree s ≡ an_if_else (tree_of condition) (boxed_tree first) (boxed_tree second)) }
{
    boxed(
        alloc,
        Statement::If {
            condition,
            first,
            second: Some(second),
        },
    )
}

pub(crate) fn while_loop(
    alloc: Global,
    condition: Expr,
    body: Box<Statement>,
) -> Result<Box<Statement>, NoMemory>
    ensures { IfOk result (λ s. boxed_tree s ≡ a_while (tree_of condition) (boxed_tree body)) }
{
    boxed(alloc, Statement::While { condition, body })
}

pub(crate) fn do_loop(
    alloc: Global,
    body: Box<Statement>,
    condition: Expr,
) -> Result<Box<Statement>, NoMemory>
    ensures { IfOk result (λ s. boxed_tree s ≡ a_do (boxed_tree body) (tree_of condition)) }
{
    boxed(alloc, Statement::Do { body, condition })
}

pub(crate) fn for_loop(
    alloc: Global,
    head: ForHead,
    body: Box<Statement>,
) -> Result<Box<Statement>, NoMemory>
    ensures { IfOk result (λ s. boxed_tree s
        ≡ a_for (head_tree head).0 (head_tree head).1 (head_tree head).2 (boxed_tree body)) }
{
    let ForHead {
        first,
        condition,
        step,
    } = head;
    boxed(
        alloc,
        Statement::For {
            first,
            condition,
            step,
            body,
        },
    )
}

pub(crate) fn switch(
    alloc: Global,
    value: Expr,
    parts: Vec<SwitchPart>,
) -> Result<Box<Statement>, NoMemory>
    ensures { IfOk result (λ s. boxed_tree s ≡ a_switch (tree_of value) (as_cases (map case_tree parts.items))) }
{
    boxed(alloc, Statement::Switch { value, parts })
}

// A statement as a part of a block.
pub(crate) fn block_step(statement: Box<Statement>) -> BlockPart
    ensures { part_tree result ≡ a_step (boxed_tree statement) }
{
    BlockPart::Statement(Box::into_inner(statement))
}

// A statement as a part of the block of a `switch`.
pub(crate) fn case_step(statement: Box<Statement>) -> SwitchPart
    ensures { case_tree result ≡ a_case_step (boxed_tree statement) }
{
    SwitchPart::Statement(Box::into_inner(statement))
}
