//! Statements with no statement inside, and the head of a `for` (C99 6.8.3, 6.8.5.3, 6.8.6).
ghost use Rattle.std.specs.Prelude.{◌≡◌, ◌≤◌, true, false, IfOk};
ghost use Rattle.tm_trees.specs.DeclarationTrees.{optional_tree};
ghost use Rattle.tm_trees.specs.FileTrees.{first_tree, a_break, a_continue};
ghost use Rattle.c_decl_parser.specs.reading.Parts.{seen};
ghost use Rattle.c_parser.specs.reading.Founds.{boxed_tree, head_tree};
ghost use Rattle.c_parser.specs.reading.FileDescent.{closed, mutex_in, first, first_by, for_head, word_and_semicolon};
ghost use Rattle.c_parser.specs.reading.FileDescent.{return_form, lock_form, unlock_form, yield_form, value_form};

use crate::statement_nodes::{ForHead, boxed};
use c_decl_parser::declarations::local_declaration;
use c_decl_parser::expressions::until;
use c_decl_parser::reads::Read;
use c_decl_parser::tokens::declared_at;
use c_expr_parser::marks::{Mark, after};
use c_expr_parser::type_names::begins_type;
use std::alloc::Global;
use tm_lattice::NoMemory;
use tm_terms::{Expr, Level, Name, Names, Place, Token};
use tm_trees::{ForFirst, Statement};

// An expression or nothing, and the `;`.
fn closed<'a>(
    alloc: Global,
    types: &Names,
    allowed: u32,
    tokens: &'a [Token],
) -> Result<Read<'a, Option<Expr>>, NoMemory>
    requires { allowed ≤ 500 }
    ensures { IfOk result (λ read. seen optional_tree read ≡ closed types.now allowed tokens.now) }
{
    until(alloc, types, allowed, Level::Comma, Mark::Semicolon, tokens)
}

// A mutex in parentheses, and the `;`.
#[tactic(auto, unfolding(crate::specs::reading::FileDescent::mutex_in))]
fn mutex_in<'a>(types: &Names, tokens: &'a [Token]) -> Read<'a, (Name, Place)>
    ensures { seen (λ n. n) result ≡ mutex_in types.now tokens.now }
{
    match after(Mark::OpenParenthesis, tokens) {
        None => Read::Stuck(tokens),
        Some(inside) => match declared_at(types, false, inside) {
            None => Read::Stuck(inside),
            Some((mutex, place, behind)) => match after(Mark::CloseParenthesis, behind) {
                None => Read::Stuck(behind),
                Some(end) => match after(Mark::Semicolon, end) {
                    None => Read::Stuck(end),
                    Some(rest) => Read::Found((mutex, place), rest),
                },
            },
        },
    }
}

// What a `for` does first, and the `;`.
#[tactic(auto, unfolding(crate::specs::reading::FileDescent::first))]
fn first<'a>(
    alloc: Global,
    types: &Names,
    allowed: u32,
    tokens: &'a [Token],
) -> Result<Read<'a, ForFirst>, NoMemory>
    requires { allowed ≤ 500 }
    ensures { IfOk result (λ read. seen first_tree read ≡ first types.now allowed tokens.now) }
{
    if begins_type(types, tokens) {
        first_declaration(alloc, types, allowed, tokens)
    } else {
        first_expression(alloc, types, allowed, tokens)
    }
}

fn first_declaration<'a>(
    alloc: Global,
    types: &Names,
    allowed: u32,
    tokens: &'a [Token],
) -> Result<Read<'a, ForFirst>, NoMemory>
    requires { allowed ≤ 500 }
    ensures { IfOk result (λ read. seen first_tree read ≡ first_by types.now allowed true tokens.now) }
{
    match local_declaration(alloc, types, allowed, tokens)? {
        Read::Stuck(at) => Ok(Read::Stuck(at)),
        Read::Found(declaration, rest) => {
            if declaration.declarators.is_empty() {
                return Ok(Read::Stuck(tokens));
            }
            Ok(Read::Found(ForFirst::Declaration(declaration), rest))
        }
    }
}

fn first_expression<'a>(
    alloc: Global,
    types: &Names,
    allowed: u32,
    tokens: &'a [Token],
) -> Result<Read<'a, ForFirst>, NoMemory>
    requires { allowed ≤ 500 }
    ensures { IfOk result (λ read. seen first_tree read ≡ first_by types.now allowed false tokens.now) }
{
    match closed(alloc, types, allowed, tokens)? {
        Read::Stuck(at) => Ok(Read::Stuck(at)),
        Read::Found(expression, rest) => Ok(Read::Found(ForFirst::Expression(expression), rest)),
    }
}

// The three parts of a `for` between its parentheses.
#[tactic(auto, unfolding(crate::specs::reading::FileDescent::for_head))]
pub(crate) fn for_head<'a>(
    alloc: Global,
    types: &Names,
    allowed: u32,
    tokens: &'a [Token],
) -> Result<Read<'a, ForHead>, NoMemory>
    requires { allowed ≤ 500 }
    ensures { IfOk result (λ read. seen head_tree read ≡ for_head types.now allowed tokens.now) }
{
    match after(Mark::OpenParenthesis, tokens) {
        None => Ok(Read::Stuck(tokens)),
        Some(inside) => match first(alloc, types, allowed, inside)? {
            Read::Stuck(at) => Ok(Read::Stuck(at)),
            Read::Found(first, behind) => match closed(alloc, types, allowed, behind)? {
                Read::Stuck(at) => Ok(Read::Stuck(at)),
                Read::Found(condition, last) => match until(
                    alloc,
                    types,
                    allowed,
                    Level::Comma,
                    Mark::CloseParenthesis,
                    last,
                )? {
                    Read::Stuck(at) => Ok(Read::Stuck(at)),
                    Read::Found(step, rest) => Ok(Read::Found(
                        ForHead {
                            first,
                            condition,
                            step,
                        },
                        rest,
                    )),
                },
            },
        },
    }
}

// After `break`.
pub(crate) fn break_form<'a>(
    alloc: Global,
    place: Place,
    tokens: &'a [Token],
) -> Result<Read<'a, Box<Statement>>, NoMemory>
    ensures { IfOk result (λ read. seen boxed_tree read ≡ word_and_semicolon (a_break place) tokens.now) }
{
    match after(Mark::Semicolon, tokens) {
        None => Ok(Read::Stuck(tokens)),
        Some(rest) => Ok(Read::Found(boxed(alloc, Statement::Break { place })?, rest)),
    }
}

// After `continue`.
pub(crate) fn continue_form<'a>(
    alloc: Global,
    place: Place,
    tokens: &'a [Token],
) -> Result<Read<'a, Box<Statement>>, NoMemory>
    ensures { IfOk result (λ read. seen boxed_tree read ≡ word_and_semicolon (a_continue place) tokens.now) }
{
    match after(Mark::Semicolon, tokens) {
        None => Ok(Read::Stuck(tokens)),
        Some(rest) => Ok(Read::Found(boxed(alloc, Statement::Continue { place })?, rest)),
    }
}

// After `return`.
#[tactic(auto, unfolding(crate::specs::reading::FileDescent::return_form))]
pub(crate) fn return_form<'a>(
    alloc: Global,
    types: &Names,
    allowed: u32,
    place: Place,
    tokens: &'a [Token],
) -> Result<Read<'a, Box<Statement>>, NoMemory>
    requires { allowed ≤ 500 }
    ensures { IfOk result (λ read. seen boxed_tree read ≡ return_form types.now allowed place tokens.now) }
{
    match closed(alloc, types, allowed, tokens)? {
        Read::Stuck(at) => Ok(Read::Stuck(at)),
        Read::Found(value, rest) => Ok(Read::Found(
            boxed(alloc, Statement::Return { value, place })?,
            rest,
        )),
    }
}

// After `__lock`.
#[tactic(auto, unfolding(crate::specs::reading::FileDescent::lock_form))]
pub(crate) fn lock_form<'a>(
    alloc: Global,
    types: &Names,
    place: Place,
    tokens: &'a [Token],
) -> Result<Read<'a, Box<Statement>>, NoMemory>
    ensures { IfOk result (λ read. seen boxed_tree read ≡ lock_form types.now place tokens.now) }
{
    match mutex_in(types, tokens) {
        Read::Stuck(at) => Ok(Read::Stuck(at)),
        Read::Found((mutex, mutex_place), rest) => {
            let statement = Statement::Lock {
                mutex,
                mutex_place,
                place,
            };
            Ok(Read::Found(boxed(alloc, statement)?, rest))
        }
    }
}

// After `__unlock`.
#[tactic(auto, unfolding(crate::specs::reading::FileDescent::unlock_form))]
pub(crate) fn unlock_form<'a>(
    alloc: Global,
    types: &Names,
    place: Place,
    tokens: &'a [Token],
) -> Result<Read<'a, Box<Statement>>, NoMemory>
    ensures { IfOk result (λ read. seen boxed_tree read ≡ unlock_form types.now place tokens.now) }
{
    match mutex_in(types, tokens) {
        Read::Stuck(at) => Ok(Read::Stuck(at)),
        Read::Found((mutex, mutex_place), rest) => {
            let statement = Statement::Unlock {
                mutex,
                mutex_place,
                place,
            };
            Ok(Read::Found(boxed(alloc, statement)?, rest))
        }
    }
}

// After `__yield`.
#[tactic(auto, unfolding(crate::specs::reading::FileDescent::yield_form))]
pub(crate) fn yield_form<'a>(
    alloc: Global,
    place: Place,
    tokens: &'a [Token],
) -> Result<Read<'a, Box<Statement>>, NoMemory>
    ensures { IfOk result (λ read. seen boxed_tree read ≡ yield_form place tokens.now) }
{
    match after(Mark::OpenParenthesis, tokens) {
        None => Ok(Read::Stuck(tokens)),
        Some(inside) => match after(Mark::CloseParenthesis, inside) {
            None => Ok(Read::Stuck(inside)),
            Some(end) => match after(Mark::Semicolon, end) {
                None => Ok(Read::Stuck(end)),
                Some(rest) => Ok(Read::Found(boxed(alloc, Statement::Yield { place })?, rest)),
            },
        },
    }
}

// An expression or nothing, and the `;`, as a statement.
#[tactic(auto, unfolding(crate::specs::reading::FileDescent::value_form))]
pub(crate) fn value_form<'a>(
    alloc: Global,
    types: &Names,
    allowed: u32,
    tokens: &'a [Token],
) -> Result<Read<'a, Box<Statement>>, NoMemory>
    requires { allowed ≤ 500 }
    ensures { IfOk result (λ read. seen boxed_tree read ≡ value_form types.now allowed tokens.now) }
{
    match closed(alloc, types, allowed, tokens)? {
        Read::Stuck(at) => Ok(Read::Stuck(at)),
        Read::Found(value, rest) => Ok(Read::Found(
            boxed(alloc, Statement::Expression(value))?,
            rest,
        )),
    }
}
