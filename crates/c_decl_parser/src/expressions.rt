//! Expressions inside declarations and statements.
ghost use Rattle.std.specs.Prelude.{◌≡◌, ◌≤◌, IfOk, Some};
ghost use Rattle.tm_terms.specs.ExprTrees.{tree_of, rank};
ghost use Rattle.tm_trees.specs.DeclarationTrees.{optional_tree};
ghost use Rattle.c_expr_parser.specs.reading.Founds.{pair_of};
ghost use Rattle.c_decl_parser.specs.reading.Parts.{seen, continues, continues_by, settled, expression, until};
ghost use Rattle.c_decl_parser.specs.reading.Parts.{in_parentheses};

use crate::reads::Read;
use c_expr_parser::found::{Found, Tried};
use c_expr_parser::levels::rank;
use c_expr_parser::marks::{Mark, after, continued_level};
use c_expr_parser::read_at;
use std::alloc::Global;
use tm_lattice::NoMemory;
use tm_terms::{Expr, Level, Names, Token};

fn continues_by(level: Level, found: Option<u32>) -> bool
    ensures { result ≡ continues_by (rank level) found }
{
    match found {
        None => false,
        Some(found) => rank(level) <= found,
    }
}

// Whether the first token goes on an expression of this level or a tighter one.
fn continues(level: Level, tokens: &[Token]) -> bool
    ensures { result ≡ continues (rank level) tokens.now }
{
    if let [first, ..] = tokens {
        return continues_by(level, continued_level(first.shape));
    }
    false
}

// The expression that was read, where it has at most the allowed height and the token after it does not go on.
fn settled<'a>(allowed: u32, level: Level, found: Found<'a>) -> Read<'a, Expr>
    ensures { seen tree_of result ≡ settled allowed (rank level) (Some (pair_of found.entry)) }
{
    if found.height > allowed {
        return Read::Stuck(found.rest);
    }
    if continues(level, found.rest) {
        return Read::Stuck(found.stuck);
    }
    Read::Found(Box::into_inner(found.expr), found.rest)
}

/// An expression at a level, of at most the allowed height, that the token after it does not go on.
pub fn expression<'a>(
    alloc: Global,
    types: &Names,
    allowed: u32,
    level: Level,
    tokens: &'a [Token],
) -> Result<Read<'a, Expr>, NoMemory>
    requires { allowed ≤ 500 }
    ensures { IfOk result (λ read. seen tree_of read ≡ expression types.now allowed (rank level) tokens.now) }
{
    match read_at(alloc, types, level, tokens)? {
        Tried::Stuck(at) => Ok(Read::Stuck(at)),
        Tried::Found(found) => Ok(settled(allowed, level, found)),
    }
}

/// An expression, or nothing, and the mark.
#[tactic(auto, unfolding(crate::specs::reading::Parts::until))]
pub fn until<'a>(
    alloc: Global,
    types: &Names,
    allowed: u32,
    level: Level,
    mark: Mark,
    tokens: &'a [Token],
) -> Result<Read<'a, Option<Expr>>, NoMemory>
    requires { allowed ≤ 500 }
    ensures { IfOk result (λ read. seen optional_tree read ≡ until types.now allowed (rank level) mark tokens.now) }
{
    match after(mark, tokens) {
        Some(rest) => Ok(Read::Found(None, rest)),
        None => match expression(alloc, types, allowed, level, tokens)? {
            Read::Stuck(at) => Ok(Read::Stuck(at)),
            Read::Found(expr, next) => match after(mark, next) {
                None => Ok(Read::Stuck(next)),
                Some(rest) => Ok(Read::Found(Some(expr), rest)),
            },
        },
    }
}

/// An expression in parentheses.
#[tactic(auto, unfolding(crate::specs::reading::Parts::in_parentheses))]
pub fn in_parentheses<'a>(
    alloc: Global,
    types: &Names,
    allowed: u32,
    tokens: &'a [Token],
) -> Result<Read<'a, Expr>, NoMemory>
    requires { allowed ≤ 500 }
    ensures { IfOk result (λ read. seen tree_of read ≡ in_parentheses types.now allowed tokens.now) }
{
    match after(Mark::OpenParenthesis, tokens) {
        None => Ok(Read::Stuck(tokens)),
        Some(inside) => match expression(alloc, types, allowed, Level::Comma, inside)? {
            Read::Stuck(at) => Ok(Read::Stuck(at)),
            Read::Found(expr, next) => match after(Mark::CloseParenthesis, next) {
                None => Ok(Read::Stuck(next)),
                Some(rest) => Ok(Read::Found(expr, rest)),
            },
        },
    }
}
