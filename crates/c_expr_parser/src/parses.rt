ghost use Rattle.std.specs.Prelude.{◌≡◌, ◌≤◌, ◌<◌, length, drop, IfOk, IfSome, IfNone};
ghost use Rattle.tm_terms.specs.ExprTrees.{tree_of, height, rank};
ghost use Rattle.tm_terms.specs.ExprSpelling.{IsLongest, BeginsNone};
ghost use Rattle.c_expr_parser.specs.reading.Descent.{reads};
ghost use Rattle.c_expr_parser.specs.reading.Founds.{seen_found, IfFound};

use crate::descents::read;
use crate::found::{Found, Tried};
use crate::levels::rank;
use std::alloc::Global;
use tm_lattice::NoMemory;
use tm_terms::{Expr, Level, Names, Token};

/// The greatest height of an expression that is read: its nodes on the longest path.
pub const MAX_HEIGHT: u32 = 500;

/// An expression that was read, the index of the token after it, and its height.
#[derive(Drop)]
pub struct Parsed {
    pub expr: Expr,
    pub end: usize,
    pub height: u32,
}

/// Reads the longest expression of height at most `MAX_HEIGHT` that the tokens spell from `from` on,
/// where `types` are the names of typedefs; None where none begins there. A public call of its own,
/// for users of the crate; the parsers of declarations and files take `read_at`.
pub fn parse_expr(
    alloc: Global,
    tokens: &[Token],
    from: usize,
    types: &Names,
) -> Result<Option<Parsed>, NoMemory>
    requires { from ≤ length tokens.now }
    ensures longest { IfOk result (λ found. IfSome found (λ p.
        IsLongest types.now 0 500 (drop from tokens.now) (tree_of p.expr) (drop p.end tokens.now))) }
    ensures end { IfOk result (λ found. IfSome found (λ p. p.end ≤ length tokens.now)) }
    ensures height { IfOk result (λ found. IfSome found (λ p. p.height ≡ height (tree_of p.expr))) }
    ensures none { IfOk result (λ found. IfNone found (BeginsNone types.now 0 500 (drop from tokens.now))) }
{
    parse_at(alloc, tokens, from, types, Level::Comma)
}

/// The same at a level: the expression stands at `level` or a tighter one, as an initialiser stands at
/// the level of assignments and a constant at that of conditions.
pub fn parse_at(
    alloc: Global,
    tokens: &[Token],
    from: usize,
    types: &Names,
    level: Level,
) -> Result<Option<Parsed>, NoMemory>
    requires { from ≤ length tokens.now }
    ensures longest { IfOk result (λ found. IfSome found (λ p.
        IsLongest types.now (rank level) 500 (drop from tokens.now) (tree_of p.expr) (drop p.end tokens.now))) }
    ensures end { IfOk result (λ found. IfSome found (λ p. p.end ≤ length tokens.now)) }
    ensures height { IfOk result (λ found. IfSome found (λ p. p.height ≡ height (tree_of p.expr))) }
    ensures none { IfOk result (λ found. IfNone found (BeginsNone types.now (rank level) 500 (drop from tokens.now))) }
{
    let rest = &tokens[from..];
    match read(alloc, types, MAX_HEIGHT, rank(level), rest)? {
        Tried::Stuck(_) => Ok(None),
        Tried::Found(found) => {
            let end = tokens.len() - found.rest.len();
            Ok(Some(Parsed {
                expr: Box::into_inner(found.expr),
                end,
                height: found.height,
            }))
        }
    }
}

/// The same from the first token on, for the readers of declarations and statements: where no expression is read, or
/// where what follows one goes on, it tells where the reading got stuck.
pub fn read_at<'a>(
    alloc: Global,
    types: &Names,
    level: Level,
    tokens: &'a [Token],
) -> Result<Tried<'a, Found<'a>>, NoMemory>
    ensures value { IfOk result (λ found. seen_found found ≡ reads types.now 500 (rank level) tokens.now) }
    ensures low { IfOk result (λ found. IfFound found (λ f. f.height ≤ 500)) }
{
    read(alloc, types, MAX_HEIGHT, rank(level), tokens)
}
