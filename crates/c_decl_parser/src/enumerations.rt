//! The constants of enumerations (C99 6.7.2.2).
ghost use Rattle.std.specs.Prelude.{◌≡◌, ◌≤◌, [], ◌∷◌, length, map, IfOk};
ghost use Rattle.tm_trees.specs.DeclarationTrees.{optional_tree, enumerator_tree};
ghost use Rattle.c_decl_parser.specs.reading.Parts.{seen};
ghost use Rattle.c_decl_parser.specs.reading.Repetitions.{braced, in_braces};
ghost use Rattle.c_decl_parser.specs.reading.DeclarationDescent.{constant, enumerator};

use crate::expressions::expression;
use crate::reads::{Read, push};
use crate::tokens::declared_at;
use c_expr_parser::marks::{Mark, after};
use std::alloc::Global;
use tm_lattice::NoMemory;
use tm_terms::{Expr, Level, Names, Token};
use tm_trees::Enumerator;

// The value of a constant, if a `=` comes first.
#[tactic(auto, unfolding(crate::specs::reading::DeclarationDescent::constant))]
fn constant<'a>(
    alloc: Global,
    types: &Names,
    allowed: u32,
    tokens: &'a [Token],
) -> Result<Read<'a, Option<Expr>>, NoMemory>
    requires { allowed ≤ 500 }
    ensures { IfOk result (λ read. seen optional_tree read ≡ constant types.now allowed tokens.now) }
{
    match after(Mark::Equal, tokens) {
        None => Ok(Read::Found(None, tokens)),
        Some(next) => match expression(alloc, types, allowed, Level::Condition, next)? {
            Read::Stuck(at) => Ok(Read::Stuck(at)),
            Read::Found(value, rest) => Ok(Read::Found(Some(value), rest)),
        },
    }
}

#[tactic(auto, unfolding(crate::specs::reading::DeclarationDescent::enumerator))]
fn enumerator<'a>(
    alloc: Global,
    types: &Names,
    allowed: u32,
    tokens: &'a [Token],
) -> Result<Read<'a, Enumerator>, NoMemory>
    requires { allowed ≤ 500 }
    ensures { IfOk result (λ read. seen enumerator_tree read ≡ enumerator types.now allowed tokens.now) }
{
    if allowed == 0 {
        return Ok(Read::Stuck(tokens));
    }
    match declared_at(types, false, tokens) {
        None => Ok(Read::Stuck(tokens)),
        Some((name, place, next)) => match constant(alloc, types, allowed - 1, next)? {
            Read::Stuck(at) => Ok(Read::Stuck(at)),
            Read::Found(value, rest) => Ok(Read::Found(Enumerator { name, value, place }, rest)),
        },
    }
}

// Behind the first constant the further ones, each after a `,`, and the `}`, before which a `,` may stand.
fn further_enumerators<'a>(
    alloc: Global,
    types: &Names,
    allowed: u32,
    first: Enumerator,
    tokens: &'a [Token],
) -> Result<Read<'a, Vec<Enumerator>>, NoMemory>
    requires { allowed ≤ 500 }
    ensures { IfOk result (λ read. seen (λ v. map enumerator_tree v.items) read
        ≡ braced (enumerator types.now allowed) (length tokens.now) (enumerator_tree first ∷ []) tokens.now) }
{
    let mut found = Vec::new(alloc);
    push(&mut found, first)?;
    let mut rest = tokens;
    let limit = tokens.len();
    'constants: for _i in 0..limit {
        match after(Mark::CloseBrace, rest) {
            Some(end) => return Ok(Read::Found(found, end)),
            None => match after(Mark::Comma, rest) {
                None => return Ok(Read::Stuck(rest)),
                Some(parted) => match after(Mark::CloseBrace, parted) {
                    Some(last) => return Ok(Read::Found(found, last)),
                    None => match enumerator(alloc, types, allowed, parted)? {
                        Read::Stuck(at) => return Ok(Read::Stuck(at)),
                        Read::Found(constant, next) => {
                            push(&mut found, constant)?;
                            rest = next;
                        }
                    },
                },
            },
        }
    }
    Ok(Read::Stuck(rest))
}

/// At least one constant, and the `}`.
pub fn enumerators<'a>(
    alloc: Global,
    types: &Names,
    allowed: u32,
    tokens: &'a [Token],
) -> Result<Read<'a, Vec<Enumerator>>, NoMemory>
    requires { allowed ≤ 500 }
    ensures { IfOk result (λ read. seen (λ v. map enumerator_tree v.items) read
        ≡ in_braces (enumerator types.now allowed) tokens.now) }
{
    match enumerator(alloc, types, allowed, tokens)? {
        Read::Stuck(at) => Ok(Read::Stuck(at)),
        Read::Found(first, rest) => further_enumerators(alloc, types, allowed, first, rest),
    }
}
