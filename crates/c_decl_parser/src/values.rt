//! What an object is initialised with (C99 6.7.8).
ghost use Rattle.std.specs.Prelude.{◌≡◌, ◌≤◌, [], ◌∷◌, length, map, Some, IfOk};
ghost use Rattle.c_expr_parser.specs.reading.Parts.{then_read};
ghost use Rattle.tm_trees.specs.DeclarationTrees.{an_expression, a_list, as_values, value_tree, initialiser_tree};
ghost use Rattle.c_decl_parser.specs.reading.Parts.{seen, expression};
ghost use Rattle.c_decl_parser.specs.reading.Repetitions.{braced, in_braces};
ghost use Rattle.c_decl_parser.specs.reading.DeclarationDescent.{value, initialiser};

use crate::expressions::expression;
use crate::reads::{Read, push};
use crate::tokens::place_after;
use c_expr_parser::marks::{Mark, after};
use std::alloc::Global;
use tm_lattice::NoMemory;
use tm_terms::{Level, Names, Place, Token};
use tm_trees::{Initialiser, Value};

fn list(values: Vec<Value>, place: Place) -> Value
    ensures { value_tree result ≡ a_list (as_values (map value_tree values.items)) place }
{
    Value::List { values, place }
}

// An expression that is a value.
fn expression_value<'a>(
    alloc: Global,
    types: &Names,
    allowed: u32,
    tokens: &'a [Token],
) -> Result<Read<'a, Value>, NoMemory>
    requires { allowed ≤ 500 }
    ensures { IfOk result (λ read. seen value_tree read
        ≡ then_read (expression types.now allowed 1 tokens.now) (λ t rest. Some (an_expression t, rest))) }
{
    match expression(alloc, types, allowed, Level::Assignment, tokens)? {
        Read::Stuck(at) => Ok(Read::Stuck(at)),
        Read::Found(expr, rest) => Ok(Read::Found(Value::Expression(expr), rest)),
    }
}

// An expression, or values in braces.
#[cycle(value)]
#[tactic(auto, unfolding(crate::specs::reading::DeclarationDescent::value))]
fn value<'a>(
    alloc: Global,
    types: &Names,
    allowed: u32,
    tokens: &'a [Token],
) -> Result<Read<'a, Value>, NoMemory>
    requires { allowed ≤ 500 }
    ensures { IfOk result (λ read. seen value_tree read ≡ value types.now allowed tokens.now) }
{
    if allowed == 0 {
        return Ok(Read::Stuck(tokens));
    }
    match place_after(Mark::OpenBrace, tokens) {
        None => expression_value(alloc, types, allowed, tokens),
        Some((place, inside)) => list_value(alloc, types, allowed - 1, place, inside),
    }
}

// Values after their `{`.
#[cycle(value)]
fn list_value<'a>(
    alloc: Global,
    types: &Names,
    allowed: u32,
    place: Place,
    tokens: &'a [Token],
) -> Result<Read<'a, Value>, NoMemory>
    requires { allowed ≤ 499 }
    ensures { IfOk result (λ read. seen value_tree read
        ≡ then_read (in_braces (value types.now allowed) tokens.now)
        (λ values rest. Some (a_list (as_values values) place, rest))) }
{
    match values(alloc, types, allowed, tokens)? {
        Read::Stuck(at) => Ok(Read::Stuck(at)),
        Read::Found(values, rest) => Ok(Read::Found(list(values, place), rest)),
    }
}

// At least one value, and the `}`.
#[cycle(value)]
fn values<'a>(
    alloc: Global,
    types: &Names,
    allowed: u32,
    tokens: &'a [Token],
) -> Result<Read<'a, Vec<Value>>, NoMemory>
    requires { allowed ≤ 499 }
    ensures { IfOk result (λ read. seen (λ v. map value_tree v.items) read
        ≡ in_braces (value types.now allowed) tokens.now) }
{
    match value(alloc, types, allowed, tokens)? {
        Read::Stuck(at) => Ok(Read::Stuck(at)),
        Read::Found(first, rest) => further_values(alloc, types, allowed, first, rest),
    }
}

// Behind the first value the further ones, each after a `,`, and the `}`, before which a `,` may stand.
#[cycle(value)]
fn further_values<'a>(
    alloc: Global,
    types: &Names,
    allowed: u32,
    first: Value,
    tokens: &'a [Token],
) -> Result<Read<'a, Vec<Value>>, NoMemory>
    requires { allowed ≤ 499 }
    ensures { IfOk result (λ read. seen (λ v. map value_tree v.items) read
        ≡ braced (value types.now allowed) (length tokens.now) (value_tree first ∷ []) tokens.now) }
{
    let mut found = Vec::new(alloc);
    push(&mut found, first)?;
    let mut rest = tokens;
    let limit = tokens.len();
    'values: for _i in 0..limit {
        match after(Mark::CloseBrace, rest) {
            Some(end) => return Ok(Read::Found(found, end)),
            None => match after(Mark::Comma, rest) {
                None => return Ok(Read::Stuck(rest)),
                Some(parted) => match after(Mark::CloseBrace, parted) {
                    Some(last) => return Ok(Read::Found(found, last)),
                    None => match value(alloc, types, allowed, parted)? {
                        Read::Stuck(at) => return Ok(Read::Stuck(at)),
                        Read::Found(value, next) => {
                            push(&mut found, value)?;
                            rest = next;
                        }
                    },
                },
            },
        }
    }
    Ok(Read::Stuck(rest))
}

/// A value, if a `=` comes first.
#[tactic(auto, unfolding(crate::specs::reading::DeclarationDescent::initialiser))]
pub fn initialiser<'a>(
    alloc: Global,
    types: &Names,
    allowed: u32,
    tokens: &'a [Token],
) -> Result<Read<'a, Option<Initialiser>>, NoMemory>
    requires { allowed ≤ 500 }
    ensures { IfOk result (λ read. seen initialiser_tree read ≡ initialiser types.now allowed tokens.now) }
{
    match place_after(Mark::Equal, tokens) {
        None => Ok(Read::Found(None, tokens)),
        Some((place, next)) => match value(alloc, types, allowed, next)? {
            Read::Stuck(at) => Ok(Read::Stuck(at)),
            Read::Found(value, rest) => Ok(Read::Found(Some(Initialiser { value, place }), rest)),
        },
    }
}
