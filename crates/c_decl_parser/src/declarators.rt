//! Declarators (C99 6.7.5).
ghost use Rattle.std.specs.Prelude.{◌≡◌, ◌≤◌, map, true, Some, IfOk};
ghost use Rattle.c_expr_parser.specs.reading.Parts.{then_read};
ghost use Rattle.tm_trees.specs.DeclarationTrees.{length_tree, DeclaratorTree, declarator_tree, a_declared_name};
ghost use Rattle.tm_trees.specs.DeclarationTrees.{a_nested};
ghost use Rattle.c_decl_parser.specs.reading.Parts.{seen};
ghost use Rattle.c_decl_parser.specs.reading.DeclarationDescent.{lengths, declarator_after, declarator};

use crate::expressions::until;
use crate::lists::PartReader;
use crate::reads::{Read, push};
use crate::tokens::{declared_at, place_after};
use c_expr_parser::marks::{Mark, after};
use c_expr_parser::type_names::read_pointers;
use std::alloc::Global;
use tm_lattice::NoMemory;
use tm_terms::{Level, Name, Names, Place, PointerWord, Token};
use tm_trees::{Declarator, Length};

/// All lengths of arrays that come first.
pub fn lengths<'a>(
    alloc: Global,
    types: &Names,
    allowed: u32,
    tokens: &'a [Token],
) -> Result<Read<'a, Vec<Length>>, NoMemory>
    requires { allowed ≤ 500 }
    ensures { IfOk result (λ read. seen (λ v. map length_tree v.items) read ≡ lengths types.now allowed tokens.now) }
{
    let mut found = Vec::new(alloc);
    let mut rest = tokens;
    let limit = tokens.len();
    'lengths: for _i in 0..limit {
        match place_after(Mark::OpenBracket, rest) {
            None => return Ok(Read::Found(found, rest)),
            Some((place, inside)) => {
                match until(
                    alloc,
                    types,
                    allowed,
                    Level::Condition,
                    Mark::CloseBracket,
                    inside,
                )? {
                    Read::Stuck(at) => return Ok(Read::Stuck(at)),
                    Read::Found(value, next) => {
                        push(&mut found, Length { value, place })?;
                        rest = next;
                    }
                }
            }
        }
    }
    Ok(Read::Found(found, rest))
}

// The declarator of a name, whose lengths follow.
fn named<'a>(
    alloc: Global,
    types: &Names,
    allowed: u32,
    pointers: Vec<PointerWord>,
    name: Name,
    place: Place,
    tokens: &'a [Token],
) -> Result<Read<'a, Declarator>, NoMemory>
    requires { allowed ≤ 500 }
    ensures { IfOk result (λ read. seen declarator_tree read
        ≡ then_read (lengths types.now allowed tokens.now)
        (λ sizes rest. Some (a_declared_name pointers.items name place sizes, rest))) }
{
    match lengths(alloc, types, allowed, tokens)? {
        Read::Stuck(at) => Ok(Read::Stuck(at)),
        Read::Found(lengths, rest) => Ok(Read::Found(
            Declarator::Name {
                pointers,
                name,
                lengths,
                place,
            },
            rest,
        )),
    }
}

// The declarator around one in parentheses, whose lengths follow.
fn nested<'a>(
    alloc: Global,
    types: &Names,
    allowed: u32,
    pointers: Vec<PointerWord>,
    inside: Declarator,
    tokens: &'a [Token],
) -> Result<Read<'a, Declarator>, NoMemory>
    requires { allowed ≤ 500 }
    ensures { IfOk result (λ read. seen declarator_tree read
        ≡ then_read (lengths types.now allowed tokens.now)
        (λ sizes rest. Some (a_nested pointers.items (declarator_tree inside) sizes, rest))) }
{
    let inside = Box::new(alloc, inside)?;
    match lengths(alloc, types, allowed, tokens)? {
        Read::Stuck(at) => Ok(Read::Stuck(at)),
        Read::Found(lengths, rest) => Ok(Read::Found(
            Declarator::Nested {
                pointers,
                inside,
                lengths,
            },
            rest,
        )),
    }
}

/// The declarator whose pointer part was read.
#[cycle(declarator)]
#[tactic(auto, unfolding(crate::specs::reading::DeclarationDescent::declarator_after))]
pub fn declarator_after<'a>(
    alloc: Global,
    types: &Names,
    member: bool,
    allowed: u32,
    pointers: Vec<PointerWord>,
    tokens: &'a [Token],
) -> Result<Read<'a, Declarator>, NoMemory>
    requires { allowed ≤ 500 }
    ensures { IfOk result (λ read. seen declarator_tree read
        ≡ declarator_after member types.now allowed pointers.items tokens.now) }
{
    if allowed == 0 {
        return Ok(Read::Stuck(tokens));
    }
    match after(Mark::OpenParenthesis, tokens) {
        None => match declared_at(types, member, tokens) {
            None => Ok(Read::Stuck(tokens)),
            Some((name, place, rest)) => {
                named(alloc, types, allowed - 1, pointers, name, place, rest)
            }
        },
        Some(opened) => match declarator(alloc, types, member, allowed - 1, opened)? {
            Read::Stuck(at) => Ok(Read::Stuck(at)),
            Read::Found(inside, next) => match after(Mark::CloseParenthesis, next) {
                None => Ok(Read::Stuck(next)),
                Some(rest) => nested(alloc, types, allowed - 1, pointers, inside, rest),
            },
        },
    }
}

/// A declarator.
#[cycle(declarator)]
pub fn declarator<'a>(
    alloc: Global,
    types: &Names,
    member: bool,
    allowed: u32,
    tokens: &'a [Token],
) -> Result<Read<'a, Declarator>, NoMemory>
    requires { allowed ≤ 500 }
    ensures { IfOk result (λ read. seen declarator_tree read ≡ declarator member types.now allowed tokens.now) }
{
    let (pointers, rest) = read_pointers(alloc, tokens)?;
    declarator_after(alloc, types, member, allowed, pointers, rest)
}

/// Reads declarators of members.
pub struct MemberDeclarators;

impl PartReader for MemberDeclarators {
    type Part = Declarator;

    ghost Tree = { DeclaratorTree };

    ghost tree = { declarator_tree };

    ghost reads = { declarator true };

    fn read<'a>(
        alloc: Global,
        types: &Names,
        allowed: u32,
        tokens: &'a [Token],
    ) -> Result<Read<'a, Declarator>, NoMemory> {
        declarator(alloc, types, true, allowed, tokens)
    }
}
