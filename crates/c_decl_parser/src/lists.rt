//! Lists with a `,` between each two of their parts.
ghost use Rattle.std.specs.Prelude.{◌≡◌, ◌≤◌, ℕ, List, [], ◌∷◌, Option, length, map, IfOk};
ghost use Rattle.tm_terms.specs.declared.tokens.Name.{Name};
ghost use Rattle.tm_terms.specs.declared.tokens.Token.{Token};
ghost use Rattle.c_decl_parser.specs.reading.Parts.{seen};
ghost use Rattle.c_decl_parser.specs.reading.Repetitions.{separated, one_or_more};

use crate::reads::{Read, push};
use c_expr_parser::marks::{Mark, after};
use std::alloc::Global;
use tm_lattice::NoMemory;
use tm_terms::{Names, Token};

/// What reads the parts of a list with a `,` between each two. No value of it is made: a list is read by its type.
pub trait PartReader {
    /// A part.
    type Part: Drop;

    /// What a contract sees of a part.
    ghost Tree: { Type 0 };

    /// The tree of a part.
    ghost tree: { Self.Part → Tree };

    /// The part of at most a height that comes first, as the descent reads it.
    ghost reads: { List Name → ℕ → List Token → Option (Tree × List Token) };

    /// Reads the part of at most the allowed height that comes first.
    fn read<'a>(
        alloc: Global,
        types: &Names,
        allowed: u32,
        tokens: &'a [Token],
    ) -> Result<Read<'a, Self::Part>, NoMemory>
        requires { allowed ≤ 500 }
        ensures { IfOk result (λ found. seen tree found ≡ reads types.now allowed tokens.now) };
}

/// Behind the first part the further ones, each after a `,`.
pub fn further_parts<'a, P: PartReader>(
    alloc: Global,
    types: &Names,
    allowed: u32,
    first: P::Part,
    tokens: &'a [Token],
) -> Result<Read<'a, Vec<P::Part>>, NoMemory>
    requires { allowed ≤ 500 }
    ensures { IfOk result (λ read. seen (λ v. map P.tree v.items) read
        ≡ separated (P.reads types.now allowed) (length tokens.now) (P.tree first ∷ []) tokens.now) }
{
    let mut found = Vec::new(alloc);
    push(&mut found, first)?;
    let mut rest = tokens;
    let limit = tokens.len();
    'parts: for _i in 0..limit {
        match after(Mark::Comma, rest) {
            None => return Ok(Read::Found(found, rest)),
            Some(parted) => match P::read(alloc, types, allowed, parted)? {
                Read::Stuck(at) => return Ok(Read::Stuck(at)),
                Read::Found(part, next) => {
                    push(&mut found, part)?;
                    rest = next;
                }
            },
        }
    }
    Ok(Read::Found(found, rest))
}

/// At least one part.
pub fn parts<'a, P: PartReader>(
    alloc: Global,
    types: &Names,
    allowed: u32,
    tokens: &'a [Token],
) -> Result<Read<'a, Vec<P::Part>>, NoMemory>
    requires { allowed ≤ 500 }
    ensures { IfOk result (λ read. seen (λ v. map P.tree v.items) read
        ≡ one_or_more (P.reads types.now allowed) tokens.now) }
{
    match P::read(alloc, types, allowed, tokens)? {
        Read::Stuck(at) => Ok(Read::Stuck(at)),
        Read::Found(first, rest) => further_parts::<P>(alloc, types, allowed, first, rest),
    }
}
