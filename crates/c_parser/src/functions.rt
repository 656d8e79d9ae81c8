//! Functions (C99 6.9.1), behind their specifiers and their pointer part.
ghost use Rattle.std.specs.Prelude.{◌≡◌, ◌≤◌, map, IfOk, OnOk};
ghost use Rattle.c_expr_parser.specs.reading.Parts.{seen_name};
ghost use Rattle.tm_trees.specs.DeclarationTrees.{specifier_tree, count_as, as_specifiers};
ghost use Rattle.tm_trees.specs.DeclarationSpelling.{is_typedef_list, with_declared};
ghost use Rattle.tm_trees.specs.FileTrees.{body_tree, item_tree};
ghost use Rattle.c_decl_parser.specs.reading.Parts.{seen};
ghost use Rattle.c_parser.specs.reading.FileDescent.{function_body, function_name, function_after};

use crate::parameters::parameters;
use crate::statements::block;
use c_decl_parser::reads::Read;
use c_decl_parser::tokens::declared_at;
use c_expr_parser::marks::{Mark, after};
use std::alloc::Global;
use tm_lattice::NoMemory;
use tm_terms::{Name, Names, Place, PointerWord, Token};
use tm_trees::{Block, Function, Item, Specifier};

// A body, or a `;`.
#[tactic(auto, unfolding(crate::specs::reading::FileDescent::function_body))]
fn function_body<'a>(
    alloc: Global,
    types: &Names,
    allowed: u32,
    tokens: &'a [Token],
) -> Result<Read<'a, Option<Block>>, NoMemory>
    requires { allowed ≤ 500 }
    ensures { IfOk result (λ read. seen body_tree read ≡ function_body types.now allowed tokens.now) }
{
    match after(Mark::Semicolon, tokens) {
        Some(rest) => Ok(Read::Found(None, rest)),
        None => match block(alloc, types, allowed, tokens)? {
            Read::Stuck(at) => Ok(Read::Stuck(at)),
            Read::Found(body, rest) => Ok(Read::Found(Some(body), rest)),
        },
    }
}

// The name of a function, its place, and what follows its `(`.
#[tactic(auto, unfolding(crate::specs::reading::FileDescent::function_name))]
pub(crate) fn function_name<'a>(
    types: &Names,
    tokens: &'a [Token],
) -> Option<(Name, Place, &'a [Token])>
    ensures { seen_name result ≡ function_name types.now tokens.now }
{
    match declared_at(types, false, tokens) {
        None => None,
        Some((name, place, behind)) => match after(Mark::OpenParenthesis, behind) {
            None => None,
            Some(rest) => Some((name, place, rest)),
        },
    }
}

// Notes the name of a type where a typedef declares it.
fn declare(types: &mut Names, typedef: bool, name: Name) -> Result<(), NoMemory>
    ensures { OnOk result (types.new ≡ with_declared typedef types.old name) }
{
    if typedef { types.add(name) } else { Ok(()) }
}

// A function behind its `(`. The name of one that a typedef declares is that of a type behind its
// parameters.
#[tactic(auto, unfolding(crate::specs::reading::FileDescent::function_after))]
pub(crate) fn function_after<'a>(
    alloc: Global,
    types: &mut Names,
    allowed: u32,
    typedef: bool,
    specifiers: Vec<Specifier>,
    pointers: Vec<PointerWord>,
    name: Name,
    place: Place,
    tokens: &'a [Token],
) -> Result<Read<'a, Item>, NoMemory>
    requires low { allowed ≤ 500 }
    requires typedef { typedef ≡ is_typedef_list (count_as (as_specifiers (map specifier_tree specifiers.items))) }
    ensures { IfOk result (λ read. seen (λ i. (item_tree i, types.new)) read
        ≡ function_after types.old allowed (map specifier_tree specifiers.items) pointers.items name place tokens.now) }
{
    match parameters(alloc, types, allowed, tokens)? {
        Read::Stuck(at) => Ok(Read::Stuck(at)),
        Read::Found(parameters, behind) => {
            declare(types, typedef, name)?;
            match function_body(alloc, types, allowed, behind)? {
                Read::Stuck(at) => Ok(Read::Stuck(at)),
                Read::Found(body, rest) => Ok(Read::Found(
                    Item::Function(Function {
                        specifiers,
                        pointers,
                        name,
                        parameters,
                        body,
                        place,
                    }),
                    rest,
                )),
            }
        }
    }
}
