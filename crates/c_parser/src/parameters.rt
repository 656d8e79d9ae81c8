//! Parameters of functions (C99 6.7.5.3).
ghost use Rattle.std.specs.Prelude.{◌≡◌, ◌≤◌, map, IfOk};
ghost use Rattle.c_expr_parser.specs.reading.Parts.{then_read, seen_rest};
ghost use Rattle.tm_trees.specs.DeclarationTrees.{specifier_tree};
ghost use Rattle.tm_trees.specs.FileTrees.{ParameterTree, parameter_tree, parameters_tree};
ghost use Rattle.c_decl_parser.specs.reading.Parts.{seen};
ghost use Rattle.c_decl_parser.specs.reading.DeclarationDescent.{specifiers};
ghost use Rattle.c_parser.specs.reading.FileDescent.{only_void_at, declares, declares_by, parameter_by};
ghost use Rattle.c_parser.specs.reading.FileDescent.{parameter_after, parameter, list_by, parameters};

use c_decl_parser::declarators::declarator_after;
use c_decl_parser::lists::{PartReader, parts};
use c_decl_parser::reads::Read;
use c_decl_parser::specifiers::{names_type, specifiers};
use c_decl_parser::tokens::{Keyword, after_word};
use c_expr_parser::marks::{Mark, after};
use c_expr_parser::type_names::read_pointers;
use std::alloc::Global;
use tm_lattice::NoMemory;
use tm_terms::{Names, PointerWord, Shape, Sign, Token};
use tm_trees::{Parameter, Parameters, Specifier};

// What follows `void` alone and the `)`.
#[tactic(auto, unfolding(crate::specs::reading::FileDescent::only_void_at))]
pub(crate) fn only_void_at(tokens: &[Token]) -> Option<&[Token]>
    ensures { seen_rest result ≡ only_void_at tokens.now }
{
    match after_word(Keyword::Void, tokens) {
        None => None,
        Some(rest) => after(Mark::CloseParenthesis, rest),
    }
}

fn declares_by(shape: Shape) -> bool
    ensures { result ≡ declares_by shape }
{
    match shape {
        Shape::Name(_) => true,
        Shape::Sign(Sign::OpenParenthesis) => true,
        _ => false,
    }
}

// Whether a name or a declarator in parentheses comes first.
fn declares(tokens: &[Token]) -> bool
    ensures { result ≡ declares tokens.now }
{
    if let [first, ..] = tokens {
        return declares_by(first.shape);
    }
    false
}

// A parameter behind its specifiers and its pointer part.
fn parameter_behind<'a>(
    alloc: Global,
    types: &Names,
    allowed: u32,
    specifiers: Vec<Specifier>,
    pointers: Vec<PointerWord>,
    tokens: &'a [Token],
) -> Result<Read<'a, Parameter>, NoMemory>
    requires { allowed ≤ 500 }
    ensures { IfOk result (λ read. seen parameter_tree read
        ≡ parameter_by types.now allowed (map specifier_tree specifiers.items) pointers.items
        (declares tokens.now) tokens.now) }
{
    if !declares(tokens) {
        return Ok(Read::Found(
            Parameter::Unnamed {
                specifiers,
                pointers,
            },
            tokens,
        ));
    }
    match declarator_after(alloc, types, false, allowed, pointers, tokens)? {
        Read::Stuck(at) => Ok(Read::Stuck(at)),
        Read::Found(declarator, rest) => Ok(Read::Found(
            Parameter::Named {
                specifiers,
                declarator,
            },
            rest,
        )),
    }
}

// A parameter behind its specifiers.
fn parameter_after<'a>(
    alloc: Global,
    types: &Names,
    allowed: u32,
    specifiers: Vec<Specifier>,
    tokens: &'a [Token],
) -> Result<Read<'a, Parameter>, NoMemory>
    requires { allowed ≤ 500 }
    ensures { IfOk result (λ read. seen parameter_tree read
        ≡ parameter_after types.now allowed (map specifier_tree specifiers.items) tokens.now) }
{
    let named = names_type(alloc, &specifiers)?;
    if named {
        let (pointers, behind) = read_pointers(alloc, tokens)?;
        parameter_behind(alloc, types, allowed, specifiers, pointers, behind)
    } else {
        Ok(Read::Stuck(tokens))
    }
}

// Reads parameters.
struct ParameterReader;

impl PartReader for ParameterReader {
    type Part = Parameter;

    ghost Tree = { ParameterTree };

    ghost tree = { parameter_tree };

    ghost reads = { parameter };

    fn read<'a>(
        alloc: Global,
        types: &Names,
        allowed: u32,
        tokens: &'a [Token],
    ) -> Result<Read<'a, Parameter>, NoMemory> {
        if allowed == 0 {
            return Ok(Read::Stuck(tokens));
        }
        parameter_within(alloc, types, allowed - 1, tokens)
    }
}

// A parameter whose parts have at most the allowed height.
fn parameter_within<'a>(
    alloc: Global,
    types: &Names,
    allowed: u32,
    tokens: &'a [Token],
) -> Result<Read<'a, Parameter>, NoMemory>
    requires { allowed ≤ 500 }
    ensures { IfOk result (λ read. seen parameter_tree read
        ≡ then_read (specifiers types.now allowed tokens.now)
        (λ found rest. parameter_after types.now allowed found rest)) }
{
    match specifiers(alloc, types, allowed, tokens)? {
        Read::Stuck(at) => Ok(Read::Stuck(at)),
        Read::Found(specifiers, behind) => {
            parameter_after(alloc, types, allowed, specifiers, behind)
        }
    }
}

// At least one parameter, and the `)`.
fn parameter_list<'a>(
    alloc: Global,
    types: &Names,
    allowed: u32,
    tokens: &'a [Token],
) -> Result<Read<'a, Parameters>, NoMemory>
    requires { allowed ≤ 500 }
    ensures { IfOk result (λ read. seen parameters_tree read ≡ list_by types.now allowed None tokens.now) }
{
    match parts::<ParameterReader>(alloc, types, allowed, tokens)? {
        Read::Stuck(at) => Ok(Read::Stuck(at)),
        Read::Found(found, end) => match after(Mark::CloseParenthesis, end) {
            None => Ok(Read::Stuck(end)),
            Some(rest) => Ok(Read::Found(Parameters::List(found), rest)),
        },
    }
}

// The parameters behind the `(`, and the `)`.
#[tactic(auto, unfolding(crate::specs::reading::FileDescent::parameters))]
pub(crate) fn parameters<'a>(
    alloc: Global,
    types: &Names,
    allowed: u32,
    tokens: &'a [Token],
) -> Result<Read<'a, Parameters>, NoMemory>
    requires { allowed ≤ 500 }
    ensures { IfOk result (λ read. seen parameters_tree read ≡ parameters types.now allowed tokens.now) }
{
    match only_void_at(tokens) {
        Some(rest) => Ok(Read::Found(Parameters::Void, rest)),
        None => match after(Mark::CloseParenthesis, tokens) {
            Some(rest) => Ok(Read::Found(Parameters::List(Vec::new(alloc)), rest)),
            None => parameter_list(alloc, types, allowed, tokens),
        },
    }
}
