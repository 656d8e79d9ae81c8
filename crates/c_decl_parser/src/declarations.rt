//! Declarations (C99 6.7).
ghost use Rattle.std.specs.Prelude.{◌≡◌, ◌≤◌, [], ◌∷◌, true, false, length, map, Some, IfOk};
ghost use Rattle.c_expr_parser.specs.reading.Parts.{then_read, and_after, after};
ghost use Rattle.tm_trees.specs.DeclarationTrees.{declared_name, specifier_tree, as_specifiers, declarator_tree};
ghost use Rattle.tm_trees.specs.DeclarationTrees.{InitDeclaratorTree, init_declarator_tree, declaration_tree};
ghost use Rattle.tm_trees.specs.DeclarationSpelling.{is_file_list, is_typedef_list};
ghost use Rattle.c_decl_parser.specs.reading.Parts.{seen};
ghost use Rattle.c_decl_parser.specs.reading.DeclarationDescent.{pointers, initialiser, init_declarator_after};
ghost use Rattle.c_decl_parser.specs.reading.DeclarationDescent.{init_declarator, init_declarators, local_after};
ghost use Rattle.c_decl_parser.specs.reading.DeclarationDescent.{local_declaration, typedef_after, typedefs_from};
ghost use Rattle.c_decl_parser.specs.reading.DeclarationDescent.{rest_of_declaration, file_declarators};

use crate::declarators::declarator_after;
use crate::lists::{PartReader, further_parts, parts};
use crate::reads::{Read, push};
use crate::specifiers::{names_type, specifiers};
use crate::values::initialiser;
use c_expr_parser::marks::{Mark, after};
use c_expr_parser::spec_lists::{count_storages, count_typedefs, is_type_list};
use c_expr_parser::type_names::read_pointers;
use std::alloc::Global;
use tm_lattice::NoMemory;
use tm_terms::{Name, Names, PointerWord, Spec, Token};
use tm_trees::{Declaration, Declarator, InitDeclarator, Specifier};

/// Whether these may be the specifiers of a declaration at file scope.
pub fn is_file_list(specs: &[Spec]) -> bool
    ensures { result ≡ is_file_list specs.now }
{
    is_type_list(specs) && count_storages(specs) <= 1
}

/// Whether they make their declarators names of types.
pub fn is_typedef_list(specs: &[Spec]) -> bool
    ensures { result ≡ is_typedef_list specs.now }
{
    count_typedefs(specs) != 0
}

// ## Declarators with their values

// The declarator with its value, if there is one.
fn valued<'a>(
    alloc: Global,
    types: &Names,
    allowed: u32,
    declarator: Declarator,
    tokens: &'a [Token],
) -> Result<Read<'a, InitDeclarator>, NoMemory>
    requires { allowed ≤ 500 }
    ensures { IfOk result (λ read. seen init_declarator_tree read
        ≡ then_read (initialiser types.now allowed tokens.now)
        (λ i rest. Some (record { declarator = declarator_tree declarator; initialiser = i }, rest))) }
{
    match initialiser(alloc, types, allowed, tokens)? {
        Read::Stuck(at) => Ok(Read::Stuck(at)),
        Read::Found(initialiser, rest) => Ok(Read::Found(
            InitDeclarator {
                declarator,
                initialiser,
            },
            rest,
        )),
    }
}

// A declarator whose pointer part was read, and its value.
#[tactic(auto, unfolding(crate::specs::reading::DeclarationDescent::init_declarator_after))]
fn init_declarator_after<'a>(
    alloc: Global,
    types: &Names,
    allowed: u32,
    pointers: Vec<PointerWord>,
    tokens: &'a [Token],
) -> Result<Read<'a, InitDeclarator>, NoMemory>
    requires { allowed ≤ 500 }
    ensures { IfOk result (λ read. seen init_declarator_tree read
        ≡ init_declarator_after types.now allowed pointers.items tokens.now) }
{
    if allowed == 0 {
        return Ok(Read::Stuck(tokens));
    }
    match declarator_after(alloc, types, false, allowed - 1, pointers, tokens)? {
        Read::Stuck(at) => Ok(Read::Stuck(at)),
        Read::Found(declarator, next) => valued(alloc, types, allowed - 1, declarator, next),
    }
}

// Reads declarators with their values.
struct ValuedDeclarators;

impl PartReader for ValuedDeclarators {
    type Part = InitDeclarator;

    ghost Tree = { InitDeclaratorTree };

    ghost tree = { init_declarator_tree };

    ghost reads = { init_declarator };

    fn read<'a>(
        alloc: Global,
        types: &Names,
        allowed: u32,
        tokens: &'a [Token],
    ) -> Result<Read<'a, InitDeclarator>, NoMemory> {
        let (pointers, rest) = read_pointers(alloc, tokens)?;
        init_declarator_after(alloc, types, allowed, pointers, rest)
    }
}

// Any number of declarators, and the `;`.
#[tactic(auto, unfolding(crate::specs::reading::DeclarationDescent::init_declarators))]
fn init_declarators<'a>(
    alloc: Global,
    types: &Names,
    allowed: u32,
    tokens: &'a [Token],
) -> Result<Read<'a, Vec<InitDeclarator>>, NoMemory>
    requires { allowed ≤ 500 }
    ensures { IfOk result (λ read. seen (λ v. map init_declarator_tree v.items) read
        ≡ init_declarators types.now allowed tokens.now) }
{
    match after(Mark::Semicolon, tokens) {
        Some(rest) => Ok(Read::Found(Vec::new(alloc), rest)),
        None => match parts::<ValuedDeclarators>(alloc, types, allowed, tokens)? {
            Read::Stuck(at) => Ok(Read::Stuck(at)),
            Read::Found(found, next) => match after(Mark::Semicolon, next) {
                None => Ok(Read::Stuck(next)),
                Some(rest) => Ok(Read::Found(found, rest)),
            },
        },
    }
}

// ## Declarations in blocks

fn declared<'a>(
    alloc: Global,
    types: &Names,
    allowed: u32,
    specifiers: Vec<Specifier>,
    tokens: &'a [Token],
) -> Result<Read<'a, Declaration>, NoMemory>
    requires { allowed ≤ 500 }
    ensures { IfOk result (λ read. seen declaration_tree read
        ≡ then_read (init_declarators types.now allowed tokens.now)
        (λ declarators rest. Some (
          record {
            specifiers = as_specifiers (map specifier_tree specifiers.items);
            declarators = declarators;
          },
          rest,
        ))) }
{
    match init_declarators(alloc, types, allowed, tokens)? {
        Read::Stuck(at) => Ok(Read::Stuck(at)),
        Read::Found(declarators, rest) => Ok(Read::Found(
            Declaration {
                specifiers,
                declarators,
            },
            rest,
        )),
    }
}

fn local_after<'a>(
    alloc: Global,
    types: &Names,
    allowed: u32,
    specifiers: Vec<Specifier>,
    tokens: &'a [Token],
) -> Result<Read<'a, Declaration>, NoMemory>
    requires { allowed ≤ 500 }
    ensures { IfOk result (λ read. seen declaration_tree read
        ≡ local_after types.now allowed (map specifier_tree specifiers.items) tokens.now) }
{
    let named = names_type(alloc, &specifiers)?;
    if named {
        declared(alloc, types, allowed, specifiers, tokens)
    } else {
        Ok(Read::Stuck(tokens))
    }
}

/// A declaration in a block.
#[tactic(auto, unfolding(crate::specs::reading::DeclarationDescent::local_declaration))]
pub fn local_declaration<'a>(
    alloc: Global,
    types: &Names,
    allowed: u32,
    tokens: &'a [Token],
) -> Result<Read<'a, Declaration>, NoMemory>
    requires { allowed ≤ 500 }
    ensures { IfOk result (λ read. seen declaration_tree read ≡ local_declaration types.now allowed tokens.now) }
{
    match specifiers(alloc, types, allowed, tokens)? {
        Read::Stuck(at) => Ok(Read::Stuck(at)),
        Read::Found(found, rest) => local_after(alloc, types, allowed, found, rest),
    }
}

// ## Declarations at file scope

/// The name that a declarator declares.
pub fn declared_name(declarator: &Declarator) -> Name
    ensures { result ≡ declared_name (declarator_tree declarator.now) }
{
    match declarator {
        Declarator::Name { name, .. } => *name,
        Declarator::Nested { inside, .. } => declared_name(inside),
    }
}

// A declarator of a typedef whose pointer part was read, and its value. Its name is one of a typedef from
// the end of the declarator on.
#[tactic(auto, unfolding(crate::specs::reading::DeclarationDescent::typedef_after))]
fn typedef_after<'a>(
    alloc: Global,
    types: &mut Names,
    allowed: u32,
    pointers: Vec<PointerWord>,
    tokens: &'a [Token],
) -> Result<Read<'a, InitDeclarator>, NoMemory>
    requires { allowed ≤ 500 }
    ensures { IfOk result (λ read. seen (λ d. (init_declarator_tree d, types.new)) read
        ≡ typedef_after types.old allowed pointers.items tokens.now) }
{
    if allowed == 0 {
        return Ok(Read::Stuck(tokens));
    }
    match declarator_after(alloc, types, false, allowed - 1, pointers, tokens)? {
        Read::Stuck(at) => Ok(Read::Stuck(at)),
        Read::Found(declarator, next) => {
            let name = declared_name(&declarator);
            types.add(name)?;
            valued(alloc, types, allowed - 1, declarator, next)
        }
    }
}

fn typedef_declarator<'a>(
    alloc: Global,
    types: &mut Names,
    allowed: u32,
    tokens: &'a [Token],
) -> Result<Read<'a, InitDeclarator>, NoMemory>
    requires { allowed ≤ 500 }
    ensures { IfOk result (λ read. seen (λ d. (init_declarator_tree d, types.new)) read
        ≡ typedef_after types.old allowed (pointers tokens.now).0 (pointers tokens.now).1) }
{
    let (pointers, rest) = read_pointers(alloc, tokens)?;
    typedef_after(alloc, types, allowed, pointers, rest)
}

// Behind the first declarator of a typedef the further ones, each after a `,`.
fn further_typedefs<'a>(
    alloc: Global,
    types: &mut Names,
    allowed: u32,
    first: InitDeclarator,
    tokens: &'a [Token],
) -> Result<Read<'a, Vec<InitDeclarator>>, NoMemory>
    requires { allowed ≤ 500 }
    ensures { IfOk result (λ read. seen (λ v. (map init_declarator_tree v.items, types.new)) read
        ≡ typedefs_from allowed (length tokens.now) types.old (init_declarator_tree first ∷ []) tokens.now) }
{
    let mut found = Vec::new(alloc);
    push(&mut found, first)?;
    let mut rest = tokens;
    let limit = tokens.len();
    'typedefs: for _i in 0..limit {
        match after(Mark::Comma, rest) {
            None => return Ok(Read::Found(found, rest)),
            Some(parted) => match typedef_declarator(alloc, types, allowed, parted)? {
                Read::Stuck(at) => return Ok(Read::Stuck(at)),
                Read::Found(declarator, next) => {
                    push(&mut found, declarator)?;
                    rest = next;
                }
            },
        }
    }
    Ok(Read::Found(found, rest))
}

fn typedefs<'a>(
    alloc: Global,
    types: &mut Names,
    allowed: u32,
    pointers: Vec<PointerWord>,
    tokens: &'a [Token],
) -> Result<Read<'a, Vec<InitDeclarator>>, NoMemory>
    requires { allowed ≤ 500 }
    ensures { IfOk result (λ read. seen (λ v. (map init_declarator_tree v.items, types.new)) read
        ≡ rest_of_declaration types.old allowed true pointers.items tokens.now) }
{
    match typedef_after(alloc, types, allowed, pointers, tokens)? {
        Read::Stuck(at) => Ok(Read::Stuck(at)),
        Read::Found(first, rest) => further_typedefs(alloc, types, allowed, first, rest),
    }
}

fn objects<'a>(
    alloc: Global,
    types: &Names,
    allowed: u32,
    pointers: Vec<PointerWord>,
    tokens: &'a [Token],
) -> Result<Read<'a, Vec<InitDeclarator>>, NoMemory>
    requires { allowed ≤ 500 }
    ensures { IfOk result (λ read. seen (λ v. (map init_declarator_tree v.items, types.now)) read
        ≡ rest_of_declaration types.now allowed false pointers.items tokens.now) }
{
    match init_declarator_after(alloc, types, allowed, pointers, tokens)? {
        Read::Stuck(at) => Ok(Read::Stuck(at)),
        Read::Found(first, next) => match further_parts::<ValuedDeclarators>(
            alloc, types, allowed, first, next,
        )? {
            Read::Stuck(at) => Ok(Read::Stuck(at)),
            Read::Found(found, rest) => Ok(Read::Found(found, rest)),
        },
    }
}

fn rest_of_declaration<'a>(
    alloc: Global,
    types: &mut Names,
    allowed: u32,
    typedef: bool,
    pointers: Vec<PointerWord>,
    tokens: &'a [Token],
) -> Result<Read<'a, Vec<InitDeclarator>>, NoMemory>
    requires { allowed ≤ 500 }
    ensures { IfOk result (λ read. seen (λ v. (map init_declarator_tree v.items, types.new)) read
        ≡ rest_of_declaration types.old allowed typedef pointers.items tokens.now) }
{
    if typedef {
        typedefs(alloc, types, allowed, pointers, tokens)
    } else {
        objects(alloc, types, allowed, pointers, tokens)
    }
}

/// The declarators at file scope, the first of which had its pointer part read, and the `;`. A typedef's
/// names are added as they are declared.
#[tactic(auto, unfolding(crate::specs::reading::DeclarationDescent::file_declarators))]
pub fn file_declarators<'a>(
    alloc: Global,
    types: &mut Names,
    allowed: u32,
    typedef: bool,
    pointers: Vec<PointerWord>,
    tokens: &'a [Token],
) -> Result<Read<'a, Vec<InitDeclarator>>, NoMemory>
    requires { allowed ≤ 500 }
    ensures { IfOk result (λ read. seen (λ v. (map init_declarator_tree v.items, types.new)) read
        ≡ file_declarators types.old allowed typedef pointers.items tokens.now) }
{
    match rest_of_declaration(alloc, types, allowed, typedef, pointers, tokens)? {
        Read::Stuck(at) => Ok(Read::Stuck(at)),
        Read::Found(found, next) => match after(Mark::Semicolon, next) {
            None => Ok(Read::Stuck(next)),
            Some(rest) => Ok(Read::Found(found, rest)),
        },
    }
}
