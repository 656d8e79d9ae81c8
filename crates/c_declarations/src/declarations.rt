//! Whole declarations (C99 6.7).
ghost use Rattle.std.specs.Prelude.{◌≡◌, ◌++◌, [], map, OnOk};
ghost use Rattle.tm_trees.specs.DeclarationTrees.{specifier_trees, init_declarator_tree, declaration_tree};
ghost use Rattle.tm_typed.specs.Scopes.{tagged_here};
ghost use Rattle.tm_typed.specs.TypedStatements.{local_tree};
ghost use Rattle.tm_typed.specs.Declarations.{file_rules, local_rules, file_declared, local_declared};
ghost use Rattle.tm_typed.specs.Declarations.{tag_of, lone_tag, tag_rules, file_declaration, local_declaration};
ghost use Rattle.c_typing_state.specs.Steps.{MovesTo, StepsTo};
ghost use Rattle.c_declarations.specs.Locals.{local_trees};
ghost use Rattle.c_declarations.specs.reading.Declared.{with_value, optional_local};

use crate::declared::{Declared, declared_by};
use crate::objects::{declare_at_file, declare_extern, declare_local, declare_static};
use crate::typedefs::declare_typedef;
use c_specifiers::specified;
use c_type_names::refusal;
use c_typing_state::State;
use std::alloc::Global;
use tm_lattice::NoMemory;
use tm_terms::{Fail, Kind, SpecWord, Storage, TagKind};
use tm_trees::{Declaration, InitDeclarator, Initialiser, Specifier, Tag};
use tm_typed::{LocalObject, Said, Tagged};

// A declared name at file scope.
fn declare_in_file(
    alloc: Global,
    state: &mut State,
    storage: Option<Storage>,
    declared: Declared,
    initialiser: &Option<Initialiser>,
) -> Result<(), Fail>
    ensures { MovesTo state.new result (file_rules state.old storage (with_value declared initialiser.now)) }
{
    match storage {
        Some(Storage::Typedef) => declare_typedef(state, declared, initialiser),
        Some(Storage::Extern) => {
            declare_at_file(alloc, state, initialiser.is_none(), declared, initialiser)
        }
        Some(Storage::Static | Storage::Register | Storage::Auto) | None => {
            declare_at_file(alloc, state, false, declared, initialiser)
        }
    }
}

// Declared names at file scope, one after the other.
#[tactic(auto, using(crate::proofs::InOrder::in_file))]
fn declare_all_in_file(
    alloc: Global,
    state: &mut State,
    said: Said,
    declarators: &[InitDeclarator],
) -> Result<(), Fail>
    ensures { MovesTo state.new result (file_declared state.old said (map init_declarator_tree declarators.now)) }
{
    'declarators: for declarator in declarators {
        match declared_by(alloc, state, said, declarator) {
            Ok(declared) => match declare_in_file(
                alloc,
                state,
                said.storage,
                declared,
                &declarator.initialiser,
            ) {
                Ok(()) => {}
                Err(fail) => return Err(fail),
            },
            Err(fail) => return Err(fail),
        }
    }
    Ok(())
}

// A declared name in a block; the local object, if it is one.
#[tactic(auto, using(crate::proofs::Frames::passes, crate::proofs::Frames::goes_on))]
fn declare_in_block(
    alloc: Global,
    state: &mut State,
    storage: Option<Storage>,
    declared: Declared,
    initialiser: &Option<Initialiser>,
) -> Result<Option<LocalObject>, Fail>
    ensures { StepsTo optional_local state.new result
        (local_rules state.old storage (with_value declared initialiser.now)) }
{
    match storage {
        Some(Storage::Typedef) => match declare_typedef(state, declared, initialiser) {
            Ok(()) => Ok(None),
            Err(fail) => Err(fail),
        },
        Some(Storage::Extern) => match declare_extern(alloc, state, declared, initialiser) {
            Ok(()) => Ok(None),
            Err(fail) => Err(fail),
        },
        Some(Storage::Static) => match declare_static(alloc, state, declared, initialiser) {
            Ok(()) => Ok(None),
            Err(fail) => Err(fail),
        },
        Some(Storage::Register | Storage::Auto) | None => {
            match declare_local(alloc, state, declared, initialiser) {
                Ok(local) => Ok(Some(local)),
                Err(fail) => Err(fail),
            }
        }
    }
}

// One more object at the end, if there is one.
fn push_local(locals: &mut Vec<LocalObject>, local: Option<LocalObject>) -> Result<(), NoMemory>
    ensures { OnOk result (map local_tree locals.new.items ≡ map local_tree locals.old.items ++ optional_local local) }
{
    match local {
        Some(local) => match locals.push(local) {
            Ok(()) => Ok(()),
            Err(_) => Err(NoMemory),
        },
        None => Ok(()),
    }
}

// Declared names in a block, one after the other.
#[tactic(auto, using(crate::proofs::InOrder::in_block))]
fn declare_all_in_block(
    alloc: Global,
    state: &mut State,
    said: Said,
    declarators: &[InitDeclarator],
) -> Result<Vec<LocalObject>, Fail>
    ensures { StepsTo local_trees state.new result
        (local_declared state.old said [] (map init_declarator_tree declarators.now)) }
{
    let mut locals = Vec::new(alloc);
    'declarators: for declarator in declarators {
        match declared_by(alloc, state, said, declarator) {
            Ok(declared) => match declare_in_block(
                alloc,
                state,
                said.storage,
                declared,
                &declarator.initialiser,
            ) {
                Ok(local) => match push_local(&mut locals, local) {
                    Ok(()) => {}
                    Err(NoMemory) => return Err(Fail::NoMemory),
                },
                Err(fail) => return Err(fail),
            },
            Err(fail) => return Err(fail),
        }
    }
    Ok(locals)
}

// The tag of a structure.
fn tag_of(word: SpecWord) -> Option<Tag>
    ensures { result ≡ tag_of word }
{
    match word {
        SpecWord::Tagged {
            kind: TagKind::Struct,
            tag,
            tag_place,
        } => Some(Tag {
            name: tag,
            place: tag_place,
        }),
        SpecWord::Tagged { .. }
        | SpecWord::Storage(_)
        | SpecWord::Qualifier(_)
        | SpecWord::Basic(_)
        | SpecWord::Alias(_) => None,
    }
}

// The tag of `struct S;` alone.
fn lone_tag(specifiers: &[Specifier], declarators: &[InitDeclarator]) -> Option<Tag>
    ensures { result ≡ lone_tag (specifier_trees specifiers.now) (map init_declarator_tree declarators.now) }
{
    if specifiers.len() != 1 {
        return None;
    }
    if declarators.len() != 0 {
        return None;
    }
    match &specifiers[0] {
        Specifier::Plain(spec) => tag_of(spec.word),
        Specifier::Struct { .. } | Specifier::Enum { .. } => None,
    }
}

// It declares the tag in the present block, whatever is visible from outside (C99 6.7.2.3).
fn declare_tag(alloc: Global, state: &mut State, tag: Tag) -> Result<(), Fail>
    ensures { MovesTo state.new result (tag_rules state.old tag (tagged_here state.old.scope tag.name)) }
{
    match state.scope().tagged_here(tag.name) {
        None => {
            let _number = state.add_struct_tag(alloc, tag.name)?;
            Ok(())
        }
        Some(Tagged::Structure(_)) => Ok(()),
        Some(Tagged::Enumeration { .. }) => Err(refusal(Kind::Redeclared, tag.place)),
    }
}

/// A declaration at file scope.
#[tactic(auto, using(crate::proofs::Frames::passes, crate::proofs::Frames::goes_on))]
pub fn file_declaration(
    alloc: Global,
    state: &mut State,
    declaration: &Declaration,
) -> Result<(), Fail>
    ensures { MovesTo state.new result (file_declaration state.old (declaration_tree declaration.now)) }
{
    match lone_tag(&declaration.specifiers, &declaration.declarators) {
        Some(tag) => declare_tag(alloc, state, tag),
        None => match specified(alloc, state, &declaration.specifiers) {
            Ok(said) => declare_all_in_file(alloc, state, said, &declaration.declarators),
            Err(fail) => Err(fail),
        },
    }
}

/// A declaration in a block, or at the head of a `for`: the objects that are cleared and initialised where it is
/// reached.
#[tactic(auto, using(crate::proofs::Frames::passes, crate::proofs::Frames::goes_on))]
pub fn local_declaration(
    alloc: Global,
    state: &mut State,
    declaration: &Declaration,
) -> Result<Vec<LocalObject>, Fail>
    ensures { StepsTo local_trees state.new result (local_declaration state.old (declaration_tree declaration.now)) }
{
    match lone_tag(&declaration.specifiers, &declaration.declarators) {
        Some(tag) => match declare_tag(alloc, state, tag) {
            Ok(()) => Ok(Vec::new(alloc)),
            Err(fail) => Err(fail),
        },
        None => match specified(alloc, state, &declaration.specifiers) {
            Ok(said) => declare_all_in_block(alloc, state, said, &declaration.declarators),
            Err(fail) => Err(fail),
        },
    }
}
