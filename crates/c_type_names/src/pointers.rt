//! Pointers (C99 6.7.5.1), and type names (C99 6.7.6).
ghost use Rattle.std.specs.Prelude.{◌≡◌, OnOk, IfOk};
ghost use Rattle.tm_terms.specs.ExprTrees.{type_tree};
ghost use Rattle.tm_typed.specs.Refusals.{Gives};
ghost use Rattle.tm_typed.specs.TypeNames.{is_void, is_no_target, bare, pointer_to, pointer_word};
ghost use Rattle.tm_typed.specs.TypeNames.{with_pointer_word, pointed_in, is_star, is_void_star, cast_type};
ghost use Rattle.tm_typed.specs.TypeNames.{type_of_name};

use crate::said::{base, plain};
use crate::words::words;
use c_scope::Scope;
use tm_lattice::NoMemory;
use tm_terms::{Fail, Place, PointerWord, TypeName};
use tm_typed::{CType, CastType, Qualified, Shape};

/// Whether a type is `void`.
pub fn is_void(ctype: CType) -> bool
    ensures { result ≡ is_void ctype }
{
    match ctype {
        CType::Void => true,
        CType::Int(_) | CType::Pointer(_) | CType::Array { .. } | CType::Struct(_) => false,
    }
}

// Whether a pointer to this type is left out.
fn is_no_target(scope: &Scope, of: Qualified) -> bool
    ensures { result ≡ is_no_target scope.now of }
{
    is_void(scope.ctype(of.number)) || scope.is_volatile_pointer(of)
}

/// A declarator of which nothing is read yet.
pub fn bare(of: Qualified) -> Shape
    ensures { result ≡ bare of }
{
    Shape {
        of,
        is_open: false,
        left_out: false,
        mismatch: false,
    }
}

// A pointer to what was made so far, in a scope that has its type.
fn pointer_to(scope: &Scope, shape: Shape) -> Shape
    ensures { result ≡ pointer_to scope.now shape }
{
    Shape {
        of: plain(scope.number(CType::Pointer(shape.of))),
        is_open: false,
        left_out: shape.left_out || is_no_target(scope, shape.of),
        mismatch: shape.mismatch || shape.is_open,
    }
}

// A star, or a qualifier of the pointer before it, in a scope that has its type.
fn pointer_word(scope: &Scope, shape: Shape, word: PointerWord) -> Shape
    ensures { result ≡ pointer_word scope.now shape word }
{
    match word {
        PointerWord::Star => pointer_to(scope, shape),
        PointerWord::Const => Shape {
            of: Qualified {
                constant: true,
                ..shape.of
            },
            ..shape
        },
        PointerWord::Volatile => Shape {
            of: Qualified {
                volatile: true,
                ..shape.of
            },
            ..shape
        },
        PointerWord::Restrict => shape,
    }
}

/// A star, or a qualifier of the pointer before it. The scope has its type from now on.
pub(crate) fn add_pointer_word(
    scope: &mut Scope,
    shape: Shape,
    word: PointerWord,
) -> Result<Shape, NoMemory>
    ensures scope { OnOk result (scope.new ≡ with_pointer_word scope.old shape word) }
    ensures shape { IfOk result (λ s. s ≡ pointer_word scope.new shape word) }
{
    match word {
        PointerWord::Star => {
            let _number = scope.add_type(CType::Pointer(shape.of))?;
        }
        PointerWord::Const | PointerWord::Volatile | PointerWord::Restrict => {}
    }
    Ok(pointer_word(scope, shape, word))
}

fn pointed_in(scope: &Scope, of: Qualified, words: &[PointerWord]) -> Shape
    ensures { result ≡ pointed_in scope.now (bare of) words.now }
{
    let mut shape = bare(of);
    'words: for word in words {
        shape = pointer_word(scope, shape, *word);
    }
    shape
}

fn is_star(words: &[PointerWord]) -> bool
    ensures { result ≡ is_star words.now }
{
    match words {
        [PointerWord::Star] => true,
        _ => false,
    }
}

fn cast_type(scope: &Scope, of: Qualified, words: &[PointerWord]) -> CastType
    ensures { result ≡ cast_type scope.now of words.now }
{
    let shape = pointed_in(scope, of, words);
    CastType {
        of: shape.of,
        is_void_pointer: is_star(words)
            && is_void(scope.ctype(of.number))
            && !of.constant
            && !of.volatile,
        is_left_out: shape.left_out || scope.is_volatile_pointer(shape.of),
    }
}

/// The type that a type name names, in a scope that is prepared for it.
#[tactic(auto, using(crate::proofs::Frames::passes, crate::proofs::Frames::goes_on))]
pub fn type_of_name(scope: &Scope, name: &TypeName, place: Place) -> Result<CastType, Fail>
    ensures { Gives (λ d. d) result (type_of_name scope.now (type_tree name.now) place) }
{
    let said = words(scope, &name.specs)?;
    Ok(cast_type(scope, base(said), &name.pointers))
}
