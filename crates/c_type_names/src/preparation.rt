//! What the type names of an expression add to a scope.
ghost use Rattle.std.specs.Prelude.{◌≡◌, length, OnOk, IfOk};
ghost use Rattle.tm_terms.specs.ExprTrees.{type_tree, tree_of, as_arguments};
ghost use Rattle.tm_typed.specs.Specifiers.{with_struct_tag, mentioned_tag, mentioned};
ghost use Rattle.tm_typed.specs.TypeNames.{all_mentioned, pointed, bare, with_type_name, prepared, all_prepared};

use crate::pointers::{add_pointer_word, bare};
use crate::said::base;
use crate::words::words;
use c_scope::Scope;
use std::alloc::Global;
use tm_lattice::NoMemory;
use tm_terms::{Expr, Fail, Name, PointerWord, Spec, SpecWord, TagKind, TypeName};
use tm_typed::{Shape, Tagged};

/// A new structure with this tag in the present block.
pub fn add_struct_tag(alloc: Global, scope: &mut Scope, tag: Name) -> Result<u32, NoMemory>
    ensures scope { OnOk result (scope.new ≡ with_struct_tag tag scope.old) }
    ensures number { IfOk result (λ k. k ≡ length scope.old.structs) }
{
    match u32::try_from(scope.structs_len()) {
        Ok(number) => {
            scope.add_tag(tag, Tagged::Structure(number))?;
            scope.add_structure(alloc)
        }
        Err(_) => Err(NoMemory),
    }
}

/// `struct S` declares the tag in the present block where none of that name is visible (C99 6.7.2.3).
pub fn mention(alloc: Global, scope: &mut Scope, word: SpecWord) -> Result<(), NoMemory>
    ensures { OnOk result (scope.new ≡ mentioned scope.old word) }
{
    match word {
        SpecWord::Tagged {
            kind: TagKind::Struct,
            tag,
            tag_place: _,
        } => match scope.tagged(tag) {
            None => {
                let _number = add_struct_tag(alloc, scope, tag)?;
                Ok(())
            }
            Some(_) => Ok(()),
        },
        SpecWord::Tagged { .. }
        | SpecWord::Storage(_)
        | SpecWord::Qualifier(_)
        | SpecWord::Basic(_)
        | SpecWord::Alias(_) => Ok(()),
    }
}

// The tags that specifiers name first.
fn mention_all(alloc: Global, scope: &mut Scope, specs: &[Spec]) -> Result<(), NoMemory>
    ensures { OnOk result (scope.new ≡ all_mentioned scope.old specs.now) }
{
    'specs: for spec in specs {
        mention(alloc, scope, spec.word)?;
    }
    Ok(())
}

/// Stars and their qualifiers behind a type. The scope has the types from now on.
pub fn add_pointers(
    scope: &mut Scope,
    shape: Shape,
    words: &[PointerWord],
) -> Result<Shape, NoMemory>
    ensures { IfOk result (λ s. pointed (shape, scope.old) words.now ≡ (s, scope.new)) }
{
    let mut made = shape;
    'words: for word in words {
        made = add_pointer_word(scope, made, *word)?;
    }
    Ok(made)
}

// The tags that a type name names first, and the types of its stars.
fn add_type_name(alloc: Global, scope: &mut Scope, name: &TypeName) -> Result<(), NoMemory>
    ensures { OnOk result (scope.new ≡ with_type_name scope.old (type_tree name.now)) }
{
    mention_all(alloc, scope, &name.specs)?;
    match words(scope, &name.specs) {
        Ok(said) => {
            let _shape = add_pointers(scope, bare(base(said)), &name.pointers)?;
            Ok(())
        }
        Err(Fail::Refused(_)) => Ok(()),
        Err(Fail::NoMemory) => Err(NoMemory),
    }
}

// The arguments of a call, one after the other.
#[cycle(preparation)]
fn prepare_all(alloc: Global, scope: &mut Scope, exprs: &[Expr]) -> Result<(), NoMemory>
    ensures { OnOk result (scope.new ≡ all_prepared scope.old (as_arguments exprs.now)) }
{
    'items: for expr in exprs {
        prepare(alloc, scope, expr)?;
    }
    Ok(())
}

/// A scope is prepared for an expression: the tags that its type names name first are declared, and the table has the
/// types that they name.
#[cycle(preparation)]
pub fn prepare(alloc: Global, scope: &mut Scope, expr: &Expr) -> Result<(), NoMemory>
    ensures { OnOk result (scope.new ≡ prepared scope.old (tree_of expr.now)) }
{
    match expr {
        Expr::Name { .. } | Expr::Integer { .. } | Expr::Character { .. } | Expr::Islocked { .. } =>
            Ok(()),
        Expr::Parentheses { inside } => prepare(alloc, scope, inside),
        Expr::Input { low, high, .. } => {
            prepare(alloc, scope, low)?;
            prepare(alloc, scope, high)
        }
        Expr::Call { arguments, .. } => prepare_all(alloc, scope, arguments),
        Expr::Prefix { operand, .. } => prepare(alloc, scope, operand),
        Expr::SizeofType { type_name, .. } => add_type_name(alloc, scope, type_name),
        Expr::Cast {
            type_name,
            operand,
            ..
        } => {
            add_type_name(alloc, scope, type_name)?;
            prepare(alloc, scope, operand)
        }
        Expr::Infix { left, right, .. } => {
            prepare(alloc, scope, left)?;
            prepare(alloc, scope, right)
        }
        Expr::Conditional {
            condition,
            first,
            second,
            ..
        } => {
            prepare(alloc, scope, condition)?;
            prepare(alloc, scope, first)?;
            prepare(alloc, scope, second)
        }
        Expr::Subscript { array, index, .. } => {
            prepare(alloc, scope, array)?;
            prepare(alloc, scope, index)
        }
        Expr::Member { object, .. } => prepare(alloc, scope, object),
        Expr::Postfix { operand, .. } => prepare(alloc, scope, operand),
    }
}
