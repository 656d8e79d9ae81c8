//! The places of `sizeof` at which compilers may differ.
ghost use Rattle.std.specs.Prelude.{◌≡◌, ◌++◌, OnOk};
ghost use Rattle.tm_terms.specs.ExprTrees.{tree_of, as_arguments, type_tree};
ghost use Rattle.tm_typed.specs.TypedTrees.{operand_tree};
ghost use Rattle.tm_typed.specs.TypeNames.{type_of_name};
ghost use Rattle.tm_typed.specs.Typing.{typing};
ghost use Rattle.tm_typed.specs.Sizes.{where_differ, type_sizes, name_sizes, sort_sizes, operand_sizes, prefix_sizes};
ghost use Rattle.tm_typed.specs.Sizes.{sizes_of, argument_sizes};

use c_expr_typing::typed_expr_at;
use c_scope::Scope;
use c_type_names::type_of_name;
use std::alloc::Global;
use tm_lattice::NoMemory;
use tm_terms::{Expr, Fail, Place, Prefix, TypeName};
use tm_typed::{Operand, Sort};

// The place, if two sizes differ.
fn push_differing(
    place: Place,
    size: u32,
    other: u32,
    sizes: &mut Vec<Place>,
) -> Result<(), NoMemory>
    ensures { OnOk result (sizes.new.items ≡ sizes.old.items ++ where_differ place size other) }
{
    if size == other {
        return Ok(());
    }
    match sizes.push(place) {
        Ok(()) => Ok(()),
        Err(_) => Err(NoMemory),
    }
}

// Of the type with this number.
fn push_type(
    scope: &Scope,
    place: Place,
    number: u32,
    sizes: &mut Vec<Place>,
) -> Result<(), NoMemory>
    ensures { OnOk result (sizes.new.items ≡ sizes.old.items ++ type_sizes scope.now place number) }
{
    push_differing(place, scope.size(number), scope.tight_size(number), sizes)
}

// Of a type name.
fn push_name(
    scope: &Scope,
    place: Place,
    name: &TypeName,
    sizes: &mut Vec<Place>,
) -> Result<(), NoMemory>
    ensures { OnOk result (sizes.new.items
        ≡ sizes.old.items ++ name_sizes scope.now place (type_of_name scope.now (type_tree name.now) place)) }
{
    match type_of_name(scope, name, place) {
        Ok(to) => push_type(scope, place, to.of.number, sizes),
        Err(Fail::Refused(_)) => Ok(()),
        Err(Fail::NoMemory) => Err(NoMemory),
    }
}

// Of a value.
fn push_sort(
    scope: &Scope,
    place: Place,
    sort: Sort,
    sizes: &mut Vec<Place>,
) -> Result<(), NoMemory>
    ensures { OnOk result (sizes.new.items ≡ sizes.old.items ++ sort_sizes scope.now place sort) }
{
    match sort {
        Sort::Structure(number) => push_differing(
            place,
            scope.structure_size(number),
            scope.tight_structure_size(number),
            sizes,
        ),
        Sort::Integer(..) | Sort::Pointer(_) | Sort::Null | Sort::Nothing => Ok(()),
    }
}

// Of an expression.
fn push_operand(
    alloc: Global,
    scope: &Scope,
    place: Place,
    expr: &Expr,
    sizes: &mut Vec<Place>,
) -> Result<(), NoMemory>
    ensures { OnOk result (sizes.new.items
        ≡ sizes.old.items ++ operand_sizes scope.now place (typing type_of_name scope.now 0 (tree_of expr.now))) }
{
    let mut site = 0;
    match typed_expr_at(alloc, expr, scope, &mut site) {
        Ok(Operand::Lvalue { of, .. }) => push_type(scope, place, of.number, sizes),
        Ok(Operand::Value(valued)) => push_sort(scope, place, valued.sort, sizes),
        Err(Fail::Refused(_)) => Ok(()),
        Err(Fail::NoMemory) => Err(NoMemory),
    }
}

// Of arguments.
#[cycle(sizes)]
#[tactic(auto, using(std::proofs::lemmas::List::append_assoc))]
fn push_argument_sizes(
    alloc: Global,
    scope: &Scope,
    exprs: &[Expr],
    sizes: &mut Vec<Place>,
) -> Result<(), NoMemory>
    ensures { OnOk result (sizes.new.items ≡ sizes.old.items ++ argument_sizes scope.now (as_arguments exprs.now)) }
{
    for expr in exprs {
        push_sizes(alloc, scope, expr, sizes)?;
    }
    Ok(())
}

/// Adds the places of each `sizeof` in an expression of which compilers may make another number, in the order of the
/// text.
#[cycle(sizes)]
#[tactic(auto, using(std::proofs::lemmas::List::append_assoc))]
pub(crate) fn push_sizes(
    alloc: Global,
    scope: &Scope,
    expr: &Expr,
    sizes: &mut Vec<Place>,
) -> Result<(), NoMemory>
    ensures { OnOk result (sizes.new.items ≡ sizes.old.items ++ sizes_of scope.now (tree_of expr.now)) }
{
    match expr {
        Expr::Name { .. } | Expr::Integer { .. } | Expr::Character { .. } | Expr::Islocked { .. } =>
            Ok(()),
        Expr::SizeofType { type_name, place } => push_name(scope, *place, type_name, sizes),
        Expr::Parentheses { inside } => push_sizes(alloc, scope, inside, sizes),
        Expr::Input { low, high, .. } => {
            push_sizes(alloc, scope, low, sizes)?;
            push_sizes(alloc, scope, high, sizes)
        }
        Expr::Call { arguments, .. } => push_argument_sizes(alloc, scope, arguments, sizes),
        Expr::Prefix {
            operator,
            operand,
            place,
        } => match operator {
            Prefix::Sizeof => push_operand(alloc, scope, *place, operand, sizes),
            _ => push_sizes(alloc, scope, operand, sizes),
        },
        Expr::Cast { operand, .. } => push_sizes(alloc, scope, operand, sizes),
        Expr::Infix { left, right, .. } => {
            push_sizes(alloc, scope, left, sizes)?;
            push_sizes(alloc, scope, right, sizes)
        }
        Expr::Conditional {
            condition,
            first,
            second,
            ..
        } => {
            push_sizes(alloc, scope, condition, sizes)?;
            push_sizes(alloc, scope, first, sizes)?;
            push_sizes(alloc, scope, second, sizes)
        }
        Expr::Subscript { array, index, .. } => {
            push_sizes(alloc, scope, array, sizes)?;
            push_sizes(alloc, scope, index, sizes)
        }
        Expr::Member { object, .. } => push_sizes(alloc, scope, object, sizes),
        Expr::Postfix { operand, .. } => push_sizes(alloc, scope, operand, sizes),
    }
}
