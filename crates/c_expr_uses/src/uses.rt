//! Uses of functions and of objects of static storage.
ghost use Rattle.std.specs.Prelude.{◌≡◌, [], ◌∷◌, ◌++◌, OnOk};
ghost use Rattle.tm_terms.specs.ExprTrees.{tree_of, as_arguments};
ghost use Rattle.tm_typed.specs.Scopes.{named};
ghost use Rattle.tm_typed.specs.Uses.{named_use, called_use, uses_of, argument_uses};

use c_scope::Scope;
use tm_lattice::NoMemory;
use tm_terms::{Expr, Name, Place, Prefix};
use tm_typed::{Named, ObjectNumber, Use, Used};

// One more use at the end.
fn push(uses: &mut Vec<Use>, used: Used, place: Place) -> Result<(), NoMemory>
    ensures { OnOk result (uses.new.items ≡ uses.old.items ++ record { used = used; place = place } ∷ []) }
{
    match uses.push(Use { used, place }) {
        Ok(()) => Ok(()),
        Err(_) => Err(NoMemory),
    }
}

// The use of a name that stands as an expression.
fn push_named(scope: &Scope, name: Name, place: Place, uses: &mut Vec<Use>) -> Result<(), NoMemory>
    ensures { OnOk result (uses.new.items ≡ uses.old.items ++ named_use place (named scope.now name)) }
{
    match scope.named(name) {
        Some(
            Named::Object {
                object: ObjectNumber::Static(number),
                of: _,
            },
        ) => push(uses, Used::Static(number), place),
        _ => Ok(()),
    }
}

// The use of a function by a call.
fn push_called(scope: &Scope, name: Name, place: Place, uses: &mut Vec<Use>) -> Result<(), NoMemory>
    ensures { OnOk result (uses.new.items ≡ uses.old.items ++ called_use place (named scope.now name)) }
{
    match scope.named(name) {
        Some(Named::Function(number)) => push(uses, Used::Function(number), place),
        _ => Ok(()),
    }
}

// The uses of arguments.
#[cycle(uses)]
#[tactic(auto, using(std::proofs::lemmas::List::append_assoc))]
fn push_argument_uses(scope: &Scope, exprs: &[Expr], uses: &mut Vec<Use>) -> Result<(), NoMemory>
    ensures { OnOk result (uses.new.items ≡ uses.old.items ++ argument_uses scope.now (as_arguments exprs.now)) }
{
    for expr in exprs {
        push_uses(scope, expr, uses)?;
    }
    Ok(())
}

/// Adds what the evaluated parts of an expression use to some uses, in the order of the text.
#[cycle(uses)]
#[tactic(auto, using(std::proofs::lemmas::List::append_assoc))]
pub fn push_uses(scope: &Scope, expr: &Expr, uses: &mut Vec<Use>) -> Result<(), NoMemory>
    ensures { OnOk result (uses.new.items ≡ uses.old.items ++ uses_of scope.now (tree_of expr.now)) }
{
    match expr {
        Expr::Name { name, place } => push_named(scope, *name, *place, uses),
        Expr::Integer { .. }
        | Expr::Character { .. }
        | Expr::Islocked { .. }
        | Expr::SizeofType { .. } => Ok(()),
        Expr::Parentheses { inside } => push_uses(scope, inside, uses),
        Expr::Input { low, high, .. } => {
            push_uses(scope, low, uses)?;
            push_uses(scope, high, uses)
        }
        Expr::Call {
            function,
            arguments,
            place,
        } => {
            push_called(scope, *function, *place, uses)?;
            push_argument_uses(scope, arguments, uses)
        }
        Expr::Prefix {
            operator,
            operand,
            ..
        } => match operator {
            Prefix::Sizeof => Ok(()),
            _ => push_uses(scope, operand, uses),
        },
        Expr::Cast { operand, .. } => push_uses(scope, operand, uses),
        Expr::Infix { left, right, .. } => {
            push_uses(scope, left, uses)?;
            push_uses(scope, right, uses)
        }
        Expr::Conditional {
            condition,
            first,
            second,
            ..
        } => {
            push_uses(scope, condition, uses)?;
            push_uses(scope, first, uses)?;
            push_uses(scope, second, uses)
        }
        Expr::Subscript { array, index, .. } => {
            push_uses(scope, array, uses)?;
            push_uses(scope, index, uses)
        }
        Expr::Member { object, .. } => push_uses(scope, object, uses),
        Expr::Postfix { operand, .. } => push_uses(scope, operand, uses),
    }
}
