//! Address constants (C99 6.6p9) in initialisers of static storage: where they lead, and the signs at which a pointer
//! leaves its array on the way.
ghost use Rattle.std.specs.Prelude.{◌≡◌, IfOk, option_map};
ghost use Rattle.tm_terms.specs.ExprTrees.{tree_of, a_prefix, an_infix};
ghost use Rattle.tm_typed.specs.declared.scopes.ObjectNumber.TheVariants as Numbers;
ghost use Rattle.tm_laid.specs.Layouts.{laid_tree, object_of};
ghost use Rattle.text_choices.specs.AddressConstants.{designated, pointed};
ghost use Rattle.text_choices.specs.Initialisers.{named_at, static_spot};
ghost use Rattle.text_choices.specs.reading.Spots.{spot_of, array_pointed, sum_pointed, difference_pointed, IsLed};
ghost use Rattle.text_choices.specs.reading.Spots.{IsIndexed};

use crate::integers::{integer, negated};
use crate::kinds::Choice;
use crate::spots::{Spot, by_cast, first_element, member_if, moved_from};
use crate::static_names::StaticNames;
use tm_laid::{Laid, object_at};
use tm_lattice::NoMemory;
use tm_terms::{Access, Binary, Expr, Infix, Name, Place, Prefix};

// The number that the layout gives an object of static storage.
fn static_object(laid: &Laid, number: usize) -> u32
    ensures { result ≡ object_of (laid_tree laid.now) 0 (Numbers.Static number) }
{
    match laid.statics.get(number) {
        Some(found) => *found,
        None => 0,
    }
}

// An object of static storage as a whole.
fn static_spot(laid: &Laid, number: usize) -> Spot
    ensures { spot_of result ≡ static_spot (laid_tree laid.now) number }
{
    let object = static_object(laid, number);
    let of = object_at(laid, object).of;
    Spot {
        object,
        offset: 0,
        of: of.number,
        constant: of.constant,
        cast: false,
    }
}

/// The object of static storage that a name stands for at a place.
pub(crate) fn named(laid: &Laid, names: &StaticNames, name: Name, place: Place) -> Option<Spot>
    requires indexed { IsIndexed laid.now names.now }
    ensures { option_map spot_of result ≡ named_at (laid_tree laid.now) name place }
{
    match names.last(name, place) {
        Some(number) => Some(static_spot(laid, number)),
        None => None,
    }
}

// What an expression designates, if it is an object of static storage or a part of one.
#[cycle(address_constants)]
fn designated(
    laid: &Laid,
    names: &StaticNames,
    expr: &Expr,
    choices: &mut Vec<Choice>,
) -> Result<Option<Spot>, NoMemory>
    requires indexed { IsIndexed laid.now names.now }
    ensures { IfOk result (λ s. IsLed choices.old.items choices.new.items s
        (designated (laid_tree laid.now) (named_at (laid_tree laid.now)) (tree_of expr.now))) }
{
    match expr {
        Expr::Name { name, place } => Ok(named(laid, names, *name, *place)),
        Expr::Parentheses { inside } => designated(laid, names, inside, choices),
        Expr::Subscript {
            array,
            index,
            place,
        } => {
            let first = pointed(laid, names, array, choices)?;
            moved_from(laid, *place, first, integer(index), choices)
        }
        Expr::Member {
            object,
            access,
            member,
            ..
        } => match access {
            Access::Dot => {
                let whole = designated(laid, names, object, choices)?;
                member_if(laid, *member, whole)
            }
            Access::Arrow => {
                let whole = pointed(laid, names, object, choices)?;
                member_if(laid, *member, whole)
            }
        },
        Expr::Prefix {
            operator,
            operand,
            ..
        } => match operator {
            Prefix::Dereference => pointed(laid, names, operand, choices),
            _ => Ok(None),
        },
        Expr::Integer { .. }
        | Expr::Character { .. }
        | Expr::Input { .. }
        | Expr::Islocked { .. }
        | Expr::Call { .. }
        | Expr::SizeofType { .. }
        | Expr::Cast { .. }
        | Expr::Infix { .. }
        | Expr::Conditional { .. }
        | Expr::Postfix { .. } => Ok(None),
    }
}

// The pointer to the first element of what an expression designates.
#[cycle(address_constants)]
fn array_pointed(
    laid: &Laid,
    names: &StaticNames,
    expr: &Expr,
    choices: &mut Vec<Choice>,
) -> Result<Option<Spot>, NoMemory>
    requires indexed { IsIndexed laid.now names.now }
    ensures { IfOk result (λ s. IsLed choices.old.items choices.new.items s
        (array_pointed (laid_tree laid.now) (tree_of expr.now))) }
{
    let array = designated(laid, names, expr, choices)?;
    Ok(first_element(laid, array))
}

// The left operand of `+` where it is a pointer, or else the right one, moved by the other.
#[cycle(address_constants)]
fn sum_pointed(
    laid: &Laid,
    names: &StaticNames,
    left: &Expr,
    place: Place,
    right: &Expr,
    choices: &mut Vec<Choice>,
) -> Result<Option<Spot>, NoMemory>
    requires indexed { IsIndexed laid.now names.now }
    ensures { IfOk result (λ s. IsLed choices.old.items choices.new.items s
        (sum_pointed (laid_tree laid.now) (tree_of left.now) place (tree_of right.now))) }
{
    match pointed(laid, names, left, choices)? {
        Some(one) => moved_from(laid, place, Some(one), integer(right), choices),
        None => {
            let other = pointed(laid, names, right, choices)?;
            moved_from(laid, place, other, integer(left), choices)
        }
    }
}

// A pointer less a number.
#[cycle(address_constants)]
fn difference_pointed(
    laid: &Laid,
    names: &StaticNames,
    left: &Expr,
    place: Place,
    right: &Expr,
    choices: &mut Vec<Choice>,
) -> Result<Option<Spot>, NoMemory>
    requires indexed { IsIndexed laid.now names.now }
    ensures { IfOk result (λ s. IsLed choices.old.items choices.new.items s
        (difference_pointed (laid_tree laid.now) (tree_of left.now) place (tree_of right.now))) }
{
    let one = pointed(laid, names, left, choices)?;
    moved_from(laid, place, one, negated(integer(right)), choices)
}

// To what two operands with an operator between them point.
#[cycle(address_constants)]
fn infix_pointed(
    laid: &Laid,
    names: &StaticNames,
    left: &Expr,
    operator: Infix,
    place: Place,
    right: &Expr,
    choices: &mut Vec<Choice>,
) -> Result<Option<Spot>, NoMemory>
    requires indexed { IsIndexed laid.now names.now }
    ensures { IfOk result (λ s. IsLed choices.old.items choices.new.items s
        (pointed (laid_tree laid.now) (named_at (laid_tree laid.now))
        (an_infix (tree_of left.now) operator place (tree_of right.now)))) }
{
    match operator {
        Infix::Binary(Binary::Add) => sum_pointed(laid, names, left, place, right, choices),
        Infix::Binary(Binary::Subtract) => {
            difference_pointed(laid, names, left, place, right, choices)
        }
        _ => Ok(None),
    }
}

// To what an operator before an operand points.
#[cycle(address_constants)]
fn prefix_pointed(
    laid: &Laid,
    names: &StaticNames,
    operator: Prefix,
    operand: &Expr,
    place: Place,
    choices: &mut Vec<Choice>,
) -> Result<Option<Spot>, NoMemory>
    requires indexed { IsIndexed laid.now names.now }
    ensures { IfOk result (λ s. IsLed choices.old.items choices.new.items s
        (pointed (laid_tree laid.now) (named_at (laid_tree laid.now))
        (a_prefix operator (tree_of operand.now) place))) }
{
    let _place = place;
    match operator {
        Prefix::Address => designated(laid, names, operand, choices),
        Prefix::Dereference => {
            let array = pointed(laid, names, operand, choices)?;
            Ok(first_element(laid, array))
        }
        _ => Ok(None),
    }
}

/// To what an expression points, if it is an address constant.
#[cycle(address_constants)]
pub(crate) fn pointed(
    laid: &Laid,
    names: &StaticNames,
    expr: &Expr,
    choices: &mut Vec<Choice>,
) -> Result<Option<Spot>, NoMemory>
    requires indexed { IsIndexed laid.now names.now }
    ensures { IfOk result (λ s. IsLed choices.old.items choices.new.items s
        (pointed (laid_tree laid.now) (named_at (laid_tree laid.now)) (tree_of expr.now))) }
{
    match expr {
        Expr::Parentheses { inside } => pointed(laid, names, inside, choices),
        Expr::Cast { operand, .. } => {
            let found = pointed(laid, names, operand, choices)?;
            Ok(by_cast(found))
        }
        Expr::Prefix {
            operator,
            operand,
            place,
        } => prefix_pointed(laid, names, *operator, operand, *place, choices),
        Expr::Infix {
            left,
            operator,
            right,
            place,
        } => infix_pointed(laid, names, left, *operator, *place, right, choices),
        Expr::Name { .. } | Expr::Subscript { .. } | Expr::Member { .. } => {
            array_pointed(laid, names, expr, choices)
        }
        Expr::Integer { .. }
        | Expr::Character { .. }
        | Expr::Input { .. }
        | Expr::Islocked { .. }
        | Expr::Call { .. }
        | Expr::SizeofType { .. }
        | Expr::Conditional { .. }
        | Expr::Postfix { .. } => Ok(None),
    }
}
