ghost use Rattle.std.specs.Prelude.{◌≡◌, ◌<◌, ◌≤◌, ◌+◌, ◌^◌, suc, max, [], ◌∷◌, ◌++◌, IfOk, OnOk};
ghost use Rattle.tm_terms.specs.ExprTrees.{type_tree, tree_of, as_arguments, arguments_height, height as height_of};
ghost use Rattle.tm_terms.specs.ExprTrees.{a_name, an_integer, a_character, in_parentheses, an_input, an_islocked};
ghost use Rattle.tm_terms.specs.ExprTrees.{a_call, a_prefix, a_sizeof_type, a_cast, an_infix, a_conditional};
ghost use Rattle.tm_terms.specs.ExprTrees.{a_subscript, a_member, a_postfix};
ghost use Rattle.c_expr_parser.specs.reading.Founds.{pair_of, seen_arguments, IfFound};
ghost use Rattle.c_expr_parser.specs.reading.Parts.{seen_rest};
ghost use Rattle.c_expr_parser.specs.reading.Descent.{more_by};

use crate::found::{Found, FoundArguments, Tried};
use std::alloc::Global;
use tm_lattice::NoMemory;
use tm_terms::{Access, Expr, Infix, IntConstant, Name, Place, Postfix, Prefix, Token, TypeName};

// An expression with what follows it, how far a longer one was tried, and its height.
fn node<'a>(
    alloc: Global,
    expr: Expr,
    rest: &'a [Token],
    stuck: &'a [Token],
    height: u32,
) -> Result<Found<'a>, NoMemory>
    requires { height ≡ height_of (tree_of expr) }
    ensures pair { IfOk result (λ f. pair_of f ≡ (tree_of expr, rest.now)) }
    ensures height { IfOk result (λ f. f.height ≡ height) }
{
    let expr = Box::new(alloc, expr)?;
    Ok(Found {
        expr,
        rest,
        stuck,
        height,
    })
}

// The same expression, where a longer one was tried as far as these tokens.
pub(crate) fn stuck_at<'a>(found: Found<'a>, stuck: &'a [Token]) -> Found<'a>
    ensures pair { pair_of result ≡ pair_of found.entry }
    ensures height { result.height ≡ found.entry.height }
{
    Found {
        expr: found.expr,
        rest: found.rest,
        stuck,
        height: found.height,
    }
}

pub(crate) fn push_expr(items: &mut Vec<Expr>, expr: Box<Expr>) -> Result<(), NoMemory>
    ensures { OnOk result (items.new.items ≡ items.old.items ++ expr.value ∷ []) }
{
    match items.push(Box::into_inner(expr)) {
        Ok(()) => Ok(()),
        Err(_) => Err(NoMemory),
    }
}

pub(crate) fn name<'a>(
    alloc: Global,
    name: Name,
    place: Place,
    rest: &'a [Token],
    stuck: &'a [Token],
) -> Result<Found<'a>, NoMemory>
    ensures pair { IfOk result (λ f. pair_of f ≡ (a_name name place, rest.now)) }
    ensures height { IfOk result (λ f. f.height ≡ 1) }
{
    node(alloc, Expr::Name { name, place }, rest, stuck, 1)
}

pub(crate) fn integer<'a>(
    alloc: Global,
    constant: IntConstant,
    place: Place,
    rest: &'a [Token],
) -> Result<Found<'a>, NoMemory>
    ensures pair { IfOk result (λ f. pair_of f ≡ (an_integer constant place, rest.now)) }
    ensures height { IfOk result (λ f. f.height ≡ 1) }
{
    node(alloc, Expr::Integer { constant, place }, rest, rest, 1)
}

pub(crate) fn character<'a>(
    alloc: Global,
    value: i8,
    place: Place,
    rest: &'a [Token],
) -> Result<Found<'a>, NoMemory>
    ensures pair { IfOk result (λ f. pair_of f ≡ (a_character value place, rest.now)) }
    ensures height { IfOk result (λ f. f.height ≡ 1) }
{
    node(alloc, Expr::Character { value, place }, rest, rest, 1)
}

pub(crate) fn islocked<'a>(
    alloc: Global,
    mutex: Name,
    mutex_place: Place,
    place: Place,
    rest: &'a [Token],
) -> Result<Found<'a>, NoMemory>
    ensures pair { IfOk result (λ f. pair_of f ≡ (an_islocked mutex mutex_place place, rest.now)) }
    ensures height { IfOk result (λ f. f.height ≡ 1) }
{
    node(
        alloc,
        Expr::Islocked {
            mutex,
            mutex_place,
            place,
        },
        rest,
        rest,
        1,
    )
}

pub(crate) fn sizeof_type<'a>(
    alloc: Global,
    type_name: TypeName,
    place: Place,
    rest: &'a [Token],
) -> Result<Found<'a>, NoMemory>
    ensures pair { IfOk result (λ f. pair_of f ≡ (a_sizeof_type (type_tree type_name) place, rest.now)) }
    ensures height { IfOk result (λ f. f.height ≡ 2) }
{
    node(alloc, Expr::SizeofType { type_name, place }, rest, rest, 2)
}

pub(crate) fn parentheses<'a>(
    alloc: Global,
    inside: Found<'a>,
    rest: &'a [Token],
) -> Result<Found<'a>, NoMemory>
    requires { inside.height < 2 ^ 31 }
    ensures pair { IfOk result (λ f. pair_of f ≡ (in_parentheses (tree_of inside.entry.expr.value), rest.now)) }
    ensures height { IfOk result (λ f. f.height ≡ suc inside.entry.height) }
{
    let height = inside.height + 1;
    let inside = inside.expr;
    node(alloc, Expr::Parentheses { inside }, rest, rest, height)
}

pub(crate) fn prefixed<'a>(
    alloc: Global,
    operator: Prefix,
    place: Place,
    operand: Found<'a>,
) -> Result<Found<'a>, NoMemory>
    requires { operand.height < 2 ^ 31 }
    ensures pair { IfOk result (λ f. pair_of f
        ≡ (a_prefix operator (tree_of operand.entry.expr.value) place, operand.entry.rest.now)) }
    ensures height { IfOk result (λ f. f.height ≡ suc operand.entry.height) }
{
    let height = operand.height + 1;
    let rest = operand.rest;
    let stuck = operand.stuck;
    let operand = operand.expr;
    node(
        alloc,
        Expr::Prefix {
            operator,
            operand,
            place,
        },
        rest,
        stuck,
        height,
    )
}

pub(crate) fn cast<'a>(
    alloc: Global,
    type_name: TypeName,
    place: Place,
    operand: Found<'a>,
) -> Result<Found<'a>, NoMemory>
    requires { operand.height < 2 ^ 31 }
    ensures pair { IfOk result (λ f. pair_of f
        ≡ (a_cast (type_tree type_name) (tree_of operand.entry.expr.value) place, operand.entry.rest.now)) }
    ensures height { IfOk result (λ f. f.height ≡ suc operand.entry.height) }
{
    let height = operand.height + 1;
    let rest = operand.rest;
    let stuck = operand.stuck;
    let operand = operand.expr;
    node(
        alloc,
        Expr::Cast {
            type_name,
            operand,
            place,
        },
        rest,
        stuck,
        height,
    )
}

pub(crate) fn input<'a>(
    alloc: Global,
    low: Found<'a>,
    high: Found<'a>,
    place: Place,
    rest: &'a [Token],
) -> Result<Found<'a>, NoMemory>
    requires low_height { low.height < 2 ^ 31 }
    requires high_height { high.height < 2 ^ 31 }
    ensures pair { IfOk result (λ f. pair_of f
        ≡ (an_input (tree_of low.entry.expr.value) (tree_of high.entry.expr.value) place, rest.now)) }
    ensures height { IfOk result (λ f. f.height ≡ suc (max low.entry.height high.entry.height)) }
{
    let height = low.height.max(high.height) + 1;
    let low = low.expr;
    let high = high.expr;
    node(alloc, Expr::Input { low, high, place }, rest, rest, height)
}

pub(crate) fn infix<'a>(
    alloc: Global,
    left: Found<'a>,
    operator: Infix,
    place: Place,
    right: Found<'a>,
) -> Result<Found<'a>, NoMemory>
    requires left_height { left.height < 2 ^ 31 }
    requires right_height { right.height < 2 ^ 31 }
    ensures pair { IfOk result (λ f. pair_of f
        ≡ (
          an_infix (tree_of left.entry.expr.value) operator place
              (tree_of right.entry.expr.value),
          right.entry.rest.now,
        )) }
    ensures height { IfOk result (λ f. f.height ≡ suc (max left.entry.height right.entry.height)) }
{
    let height = left.height.max(right.height) + 1;
    let rest = right.rest;
    let stuck = right.stuck;
    let left = left.expr;
    let right = right.expr;
    node(
        alloc,
        Expr::Infix {
            left,
            operator,
            right,
            place,
        },
        rest,
        stuck,
        height,
    )
}

pub(crate) fn conditional<'a>(
    alloc: Global,
    condition: Found<'a>,
    place: Place,
    first: Found<'a>,
    second: Found<'a>,
) -> Result<Found<'a>, NoMemory>
    requires condition_height { condition.height < 2 ^ 31 }
    requires first_height { first.height < 2 ^ 31 }
    requires second_height { second.height < 2 ^ 31 }
    ensures pair { IfOk result (λ f. pair_of f
        ≡ (
          a_conditional (tree_of condition.entry.expr.value) place (tree_of first.entry.expr.value)
              (tree_of second.entry.expr.value),
          second.entry.rest.now,
        )) }
    ensures height { IfOk result (λ f. f.height
        ≡ suc (max condition.entry.height (max first.entry.height second.entry.height))) }
{
    let height = condition.height.max(first.height.max(second.height)) + 1;
    let rest = second.rest;
    let stuck = second.stuck;
    let condition = condition.expr;
    let first = first.expr;
    let second = second.expr;
    node(
        alloc,
        Expr::Conditional {
            condition,
            first,
            second,
            place,
        },
        rest,
        stuck,
        height,
    )
}

pub(crate) fn subscript<'a>(
    alloc: Global,
    array: Found<'a>,
    place: Place,
    index: Found<'a>,
    rest: &'a [Token],
) -> Result<Found<'a>, NoMemory>
    requires array_height { array.height < 2 ^ 31 }
    requires index_height { index.height < 2 ^ 31 }
    ensures pair { IfOk result (λ f. pair_of f
        ≡ (a_subscript (tree_of array.entry.expr.value) place (tree_of index.entry.expr.value), rest.now)) }
    ensures height { IfOk result (λ f. f.height ≡ suc (max array.entry.height index.entry.height)) }
{
    let height = array.height.max(index.height) + 1;
    let array = array.expr;
    let index = index.expr;
    node(
        alloc,
        Expr::Subscript {
            array,
            index,
            place,
        },
        rest,
        rest,
        height,
    )
}

pub(crate) fn member<'a>(
    alloc: Global,
    object: Found<'a>,
    access: Access,
    place: Place,
    member: Name,
    member_place: Place,
    rest: &'a [Token],
) -> Result<Found<'a>, NoMemory>
    requires { object.height < 2 ^ 31 }
    ensures pair { IfOk result (λ f. pair_of f
        ≡ (a_member (tree_of object.entry.expr.value) access place member member_place, rest.now)) }
    ensures height { IfOk result (λ f. f.height ≡ suc object.entry.height) }
{
    let height = object.height + 1;
    let object = object.expr;
    node(
        alloc,
        Expr::Member {
            object,
            access,
            member,
            member_place,
            place,
        },
        rest,
        rest,
        height,
    )
}

pub(crate) fn postfix<'a>(
    alloc: Global,
    operand: Found<'a>,
    operator: Postfix,
    place: Place,
    rest: &'a [Token],
) -> Result<Found<'a>, NoMemory>
    requires { operand.height < 2 ^ 31 }
    ensures pair { IfOk result (λ f. pair_of f
        ≡ (a_postfix (tree_of operand.entry.expr.value) operator place, rest.now)) }
    ensures height { IfOk result (λ f. f.height ≡ suc operand.entry.height) }
{
    let height = operand.height + 1;
    let operand = operand.expr;
    node(
        alloc,
        Expr::Postfix {
            operand,
            operator,
            place,
        },
        rest,
        rest,
        height,
    )
}

pub(crate) fn call<'a>(
    alloc: Global,
    function: Name,
    place: Place,
    arguments: FoundArguments<'a>,
) -> Result<Found<'a>, NoMemory>
    requires { arguments.height < 2 ^ 31 }
    ensures pair { IfOk result (λ f. pair_of f
        ≡ (a_call function (as_arguments arguments.entry.items.items) place, arguments.entry.rest.now)) }
    ensures height { IfOk result (λ f. f.height ≡ suc arguments.entry.height) }
{
    let height = arguments.height + 1;
    let rest = arguments.rest;
    node(
        alloc,
        Expr::Call {
            function,
            arguments: arguments.items,
            place,
        },
        rest,
        rest,
        height,
    )
}

// The arguments that were read, if a `)` came after them.
pub(crate) fn closed<'a>(
    items: Vec<Expr>,
    height: u32,
    rest: Option<&'a [Token]>,
    stuck: &'a [Token],
) -> Tried<'a, FoundArguments<'a>>
    requires { height ≡ arguments_height (as_arguments items.items) }
    ensures value { seen_arguments result
        ≡ more_by None (seen_rest rest.entry) (as_arguments items.items) (λ next. None) }
    ensures height { IfFound result (λ f. f.height ≡ height) }
{
    match rest {
        None => Tried::Stuck(stuck),
        Some(rest) => Tried::Found(FoundArguments {
            items,
            rest,
            height,
        }),
    }
}
