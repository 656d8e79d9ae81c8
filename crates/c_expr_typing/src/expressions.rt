//! The typing of expressions: parts before the whole, and parts from left to right.
ghost use Rattle.std.specs.Prelude.{◌≡◌, suc, ◌+◌, true, OnOk};
ghost use Rattle.tm_terms.specs.ExprTrees.{tree_of, as_arguments};
ghost use Rattle.tm_typed.specs.TypedTrees.{operand_tree};
ghost use Rattle.tm_typed.specs.Refusals.{then_with, row, Gives};
ghost use Rattle.tm_typed.specs.Scopes.{named};
ghost use Rattle.tm_typed.specs.Operands.{valued};
ghost use Rattle.tm_typed.specs.Rules.{bound, callee, call_rules, cast_rules, sizeof_type_rules, subscript_rules};
ghost use Rattle.tm_typed.specs.Rules.{conditional_rules};
ghost use Rattle.tm_typed.specs.Typing.{typing, typing_all, calls, argument_calls};
ghost use Rattle.tm_typed.specs.TypeNames.{type_of_name};
ghost use Rattle.c_expr_typing.specs.Values.{rated_items};
ghost use Rattle.c_expr_typing.specs.reading.Forms.{begins_with_operand};

use c_expr_rules::{
    bound, call, callee, cast, character, conditional, infix, input, integer, islocked, member,
    name, postfix, prefix, sizeof_type, subscript, valued,
};
use c_scope::Scope;
use c_type_names::type_of_name;
use std::alloc::Global;
use tm_terms::{Expr, Fail, Kind, Name, Place, Prefix, Refusal};
use tm_typed::{CastType, Operand, Valued};

// A bound of `__input`, from its typed expression.
fn bound_of(alloc: Global, scope: &Scope, operand: Operand) -> Result<i128, Fail>
    ensures { Gives (λ z. z) result (bound (valued scope.now (operand_tree operand))) }
{
    let value = valued(alloc, scope, operand)?;
    bound(&value)
}

// A cast of a typed expression.
fn cast_to(
    alloc: Global,
    scope: &Scope,
    place: Place,
    to: CastType,
    operand: Operand,
) -> Result<Operand, Fail>
    ensures { Gives operand_tree result (cast_rules scope.now place to (valued scope.now (operand_tree operand))) }
{
    let value = valued(alloc, scope, operand)?;
    cast(alloc, scope, place, to, value)
}

// `sizeof` of the type of a type name.
fn sizeof_named(alloc: Global, scope: &Scope, place: Place, to: CastType) -> Result<Operand, Fail>
    ensures { Gives operand_tree result
        (row to.is_left_out Kind.Unsupported place (sizeof_type_rules scope.now place to.of.number)) }
{
    if to.is_left_out {
        return Err(Fail::Refused(Refusal {
            kind: Kind::Unsupported,
            place,
            limit: None,
        }));
    }
    sizeof_type(alloc, scope, place, to.of.number)
}

// `e[e]` of typed expressions.
fn subscripted(
    alloc: Global,
    scope: &Scope,
    place: Place,
    array: Operand,
    index: Operand,
) -> Result<Operand, Fail>
    ensures { Gives operand_tree result
        (subscript_rules scope.now place (operand_tree array) (valued scope.now (operand_tree index))) }
{
    let index = valued(alloc, scope, index)?;
    subscript(alloc, scope, place, array, index)
}

// `?:` of typed expressions.
fn chosen(
    alloc: Global,
    scope: &Scope,
    place: Place,
    condition: Operand,
    first: Operand,
    second: Operand,
) -> Result<Operand, Fail>
    ensures { Gives operand_tree result
        (conditional_rules scope.now place (valued scope.now (operand_tree condition))
        (valued scope.now (operand_tree first)) (valued scope.now (operand_tree second))) }
{
    let condition = valued(alloc, scope, condition)?;
    let first = valued(alloc, scope, first)?;
    let second = valued(alloc, scope, second)?;
    conditional(alloc, scope, place, condition, first, second)
}

// The arguments of a call, for their values.
#[cycle(expression)]
fn arguments(
    alloc: Global,
    scope: &Scope,
    site: &mut u32,
    exprs: &[Expr],
) -> Result<Vec<Valued>, Fail>
    ensures value { Gives rated_items result (typing_all type_of_name scope.now site.old (as_arguments exprs.now)) }
    ensures sites { OnOk result (site.new ≡ site.old + argument_calls (as_arguments exprs.now)) }
{
    let mut typed = Vec::new(alloc);
    'items: for expr in exprs {
        match typed_expr_at(alloc, expr, scope, site) {
            Ok(operand) => match valued(alloc, scope, operand) {
                Ok(value) => match typed.push(value) {
                    Ok(()) => {}
                    Err(_) => return Err(Fail::NoMemory),
                },
                Err(_) => return Err(Fail::NoMemory),
            },
            Err(fail) => return Err(fail),
        }
    }
    Ok(typed)
}

// A call. A body of 2^32 calls has no room.
#[cycle(expression)]
#[tactic(auto, using(crate::proofs::Frame::passes_named, crate::proofs::Frame::goes_on_named, crate::proofs::Frame::passes_all, crate::proofs::Frame::goes_on_all))]
fn called(
    alloc: Global,
    scope: &Scope,
    site: &mut u32,
    function: Name,
    exprs: &[Expr],
    place: Place,
) -> Result<Operand, Fail>
    ensures value { Gives operand_tree result
        (then_with (callee place (named scope.now function))
        (λ g. then_with (typing_all type_of_name scope.now (suc site.old) (as_arguments exprs.now))
        (λ vs. call_rules scope.now place site.old vs g))) }
    ensures sites { OnOk result (site.new ≡ site.old + suc (argument_calls (as_arguments exprs.now))) }
{
    match callee(place, scope.named(function)) {
        Ok(named) => {
            let here = *site;
            if here == u32::MAX {
                return Err(Fail::NoMemory);
            }
            *site = here + 1;
            match arguments(alloc, scope, site, exprs) {
                Ok(values) => call(alloc, scope, place, here, values, named),
                Err(fail) => Err(fail),
            }
        }
        Err(fail) => Err(fail),
    }
}

// An expression that goes on behind the operand with which it begins.
#[cycle(expression)]
#[tactic(auto, using(crate::proofs::Frame::passes, crate::proofs::Frame::goes_on))]
fn continued(alloc: Global, expr: &Expr, scope: &Scope, site: &mut u32) -> Result<Operand, Fail>
    requires form { begins_with_operand (tree_of expr.now) ≡ true }
    ensures value { Gives operand_tree result (typing type_of_name scope.now site.old (tree_of expr.now)) }
    ensures sites { OnOk result (site.new ≡ site.old + calls (tree_of expr.now)) }
{
    match expr {
        Expr::Infix {
            left,
            operator,
            right,
            place,
        } => match typed_expr_at(alloc, left, scope, site) {
            Ok(left) => match typed_expr_at(alloc, right, scope, site) {
                Ok(right) => infix(alloc, scope, *operator, *place, left, right),
                Err(fail) => Err(fail),
            },
            Err(fail) => Err(fail),
        },
        Expr::Conditional {
            condition,
            first,
            second,
            place,
        } => match typed_expr_at(alloc, condition, scope, site) {
            Ok(condition) => match typed_expr_at(alloc, first, scope, site) {
                Ok(first) => match typed_expr_at(alloc, second, scope, site) {
                    Ok(second) => chosen(alloc, scope, *place, condition, first, second),
                    Err(fail) => Err(fail),
                },
                Err(fail) => Err(fail),
            },
            Err(fail) => Err(fail),
        },
        Expr::Subscript {
            array,
            index,
            place,
        } => match typed_expr_at(alloc, array, scope, site) {
            Ok(array) => match typed_expr_at(alloc, index, scope, site) {
                Ok(index) => subscripted(alloc, scope, *place, array, index),
                Err(fail) => Err(fail),
            },
            Err(fail) => Err(fail),
        },
        Expr::Member {
            object,
            access,
            member: it,
            member_place,
            place,
        } => match typed_expr_at(alloc, object, scope, site) {
            Ok(object) => member(alloc, scope, *access, *place, object, *it, *member_place),
            Err(fail) => Err(fail),
        },
        Expr::Postfix {
            operand,
            operator,
            place,
        } => match typed_expr_at(alloc, operand, scope, site) {
            Ok(operand) => postfix(alloc, scope, *operator, *place, operand),
            Err(fail) => Err(fail),
        },
        _ => unreachable!(),
    }
}

/// An expression in a body whose calls so far are `site`, which goes on by the calls of the expression.
#[cycle(expression)]
#[tactic(auto, using(crate::proofs::Frame::passes, crate::proofs::Frame::goes_on))]
pub fn typed_expr_at(
    alloc: Global,
    expr: &Expr,
    scope: &Scope,
    site: &mut u32,
) -> Result<Operand, Fail>
    ensures value { Gives operand_tree result (typing type_of_name scope.now site.old (tree_of expr.now)) }
    ensures sites { OnOk result (site.new ≡ site.old + calls (tree_of expr.now)) }
{
    match expr {
        Expr::Name { name: it, place } => name(alloc, *place, scope.named(*it)),
        Expr::Integer { constant, place } => integer(alloc, *constant, *place),
        Expr::Character { value, place } => character(alloc, *value, *place),
        Expr::Parentheses { inside } => typed_expr_at(alloc, inside, scope, site),
        Expr::Input { low, high, place } => match typed_expr_at(alloc, low, scope, site) {
            Ok(low) => match bound_of(alloc, scope, low) {
                Ok(low) => match typed_expr_at(alloc, high, scope, site) {
                    Ok(high) => match bound_of(alloc, scope, high) {
                        Ok(high) => input(alloc, *place, low, high),
                        Err(fail) => Err(fail),
                    },
                    Err(fail) => Err(fail),
                },
                Err(fail) => Err(fail),
            },
            Err(fail) => Err(fail),
        },
        Expr::Islocked {
            mutex,
            mutex_place,
            place,
        } => islocked(alloc, *place, *mutex_place, scope.named(*mutex)),
        Expr::Call {
            function,
            arguments: exprs,
            place,
        } => called(alloc, scope, site, *function, exprs, *place),
        Expr::Prefix {
            operator,
            operand,
            place,
        } => {
            let before = *site;
            match typed_expr_at(alloc, operand, scope, site) {
                Ok(operand) => {
                    if let Prefix::Sizeof = *operator {
                        *site = before;
                    }
                    prefix(alloc, scope, *operator, *place, operand)
                }
                Err(fail) => Err(fail),
            }
        }
        Expr::SizeofType { type_name, place } => match type_of_name(scope, type_name, *place) {
            Ok(to) => sizeof_named(alloc, scope, *place, to),
            Err(fail) => Err(fail),
        },
        Expr::Cast {
            type_name,
            operand,
            place,
        } => match type_of_name(scope, type_name, *place) {
            Ok(to) => match typed_expr_at(alloc, operand, scope, site) {
                Ok(operand) => cast_to(alloc, scope, *place, to, operand),
                Err(fail) => Err(fail),
            },
            Err(fail) => Err(fail),
        },
        Expr::Infix { .. }
        | Expr::Conditional { .. }
        | Expr::Subscript { .. }
        | Expr::Member { .. }
        | Expr::Postfix { .. } => continued(alloc, expr, scope, site),
    }
}

/// An expression, in a scope that is prepared for its type names: its typed form, or the first construct that meets a
/// row of the rules, parts before the whole and parts from left to right.
///
/// A public call of its own, for users of the crate who have an expression by itself, whose calls are numbered from 0;
/// the typing of whole files takes `typed_expr_at`.
pub fn typed_expr(alloc: Global, expr: &Expr, scope: &Scope) -> Result<Operand, Fail>
    ensures { Gives operand_tree result (typing type_of_name scope.now 0 (tree_of expr.now)) }
{
    let mut site = 0;
    typed_expr_at(alloc, expr, scope, &mut site)
}
