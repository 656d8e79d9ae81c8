//! Operators by their signs.
ghost use Rattle.std.specs.Prelude.{◌≡◌};
ghost use Rattle.tm_typed.specs.TypedTrees.{rated, operand_tree};
ghost use Rattle.tm_typed.specs.Refusals.{Gives};
ghost use Rattle.tm_typed.specs.Typing.{binary_sign, infix_rules, prefix_rules, postfix_rules, member_rules};

use crate::assignments::assignment;
use crate::binary::binary;
use crate::choices::{comma, logical};
use crate::compounds::compound;
use crate::conversions::valued;
use crate::members::{arrow, dot};
use crate::sizes::sizeof;
use crate::steps::step;
use crate::unary::{address, complement, dereference, minus, not, plus};
use c_scope::Scope;
use std::alloc::Global;
use tm_cint::BinOp;
use tm_terms::{Access, Binary, Fail, Infix, Name, Place, Postfix, Prefix};
use tm_typed::{Operand, Step, Valued};

// An operator between two values.
fn between(
    alloc: Global,
    scope: &Scope,
    sign: Binary,
    place: Place,
    left: Valued,
    right: Valued,
) -> Result<Operand, Fail>
    ensures { Gives operand_tree result (binary_sign scope.now sign place (rated left) (rated right)) }
{
    let operator = match sign {
        Binary::And => return logical(alloc, true, place, left, right),
        Binary::Or => return logical(alloc, false, place, left, right),
        Binary::Multiply => BinOp::Mul,
        Binary::Divide => BinOp::Div,
        Binary::Remainder => BinOp::Rem,
        Binary::Add => BinOp::Add,
        Binary::Subtract => BinOp::Sub,
        Binary::ShiftLeft => BinOp::Shl,
        Binary::ShiftRight => BinOp::Shr,
        Binary::Less => BinOp::Lt,
        Binary::Greater => BinOp::Gt,
        Binary::LessEqual => BinOp::Le,
        Binary::GreaterEqual => BinOp::Ge,
        Binary::Equal => BinOp::Eq,
        Binary::NotEqual => BinOp::Ne,
        Binary::BitAnd => BinOp::And,
        Binary::BitXor => BinOp::Xor,
        Binary::BitOr => BinOp::Or,
    };
    binary(alloc, scope, operator, place, left, right)
}

/// An operator between two expressions.
pub fn infix(
    alloc: Global,
    scope: &Scope,
    operator: Infix,
    place: Place,
    left: Operand,
    right: Operand,
) -> Result<Operand, Fail>
    ensures { Gives operand_tree result
        (infix_rules scope.now operator place (operand_tree left) (operand_tree right)) }
{
    let right = valued(alloc, scope, right)?;
    match operator {
        Infix::Assign => assignment(alloc, scope, place, left, right),
        Infix::AssignBy(sign) => compound(alloc, scope, sign, place, left, right),
        Infix::Comma => {
            let left = valued(alloc, scope, left)?;
            comma(alloc, place, left, right)
        }
        Infix::Binary(sign) => {
            let left = valued(alloc, scope, left)?;
            between(alloc, scope, sign, place, left, right)
        }
    }
}

/// An operator before its operand.
pub fn prefix(
    alloc: Global,
    scope: &Scope,
    operator: Prefix,
    place: Place,
    operand: Operand,
) -> Result<Operand, Fail>
    ensures { Gives operand_tree result (prefix_rules scope.now operator place (operand_tree operand)) }
{
    match operator {
        Prefix::Increment => {
            let by = Step {
                minus: false,
                postfix: false,
            };
            step(alloc, scope, by, place, operand)
        }
        Prefix::Decrement => {
            let by = Step {
                minus: true,
                postfix: false,
            };
            step(alloc, scope, by, place, operand)
        }
        Prefix::Address => address(alloc, place, operand),
        Prefix::Sizeof => sizeof(alloc, scope, place, operand),
        Prefix::Dereference => {
            let value = valued(alloc, scope, operand)?;
            dereference(alloc, scope, place, value)
        }
        Prefix::Plus => {
            let value = valued(alloc, scope, operand)?;
            plus(alloc, place, value)
        }
        Prefix::Minus => {
            let value = valued(alloc, scope, operand)?;
            minus(alloc, place, value)
        }
        Prefix::Complement => {
            let value = valued(alloc, scope, operand)?;
            complement(alloc, place, value)
        }
        Prefix::Not => {
            let value = valued(alloc, scope, operand)?;
            not(alloc, place, value)
        }
    }
}

/// An operator behind its operand.
pub fn postfix(
    alloc: Global,
    scope: &Scope,
    operator: Postfix,
    place: Place,
    operand: Operand,
) -> Result<Operand, Fail>
    ensures { Gives operand_tree result (postfix_rules scope.now operator place (operand_tree operand)) }
{
    let minus = match operator {
        Postfix::Increment => false,
        Postfix::Decrement => true,
    };
    let by = Step {
        minus,
        postfix: true,
    };
    step(alloc, scope, by, place, operand)
}

/// A member.
pub fn member(
    alloc: Global,
    scope: &Scope,
    access: Access,
    place: Place,
    operand: Operand,
    name: Name,
    name_place: Place,
) -> Result<Operand, Fail>
    ensures { Gives operand_tree result (member_rules scope.now access place (operand_tree operand) name name_place) }
{
    match access {
        Access::Dot => dot(alloc, scope, place, operand, name, name_place),
        Access::Arrow => {
            let pointer = valued(alloc, scope, operand)?;
            arrow(alloc, scope, place, pointer, name, name_place)
        }
    }
}
