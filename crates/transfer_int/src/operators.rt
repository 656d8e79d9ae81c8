//! The operators on strided sets (C99 6.5.3.3, 6.5.5 to 6.5.12).
ghost use Rattle.std.specs.Prelude.{◌↔◌, IsTrue};
ghost use Rattle.strided_dom.specs.Progression.{IsExactly};
ghost use Rattle.tm_cint.specs.declared.Class.{Class};
ghost use Rattle.tm_cint.specs.declared.operators.BinOp.{BinOp};
ghost use Rattle.transfer_int.specs.Operands.{AreValues, AreRightOperands};
ghost use Rattle.transfer_int.specs.Outcomes.{notes};
ghost use Rattle.transfer_int.specs.Values.{IsValue, MayFail, MayOverflow, MayDivideByZero, MayShiftBadly};

use crate::bits::{bits_and, bits_or, bits_xor};
use crate::classes::{has_bad_count, has_least_by_minus_one, has_zero_divisor, shifts_negative};
use crate::comparisons::comparison;
use crate::outcomes::{Classes, Outcome};
use crate::products::{products, products_leave};
use crate::quotients::{quotients, quotients_leave};
use crate::remainders::remainders;
use crate::shifts::{left_shifts, left_shifts_leave, right_shifts};
use crate::sums::{differences, differences_leave, sums, sums_leave};
use strided_dom::Strided;
use tm_cint::{BinOp, IntType};

/// What `a op b` gives in the type `ty`, the common type of both operands, or for a shift the promoted type of the left
/// one: the value, a set that holds the result for each pair of members, and the classes of errors that are not
/// excluded. An empty operand gives the empty set and no class.
pub fn binary(op: BinOp, ty: IntType, a: &Strided, b: &Strided) -> Outcome
    requires left { AreValues ty a.now }
    requires right { AreRightOperands op ty b.now }
    ensures value { IsExactly (IsValue op ty a.now b.now) result.value }
    ensures classes { (class : Class) → IsTrue (notes result.classes class) ↔ MayFail op ty a.now b.now class }
{
    Outcome {
        value: values(op, ty, a, b),
        classes: classes(op, ty, a, b),
    }
}

fn values(op: BinOp, ty: IntType, a: &Strided, b: &Strided) -> Strided
    requires left { AreValues ty a.now }
    requires right { AreRightOperands op ty b.now }
    ensures { IsExactly (IsValue op ty a.now b.now) result }
{
    match op {
        BinOp::Add => sums(ty, a, b),
        BinOp::Sub => differences(ty, a, b),
        BinOp::Mul => products(ty, a, b),
        BinOp::Div => quotients(ty, a, b),
        BinOp::Rem => remainders(ty, a, b),
        BinOp::Shl => left_shifts(ty, a, b),
        BinOp::Shr => right_shifts(ty, a, b),
        BinOp::And => bits_and(ty, a, b),
        BinOp::Or => bits_or(ty, a, b),
        BinOp::Xor => bits_xor(ty, a, b),
        BinOp::Lt | BinOp::Le | BinOp::Gt | BinOp::Ge | BinOp::Eq | BinOp::Ne => {
            comparison(op, ty, a, b)
        }
    }
}

fn classes(op: BinOp, ty: IntType, a: &Strided, b: &Strided) -> Classes
    requires left { AreValues ty a.now }
    requires right { AreRightOperands op ty b.now }
    ensures { (class : Class) → IsTrue (notes result class) ↔ MayFail op ty a.now b.now class }
{
    Classes {
        overflow: may_overflow(op, ty, a, b),
        div: may_divide_by_zero(op, a, b),
        shift: may_shift_badly(op, ty, a, b),
        index: false,
        pointer: false,
        deref: false,
        lock: false,
    }
}

fn may_overflow(op: BinOp, ty: IntType, a: &Strided, b: &Strided) -> bool
    requires left { AreValues ty a.now }
    requires right { AreRightOperands op ty b.now }
    ensures { IsTrue result ↔ MayOverflow op ty a.now b.now }
{
    match op {
        BinOp::Add => sums_leave(ty, a, b),
        BinOp::Sub => differences_leave(ty, a, b),
        BinOp::Mul => products_leave(ty, a, b),
        BinOp::Div => quotients_leave(ty, a, b),
        BinOp::Rem => has_least_by_minus_one(ty, a, b),
        _ => false,
    }
}

fn may_divide_by_zero(op: BinOp, a: &Strided, b: &Strided) -> bool
    ensures { IsTrue result ↔ MayDivideByZero op a.now b.now }
{
    match op {
        BinOp::Div | BinOp::Rem => has_zero_divisor(a, b),
        _ => false,
    }
}

fn may_shift_badly(op: BinOp, ty: IntType, a: &Strided, b: &Strided) -> bool
    requires left { AreValues ty a.now }
    ensures { IsTrue result ↔ MayShiftBadly op ty a.now b.now }
{
    match op {
        BinOp::Shl => shifts_left_badly(ty, a, b),
        BinOp::Shr => has_bad_count(ty, a, b),
        _ => false,
    }
}

fn shifts_left_badly(ty: IntType, a: &Strided, b: &Strided) -> bool
    requires left { AreValues ty a.now }
    ensures { IsTrue result ↔ MayShiftBadly BinOp.Shl ty a.now b.now }
{
    if has_bad_count(ty, a, b) {
        return true;
    }
    if shifts_negative(ty, a, b) {
        return true;
    }
    left_shifts_leave(ty, a, b)
}
