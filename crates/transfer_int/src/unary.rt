//! Unary `-` and `~` (C99 6.5.3.3).
ghost use Rattle.std.specs.Prelude.{◌≡◌, ◌↔◌, pos, IsTrue};
ghost use Rattle.strided_dom.specs.Progression.{single, IsExactly};
ghost use Rattle.tm_cint.specs.declared.Class.{Class};
ghost use Rattle.tm_cint.specs.declared.operators.BinOp.{BinOp};
ghost use Rattle.transfer_int.specs.Operands.{AreValues};
ghost use Rattle.transfer_int.specs.Outcomes.{notes};
ghost use Rattle.transfer_int.specs.Values.{IsValue, MayFail, ones_of};

use crate::operators::binary;
use crate::outcomes::Outcome;
use crate::sums::differences;
use strided_dom::Strided;
use tm_cint::{BinOp, IntType};

/// What `-a` gives in the promoted type `ty`: that of `0 - a`.
pub fn negate(ty: IntType, a: &Strided) -> Outcome
    requires { AreValues ty a.now }
    ensures value { IsExactly (IsValue BinOp.Sub ty (single (pos 0)) a.now) result.value }
    ensures classes { (class : Class) → IsTrue (notes result.classes class)
        ↔ MayFail BinOp.Sub ty (single (pos 0)) a.now class }
{
    binary(BinOp::Sub, ty, &Strided::one(0), a)
}

/// What `~a` gives in the promoted type `ty`: that of `-1 - a`, in an unsigned type of its greatest value less `a`.
pub fn invert(ty: IntType, a: &Strided) -> Strided
    requires { AreValues ty a.now }
    ensures { IsExactly (IsValue BinOp.Sub ty (single (ones_of ty)) a.now) result }
{
    differences(ty, &Strided::one(ones(ty)), a)
}

/// The value of which each bit is 1.
fn ones(ty: IntType) -> i128
    ensures { result ≡ ones_of ty }
{
    if ty.signed() { -1 } else { ty.hi() }
}
