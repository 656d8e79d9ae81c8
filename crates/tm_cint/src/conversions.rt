ghost use Rattle.std.specs.Prelude.{◌≡◌, ◌<◌, ◌≤◌, ◌^◌, ◌↔◌, IsTrue};
ghost use Rattle.tm_cint.specs.IntTypes.{width_of};
ghost use Rattle.tm_cint.specs.Conversions.{residue, value_of, wrapped, converted_value, rank_of, represents_all};
ghost use Rattle.tm_cint.specs.Conversions.{promoted_type, unsigned_of, greater_of, mixed_type, common_type};
ghost use Rattle.tm_cint.specs.Conversions.{usual_type};

use crate::int_types::IntType;
use tm_numbers::power_of_two;

/// The integer promotions (C99 6.3.1.1): a type of lower rank than `int` becomes `int`, which has
/// all its values.
pub fn promote(t: IntType) -> IntType
    ensures { result ≡ promoted_type t }
{
    match t {
        IntType::Bool
        | IntType::Char
        | IntType::UChar
        | IntType::Short
        | IntType::UShort
        | IntType::Int => IntType::Int,
        IntType::UInt => IntType::UInt,
        IntType::Long => IntType::Long,
        IntType::ULong => IntType::ULong,
        IntType::LLong => IntType::LLong,
        IntType::ULLong => IntType::ULLong,
    }
}

/// The usual arithmetic conversions (C99 6.3.1.8): the common type of two operands.
pub fn usual(a: IntType, b: IntType) -> IntType
    ensures { result ≡ usual_type a b }
{
    let a = promote(a);
    let b = promote(b);
    match (a.signed(), b.signed()) {
        (true, false) => mixed(a, b),
        (false, true) => mixed(b, a),
        _ => greater(a, b),
    }
}

/// Of two types that are both signed or both unsigned, the one of the greater rank.
fn greater(a: IntType, b: IntType) -> IntType
    ensures { result ≡ greater_of a b }
{
    if rank(a) < rank(b) { b } else { a }
}

/// The common type of a signed and an unsigned type.
fn mixed(signed: IntType, unsigned: IntType) -> IntType
    ensures { result ≡ mixed_type signed unsigned }
{
    if rank(signed) <= rank(unsigned) {
        unsigned
    } else if represents_all(signed, unsigned) {
        signed
    } else {
        unsigned_type(signed)
    }
}

/// Whether `by` has every value of `of`.
pub fn represents_all(by: IntType, of: IntType) -> bool
    ensures { result ≡ represents_all by of }
{
    by.lo() <= of.lo() && of.hi() <= by.hi()
}

/// The unsigned type that corresponds to t (C99 6.2.5).
fn unsigned_type(t: IntType) -> IntType
    ensures { result ≡ unsigned_of t }
{
    match t {
        IntType::Bool => IntType::Bool,
        IntType::Char | IntType::UChar => IntType::UChar,
        IntType::Short | IntType::UShort => IntType::UShort,
        IntType::Int | IntType::UInt => IntType::UInt,
        IntType::Long | IntType::ULong => IntType::ULong,
        IntType::LLong | IntType::ULLong => IntType::ULLong,
    }
}

/// The rank of t (C99 6.3.1.1), counted from 0 for `_Bool`.
fn rank(t: IntType) -> u32
    ensures { result ≡ rank_of t }
{
    match t {
        IntType::Bool => 0,
        IntType::Char | IntType::UChar => 1,
        IntType::Short | IntType::UShort => 2,
        IntType::Int | IntType::UInt => 3,
        IntType::Long | IntType::ULong => 4,
        IntType::LLong | IntType::ULLong => 5,
    }
}

/// v converted to a type (C99 6.3.1.2, 6.3.1.3): 0 or 1 for `_Bool`, else v modulo 2 to the power
/// of the width, also where a signed type does not hold v.
pub fn convert(v: i128, to: IntType) -> i128
    ensures { result ≡ converted_value v to }
{
    match to {
        IntType::Bool => { if v == 0 { 0 } else { 1 } }
        _ => wrapped(v, to),
    }
}

/// The value of `ty` that is v modulo 2 to the power of its width.
pub(crate) fn wrapped(v: i128, ty: IntType) -> i128
    ensures { result ≡ wrapped ty v }
{
    from_bits(bits(v, ty), ty)
}

/// The bits of v in the width of `ty`, read as a number without sign.
pub(crate) fn bits(v: i128, ty: IntType) -> u128
    ensures value { result ≡ residue (width_of ty) v }
    ensures in_width { result < 2 ^ width_of ty }
{
    v.rem_euclid(power_of_two(ty.width())) as u128
}

/// The value of `ty` that has these bits.
pub(crate) fn from_bits(bits: u128, ty: IntType) -> i128
    requires { bits < 2 ^ width_of ty }
    ensures { result ≡ value_of ty bits }
{
    let value = bits as i128;
    if value <= ty.hi() {
        value
    } else {
        value - power_of_two(ty.width())
    }
}
