ghost use Rattle.std.specs.Prelude.{◌≡◌, ◌^◌, pos, ◌+ℤ◌, ◌-ℤ◌, ◌*ℤ◌, bit_and, bit_or, bit_xor};
ghost use Rattle.tm_cint.specs.IntTypes.{IsIn};
ghost use Rattle.tm_cint.specs.Operators.{fitted, quotient, remainder, is_count, shifted_left, shifted_right, bitwise};
ghost use Rattle.tm_cint.specs.Operators.{outcome, IsRightOperand};

use crate::Class;
use crate::conversions::{bits, from_bits, wrapped};
use crate::int_types::IntType;
use tm_numbers::power_of_two;

/// A binary operator on integers (C99 6.5.5 to 6.5.12).
#[derive(Clone, Copy, PartialEq, Eq, PartialOrd, Ord, Hash)]
pub enum BinOp {
    /// `+`
    Add,
    /// `-`
    Sub,
    /// `*`
    Mul,
    /// `/`
    Div,
    /// `%`
    Rem,
    /// `<<`
    Shl,
    /// `>>`
    Shr,
    /// `&`
    And,
    /// `|`
    Or,
    /// `^`
    Xor,
    /// `<`
    Lt,
    /// `<=`
    Le,
    /// `>`
    Gt,
    /// `>=`
    Ge,
    /// `==`
    Eq,
    /// `!=`
    Ne,
}

/// What `a op b` gives in the type `ty`, the common type of both operands, or for a shift the
/// promoted type of the left one: a value of `ty`, for a comparison 0 or 1, or the class of the
/// error that stops it. Condition: a and b are values of `ty`; for a shift b may be any number.
pub fn arith(op: BinOp, ty: IntType, a: i128, b: i128) -> Result<i128, Class>
    requires left { IsIn ty a }
    requires right { IsRightOperand op ty b }
    ensures { result ≡ outcome op ty a b }
{
    match op {
        BinOp::Add => sum(ty, a, b),
        BinOp::Sub => difference(ty, a, b),
        BinOp::Mul => product(ty, a, b),
        BinOp::Div => quotient(ty, a, b),
        BinOp::Rem => remainder(ty, a, b),
        BinOp::Shl => shifted_left(ty, a, b),
        BinOp::Shr => shifted_right(ty, a, b),
        BinOp::And => Ok(common_bits(ty, a, b)),
        BinOp::Or => Ok(all_bits(ty, a, b)),
        BinOp::Xor => Ok(different_bits(ty, a, b)),
        BinOp::Lt => Ok(i128::from(a < b)),
        BinOp::Le => Ok(i128::from(a <= b)),
        BinOp::Gt => Ok(i128::from(a > b)),
        BinOp::Ge => Ok(i128::from(a >= b)),
        BinOp::Eq => Ok(i128::from(a == b)),
        BinOp::Ne => Ok(i128::from(a != b)),
    }
}

/// The answer where v is the mathematical result: an unsigned type takes it modulo 2 to the power of
/// its width, a signed type that does not hold it has an error of this class.
fn fitted(class: Class, ty: IntType, v: i128) -> Result<i128, Class>
    ensures { result ≡ fitted class ty v }
{
    if ty.signed() {
        if ty.holds(v) { Ok(v) } else { Err(class) }
    } else {
        Ok(wrapped(v, ty))
    }
}

fn sum(ty: IntType, a: i128, b: i128) -> Result<i128, Class>
    requires left { IsIn ty a }
    requires right { IsIn ty b }
    ensures { result ≡ fitted Class.Overflow ty (a +ℤ b) }
{
    fitted(Class::Overflow, ty, a + b)
}

fn difference(ty: IntType, a: i128, b: i128) -> Result<i128, Class>
    requires left { IsIn ty a }
    requires right { IsIn ty b }
    ensures { result ≡ fitted Class.Overflow ty (a -ℤ b) }
{
    fitted(Class::Overflow, ty, a - b)
}

/// A product of two unsigned values may pass 2^127, so it is taken without sign.
fn product(ty: IntType, a: i128, b: i128) -> Result<i128, Class>
    requires left { IsIn ty a }
    requires right { IsIn ty b }
    ensures { result ≡ fitted Class.Overflow ty (a *ℤ b) }
{
    if ty.signed() {
        fitted(Class::Overflow, ty, a * b)
    } else {
        let product = a as u128 * b as u128;
        let modulus = power_of_two(ty.width()) as u128;
        Ok(from_bits(product % modulus, ty))
    }
}

fn quotient(ty: IntType, a: i128, b: i128) -> Result<i128, Class>
    requires left { IsIn ty a }
    requires right { IsIn ty b }
    ensures { result ≡ quotient ty a b }
{
    if b == 0 {
        Err(Class::Div)
    } else {
        fitted(Class::Overflow, ty, a / b)
    }
}

fn remainder(ty: IntType, a: i128, b: i128) -> Result<i128, Class>
    requires left { IsIn ty a }
    requires right { IsIn ty b }
    ensures { result ≡ remainder ty a b }
{
    if b == 0 {
        Err(Class::Div)
    } else if ty.holds(a / b) {
        Ok(a % b)
    } else {
        Err(Class::Overflow)
    }
}

/// Whether a value of `ty` can be shifted by b places.
fn is_count(ty: IntType, b: i128) -> bool
    ensures { result ≡ is_count ty b }
{
    0 <= b && b < i128::from(ty.width())
}

fn shifted_left(ty: IntType, a: i128, b: i128) -> Result<i128, Class>
    requires { IsIn ty a }
    ensures { result ≡ shifted_left ty a b }
{
    if is_count(ty, b) && 0 <= a {
        fitted(Class::Shift, ty, a * power_of_two(b as u32))
    } else {
        Err(Class::Shift)
    }
}

fn shifted_right(ty: IntType, a: i128, b: i128) -> Result<i128, Class>
    ensures { result ≡ shifted_right ty a b }
{
    if is_count(ty, b) {
        Ok(a >> (b as u32))
    } else {
        Err(Class::Shift)
    }
}

fn common_bits(ty: IntType, a: i128, b: i128) -> i128
    ensures { result ≡ bitwise bit_and ty a b }
{
    from_bits(bits(a, ty) & bits(b, ty), ty)
}

fn all_bits(ty: IntType, a: i128, b: i128) -> i128
    ensures { result ≡ bitwise bit_or ty a b }
{
    from_bits(bits(a, ty) | bits(b, ty), ty)
}

fn different_bits(ty: IntType, a: i128, b: i128) -> i128
    ensures { result ≡ bitwise bit_xor ty a b }
{
    from_bits(bits(a, ty) ^ bits(b, ty), ty)
}
