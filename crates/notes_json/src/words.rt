//! Words of C.
ghost use Rattle.std.specs.Prelude.{◌≡◌};
ghost use Rattle.notes_json.specs.Words.{type_text, binary_text, unary_text};

use tm_cint::{BinOp, IntType};
use tm_typed::Unary;

/// A type (C99 6.7.2).
pub fn type_text(of: IntType) -> &'static [u8]
    ensures { result.now ≡ type_text of }
{
    match of {
        IntType::Bool => b"_Bool",
        IntType::Char => b"char",
        IntType::UChar => b"unsigned char",
        IntType::Short => b"short",
        IntType::UShort => b"unsigned short",
        IntType::Int => b"int",
        IntType::UInt => b"unsigned",
        IntType::Long => b"long",
        IntType::ULong => b"unsigned long",
        IntType::LLong => b"long long",
        IntType::ULLong => b"unsigned long long",
    }
}

/// A binary operator (C99 6.5.5 to 6.5.12).
pub fn binary_text(operator: BinOp) -> &'static [u8]
    ensures { result.now ≡ binary_text operator }
{
    match operator {
        BinOp::Add => b"+",
        BinOp::Sub => b"-",
        BinOp::Mul => b"*",
        BinOp::Div => b"/",
        BinOp::Rem => b"%",
        BinOp::Shl => b"<<",
        BinOp::Shr => b">>",
        BinOp::And => b"&",
        BinOp::Or => b"|",
        BinOp::Xor => b"^",
        BinOp::Lt => b"<",
        BinOp::Le => b"<=",
        BinOp::Gt => b">",
        BinOp::Ge => b">=",
        BinOp::Eq => b"==",
        BinOp::Ne => b"!=",
    }
}

/// A unary operator (C99 6.5.3.3).
pub fn unary_text(operator: Unary) -> &'static [u8]
    ensures { result.now ≡ unary_text operator }
{
    match operator {
        Unary::Negate => b"-",
        Unary::Complement => b"~",
    }
}
