//! The plain data of the front end (places, alarms, refusals, tokens, names, limits, trees of expressions), with the
//! definitions of which bytes spell which tokens and which tokens spell which expression, and the lines that the
//! program writes. It reads no source, and it does not know what a name means or which type an expression has.
//!
//! In `a - b - c` the tree is that of the second `-`, with `a - b` as its left operand: its place is the second `-`.
//! Written as a line, the refusal `Syntax` at line 3, column 7 is `3:7 refused Syntax`.
#![tactic(auto)]

mod alarms;
mod bytes;
mod exprs;
pub mod limits;
mod places;
mod refusals;
mod texts;
mod tokens;
mod types_named;

pub use alarms::{Alarm, Report};
pub use bytes::{
    behind, byte_at, front, is_blank, is_name_byte, line_length, name_length, push_bytes, text_of,
};
pub use exprs::{Access, Binary, Expr, Infix, Level, Postfix, Prefix};
pub use places::Place;
pub use refusals::{Fail, Kind, Limit, Refusal};
pub use texts::{class_word, limit_word, place_head, plain, refusal_line, usage_line};
pub use tm_cint::{BinOp, IntType};
pub use tokens::{IntConstant, Longs, Name, Piece, Shape, Sign, Token, Word};
pub use types_named::{
    Basic, Names, PointerWord, Qualifier, Spec, SpecWord, Storage, TagKind, TypeName,
};
