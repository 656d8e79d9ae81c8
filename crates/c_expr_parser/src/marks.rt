//! The first token of a text: a sign that parts or closes, a name, or an operator after an expression.
ghost use Rattle.std.specs.Prelude.{◌≡◌};
ghost use Rattle.tm_terms.specs.ExprSpelling.{continued_by, continued_level};
ghost use Rattle.c_expr_parser.specs.reading.Parts.{is_mark, after, opener_of, opener_by, opener_level, opener_left};
ghost use Rattle.c_expr_parser.specs.reading.Parts.{name_at, seen_rest, seen_name};

use crate::levels::{infix_level, left_level, rank};
use crate::operators::infix_of;
use tm_terms::{Access, Infix, Level, Name, Place, Postfix, Shape, Sign, Token};

/// A sign that opens, closes or parts.
#[derive(Clone, Copy)]
pub enum Mark {
    OpenParenthesis,
    CloseParenthesis,
    OpenBracket,
    CloseBracket,
    OpenBrace,
    CloseBrace,
    Colon,
    Comma,
    Semicolon,
    Equal,
}

// What a token makes of the expression before it.
#[derive(Clone, Copy)]
pub(crate) enum Opener {
    Infix(Infix),
    Question,
    Subscript,
    Member(Access),
    Postfix(Postfix),
}

/// Whether the token is this mark.
pub fn is_mark(mark: Mark, shape: Shape) -> bool
    ensures { result ≡ is_mark mark shape }
{
    match (mark, shape) {
        (Mark::OpenParenthesis, Shape::Sign(Sign::OpenParenthesis)) => true,
        (Mark::CloseParenthesis, Shape::Sign(Sign::CloseParenthesis)) => true,
        (Mark::OpenBracket, Shape::Sign(Sign::OpenBracket)) => true,
        (Mark::CloseBracket, Shape::Sign(Sign::CloseBracket)) => true,
        (Mark::OpenBrace, Shape::Sign(Sign::OpenBrace)) => true,
        (Mark::CloseBrace, Shape::Sign(Sign::CloseBrace)) => true,
        (Mark::Colon, Shape::Sign(Sign::Colon)) => true,
        (Mark::Comma, Shape::Sign(Sign::Comma)) => true,
        (Mark::Semicolon, Shape::Sign(Sign::Semicolon)) => true,
        (Mark::Equal, Shape::Sign(Sign::Equal)) => true,
        _ => false,
    }
}

/// What follows the mark, if it comes first.
pub fn after(mark: Mark, tokens: &[Token]) -> Option<&[Token]>
    ensures { seen_rest result ≡ after mark tokens.now }
{
    if let [first, rest @ ..] = tokens {
        if is_mark(mark, first.shape) {
            return Some(rest);
        }
    }
    None
}

/// The name that comes first, its place, and what follows it.
pub fn name_at(tokens: &[Token]) -> Option<(Name, Place, &[Token])>
    ensures { seen_name result ≡ name_at tokens.now }
{
    if let [first, rest @ ..] = tokens {
        if let Shape::Name(name) = first.shape {
            return Some((name, first.place, rest));
        }
    }
    None
}

pub(crate) fn opener_of(shape: Shape) -> Option<Opener>
    ensures { result ≡ opener_of shape }
{
    match shape {
        Shape::Sign(sign) => opener_by(infix_of(sign), sign),
        _ => None,
    }
}

fn opener_by(operator: Option<Infix>, sign: Sign) -> Option<Opener>
    ensures { result ≡ opener_by operator sign }
{
    match operator {
        Some(operator) => Some(Opener::Infix(operator)),
        None => match sign {
            Sign::Question => Some(Opener::Question),
            Sign::OpenBracket => Some(Opener::Subscript),
            Sign::Dot => Some(Opener::Member(Access::Dot)),
            Sign::Arrow => Some(Opener::Member(Access::Arrow)),
            Sign::PlusPlus => Some(Opener::Postfix(Postfix::Increment)),
            Sign::MinusMinus => Some(Opener::Postfix(Postfix::Decrement)),
            _ => None,
        },
    }
}

// The level of what the token makes.
pub(crate) fn opener_level(opener: Opener) -> u32
    ensures { result ≡ opener_level opener }
{
    match opener {
        Opener::Infix(operator) => infix_level(operator),
        Opener::Question => rank(Level::Condition),
        Opener::Subscript | Opener::Member(_) | Opener::Postfix(_) => rank(Level::Postfix),
    }
}

// The least level of the expression before the token.
pub(crate) fn opener_left(opener: Opener) -> u32
    ensures { result ≡ opener_left opener }
{
    match opener {
        Opener::Infix(operator) => left_level(operator),
        Opener::Question => rank(Level::Or),
        Opener::Subscript | Opener::Member(_) | Opener::Postfix(_) => rank(Level::Postfix),
    }
}

/// The level of the expression that the token continues, where it continues one.
pub fn continued_level(shape: Shape) -> Option<u32>
    ensures { result ≡ continued_level shape }
{
    match shape {
        Shape::Sign(sign) => continued_by(infix_of(sign), sign),
        _ => None,
    }
}

fn continued_by(operator: Option<Infix>, sign: Sign) -> Option<u32>
    ensures { result ≡ continued_by operator sign }
{
    match operator {
        Some(operator) => Some(infix_level(operator)),
        None => match sign {
            Sign::Question => Some(rank(Level::Condition)),
            Sign::OpenBracket | Sign::Dot | Sign::Arrow => Some(rank(Level::Postfix)),
            Sign::PlusPlus | Sign::MinusMinus => Some(rank(Level::Postfix)),
            Sign::OpenParenthesis => Some(rank(Level::Primary)),
            _ => None,
        },
    }
}
