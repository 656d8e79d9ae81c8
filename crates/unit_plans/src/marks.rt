//! The tokens that part declarations and tell what they declare.

ghost use Rattle.std.specs.Prelude.{◌≡◌};
ghost use Rattle.unit_plans.specs.Marks.{mark_of, mark_of_sign, mark_of_word, is_open_brace, is_open_parenthesis};
ghost use Rattle.unit_plans.specs.Marks.{ends_member};

use crate::declarations::Declared;
use tm_terms::{Name, Shape, Sign, Word};

/// What a token is to declarations.
#[derive(Clone, Copy)]
pub enum Mark {
    Name(Name),
    OpenParenthesis,
    OpenBracket,
    OpenBrace,
    CloseBrace,
    /// `)` or `]`
    Close,
    Semicolon,
    Comma,
    Equal,
    /// `.` or `->`
    Selector,
    /// `struct`
    Struct,
    /// `enum`
    Enum,
    /// `__task`
    Task,
    /// A word that says what linkage a name has.
    Storage(Declared),
    Other,
}

fn mark_of_sign(sign: Sign) -> Mark
    ensures { result ≡ mark_of_sign sign }
{
    match sign {
        Sign::OpenParenthesis => Mark::OpenParenthesis,
        Sign::OpenBracket => Mark::OpenBracket,
        Sign::OpenBrace => Mark::OpenBrace,
        Sign::CloseBrace => Mark::CloseBrace,
        Sign::CloseParenthesis | Sign::CloseBracket => Mark::Close,
        Sign::Semicolon => Mark::Semicolon,
        Sign::Comma => Mark::Comma,
        Sign::Equal => Mark::Equal,
        Sign::Dot | Sign::Arrow => Mark::Selector,
        _ => Mark::Other,
    }
}

fn mark_of_word(word: Word) -> Mark
    ensures { result ≡ mark_of_word word }
{
    match word {
        Word::Struct => Mark::Struct,
        Word::Enum => Mark::Enum,
        Word::Task => Mark::Task,
        Word::Static => Mark::Storage(Declared::Static),
        Word::Extern => Mark::Storage(Declared::Extern),
        Word::Typedef => Mark::Storage(Declared::Typedef),
        Word::Mutex => Mark::Storage(Declared::Mutex),
        _ => Mark::Other,
    }
}

/// What a token of this shape is to declarations.
pub fn mark_of(shape: Shape) -> Mark
    ensures { result ≡ mark_of shape }
{
    match shape {
        Shape::Name(name) => Mark::Name(name),
        Shape::Sign(sign) => mark_of_sign(sign),
        Shape::Word(word) => mark_of_word(word),
        Shape::Integer(_) | Shape::Character(_) => Mark::Other,
    }
}

/// Whether this is `{`.
pub fn is_open_brace(mark: Mark) -> bool
    ensures { result ≡ is_open_brace mark }
{
    match mark {
        Mark::OpenBrace => true,
        _ => false,
    }
}

/// Whether this is `(`.
pub fn is_open_parenthesis(mark: Mark) -> bool
    ensures { result ≡ is_open_parenthesis mark }
{
    match mark {
        Mark::OpenParenthesis => true,
        _ => false,
    }
}

/// Whether this stands behind the name of a member.
pub fn ends_member(mark: Mark) -> bool
    ensures { result ≡ ends_member mark }
{
    match mark {
        Mark::Comma | Mark::Semicolon | Mark::OpenBracket | Mark::Close => true,
        _ => false,
    }
}
